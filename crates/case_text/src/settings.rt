//! What the statements of a case have set.

ghost use Rattle.std.specs.Prelude.{◌≡◌, ◌≢◌, length, map, MatchResult, Ok, Err};
ghost use Rattle.case_text.specs.Settings.{no_settings, is_set, with_field, uneven, with_setting, matrices, all_set};
ghost use Rattle.case_text.specs.Matrices.{least_columns};
ghost use Rattle.case_text.specs.Views.{settings_of};

use crate::matrices::{MatrixRows, first_ragged};
use crate::{CaseFault, Field, RawCase};

/// Which fields have been set, and the rows of the matrices.
#[derive(Drop)]
pub struct Settings<'a> {
    version: bool,
    base: bool,
    bus: Option<MatrixRows<'a>>,
    generators: Option<MatrixRows<'a>>,
    branch: Option<MatrixRows<'a>>,
}

pub fn no_settings<'a>() -> Settings<'a>
    ensures { settings_of result ≡ no_settings }
{
    Settings {
        version: false,
        base: false,
        bus: None,
        generators: None,
        branch: None,
    }
}

fn is_set(settings: &Settings<'_>, field: Field) -> bool
    ensures { result ≡ is_set (settings_of settings.now) field }
{
    match field {
        Field::Version => settings.version,
        Field::BaseMva => settings.base,
        Field::Bus => settings.bus.is_some(),
        Field::Gen => settings.generators.is_some(),
        Field::Branch => settings.branch.is_some(),
    }
}

/// The fewest columns that a matrix with rows has.
fn least_columns(field: Field) -> usize
    ensures { result ≡ least_columns field }
{
    match field {
        Field::Version | Field::BaseMva => 0,
        Field::Bus => 13,
        Field::Gen => 10,
        Field::Branch => 11,
    }
}

/// The fault of rows that are not all as long as the first, or not long enough.
#[tactic(auto, unfolding(crate::specs::Settings::uneven))]
fn uneven(field: Field, rows: &[Vec<&[u8]>]) -> Option<CaseFault>
    ensures { result ≡ uneven field (map (λ r. map (λ c. c.now) r.items) rows.now) }
{
    match rows {
        [] => None,
        [first, ..] => {
            let width = first.len();
            match first_ragged(rows, width) {
                Some(row) => Some(CaseFault::Ragged { field, row }),
                None if width < least_columns(field) => Some(CaseFault::Narrow { field }),
                None => None,
            }
        }
    }
}

fn with_field<'a>(settings: Settings<'a>, field: Field, rows: MatrixRows<'a>) -> Settings<'a>
    ensures { settings_of result ≡ with_field (settings_of settings.entry) field (map (λ r. map (λ c. c.now) r.items) rows.entry.items) }
{
    match field {
        Field::Version => Settings {
            version: true,
            ..settings
        },
        Field::BaseMva => Settings {
            base: true,
            ..settings
        },
        Field::Bus => Settings {
            bus: Some(rows),
            ..settings
        },
        Field::Gen => Settings {
            generators: Some(rows),
            ..settings
        },
        Field::Branch => Settings {
            branch: Some(rows),
            ..settings
        },
    }
}

/// What is set with a further statement, which sets no field a second time.
#[tactic(auto, unfolding(crate::specs::Settings::with_setting))]
pub fn with_setting<'a>(
    settings: Settings<'a>,
    field: Option<Field>,
    rows: MatrixRows<'a>,
) -> Result<Settings<'a>, CaseFault>
    ensures { MatchResult result
        (λ next. with_setting (settings_of settings.entry) field (map (λ r. map (λ c. c.now) r.items) rows.entry.items) ≡ Ok (settings_of next))
        (λ e. with_setting (settings_of settings.entry) field (map (λ r. map (λ c. c.now) r.items) rows.entry.items) ≡ Err e) }
{
    let Some(field) = field else {
        return Ok(settings);
    };
    if is_set(&settings, field) {
        return Err(CaseFault::Twice { field });
    }
    match uneven(field, rows.as_slice()) {
        Some(fault) => Err(fault),
        None => Ok(with_field(settings, field, rows)),
    }
}

/// The matrices, where all fields are set.
#[tactic(auto, unfolding(crate::specs::Settings::all_set, crate::specs::Settings::matrices))]
pub fn all_set<'a>(settings: Settings<'a>) -> Result<RawCase<'a>, CaseFault>
    ensures { result ≡ all_set (settings_of settings.entry) }
{
    if !settings.version {
        return Err(CaseFault::NoVersion);
    }
    if !settings.base {
        return Err(CaseFault::Missing {
            field: Field::BaseMva,
        });
    }
    let Settings {
        version: _,
        base: _,
        bus,
        generators,
        branch,
    } = settings;
    match (bus, generators, branch) {
        (Some(bus), Some(generators), Some(branch)) => Ok(RawCase {
            bus,
            generators,
            branch,
        }),
        (None, _, _) => Err(CaseFault::Missing { field: Field::Bus }),
        (_, None, _) => Err(CaseFault::Missing { field: Field::Gen }),
        _ => Err(CaseFault::Missing {
            field: Field::Branch,
        }),
    }
}
