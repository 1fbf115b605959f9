//! The versions and the kinds of certificates, and what each has.

ghost use Rattle.std.specs.Prelude.{◌≡◌};
ghost use Rattle.serde_json.specs.View.{view};
ghost use Rattle.cert_format.specs.Grammar.{kind_in, member_count, places_in, version_in};

use crate::members::{number_at, text_at};
use market_data::FactorPlaces;
use serde_json::Value;

/// The versions of the grammar.
#[derive(Clone, Copy)]
pub(crate) enum Version {
    /// It does not tell how many places factors had: they are six.
    First,
    /// A member tells the places.
    Second,
    /// And one more tells of reserve.
    Third,
}

/// What a certificate shows.
#[derive(Clone, Copy)]
pub(crate) enum Kind {
    Optimal,
    Farkas,
}

pub(crate) fn version_in(value: &Value) -> Option<Version>
    ensures { result ≡ version_in (view value.now) }
{
    match number_at(value, "version") {
        Some(1) => Some(Version::First),
        Some(2) => Some(Version::Second),
        Some(3) => Some(Version::Third),
        _ => None,
    }
}

pub(crate) fn kind_in(value: &Value) -> Option<Kind>
    ensures { result ≡ kind_in (view value.now) }
{
    match text_at(value, "kind") {
        Some("optimal") => Some(Kind::Optimal),
        Some("farkas") => Some(Kind::Farkas),
        _ => None,
    }
}

/// How many places the factors of the market had.
pub(crate) fn places_in(version: Version, value: &Value) -> Option<FactorPlaces>
    ensures { result ≡ places_in version (view value.now) }
{
    match version {
        Version::First => Some(FactorPlaces::Six),
        Version::Second | Version::Third => match number_at(value, "places") {
            Some(6) => Some(FactorPlaces::Six),
            Some(9) => Some(FactorPlaces::Nine),
            _ => None,
        },
    }
}

/// How many members a certificate has.
pub(crate) fn member_count(version: Version, kind: Kind) -> usize
    ensures { result ≡ member_count version kind }
{
    match (version, kind) {
        (Version::First, Kind::Optimal) => 5,
        (Version::First, Kind::Farkas) => 4,
        (Version::Second, Kind::Optimal) => 6,
        (Version::Second, Kind::Farkas) => 5,
        (Version::Third, Kind::Optimal) => 7,
        (Version::Third, Kind::Farkas) => 6,
    }
}
