//! Tables of factors that are made of a case.

ghost use Rattle.std.specs.Prelude.{◌≡◌, ◌++◌, codes, true, IfErr, IfOk};
ghost use Rattle.factor_maker.specs.Stops.{IsLossStop};
ghost use Rattle.market_inputs.specs.Making.{AreFitToMake};
ghost use Rattle.command_answers.specs.Factors.{AreMadeTables, IsFactorsStop, IsLossIfWanted, MakesFactors, TellsFactors, TellsStop, count_line, loss_line, stop_at, table_outputs, tables_telling, tables_text};
ghost use Rattle.command_answers.specs.Inputs.{IsFactorWork};
ghost use Rattle.command_answers.specs.Status.{IsOfWork};
ghost use Rattle.command_answers.specs.Tellings.{Tells, map_outputs, telling_of};

use crate::status::Status;
use crate::told::{Outputs, Told, refused, uncertified};
use exact_fraction::{Exact, Frac};
use factor_maker::{MakeStop, make_loss, make_shift};
use factor_tables::{FactorTable, Loss, Shift, TableKind};
use factor_text::{loss_text, shift_text};
use line_text::Text;
use market_data::FactorPlaces;
use market_inputs::{FactorInputs, InputStop, factor_inputs};
use plain_list::Memory;
use refusal_text::{FactorFault, Refusal};
use report_text::range;
use std::alloc::Global;

/// The tables that are made of a case.
#[derive(Drop)]
pub struct MadeTables {
    pub shift: Shift,
    /// There is none where it is not wanted.
    pub loss: Option<Loss>,
}

/// The table of outage factors, where it is wanted.
fn loss_if_wanted(
    alloc: Global,
    inputs: &FactorInputs,
    wanted: bool,
    places: FactorPlaces,
) -> Result<Option<Loss>, MakeStop<Frac>>
    requires { AreFitToMake inputs.now }
    ensures made { IfOk result (IsLossIfWanted inputs.now wanted places) }
    ensures stop { IfErr result (λ why. (wanted ≡ true) × IsLossStop ⟦<Frac as Exact>⟧.value ⟦<Frac as Exact>⟧.bound inputs.now.network inputs.now.reactances inputs.now.outages why) }
{
    if !wanted {
        return Ok(None);
    }
    let loss = make_loss(
        alloc,
        &inputs.network,
        &inputs.reactances,
        &inputs.outages,
        places,
    )?;
    Ok(Some(loss))
}

/// The table of shift factors is made first, and then that of outage factors, where it is wanted.
fn make_tables(
    alloc: Global,
    inputs: &FactorInputs,
    wanted: bool,
    places: FactorPlaces,
) -> Result<MadeTables, MakeStop<Frac>>
    requires { AreFitToMake inputs.now }
    ensures made { IfOk result (AreMadeTables inputs.now wanted places) }
    ensures stop { IfErr result (λ why. IsFactorsStop ⟦<Frac as Exact>⟧.bound inputs.now wanted places (stop_at ⟦<Frac as Exact>⟧.value why)) }
{
    let shift = make_shift(alloc, &inputs.network, &inputs.reactances, places)?;
    let loss = loss_if_wanted(alloc, inputs, wanted, places)?;
    Ok(MadeTables { shift, loss })
}

/// How many records a table has, behind its name.
#[tactic(auto, using(std::proofs::Common::append_assoc), unfolding(crate::specs::Factors::count_line))]
fn count_line<K: TableKind>(
    text: &mut Text,
    name: &[u8],
    table: &FactorTable<K>,
) -> Result<(), Memory>
    ensures { IfOk result (λ _. text.new ≡ text.old ++ count_line name.now table.now) }
{
    text.word(name)?;
    text.number(table.len())?;
    text.word(b"\n")
}

/// How many records the table of outage factors has, where there is one.
fn loss_line(text: &mut Text, loss: &Option<Loss>) -> Result<(), Memory>
    ensures { IfOk result (λ _. text.new ≡ text.old ++ loss_line loss.now) }
{
    match loss {
        Some(loss) => count_line(text, b"outage records ", loss),
        None => Ok(()),
    }
}

/// How many records the tables have.
#[tactic(auto, using(std::proofs::Common::append_assoc))]
fn tables_text(alloc: Global, tables: &MadeTables) -> Result<Vec<u8>, Memory>
    ensures { IfOk result (λ text. text.items ≡ tables_text tables.now) }
{
    let mut text = Text::new(alloc);
    count_line(&mut text, b"shift records ", &tables.shift)?;
    loss_line(&mut text, &tables.loss)?;
    Ok(text.into_bytes())
}

/// The texts of the tables, as the bytes that there are for files.
fn table_outputs(alloc: Global, tables: &MadeTables) -> Result<Outputs<Vec<u8>>, Memory>
    ensures { IfOk result (λ outputs. map_outputs (λ bytes. bytes.items) outputs ≡ table_outputs tables.now) }
{
    let ptdf = shift_text(alloc, &tables.shift)?;
    let lodf = match &tables.loss {
        Some(loss) => Some(loss_text(alloc, loss)?),
        None => None,
    };
    Ok(Outputs::tabled(ptdf, lodf))
}

/// What tables come to.
fn tables_told(alloc: Global, tables: &MadeTables) -> Result<Told, Memory>
    ensures status { IfOk result (λ told. IsOfWork told.status) }
    ensures tells { IfOk result (λ told. telling_of told ≡ tables_telling tables.now) }
{
    let text = tables_text(alloc, tables)?;
    let outputs = table_outputs(alloc, tables)?;
    Ok(Told {
        status: Status::Done,
        text,
        outputs,
    })
}

/// What it comes to that no tables are made.
fn stop_told<N: Exact>(alloc: Global, why: MakeStop<N>) -> Result<Told, Memory>
    ensures status { IfOk result (λ told. IsOfWork told.status) }
    ensures tells { IfOk result (λ told. TellsStop N.bound (stop_at N.value why) (telling_of told)) }
{
    match why {
        MakeStop::TooMany { count } => {
            refused(alloc, &Refusal::Factors(FactorFault::TooMany { count }))
        }
        MakeStop::NotPositive { branch } => {
            refused(
                alloc,
                &Refusal::Factors(FactorFault::NotPositive { branch }),
            )
        }
        MakeStop::Passed(passed) => {
            let text = range(alloc, &passed)?;
            Ok(uncertified(Status::Range, text))
        }
        MakeStop::Memory => Err(Memory),
    }
}

/// What making the tables of a case comes to.
fn made_told(
    alloc: Global,
    inputs: &FactorInputs,
    wanted: bool,
    places: FactorPlaces,
) -> Result<Told, Memory>
    requires { AreFitToMake inputs.now }
    ensures status { IfOk result (λ told. IsOfWork told.status) }
    ensures makes { IfOk result (λ told. MakesFactors ⟦<Frac as Exact>⟧.bound inputs.now wanted places (telling_of told)) }
{
    match make_tables(alloc, inputs, wanted, places) {
        Ok(tables) => tables_told(alloc, &tables),
        Err(why) => stop_told(alloc, why),
    }
}

/// What the whole bytes of a case and of a table of outages come to, of which tables of factors with so many places are to be made; that of
/// outage factors is made where it is wanted.
pub fn factors_told(
    alloc: Global,
    case: &[u8],
    contingencies: &[u8],
    wanted: bool,
    places: FactorPlaces,
) -> Result<Told, Memory>
    ensures status { IfOk result (λ told. IsOfWork told.status) }
    ensures tells { IfOk result (λ told. Tells (IsFactorWork case.now contingencies.now) (TellsFactors wanted places) (telling_of told)) }
{
    match factor_inputs(alloc, case, contingencies) {
        Ok(inputs) => made_told(alloc, &inputs, wanted, places),
        Err(InputStop::Refused(refusal)) => refused(alloc, &refusal),
        Err(InputStop::Memory) => Err(Memory),
    }
}
