//! Tables that are checked against a network.

ghost use Rattle.std.specs.Prelude.{◌≡◌, Bool, IfOk};
ghost use Rattle.market_tables.specs.Tables.{grid_lent};
ghost use Rattle.market_inputs.specs.Checking.{AreFit};
ghost use Rattle.market_inputs.specs.Texts.{IsCheck};
ghost use Rattle.command_answers.specs.Checking.{AreResiduals, TellsCheck, are_within, check_status_of};
ghost use Rattle.command_answers.specs.Status.{IsOfWork};
ghost use Rattle.command_answers.specs.Tellings.{Tells, telling_of};

use crate::status::Status;
use crate::told::{Told, refused, uncertified};
use factor_residuals::{
    Residual, bus_residual, loop_residual, outage_bus_residual, outage_loop_residual,
};
use market_data::FactorPlaces;
use market_inputs::{InputStop, Inputs, check_inputs};
use market_tables::GridTables;
use plain_list::Memory;
use residual_text::residuals_text;
use std::alloc::Global;

/// By how much shift factors miss the laws at buses and round loops, then outage factors.
#[derive(Clone, Copy)]
pub struct Residuals {
    pub bus: Residual,
    pub round: Residual,
    pub outage_bus: Residual,
    pub outage_round: Residual,
}

/// The residuals of the tables.
fn residuals_of(alloc: Global, inputs: &Inputs) -> Result<Residuals, Memory>
    requires { AreFit inputs.now }
    ensures { IfOk result (AreResiduals inputs.now) }
{
    let network = &inputs.network;
    let reactances = &inputs.reactances;
    let bus = bus_residual(alloc, network, &inputs.shift)?;
    let round = loop_residual(alloc, network, reactances, &inputs.shift)?;
    let loss = &inputs.loss;
    let outages = &inputs.outages;
    let outage_bus = outage_bus_residual(alloc, network, loss, outages)?;
    let outage_round = outage_loop_residual(alloc, network, reactances, loss, outages)?;
    Ok(Residuals {
        bus,
        round,
        outage_bus,
        outage_round,
    })
}

/// Whether rounding explains all residuals.
fn are_within(residuals: &Residuals) -> bool
    ensures { result ≡ are_within residuals.now }
{
    residuals.bus.over.is_none()
        && residuals.round.over.is_none()
        && residuals.outage_bus.over.is_none()
        && residuals.outage_round.over.is_none()
}

/// The status that residuals come to.
fn check_status(residuals: &Residuals) -> Status
    ensures { result ≡ check_status_of residuals.now }
{
    if are_within(residuals) {
        Status::Done
    } else {
        Status::Refuted
    }
}

/// What the residuals of a check come to.
fn residuals_told(alloc: Global, inputs: &Inputs) -> Result<Told, Memory>
    requires { AreFit inputs.now }
    ensures status { IfOk result (λ told. IsOfWork told.status) }
    ensures checks { IfOk result (λ told. TellsCheck inputs.now (telling_of told)) }
{
    let residuals = residuals_of(alloc, inputs)?;
    let text = residuals_text(
        alloc,
        &residuals.bus,
        &residuals.round,
        &residuals.outage_bus,
        &residuals.outage_round,
    )?;
    Ok(uncertified(check_status(&residuals), text))
}

/// What the whole bytes of a case and of its tables come to, whose factors may have so many places.
pub fn check_told(
    alloc: Global,
    bytes: &GridTables<&[u8]>,
    places: FactorPlaces,
) -> Result<Told, Memory>
    ensures status { IfOk result (λ told. IsOfWork told.status) }
    ensures tells { IfOk result (λ told. Tells (IsCheck places (grid_lent bytes.now)) TellsCheck (telling_of told)) }
{
    match check_inputs(alloc, bytes, places) {
        Ok(inputs) => residuals_told(alloc, &inputs),
        Err(InputStop::Refused(refusal)) => refused(alloc, &refusal),
        Err(InputStop::Memory) => Err(Memory),
    }
}
