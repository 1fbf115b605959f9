//! What the steps of a replay come to.

ghost use Rattle.std.specs.Prelude.{◌≡◌};
ghost use Rattle.edit_replay.specs.Replays.{reply_of};

use market_model::{List, Outcome};
use offer_book::EditFault;

/// What a step came to.
#[derive(Drop, Debug)]
pub enum StepOutcome<N> {
    /// An edit that changed its one number.
    Accepted,
    /// An edit that changed nothing, and why.
    Refused(EditFault),
    /// A clear of the market as the steps before it had left it.
    Clear(Outcome<N>),
}

/// What steps came to, in their order.
pub type Outcomes<N> = List<StepOutcome<N>>;

/// What an edit came to, by its answer.
pub fn replied<N>(answer: Result<(), EditFault>) -> StepOutcome<N>
    ensures { result ≡ reply_of answer }
{
    match answer {
        Ok(()) => StepOutcome::Accepted,
        Err(fault) => StepOutcome::Refused(fault),
    }
}
