//! Why a market was not cleared.

ghost use Rattle.std.specs.Prelude.{◌≡◌, Ok};
ghost use Rattle.clear_loop.specs.Faults.{outcome_of};

use exact_fraction::Passed;
use market_model::{Answer, Farkas, Memory, Outcome};

/// Why a market was not cleared.
#[derive(Drop, Debug)]
pub enum ClearFault<N> {
    /// No dispatch is feasible: these duals show it.
    Infeasible(Farkas<N>),
    /// Numbers became too large: an operation whose outcome passes the bound of their type.
    Range(Passed<N>),
    Memory,
}

/// What a clear came to. That nothing is feasible, and that numbers became too large, are outcomes as an answer is.
pub fn outcome<N>(cleared: Result<Answer<N>, ClearFault<N>>) -> Result<Outcome<N>, Memory>
    ensures { result ≡ outcome_of cleared }
{
    match cleared {
        Ok(answer) => Ok(Outcome::Cleared(answer)),
        Err(ClearFault::Infeasible(farkas)) => Ok(Outcome::Infeasible(farkas)),
        Err(ClearFault::Range(passed)) => Ok(Outcome::Range(passed)),
        Err(ClearFault::Memory) => Err(Memory),
    }
}

/// The answer that a clear came to, or why it came to none.
pub(crate) fn cleared<N>(outcome: Outcome<N>) -> Result<Answer<N>, ClearFault<N>>
    ensures { outcome_of result ≡ Ok outcome }
{
    match outcome {
        Outcome::Cleared(answer) => Ok(answer),
        Outcome::Infeasible(farkas) => Err(ClearFault::Infeasible(farkas)),
        Outcome::Range(passed) => Err(ClearFault::Range(passed)),
    }
}
