//! What a clear comes to, with what its dispatch carries and reaches.

ghost use Rattle.std.specs.Prelude.{◌≡◌};
ghost use Rattle.clear_loop.specs.Reached.{outcome_at_end};

use limit_screen::Reach;
use market_model::{Answer, Farkas, Outcome};

/// An answer, with what its dispatch carries and reaches.
#[derive(Drop)]
pub(crate) struct ReachedAnswer<N> {
    pub answer: Answer<N>,
    pub reach: Reach<N>,
}

/// What a clear comes to, with what its dispatch carries and reaches where it is an answer.
#[derive(Drop)]
pub struct ReachedOutcome<N> {
    pub outcome: Outcome<N>,
    pub reach: Option<Reach<N>>,
}

/// What a clear comes to that ends so.
pub(crate) fn outcome_at_end<N>(end: Result<ReachedAnswer<N>, Farkas<N>>) -> ReachedOutcome<N>
    ensures { result ≡ outcome_at_end end }
{
    match end {
        Ok(ReachedAnswer { answer, reach }) => ReachedOutcome {
            outcome: Outcome::Cleared(answer),
            reach: Some(reach),
        },
        Err(farkas) => ReachedOutcome {
            outcome: Outcome::Infeasible(farkas),
            reach: None,
        },
    }
}
