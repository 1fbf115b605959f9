//! What follows from the clauses of the calls.
ghost use Rattle.exact_fraction.specs.declared.Op.{Op};
ghost use Rattle.fraction_theory.specs.Fraction.{Fraction};
ghost use Rattle.linear_system.specs.Pairs.{IsSystemPair};
ghost use Rattle.linear_dict.specs.Dictionaries.{system_in};
ghost use Rattle.simplex_core.specs.Outcomes.{IsAnswered, IsRunOutcome};

use crate::solving::{Posed, Run};
use exact_fraction::Exact;

/// Where no working pair of the system passes the bound of the numbers, a run is solved or empty.
pub fn run_answers<N: Exact>(posed: Posed<N>) -> Run<N>
    requires { (op : Op) (left right : Fraction) → ¬ (IsSystemPair (system_in posed) N.bound op left right) }
    ensures outcome { IsRunOutcome N.value N.bound posed result }
    ensures answered { IsAnswered result }
{
    posed.run()
}
