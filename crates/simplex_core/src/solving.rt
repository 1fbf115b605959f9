// The run of the method.
ghost use Rattle.std.specs.Prelude.{◌≡◌, IfErr, IfOk, OnOk};
ghost use Rattle.std.specs.List.{Contains};
ghost use Rattle.linear_dict.specs.Dictionaries.{choice_of};
ghost use Rattle.simplex_core.specs.Fixed.{HoldsFixed, IsFixedPair, KeepsFixed};
ghost use Rattle.simplex_core.specs.States.{IsReady, state_of};
ghost use Rattle.simplex_core.specs.Outcomes.{IsSettled, IsRunOutcome};

use crate::enter::find_entering;
use crate::exchange::step;
use crate::leave::{Leaving, find_leaving};
use exact_fraction::{Exact, Passed};
use linear_dict::Dict;
use std::marker::Model;

/// A dictionary with prices and bounds, whose other variables stand at the bounds that their reduced prices ask for.
#[derive(Drop)]
pub struct Posed<N: Exact> {
    pub(crate) dict: Dict<N>,
}

impl<N: Exact> Model for Posed<N> {
    ghost use Rattle.linear_dict.specs.Dictionaries.{Dictionary, dictionary_code};
    ghost use Rattle.simplex_core.specs.States.{IsReady};

    ghost Value = { Dictionary };

    ghost coded = { dictionary_code };

    ghost view = { λ p. p.dict };

    ghost invariant = { λ p. IsReady p.dict };
}

/// The best values, with the reduced prices that show it.
#[derive(Drop)]
pub struct Solved<N: Exact> {
    dict: Dict<N>,
}

impl<N: Exact> Model for Solved<N> {
    ghost use Rattle.linear_dict.specs.Dictionaries.{Dictionary, dictionary_code};
    ghost use Rattle.simplex_core.specs.States.{IsReady};

    ghost Value = { Dictionary };

    ghost coded = { dictionary_code };

    ghost view = { λ s. s.dict };

    ghost invariant = { λ s. IsReady s.dict };
}

/// How a run ends.
#[derive(Drop)]
pub enum Run<N: Exact> {
    Solved(Solved<N>),
    /// No values within the bounds meet the rows: the basic variable of a row place shows it, which is above its high bound
    /// or below its low one, and which none of the others brings back.
    Empty {
        dict: Dict<N>,
        row: usize,
        above: bool,
    },
    Passed(Passed<N>),
}

/// Steps until all basic variables keep their bounds, or none of the others helps the one that leaves: then that one.
fn settle<N: Exact>(dict: &mut Dict<N>) -> Result<Option<Leaving>, Passed<N>>
    requires { IsReady dict.old }
    ensures settled { IfOk result (IsSettled dict.old dict.new) }
    ensures fixed { OnOk result (KeepsFixed dict.old (choice_of dict.new)) }
    ensures pair { IfErr result (IsFixedPair N.value N.bound dict.old) }
{
    while let Some(variable) = find_leaving(dict) {
        match find_entering(dict, &variable)? {
            Some(candidate) => step(dict, &variable, &candidate)?,
            None => return Ok(Some(variable)),
        }
    }
    dict.keep_reduced_prices();
    Ok(None)
}

impl<N: Exact> Posed<N> {
    /// Runs the dual simplex method to its end.
    pub fn run(self) -> Run<N>
        ensures outcome { IsRunOutcome N.value N.bound self result }
        ensures fixed { HoldsFixed N.value N.bound self result }
    {
        let mut dict = self.dict;
        match settle(&mut dict) {
            Ok(None) => Run::Solved(Solved { dict }),
            Ok(Some(stuck)) => Run::Empty {
                dict,
                row: stuck.row,
                above: stuck.above,
            },
            Err(passed) => Run::Passed(passed),
        }
    }
}

impl<N: Exact> Solved<N> {
    /// The value of a variable.
    pub fn value(&self, var: u32) -> N
        requires { Contains self.now.names var }
        ensures { N.value result ≡ (state_of self.now).value var }
    {
        self.dict.note(var).value
    }

    /// The reduced price of a variable.
    pub fn reduced(&self, var: u32) -> N
        requires { Contains self.now.names var }
        ensures { N.value result ≡ (state_of self.now).reduced var }
    {
        self.dict.note(var).reduced
    }

    /// The dictionary, for a further row or other bounds.
    pub fn into_dict(self) -> Dict<N>
        ensures { result ≡ self }
    {
        self.dict
    }
}
