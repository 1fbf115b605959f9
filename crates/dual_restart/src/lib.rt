//! A dictionary that is kept from one run of the dual simplex method to the next, which starts where the one before it
//! ended, at prices and bounds of its own. Nothing is asked of those of the run before. No call takes memory.
#![tactic(auto)]

ghost use Rattle.std.specs.Prelude.{All, ◌≡◌, ◌+◌, ◌↔◌, IfErr, IfOk, IfSome, IsSome, IsTrue, None, Some, false, length};
ghost use Rattle.fraction_theory.specs.Order.{◌≤ℚ◌};
ghost use Rattle.simplex_core.specs.Fixed.{IsFixedPairPosed};
ghost use Rattle.simplex_core.specs.Posings.{IsPairPosed, IsPosing};

use exact_fraction::{Exact, Passed};
use linear_dict::Dict;
use simplex_core::{Bounds, Posed, pose};
use std::marker::Model;

/// A start for the next run: the dictionary of the one before it, or none.
#[derive(Drop)]
pub struct Warm<N: Exact> {
    dict: Option<Dict<N>>,
}

impl<N: Exact> Model for Warm<N> {
    ghost use Rattle.std.specs.Prelude.{Option};
    ghost use Rattle.std.specs.Coded.{coded_option};
    ghost use Rattle.linear_dict.specs.Dictionaries.{Dictionary, dictionary_code};
    ghost use Rattle.dual_restart.specs.Keeping.{IsKeptStart};

    ghost Value = { Option Dictionary };

    ghost coded = { coded_option dictionary_code };

    ghost view = { λ w. w.dict };

    ghost invariant = { λ w. IsKeptStart w.dict };
}

impl<N: Exact> Warm<N> {
    /// No start.
    pub fn new() -> Warm<N>
        ensures { result ≡ None }
    {
        Warm { dict: None }
    }

    pub fn is_kept(&self) -> bool
        ensures { IsTrue result ↔ IsSome self.now }
    {
        self.dict.is_some()
    }

    /// The dictionary that is kept, posed at these prices of its columns and these bounds of its columns and then of its rows, each in
    /// the order in which they were put in.
    pub fn repose(self, prices: &[N], bounds: &[Bounds<N>]) -> Result<Posed<N>, Passed<N>>
        requires kept { IsSome self }
        requires prices { IfSome self (λ d. length prices.now ≡ length d.columns) }
        requires bounds { IfSome self (λ d. length bounds.now ≡ length d.columns + length d.rows) }
        requires ordered { All (λ b. N.value b.low ≤ℚ N.value b.high) bounds.now }
        ensures posed { IfSome self (λ d. IfOk result (IsPosing N.value d prices.now bounds.now)) }
        ensures pair { IfSome self (λ d. IfErr result (IsPairPosed N.value N.bound d prices.now bounds.now)) }
        ensures fixed { IfSome self (λ d. IfErr result (IsFixedPairPosed N.value N.bound d prices.now bounds.now)) }
    {
        match self.dict {
            Some(dict) => pose(dict, prices, bounds),
            None => unreachable!(),
        }
    }

    /// Keeps a dictionary in place of the one before it.
    pub fn keep(&mut self, dict: Dict<N>)
        requires { dict.spent ≡ false }
        ensures { self.new ≡ Some dict }
    {
        let live = !dict.spent();
        prove!(live);
        self.dict = Some(dict);
    }

    /// Drops what is kept, so that the next run starts anew.
    pub fn drop_start(&mut self)
        ensures { self.new ≡ None }
    {
        self.dict = None;
    }
}
