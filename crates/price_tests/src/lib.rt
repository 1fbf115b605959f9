//! Tests of `settled_replay`: which of the duals that support a cleared dispatch are to be printed, first and after edits.
#![tactic(auto)]

#[cfg(test)]
mod energy_tests;
#[cfg(test)]
mod limit_tests;
#[cfg(test)]
mod markets;
#[cfg(test)]
mod outage_tests;
#[cfg(test)]
mod penalty_tests;
#[cfg(test)]
mod reserve_tests;
#[cfg(test)]
mod settled;
