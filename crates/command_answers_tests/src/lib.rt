//! Tests of `command_answers`: each command on a case of three buses, the texts of the five-bus system, limits that give way at a
//! penalty, there and on the six-bus system, outages of units, factors of nine places, transmission rights, which of several best dispatches, and
//! of several prices, is told.
#![tactic(auto)]

#[cfg(test)]
mod network_tests;
#[cfg(test)]
mod places_tests;
#[cfg(test)]
mod rights_tests;
#[cfg(test)]
mod six_tests;
#[cfg(test)]
mod soft_tests;
#[cfg(test)]
mod tells;
#[cfg(test)]
mod tests;
#[cfg(test)]
mod tie_tests;
#[cfg(test)]
mod unit_tests;
