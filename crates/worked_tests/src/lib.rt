//! Tests of `command_answers` by cases worked by hand: the pool, reserve that is cleared with energy, and tables of factors that are
//! checked and made, with the flows that they are made of; and a market whose numbers pass 127 bits.
#![tactic(auto)]

#[cfg(test)]
mod check_tests;
#[cfg(test)]
mod flows;
#[cfg(test)]
mod fourteen_tests;
#[cfg(test)]
mod guesses;
#[cfg(test)]
mod making_tests;
#[cfg(test)]
mod pool;
#[cfg(test)]
mod reserve;
#[cfg(test)]
mod tells;
#[cfg(test)]
mod triangle;
#[cfg(test)]
mod wide_tests;
