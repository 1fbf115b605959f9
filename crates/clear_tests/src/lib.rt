//! Tests of `clear_loop` and `edit_replay`: clears between edits, and calls that these do not make.
#![tactic(auto)]

#[cfg(test)]
mod calls;
#[cfg(test)]
mod replays;
#[cfg(test)]
mod reserves;
#[cfg(test)]
mod worked;
