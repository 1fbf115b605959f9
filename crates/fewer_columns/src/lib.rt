//! A linear system without some of its columns, each of which has to be 0: its best points are those of the system, and so are those that go first.
#![tactic(auto)]

pub mod laws;
