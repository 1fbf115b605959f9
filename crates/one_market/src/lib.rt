//! The bytes of files stand for one thing at most that a command works on, or have one first fault, and never both.
//!
//! `market_inputs` and `command_answers` say by relations what files stand for, and their functions give something of which these hold. The
//! laws say that they hold of one thing at most, so that what is given is determined by the files.
#![tactic(auto)]

pub mod laws;
