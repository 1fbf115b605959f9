//! The words of a run, by the command that `clap` reads them by.
#![tactic(auto)]

mod command;
pub mod laws;
mod words;

pub use words::{
    CheckFiles, CheckNames, ClearFiles, FactorFiles, FactorNames, GridNames, MarketFiles,
    MarketNames, MigrateFiles, PoolFiles, ReplayFiles, Request, RightsFiles, RingWords,
    VerifyFiles, WordsStop, request_of,
};
