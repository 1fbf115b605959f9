//! The files that words name, read whole, and each command over them.
#![tactic(auto)]

mod commands;
mod reading;

pub use commands::{
    check_files, clear_files, factors_files, migrate_file, or_memory, pool_files, replay_files,
    rights_files, verify_files,
};
