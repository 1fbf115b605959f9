//! What the inputs of each command come to: a status, the text that goes with it, and what there is to write to files.
#![tactic(auto)]

mod anew;
mod checking;
mod clearing;
mod factors;
pub mod laws;
mod making;
mod migrating;
mod replaying;
mod rights;
mod rights_lines;
mod status;
mod told;
mod verdicts;
mod verifying;

pub use checking::check_told;
pub use clearing::{clear_told, pool_told};
pub use factors::factors_told;
pub use making::make_told;
pub use migrating::migrate_told;
pub use replaying::replay_told;
pub use rights::rights_told;
pub use status::Status;
pub use told::{Outputs, Told};
pub use verifying::verify_told;
