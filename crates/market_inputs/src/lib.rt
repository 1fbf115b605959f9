//! What the bytes of files stand for: the markets of `pool` and of `clear`, what a check of tables works on, what tables of factors are
//! made of, and what tables are prepared of. Each gives the first fault in the order of the work where they stand for none.
#![tactic(auto)]

mod cases;
mod checking;
mod clearing;
mod covering;
mod lengths;
mod limits;
mod making;
mod offers;
mod pooling;
mod preparing;
mod replays;
mod rights;
mod stops;
mod tables;

pub use checking::{Inputs, check_inputs};
pub use clearing::clear_market;
pub use lengths::MOST_FILE;
pub use making::{FactorInputs, factor_inputs};
pub use pooling::pool_market;
pub use preparing::{CaseInputs, case_inputs, network_reactances, unit_costs};
pub use replays::{edit_steps, read_certificate};
pub use rights::read_rights;
pub use stops::InputStop;
