//! Of the best points of a linear system the one that goes first in an order of its columns: the one that has more of the first column in
//! which two of them differ. What has a reduced price stays where it stands at each best point, so it is held there, and the dual simplex
//! method runs over what is left, at a price of 1 for one column after the other. A column that stands at its high bound, or goes there at
//! once, needs no run.
#![tactic(auto)]

mod holding;
mod moving;
mod raising;
mod searching;
mod stop;

pub use searching::first_of_best;
pub use stop::FirstStop;
