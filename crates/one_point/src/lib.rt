//! Whether what is known of some variables leaves the rows of a dictionary one point at most: the rows of known variables are solved for others,
//! one after the other, by exchanges.
#![tactic(auto)]

mod solving;

pub use solving::leaves_one_point;
