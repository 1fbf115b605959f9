//! Of the prices that support a dispatch the first: those whose sum is least without that of energy, of these those that are least one after the
//! other; and then the least price of energy.
#![tactic(auto)]

pub mod laws;
