//! The dual simplex method with the rule of the least name, as states and steps: definitions and laws alone.
#![tactic(auto)]
