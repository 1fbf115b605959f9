//! Tests of the readers of tables and of what is worked out of them: a module for each crate, by public calls alone.
#![tactic(auto)]

#[cfg(test)]
mod cost_offers;
#[cfg(test)]
mod edits;
#[cfg(test)]
mod factors;
#[cfg(test)]
mod networks;
#[cfg(test)]
mod offers;
#[cfg(test)]
mod outages;
#[cfg(test)]
mod preparations;
#[cfg(test)]
mod residual_lines;
#[cfg(test)]
mod residuals;
#[cfg(test)]
mod steps;
