//! Tests of `market_model`, `limit_rows`, `limit_screen`, `settlement`, `cert_sums`, `rights_test`, `dual_restart` and
//! `case_maker`.
#![tactic(auto)]

#[cfg(test)]
mod bounds;
#[cfg(test)]
mod limits;
#[cfg(test)]
mod markets;
#[cfg(test)]
mod payments;
#[cfg(test)]
mod restarts;
#[cfg(test)]
mod rights;
#[cfg(test)]
mod rings;
#[cfg(test)]
mod rooms;
