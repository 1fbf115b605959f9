//! Answers to a market. MW are in 10^-9, prices and an answer's duals in 10^-6 per MWh, money
//! and welfare in 10^-15.

use exact_fraction::Passed;
use plain_list::List;

/// A limit: of a branch in the base, where outage and unit are 0, after the loss of another branch, or after that of a unit. Branch and
/// outage are rows of the case's branch matrix, the unit one of its gen matrix.
#[derive(Clone, Copy, PartialEq, Eq, Debug)]
pub struct RowId {
    pub branch: u32,
    pub outage: u32,
    pub unit: u32,
}

/// The prices of a limit: of its upper and of its lower side, of which one is 0.
#[derive(Clone, Copy, Debug)]
pub struct Dual<N> {
    pub row: RowId,
    pub up: N,
    pub down: N,
}

/// The price of a unit's room, which its energy and its reserve share.
#[derive(Clone, Copy, Debug)]
pub struct RoomDual<N> {
    /// The unit's row in the case's gen matrix.
    pub unit: u32,
    pub price: N,
}

/// The price of energy and of each limit that has one; and the price of reserve, and of each room that has one.
#[derive(Drop, Debug)]
pub struct Duals<N> {
    pub energy: N,
    pub limits: List<Dual<N>>,
    pub reserve: N,
    pub rooms: List<RoomDual<N>>,
}

/// A bus price in its two parts.
#[derive(Clone, Copy, Debug)]
pub struct Price<N> {
    pub energy: N,
    pub congestion: N,
    pub total: N,
}

/// A unit's output and what it is paid for it.
#[derive(Clone, Copy, Debug)]
pub struct UnitPay<N> {
    pub mw: N,
    pub paid: N,
}

/// The reserve that is accepted of an offer and what it is paid.
#[derive(Clone, Copy, Debug)]
pub struct ReservePay<N> {
    pub mw: N,
    pub paid: N,
}

/// A bus's demand and what it pays.
#[derive(Clone, Copy, Debug)]
pub struct Load<N> {
    pub mw: N,
    pub pays: N,
}

/// What a limit earns, with the flow that it bounds.
#[derive(Clone, Copy, Debug)]
pub struct Rent<N> {
    pub row: RowId,
    pub flow: N,
    /// By how much the flow exceeds the limit; 0 where it does not.
    pub over: N,
    pub rent: N,
}

/// The settlement: an entry for each live unit, each lost one, each live bus, each limit with a dual and each offer of reserve.
#[derive(Drop, Debug)]
pub struct Money<N> {
    pub units: List<UnitPay<N>>,
    /// The own price of the unit of each outage of a unit: what it is paid for a MW.
    pub own: List<N>,
    pub loads: List<Load<N>>,
    pub rents: List<Rent<N>>,
    /// What loads pay less what units are paid for energy.
    pub surplus: N,
    /// One for each offer of reserve.
    pub reserve: List<ReservePay<N>>,
}

/// A cleared market.
#[derive(Drop, Debug)]
pub struct Answer<N> {
    /// The accepted MW of each block.
    pub dispatch: List<N>,
    /// The accepted MW of each offer of reserve.
    pub reserve: List<N>,
    pub duals: Duals<N>,
    /// One for each live bus.
    pub prices: List<Price<N>>,
    pub welfare: N,
    pub money: Money<N>,
}

/// Duals that show that no dispatch is feasible: their bound is below 0.
#[derive(Drop, Debug)]
pub struct Farkas<N> {
    pub duals: Duals<N>,
    /// In 10^-9 MW.
    pub bound: N,
}

/// What a clear came to.
#[derive(Drop, Debug)]
pub enum Outcome<N> {
    Cleared(Answer<N>),
    Infeasible(Farkas<N>),
    Range(Passed<N>),
}
