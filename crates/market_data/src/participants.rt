//! Buses and units.

use plain_list::List;

/// A live bus. Its demand is `pd + gs`, both in 10^-9 MW.
#[derive(Clone, Copy, PartialEq, Eq, Debug)]
pub struct Bus {
    /// BUS_I of the case.
    pub number: u32,
    /// PD: the load.
    pub pd: i64,
    /// GS: the shunt's demand at a voltage of 1 per unit.
    pub gs: i64,
}

/// A live unit: a generator, or a load that can be dispatched. Quantities are in 10^-9 MW.
#[derive(Clone, Copy, PartialEq, Eq, Debug)]
pub struct Unit {
    /// Its row in the case's gen matrix, from 1.
    pub row: u32,
    /// The place of its bus among the live buses.
    pub bus: usize,
    /// What it puts out where none of its blocks is accepted.
    pub fixed: i64,
    /// By how much its sell blocks may raise that, in all.
    pub up: i64,
    /// By how much its buy blocks may lower that, in all.
    pub down: i64,
}

/// The number of gen rows of a case, and its live units.
#[derive(Drop, Debug)]
pub struct UnitList {
    pub rows: u32,
    pub units: List<Unit>,
}
