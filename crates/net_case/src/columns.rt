//! The columns of a case's matrices, the first being 1, by their names in MATPOWER.

// Of the bus matrix.
pub const BUS_I: usize = 1;

pub const BUS_TYPE: usize = 2;

pub const PD: usize = 3;

pub const GS: usize = 5;

// Of the gen matrix.
pub const GEN_BUS: usize = 1;

pub const GEN_STATUS: usize = 8;

pub const PMAX: usize = 9;

pub const PMIN: usize = 10;

// Of the branch matrix.
pub const F_BUS: usize = 1;

pub const T_BUS: usize = 2;

pub const BR_X: usize = 4;

pub const RATE_A: usize = 6;

pub const RATE_B: usize = 7;

pub const RATE_C: usize = 8;

pub const TAP: usize = 9;

pub const SHIFT: usize = 10;

pub const BR_STATUS: usize = 11;
