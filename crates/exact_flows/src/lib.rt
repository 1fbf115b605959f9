//! The flows of a network in exact fractions: what each branch carries of 1 that is put in at a bus and taken out at the reference. The
//! angles are solved for by the exchanges of a dictionary, whose columns are the angles and whose rows are what branches carry and what is
//! put in at buses.
#![tactic(auto)]

mod building;
mod coefficients;
mod flows;
mod line;
mod rows;
mod solving;
mod stop;

pub use flows::exact_flows;
pub use line::Line;
pub use stop::FlowStop;
