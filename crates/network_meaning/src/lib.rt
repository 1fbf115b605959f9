//! The live network of a case, by what the rows of its matrices say.
//!
//! `specs` tells when a network is the live network of a case, each condition beside its sentence of `docs/FORMATS.md`: `Cells`, `BusRows`,
//! `Units`, `BranchRows`, and `LiveNetworks` with `IsLiveNetwork` as the whole. They know nothing of a reader, its order or its faults. The
//! laws say that `net_case` reads exactly these networks.
#![tactic(auto)]

pub mod laws;
