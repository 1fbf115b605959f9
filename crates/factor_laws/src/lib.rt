//! What is true of tables of factors that are made: their texts are read back as the same tables and are not long, and rounding explains by how
//! much they miss Kirchhoff's laws. There are no functions but laws.
#![tactic(auto)]

pub mod laws;
