//! Linear systems over bounded variables and the choices of basic variables in them: definitions and laws alone.
#![tactic(auto)]
