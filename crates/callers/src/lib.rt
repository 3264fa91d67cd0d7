//! Five callers of the library, each with a theorem.
#![tactic(auto)]

pub mod uses;
