//! Reading a request of `mdb` from its arguments.
#![tactic(auto)]

pub mod arguments;
mod commands;
mod fault;
mod hashes;
mod output;
mod pair;
mod printing;
mod sources;
mod values;
