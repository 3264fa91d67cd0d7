//! The commands of `mdb` that look into shards and print.
#![tactic(auto)]

pub mod gc;
pub mod hash_list;
pub mod inputs;
pub mod inspect;
pub mod ordering;
mod origins;
pub mod report;
mod sections;
