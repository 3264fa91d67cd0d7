//! The merges of `mdb`.
#![tactic(auto)]

pub mod by_key;
pub mod compaction;
pub mod input_removal;
pub mod merge;
pub mod rounds;
mod skipping;
