//! Shards put together from parts: blocks of a section to merge, and the file that merged parts are
//! written to.
#![tactic(auto)]

pub mod assembly;
pub mod block;
mod counts;
pub mod equal_shares;
mod part_ranges;
mod row_numbers;
mod runs;
