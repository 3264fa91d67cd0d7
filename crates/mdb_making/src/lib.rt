//! The commands of `mdb` that write one shard, but for merges.
#![tactic(auto)]

pub mod make;
pub mod record_lines;
pub mod record_removal;
