//! Operations on the bytes of shards in memory.
#![tactic(auto)]

pub mod agree;
pub mod check;
pub mod chunk_rows;
pub mod combine;
pub mod complete;
pub mod concatenate;
pub mod expiry;
pub mod export;
pub mod find;
pub mod format;
pub mod load;
mod memory;
pub mod merge;
pub mod minimal;
pub mod part_lookups;
pub mod query;
pub mod records;
pub mod version;
pub mod walk;
