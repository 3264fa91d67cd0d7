//! Shards: in memory, and as bytes that are written, read whole and looked up.
#![tactic(auto)]

pub mod shard_format;
pub mod shard_in_memory;
pub mod shard_writer;
pub mod streaming_shard;
pub mod utils;
