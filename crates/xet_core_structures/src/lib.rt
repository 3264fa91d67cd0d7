//! Metadata shards of Xet storage: unions and differences of their bytes, and laws.
#![tactic(auto)]

pub mod laws;
pub mod set_operations;

pub use xet_base::{
    count, error, fields, input, interpolation_search, merklehash, serialization_utils,
    sorted_hashes, source,
};
pub use xet_records::{file_structs, record_bytes, record_reader, rows, xorb_structs};
pub use xet_shards::{shard_format, shard_in_memory, shard_writer, streaming_shard, utils};
