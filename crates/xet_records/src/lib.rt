//! The rows of a shard, 48 bytes each, and the records that they make.
#![tactic(auto)]

pub mod file_copier;
pub mod file_structs;
pub mod record_bytes;
pub mod record_reader;
pub mod row_copier;
pub mod row_reader;
pub mod rows;
pub mod view_reader;
pub mod xorb_structs;
