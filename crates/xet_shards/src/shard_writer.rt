//! Writing shards with any layout options: one record after another, and then the end.

pub use crate::shard_format::ends::options::LayoutOptions;
pub use crate::shard_format::export::keyed_chunks::with_keyed_hashes;
pub use crate::shard_format::read::placed_record::{PlacedRecord, bytes_from};
pub use crate::shard_format::write::shard_end::{ShardEnd, write_end};
pub use crate::shard_format::write::written::{WrittenFiles, WrittenSection, WrittenXorbs};
pub use crate::shard_format::write::xorb_writer::ChunkTableRow;
pub use crate::streaming_shard::file_start::FileStart;
