//! Shards as bytes: header, footer, writing and reading.

pub(crate) mod ends;
pub(crate) mod export;
mod lookup;
pub(crate) mod read;
pub(crate) mod write;

pub use ends::footer::MDBShardFileFooter;
pub use ends::header::MDBShardFileHeader;
pub use ends::info::{MDBShardInfo, read_header};
pub use xet_records::rows::{CHUNK_ROW_SIZE, START_ROW_SIZE};

/// The size of a header, in bytes.
pub const HEADER_SIZE: u64 = 48;

/// The size of a header's tag, in bytes.
pub const TAG_SIZE: usize = 32;

/// The size of a shard's footer, in bytes.
pub const FOOTER_SIZE: u64 = 200;

/// The most rows that a lookup by the first word of a hash gives.
pub const MOST_FOUND: usize = 8;
