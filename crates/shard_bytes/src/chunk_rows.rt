//! The places of all chunks of a shard.

ghost use Rattle.std.specs.Prelude.{◌≡◌, MatchResult};
ghost use Rattle.xet_core_structures.specs.declared.error.CoreError.{CoreError};
ghost use Rattle.xet_core_structures.specs.Shard.{Shard};
ghost use Rattle.xet_core_structures.specs.WrittenShard.{IsBytesOf};
ghost use Rattle.shard_bytes.specs.ChunkRows.{HasChunkRows, RefusesChunkRows, chunks_of};

use std::alloc::Global;
use xet_core_structures::error::{CoreError, Result};
use xet_core_structures::shard_format::MDBShardInfo;
use xet_core_structures::source::MemorySource;

/// The first word of each chunk's hash, under the shard's key if it has one, with the row at which
/// its xorb starts and its index in it: the chunk table, or, if there is none, the xorb section in
/// order.
///
/// Fails as [`MDBShardInfo::load_from_reader`] and [`MDBShardInfo::read_all_truncated_hashes`] do.
pub fn chunk_rows(alloc: Global, bytes: &[u8]) -> Result<Vec<(u64, (u32, u32))>>
    ensures any_bytes { MatchResult result (λ found. HasChunkRows bytes.now found.items)
        (RefusesChunkRows bytes.now) }
    ensures written { (s : Shard) → IsBytesOf s bytes.now
        → MatchResult result (λ found. found.items ≡ chunks_of s)
        (λ e. e ≡ CoreError.OutOfMemory) }
{
    let mut source = MemorySource::new(bytes);
    let info = MDBShardInfo::load_from_reader(alloc, &mut source)?;
    info.read_all_truncated_hashes(alloc, &mut source)
}
