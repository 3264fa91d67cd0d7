//! Looking for chunks that are stored already.

ghost use Rattle.std.specs.Prelude.{IsOkAnd};
ghost use Rattle.std.specs.FinMap as finite;
ghost use Rattle.xet_core_structures.specs.KeyedHash.{no_key};
ghost use Rattle.xet_core_structures.specs.Shard.{Shard};
ghost use Rattle.xet_core_structures.specs.WrittenQueries.{RunAmong};
ghost use Rattle.xet_core_structures.specs.WrittenShard.{IsBytesOf};

use std::alloc::Global;
use xet_core_structures::error::Result;
use xet_core_structures::file_structs::FileDataSequenceEntry;
use xet_core_structures::merklehash::MerkleHash;
use xet_core_structures::shard_format::MDBShardInfo;
use xet_core_structures::source::MemorySource;

/// How many of these chunks, from the first on, a xorb of the shard has one after another, and the
/// segment that they are; `None` if none has the first.
///
/// The errors are those of [`MDBShardInfo::load_from_reader`] and
/// [`MDBShardInfo::chunk_hash_dedup_query`].
pub fn stored_chunks(
    alloc: Global,
    shard: &[u8],
    chunks: &[MerkleHash],
) -> Result<Option<(usize, FileDataSequenceEntry)>>
    ensures { (s : Shard) → IsBytesOf s shard.now
        → IsOkAnd result (RunAmong no_key chunks.now (finite.values s.xorbs)) }
{
    let mut source = MemorySource::new(shard);
    let info = MDBShardInfo::load_from_reader(alloc, &mut source)?;
    info.chunk_hash_dedup_query(alloc, &mut source, chunks)
}
