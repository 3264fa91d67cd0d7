//! Looking for runs of chunks.

ghost use Rattle.std.specs.Prelude.{◌<◌, Option, IsOkAnd, MatchResult};
ghost use Rattle.std.specs.FinMap as finite;
ghost use Rattle.xet_core_structures.specs.KeyedHash.{no_key};
ghost use Rattle.xet_core_structures.specs.Shard.{Shard};
ghost use Rattle.xet_core_structures.specs.WrittenQueries.{RunAmong, RunInXorb};
ghost use Rattle.xet_core_structures.specs.WrittenShard.{IsBytesOf};
ghost use Rattle.xet_core_structures.specs.XorbRecord.{xorb_records};
ghost use Rattle.xet_core_structures.specs.declared.xorb_structs.MDBXorbInfo.{MDBXorbInfo};
ghost use Rattle.xet_shards.specs.Write.Section.{StartsAt};
ghost use Rattle.shard_bytes.specs.Query.{AnswersQuery, RefusesQuery, AnswersQueryAt, RefusesQueryAt, HasNoChunkAt};

use std::alloc::Global;
use xet_core_structures::error::Result;
use xet_core_structures::file_structs::FileDataSequenceEntry;
use xet_core_structures::merklehash::MerkleHash;
use xet_core_structures::shard_format::MDBShardInfo;
use xet_core_structures::source::MemorySource;

/// Looks for a run of these chunks: its number of chunks and their segment, or `None`.
///
/// Fails as [`MDBShardInfo::load_from_reader`] and [`MDBShardInfo::chunk_hash_dedup_query`] do.
pub fn query_chunks(
    alloc: Global,
    bytes: &[u8],
    hashes: &[MerkleHash],
) -> Result<Option<(usize, FileDataSequenceEntry)>>
    ensures any_bytes { MatchResult result (AnswersQuery bytes.now hashes.now)
        (RefusesQuery bytes.now hashes.now) }
    ensures written { (s : Shard) → IsBytesOf s bytes.now
        → IsOkAnd result (RunAmong no_key hashes.now (finite.values s.xorbs)) }
{
    let mut source = MemorySource::new(bytes);
    let info = MDBShardInfo::load_from_reader(alloc, &mut source)?;
    info.chunk_hash_dedup_query(alloc, &mut source, hashes)
}

/// As [`query_chunks`], but only at the chunk at `index`, from 0 on, of the xorb at `row` of the
/// xorb section.
///
/// Fails as [`MDBShardInfo::load_from_reader`] and [`MDBShardInfo::chunk_hash_dedup_query_direct`]
/// do.
pub fn query_at(
    alloc: Global,
    bytes: &[u8],
    hashes: &[MerkleHash],
    row: u32,
    index: u32,
) -> Result<Option<(usize, FileDataSequenceEntry)>>
    ensures any_bytes { MatchResult result (AnswersQueryAt bytes.now hashes.now row index)
        (RefusesQueryAt bytes.now hashes.now row index) }
    ensures written { (s : Shard) → (xorb : MDBXorbInfo) → IsBytesOf s bytes.now
        → StartsAt xorb_records (finite.values s.xorbs) row xorb
        → MatchResult result (RunInXorb no_key hashes.now xorb index)
        (HasNoChunkAt hashes.now xorb index) }
{
    let mut source = MemorySource::new(bytes);
    let info = MDBShardInfo::load_from_reader(alloc, &mut source)?;
    info.chunk_hash_dedup_query_direct(alloc, &mut source, hashes, row, index)
}
