//! Looking up a file in a shard, over any source of bytes.

ghost use Rattle.std.specs.Prelude.{MatchResult};
ghost use Rattle.std.specs.FinMap as finite;
ghost use Rattle.xet_core_structures.specs.FileRecord.{file_records};
ghost use Rattle.xet_core_structures.specs.Lookup.{FoundInShard, LookupFailsAmong};
ghost use Rattle.xet_core_structures.specs.Shard.{Shard};
ghost use Rattle.xet_core_structures.specs.WrittenShard.{IsBytesOf};
ghost use Rattle.callers.specs.Callers.{FindsWithin};

use std::alloc::Global;
use xet_core_structures::error::Result;
use xet_core_structures::file_structs::MDBFileInfo;
use xet_core_structures::merklehash::MerkleHash;
use xet_core_structures::shard_format::MDBShardInfo;
use xet_core_structures::source::ShardSource;

/// Opens a shard, and looks up the file with this hash: its record, or `None`.
///
/// The errors are those of [`MDBShardInfo::load_from_reader`] and
/// [`MDBShardInfo::get_file_reconstruction_info`].
pub fn open_and_find<S: ShardSource>(
    alloc: Global,
    source: &mut S,
    hash: &MerkleHash,
) -> Result<Option<MDBFileInfo>>
    ensures answer { (s : Shard) → IsBytesOf s (S.meaning source.old).bytes
        → MatchResult result (FoundInShard s hash.now)
        (LookupFailsAmong file_records (finite.values s.files) hash.now (S.meaning source.old)
        (S.meaning source.new)) }
    ensures costs { (s : Shard) → IsBytesOf s (S.meaning source.old).bytes
        → FindsWithin (finite.values s.files) hash.now.word0 (S.meaning source.old)
        (S.meaning source.new) }
{
    let info = MDBShardInfo::load_from_reader(alloc, source)?;
    info.get_file_reconstruction_info(alloc, source, hash)
}
