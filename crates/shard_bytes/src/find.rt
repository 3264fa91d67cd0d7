//! Looking up files.

ghost use Rattle.std.specs.Prelude.{MatchResult};
ghost use Rattle.std.specs.List.{AllZip};
ghost use Rattle.shard_bytes.specs.Finding.{AnswersLookup, RefusesLookup, RefusesLookups};

use std::alloc::Global;
use xet_core_structures::error::{CoreError, Result};
use xet_core_structures::file_structs::MDBFileInfo;
use xet_core_structures::merklehash::MerkleHash;
use xet_core_structures::shard_format::MDBShardInfo;
use xet_core_structures::source::MemorySource;

/// The record of the file with this hash, or `None`.
///
/// Fails as [`MDBShardInfo::load_from_reader`] and [`MDBShardInfo::get_file_reconstruction_info`]
/// do.
pub fn find_file(alloc: Global, bytes: &[u8], hash: &MerkleHash) -> Result<Option<MDBFileInfo>>
    ensures { MatchResult result (AnswersLookup bytes.now hash.now)
        (RefusesLookup bytes.now hash.now) }
{
    let mut source = MemorySource::new(bytes);
    let info = MDBShardInfo::load_from_reader(alloc, &mut source)?;
    info.get_file_reconstruction_info(alloc, &mut source, hash)
}

/// What [`find_file`] finds of each of these hashes, in their order.
///
/// Fails as [`find_file`] does of one of them, or with `OutOfMemory`.
pub fn find_files(
    alloc: Global,
    bytes: &[u8],
    hashes: &[MerkleHash],
) -> Result<Vec<Option<MDBFileInfo>>>
    ensures { MatchResult result
        (λ found. AllZip (AnswersLookup bytes.now) hashes.now found.items)
        (RefusesLookups bytes.now hashes.now) }
{
    let mut found = Vec::with_capacity(alloc, hashes.len())?;
    for hash in hashes {
        found.push(find_file(alloc, bytes, hash)?)?;
    }
    Ok(found)
}
