//! Minimal shards, subsets of xorbs, and chunks of the global index.

ghost use Rattle.std.specs.Prelude.{◌≡◌, ◌↔◌, true, length, IfOk, IsTrue, MatchResult, map};
ghost use Rattle.std.specs.List.{Any};
ghost use Rattle.xet_core_structures.specs.declared.error.CoreError.{CoreError};
ghost use Rattle.xet_core_structures.specs.KeyedExport.{ExportCase};
ghost use Rattle.xet_core_structures.specs.MinimalShard.{IsKept};
ghost use Rattle.xet_core_structures.specs.Shard.{xorb_hash_of};
ghost use Rattle.xet_core_structures.specs.View.{LacksVerification};
ghost use Rattle.placed_shards.specs.Anew.{HasInstead};
ghost use Rattle.placed_shards.specs.Content.{content};
ghost use Rattle.shard_bytes.specs.Minimal.{RefusesMinimal, MinimalBytes, IsMinimalOf, RefusesMinimalBytes, Keeps, AreLacked, LackXorbs, SubsetBytes, IsSubsetOf, EligibleIn};
ghost use Rattle.shard_bytes.specs.Outcomes.{InMemory};
ghost use Rattle.shard_bytes.specs.ResultSizes.{IsMinimalSize};
ghost use Rattle.shard_bytes.specs.Versions.{LaidOutIn, NotLaidOutIn};

use crate::memory::in_memory;
use bumpalo::Bump;
use placed_shards::open::open_behind_header;
use placed_shards::placed_file::PlacedFile;
use placed_shards::placed_record::PlacedRecord;
use placed_shards::placed_shard::PlacedShard;
use std::alloc::{AllocError, Global};
use std::io::{self, ErrorKind};
use xet_core_structures::error::{CoreError, Result};
use xet_core_structures::file_structs::KeptParts;
use xet_core_structures::merklehash::MerkleHash;
use xet_core_structures::record_reader::FormatVersion;
use xet_core_structures::shard_writer::LayoutOptions;
use xet_core_structures::sorted_hashes::SortedHashes;
use xet_core_structures::streaming_shard::MDBMinimalShard;

/// The xorbs that a subset keeps.
#[derive(Drop)]
pub enum KeptXorbs {
    All,
    Listed(Vec<MerkleHash>),
}

/// The times of a subset in seconds, and its xorbs.
#[derive(Drop)]
pub struct Subset {
    pub now: u64,
    pub expiry: Option<u64>,
    pub kept: KeptXorbs,
}

/// The bytes of [`minimal`]: at most 200 more than the given ones.
///
/// Fails as it does; `InvalidArguments` for an auxiliary row of the result in version 2.
pub fn minimal_bytes(
    alloc: Global,
    bytes: &[u8],
    now: u64,
    kept: KeptParts,
    version: FormatVersion,
) -> Result<Vec<u8>>
    ensures minimal { MatchResult result
        (λ minimal. LaidOutIn version (MinimalBytes kept now bytes.now) minimal.items)
        (NotLaidOutIn version (MinimalBytes kept now bytes.now)
        (RefusesMinimalBytes kept bytes.now)) }
    ensures size { IfOk result (λ minimal. IsMinimalSize bytes.now (length minimal.items)) }
{
    let arena = Bump::new(alloc);
    minimal(alloc, &arena, bytes, now, kept)?.to_bytes(alloc, version)
}

/// The minimal shard of a shard, with these parts of its files.
///
/// Fails as [`open_behind_header`] does; `Io` of kind `Other` if verification rows are to be kept
/// and a file has none.
pub fn minimal<'a>(
    alloc: Global,
    arena: &'a Bump,
    bytes: &'a [u8],
    now: u64,
    kept: KeptParts,
) -> Result<PlacedShard<'a>>
    ensures { MatchResult result (λ shard. IsMinimalOf kept now bytes.now (content shard))
        (RefusesMinimalBytes kept bytes.now) }
{
    let shard = open_behind_header(alloc, bytes)?;
    if kept.verification && lack_verification(shard.files.as_slice()) {
        return Err(CoreError::Io(io::Error::from(ErrorKind::Other)));
    }
    let shard = shard.with_marks(alloc, arena)?.with_parts(arena, kept)?;
    Ok(shard.with_options(LayoutOptions::minimal(now, None)))
}

fn lack_verification(files: &[PlacedFile<'_>]) -> bool
    ensures { IsTrue result ↔ Any (LacksVerification true) files.now }
{
    files
        .iter()
        .any(|file| !file.header().contains_verification())
}

/// The bytes of [`subset_of`]: at most 200 more than the given ones. Fails as it does.
pub fn subset_bytes(
    alloc: Global,
    bytes: &[u8],
    chosen: &Subset,
    version: FormatVersion,
) -> Result<Vec<u8>>
    ensures subset { MatchResult result
        (λ written. LaidOutIn version (SubsetBytes chosen.entry.now bytes.now) written.items)
        (InMemory (ExportCase bytes.now)) }
    ensures size { IfOk result (λ written. IsMinimalSize bytes.now (length written.items)) }
{
    let arena = Bump::new(alloc);
    subset_of(alloc, &arena, bytes, chosen)?.to_bytes(alloc, version)
}

/// Some xorbs and none of the files of a shard, with a mark at each chunk at which a file starts.
/// The listed hashes may be in any order. Fails as [`open_behind_header`] does.
pub fn subset_of<'a>(
    alloc: Global,
    arena: &'a Bump,
    bytes: &'a [u8],
    chosen: &Subset,
) -> Result<PlacedShard<'a>>
    ensures { MatchResult result (λ shard. IsSubsetOf chosen.entry.now bytes.now (content shard))
        (InMemory (ExportCase bytes.now)) }
{
    let shard = with_kept_xorbs(alloc, open_behind_header(alloc, bytes)?, &chosen.kept)?;
    let shard = shard.with_marks(alloc, arena)?.without_files();
    Ok(shard.with_options(LayoutOptions::minimal(chosen.now, chosen.expiry)))
}

fn with_kept_xorbs<'a>(
    alloc: Global,
    shard: PlacedShard<'a>,
    kept: &KeptXorbs,
) -> Result<PlacedShard<'a>>
    ensures { MatchResult result
        (λ made. IsKept (λ x accepted. IsTrue accepted ↔ Keeps kept.entry.now (xorb_hash_of x))
        shard.entry.xorbs.items made.xorbs.items
        × HasInstead shard.entry.files.items made.xorbs.items shard.entry made)
        (λ e. e ≡ CoreError.OutOfMemory) }
{
    match kept {
        KeptXorbs::All => Ok(shard),
        KeptXorbs::Listed(hashes) => {
            let hashes = Vec::from_slice(alloc, hashes.as_slice())?;
            Ok(shard.with_xorbs(&SortedHashes::of(hashes)))
        }
    }
}

/// The given hashes that no xorb of a shard has, in their order. Fails as
/// [`MDBMinimalShard::from_reader`] does.
pub fn hashes_without_xorb(
    alloc: Global,
    bytes: &[u8],
    hashes: &[MerkleHash],
) -> Result<Vec<MerkleHash>>
    ensures { MatchResult result (λ lacking. LackXorbs bytes.now hashes.now lacking.items)
        (InMemory (RefusesMinimal bytes.now)) }
{
    let mut reader = bytes;
    match MDBMinimalShard::from_reader(alloc, &mut reader, false, true) {
        Ok(shard) => Ok(hashes_lacked(alloc, &shard, hashes)?),
        Err(error) => Err(in_memory(error)),
    }
}

fn hashes_lacked(
    alloc: Global,
    shard: &MDBMinimalShard,
    hashes: &[MerkleHash],
) -> std::result::Result<Vec<MerkleHash>, AllocError>
    ensures { IfOk result (λ lacking. AreLacked shard.now hashes.now lacking.items) }
{
    let present = xorb_hashes(alloc, shard)?;
    let known = SortedHashes::of(present);
    let mut lacking = Vec::new(alloc);
    for hash in hashes {
        if !known.contains(hash) {
            lacking.push(*hash)?;
        }
    }
    Ok(lacking)
}

fn xorb_hashes(
    alloc: Global,
    shard: &MDBMinimalShard,
) -> std::result::Result<Vec<MerkleHash>, AllocError>
    ensures { IfOk result (λ hashes. hashes.items ≡ map xorb_hash_of shard.now.xorbs) }
{
    let mut hashes = Vec::new(alloc);
    for index in 0..shard.num_xorb() {
        if let Some(xorb) = shard.xorb(index) {
            hashes.push(xorb.xorb_hash())?;
        }
    }
    Ok(hashes)
}

/// The hashes of the chunks that the global index keeps, in ascending order. Fails as
/// [`MDBMinimalShard::from_reader`] does.
pub fn eligible_chunks(alloc: Global, bytes: &[u8]) -> Result<Vec<MerkleHash>>
    ensures { MatchResult result (λ hashes. EligibleIn bytes.now hashes.items)
        (InMemory (RefusesMinimal bytes.now)) }
{
    let mut reader = bytes;
    match MDBMinimalShard::eligible_chunks_from_reader(alloc, &mut reader) {
        Ok(hashes) => Ok(hashes),
        Err(error) => Err(in_memory(error)),
    }
}
