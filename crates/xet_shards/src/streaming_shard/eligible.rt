//! The chunks that the global index keeps.

ghost use Rattle.std.specs.Prelude.{◌≡◌, true, List, ◌++◌, flat_map, MatchResult, OnOk, IfOk, IfErr, if◌then◌else◌};
ghost use Rattle.std.specs.BTreeSet.{insert_key};
ghost use Rattle.std.specs.Io.KnownBytes.{Consumes};
ghost use Rattle.std.specs.List.Sorted.{IsSorted};
ghost use Rattle.xet_base.specs.Hash.{hash_cmp};
ghost use Rattle.xet_base.specs.Source.{ReadsBytes, ReadFails};
ghost use Rattle.xet_base.specs.declared.merklehash.DataHash.{DataHash};
ghost use Rattle.xet_records.specs.declared.xorb_structs.MDBXorbInfo.{MDBXorbInfo};
ghost use Rattle.xet_records.specs.XorbRecord.{xorb_records, IsStoredXorb};
ghost use Rattle.xet_shards.specs.Ends.Ends.{HasUnsupportedHeader, EndsInHeader, PartFails};
ghost use Rattle.xet_shards.specs.StreamingShard.MinimalShard.{MinimalShard, start_cmp, has_start, ascending_hashes, eligible_hashes, eligible_in};
ghost use Rattle.xet_shards.specs.StreamingShard.MinimalReading.{ReadsViews, StopsAfterViews, ReadsSections, SectionsNotRead, MinimalFails, ReaderMinimalFails, ReadsEligible};

use super::file_start::{FileStart, is_start, read_starts, starts_of};
use super::minimal_shard::MDBMinimalShard;
use crate::shard_format::{MDBShardFileHeader, MDBShardInfo, read_header};
use bytes::BytesMut;
use std::alloc::Global;
use std::collections::BTreeSet;
use std::io::Read;
use xet_base::error::{CoreError, Result};
use xet_base::input::{ByteInput, OfReader, OfSource};
use xet_base::merklehash::MerkleHash;
use xet_base::source::ShardSource;
use xet_records::record_reader::FormatVersion;
use xet_records::rows::ROW_LIMIT;
use xet_records::view_reader::read_view;
use xet_records::xorb_structs::{MDBXorbInfo, MDBXorbInfoView};

impl MDBMinimalShard {
    /// The hashes of the chunks that are marked, whose hash is eligible, or at which a file starts,
    /// each once and ascending; or `OutOfMemory`.
    pub fn global_dedup_eligible_chunks(&self, alloc: Global) -> Result<Vec<MerkleHash>>
        ensures ok { IfOk result
            (λ hashes. hashes.items ≡ eligible_hashes self.now.files self.now.xorbs) }
        ensures causes { IfErr result (λ e. e ≡ CoreError.OutOfMemory) }
    {
        let starts = starts_of(alloc, self.files())?;
        let mut hashes = BTreeSet::new(alloc);
        let xorbs = self.xorbs();
        for xorb in xorbs {
            insert_eligible(&mut hashes, xorb, starts.as_slice())?;
        }
        list_of(alloc, hashes)
    }

    /// As [`MDBMinimalShard::global_dedup_eligible_chunks`], of a header and both sections, read
    /// one record at a time. The errors are those of [`MDBMinimalShard::from_reader`].
    pub fn eligible_chunks_from_reader<R: Read>(
        alloc: Global,
        reader: &mut R,
    ) -> Result<Vec<MerkleHash>>
        ensures { MatchResult result
            (λ hashes. ReadsEligible Consumes (R.remaining reader.old) (R.remaining reader.new)
            hashes.items)
            (ReaderMinimalFails true (R.remaining reader.old) (R.remaining reader.new)) }
    {
        let version = MDBShardFileHeader::deserialize(alloc, reader)?.format_version();
        read_eligible::<OfReader, R>(alloc, reader, version)
    }
}

impl MDBShardInfo {
    /// As [`MDBMinimalShard::eligible_chunks_from_reader`], from the source's position on, without
    /// a seek, with the source's error for the reader's.
    pub fn filter_cas_chunks_for_global_dedup<S: ShardSource>(
        alloc: Global,
        source: &mut S,
    ) -> Result<Vec<MerkleHash>>
        ensures { MatchResult result
            (λ hashes. ReadsEligible ReadsBytes (S.meaning source.old) (S.meaning source.new)
            hashes.items)
            (MinimalFails ReadsBytes ReadFails (PartFails HasUnsupportedHeader EndsInHeader 48) true
            (S.meaning source.old) (S.meaning source.new)) }
    {
        let version = read_header(alloc, source)?.format_version();
        read_eligible::<OfSource, S>(alloc, source, version)
    }
}

fn read_eligible<M, I: ByteInput<M>>(
    alloc: Global,
    input: &mut I,
    version: FormatVersion,
) -> Result<Vec<MerkleHash>>
    ensures { MatchResult result
        (λ hashes. (m : MinimalShard)
        × ReadsSections I.reads version true true input.old input.new m
        × (hashes.items ≡ eligible_hashes m.files m.xorbs))
        (SectionsNotRead I.reads I.fails version true input.old input.new) }
{
    let starts = read_starts::<M, I>(alloc, input, version)?;
    read_eligible_after::<M, I>(alloc, input, starts.as_slice())
}

// Files start at `starts`.
fn read_eligible_after<M, I: ByteInput<M>>(
    alloc: Global,
    input: &mut I,
    starts: &[FileStart],
) -> Result<Vec<MerkleHash>>
    requires { IsSorted start_cmp starts.now }
    ensures { MatchResult result
        (λ hashes. (xorbs : List MDBXorbInfo)
        × ReadsViews xorb_records (λ x. x) I.reads input.old input.new xorbs
        × (hashes.items
        ≡ ascending_hashes (flat_map (eligible_in (has_start starts.now)) xorbs)))
        (StopsAfterViews xorb_records (λ x. x) I.reads I.fails input.old input.new) }
{
    let mut hashes = BTreeSet::new(alloc);
    let mut buffer = BytesMut::new(alloc);
    let mut rows_left = ROW_LIMIT;
    while let Some(xorb) = read_view::<MDBXorbInfo, MDBXorbInfoView, M, I>(
        alloc,
        &mut buffer,
        input,
        FormatVersion::V3,
        &mut rows_left,
    )? {
        insert_eligible(&mut hashes, &xorb, starts)?;
    }
    list_of(alloc, hashes)
}

// `collect` would go on if its first allocation, of room for all hashes, fails.
fn list_of(alloc: Global, hashes: BTreeSet<MerkleHash>) -> Result<Vec<MerkleHash>>
    ensures ok { IfOk result (λ listed. listed.items ≡ hashes.keys) }
    ensures causes { IfErr result (λ e. e ≡ CoreError.OutOfMemory) }
{
    let mut listed = Vec::new(alloc);
    for hash in hashes {
        listed.push(hash)?;
    }
    Ok(listed)
}

fn insert_eligible(
    hashes: &mut BTreeSet<MerkleHash>,
    xorb: &MDBXorbInfoView,
    starts: &[FileStart],
) -> Result<()>
    requires sorted { IsSorted start_cmp starts.now }
    requires stored { IsStoredXorb xorb.now }
    ensures ok { OnOk result
        ((before : List DataHash) → hashes.old.keys ≡ ascending_hashes before
        → hashes.new.keys ≡ ascending_hashes
        (before ++ eligible_in (has_start starts.now) xorb.now)) }
    ensures causes { IfErr result (λ e. e ≡ CoreError.OutOfMemory) }
{
    for index in 0..xorb.num_entries() {
        let chunk = xorb.chunk(index);
        let start = FileStart::of_chunk(xorb, index);
        let is_eligible = chunk.is_global_dedup_eligible() | is_start(starts, &start);
        insert_if(is_eligible, hashes, chunk.chunk_hash)?;
    }
    Ok(())
}

fn insert_if(wanted: bool, hashes: &mut BTreeSet<MerkleHash>, hash: MerkleHash) -> Result<()>
    ensures ok { OnOk result
        (hashes.new.keys
        ≡ (if wanted then insert_key hash_cmp hashes.old.keys hash else hashes.old.keys)) }
    ensures causes { IfErr result (λ e. e ≡ CoreError.OutOfMemory) }
{
    if wanted {
        hashes.insert(hash)?;
    }
    Ok(())
}
