//! A shard of records in lists.

ghost use Rattle.std.specs.Prelude.{◌≡◌, ◌⊎◌, ◌≤◌, [], ◌∷◌, length, map, take, drop, IfOk, IfErr, MatchResult, option_to_list};
ghost use Rattle.placed_shards.specs.Filling.{FillsWith};
ghost use Rattle.xet_c.specs.Arguments.{c_segment};
ghost use Rattle.xet_c.specs.ShownRecords.{c_chunk};
ghost use Rattle.xet_c.specs.Output.{Outcome};
ghost use Rattle.xet_c.specs.ListedRecords.{AreHashRows, if_flagged, IsListedFile, IsListedXorb, AreListedFiles, AreListedXorbs, AddUp, WritesListed, RefusesListed};
ghost use Rattle.xet_c.specs.NumberedVersions.{InNumber, NotInNumber};

use crate::listed::{
    XetListedFile, XetListedXorb, chunk_row_of, entry_of, file_header_of, verification_row_of,
    xorb_header_of,
};
use crate::output::answer;
use crate::segment::XetFileSegment;
use crate::version::version_of;
use crate::walk::XetChunk;
use bumpalo::Bump;
use placed_shards::records::of_records;
use std::alloc::Global;
use xet_core_structures::error::{CoreError, Result};
use xet_core_structures::file_structs::{
    FileAuxExt, FileDataSequenceEntry, FileMetadataExt, FileVerificationEntry, MDBFileInfo,
};
use xet_core_structures::merklehash::MerkleHash;
use xet_core_structures::rows::Rows;
use xet_core_structures::shard_writer::LayoutOptions;
use xet_core_structures::xorb_structs::{MDBXorbInfo, XorbChunkSequenceEntry};

/// Puts the shard of these files and xorbs to the front of `out`. Each file has the next segments
/// of the list, as many as it says, and each xorb the next chunks. An expiry of 2^64 - 1 means
/// none.
///
/// `InvalidArguments` if the number is that of no version, if counts do not add up, or if no shard
/// has these records, or none of this version; `OutOfMemory`.
#[unsafe(no_mangle)]
pub extern "C" fn xet_write(
    alloc: Global,
    files: &[XetListedFile],
    segments: &[XetFileSegment],
    xorbs: &[XetListedXorb],
    chunks: &[XetChunk],
    expiry: u64,
    version: u64,
    out: &mut [u8],
    written: &mut usize,
) -> u32
    ensures { Outcome
        (InNumber version (WritesListed files.now segments.now xorbs.now chunks.now expiry))
        (NotInNumber version (RefusesListed files.now segments.now xorbs.now chunks.now))
        out.old out.new written.new result }
{
    let filled = fill(alloc, files, segments, xorbs, chunks, expiry, version, out);
    answer(filled, out.len(), written)
}

fn fill(
    alloc: Global,
    files: &[XetListedFile],
    segments: &[XetFileSegment],
    xorbs: &[XetListedXorb],
    chunks: &[XetChunk],
    expiry: u64,
    version: u64,
    out: &mut [u8],
) -> Result<usize>
    ensures { FillsWith
        (InNumber version (WritesListed files.now segments.now xorbs.now chunks.now expiry))
        (NotInNumber version (RefusesListed files.now segments.now xorbs.now chunks.now))
        out.old out.new result }
{
    let version = version_of(version)?;
    let files = files_of(alloc, files, segments)?;
    let xorbs = xorbs_of(alloc, xorbs, chunks)?;
    let arena = Bump::new(alloc);
    let shard = of_records(alloc, &arena, files, xorbs)?;
    let shard = shard.with_options(LayoutOptions::plain(Some(expiry)));
    shard.write_into(alloc, version, out)
}

// `InvalidArguments` if counts do not add up.
fn files_of(
    alloc: Global,
    listed: &[XetListedFile],
    segments: &[XetFileSegment],
) -> Result<Vec<MDBFileInfo>>
    ensures { MatchResult result
        (λ files. AreListedFiles listed.now segments.now files.items)
        (λ e. (e ≡ CoreError.OutOfMemory)
        ⊎ ((e ≡ CoreError.InvalidArguments)
        × (¬ AddUp (λ f. f.segments) listed.now segments.now))) }
{
    let mut files = Vec::new(alloc);
    let mut rest = segments;
    for file in listed {
        let count = file.segments as usize;
        if rest.len() < count {
            return Err(CoreError::InvalidArguments);
        }
        files.push(file_of(alloc, file, first_items(rest, count))?)?;
        rest = items_after(rest, count);
    }
    if !rest.is_empty() {
        return Err(CoreError::InvalidArguments);
    }
    Ok(files)
}

fn first_items<T>(items: &[T], count: usize) -> &[T]
    requires { count ≤ length items.now }
    ensures { result.now ≡ take count items.now }
{
    &items[..count]
}

fn items_after<T>(items: &[T], count: usize) -> &[T]
    requires { count ≤ length items.now }
    ensures { result.now ≡ drop count items.now }
{
    &items[count..]
}

fn file_of(alloc: Global, file: &XetListedFile, segments: &[XetFileSegment]) -> Result<MDBFileInfo>
    ensures ok { IfOk result (IsListedFile file.now segments.now) }
    ensures causes { IfErr result (λ e. e ≡ CoreError.OutOfMemory) }
{
    let metadata = file_header_of(file);
    let entries = entries_of(alloc, segments)?;
    let verification = if metadata.contains_verification() {
        verification_of(alloc, segments)?
    } else {
        Vec::new(alloc)
    };
    Ok(MDBFileInfo {
        metadata,
        segments: Rows::from(entries),
        verification: Rows::from(verification),
        metadata_ext: sha256_row(metadata.contains_metadata_ext(), file.sha256),
        aux_ext: aux_row(metadata.contains_aux_ext(), file.aux_hash),
    })
}

fn sha256_row(has_row: bool, words: [u64; 4]) -> Option<FileMetadataExt>
    ensures { AreHashRows (if_flagged has_row (words ∷ [])) (option_to_list result) }
{
    if has_row {
        Some(FileMetadataExt::new(MerkleHash::from(words)))
    } else {
        None
    }
}

fn aux_row(has_row: bool, words: [u64; 4]) -> Option<FileAuxExt>
    ensures { AreHashRows (if_flagged has_row (words ∷ [])) (option_to_list result) }
{
    if has_row {
        Some(FileAuxExt::new(MerkleHash::from(words)))
    } else {
        None
    }
}

fn entries_of(alloc: Global, segments: &[XetFileSegment]) -> Result<Vec<FileDataSequenceEntry>>
    ensures ok { IfOk result
        (λ entries. map c_segment entries.items ≡ map (λ s. s.segment) segments.now) }
    ensures causes { IfErr result (λ e. e ≡ CoreError.OutOfMemory) }
{
    let mut entries = Vec::with_capacity(alloc, segments.len())?;
    for segment in segments {
        entries.push(entry_of(segment))?;
    }
    Ok(entries)
}

fn verification_of(alloc: Global, segments: &[XetFileSegment]) -> Result<Vec<FileVerificationEntry>>
    ensures ok { IfOk result
        (λ rows. AreHashRows (map (λ s. s.verification) segments.now) rows.items) }
    ensures causes { IfErr result (λ e. e ≡ CoreError.OutOfMemory) }
{
    let mut rows = Vec::with_capacity(alloc, segments.len())?;
    for segment in segments {
        rows.push(verification_row_of(segment))?;
    }
    Ok(rows)
}

// `InvalidArguments` if counts do not add up.
fn xorbs_of(
    alloc: Global,
    listed: &[XetListedXorb],
    chunks: &[XetChunk],
) -> Result<Vec<MDBXorbInfo>>
    ensures { MatchResult result
        (λ xorbs. AreListedXorbs listed.now chunks.now xorbs.items)
        (λ e. (e ≡ CoreError.OutOfMemory)
        ⊎ ((e ≡ CoreError.InvalidArguments)
        × (¬ AddUp (λ x. x.chunks) listed.now chunks.now))) }
{
    let mut xorbs = Vec::new(alloc);
    let mut rest = chunks;
    for xorb in listed {
        let count = xorb.chunks as usize;
        if rest.len() < count {
            return Err(CoreError::InvalidArguments);
        }
        xorbs.push(xorb_of(alloc, xorb, first_items(rest, count))?)?;
        rest = items_after(rest, count);
    }
    if !rest.is_empty() {
        return Err(CoreError::InvalidArguments);
    }
    Ok(xorbs)
}

fn xorb_of(alloc: Global, xorb: &XetListedXorb, chunks: &[XetChunk]) -> Result<MDBXorbInfo>
    ensures ok { IfOk result (IsListedXorb xorb.now chunks.now) }
    ensures causes { IfErr result (λ e. e ≡ CoreError.OutOfMemory) }
{
    let metadata = xorb_header_of(xorb);
    let chunks = Rows::from(rows_of(alloc, chunks)?);
    Ok(MDBXorbInfo { metadata, chunks })
}

fn rows_of(alloc: Global, chunks: &[XetChunk]) -> Result<Vec<XorbChunkSequenceEntry>>
    ensures ok { IfOk result (λ rows. map c_chunk rows.items ≡ chunks.now) }
    ensures causes { IfErr result (λ e. e ≡ CoreError.OutOfMemory) }
{
    let mut rows = Vec::with_capacity(alloc, chunks.len())?;
    for chunk in chunks {
        rows.push(chunk_row_of(chunk))?;
    }
    Ok(rows)
}
