//! All records of a shard, in lists.

ghost use Rattle.std.specs.Prelude.{◌≡◌, ◌⊎◌, ◌++◌, ◌≤◌, length, map, IfOk, IfErr, OnOk, MatchResult};
ghost use Rattle.xet_core_structures.specs.Errors.{CoreResult};
ghost use Rattle.shard_bytes.specs.declared.records.Records.{Records};
ghost use Rattle.shard_bytes.specs.Recording.{HasRecords, RefusesRecords};
ghost use Rattle.xet_c.specs.ShownRecords.{c_chunk};
ghost use Rattle.xet_c.specs.ListedRecords.{c_listed_file, c_listed_xorb, all_segments, all_chunks, IsPut, no_counts, ShowsRecords};

use crate::listed::{XetListedFile, XetListedXorb, listed_file_of, listed_xorb_of};
use crate::output::{XET_OUT_OF_MEMORY, XET_SHORT, error_number};
use crate::segment::{XetFileSegment, segments_of};
use crate::walk::{XetChunk, chunk_of};
use shard_bytes::records::{Records, read_records};
use std::alloc::Global;
use xet_core_structures::error::{CoreError, Result};
use xet_core_structures::file_structs::MDBFileInfo;
use xet_core_structures::xorb_structs::{MDBXorbInfo, XorbChunkSequenceEntry};

/// How many records there are.
#[repr(C)]
#[derive(Clone, Copy, Drop)]
pub struct XetCounts {
    pub files: usize,
    pub segments: usize,
    pub xorbs: usize,
    pub chunks: usize,
}

/// Puts all records of a shard to the fronts of four lists. `counts` says how many there are of
/// each, also if they do not fit; then all lists stay. After an error the counts are 0.
#[unsafe(no_mangle)]
pub extern "C" fn xet_records(
    alloc: Global,
    shard: &[u8],
    files: &mut [XetListedFile],
    segments: &mut [XetFileSegment],
    xorbs: &mut [XetListedXorb],
    chunks: &mut [XetChunk],
    counts: &mut XetCounts,
) -> u32
    ensures { (found : CoreResult Records)
        × MatchResult found (HasRecords shard.now) (RefusesRecords shard.now)
        × (ShowsRecords found
        (record { files = files.old; segments = segments.old; xorbs = xorbs.old; chunks = chunks.old })
        (record { files = files.new; segments = segments.new; xorbs = xorbs.new; chunks = chunks.new })
        counts.new result
        ⊎ ((result ≡ 18) × (counts.new ≡ no_counts) × (files.new ≡ files.old)
        × (segments.new ≡ segments.old) × (xorbs.new ≡ xorbs.old) × (chunks.new ≡ chunks.old))) }
{
    let found = read_records(alloc, shard);
    show_records(alloc, &found, files, segments, xorbs, chunks, counts)
}

/// Puts records to the fronts of four lists, as [`xet_records`] says.
pub fn show_records(
    alloc: Global,
    found: &Result<Records>,
    files: &mut [XetListedFile],
    segments: &mut [XetFileSegment],
    xorbs: &mut [XetListedXorb],
    chunks: &mut [XetChunk],
    counts: &mut XetCounts,
) -> u32
    ensures { ShowsRecords found.now
        (record { files = files.old; segments = segments.old; xorbs = xorbs.old; chunks = chunks.old })
        (record { files = files.new; segments = segments.new; xorbs = xorbs.new; chunks = chunks.new })
        counts.new result
        ⊎ ((result ≡ 18) × (counts.new ≡ no_counts) × (files.new ≡ files.old)
        × (segments.new ≡ segments.old) × (xorbs.new ≡ xorbs.old) × (chunks.new ≡ chunks.old)) }
{
    *counts = XetCounts {
        files: 0,
        segments: 0,
        xorbs: 0,
        chunks: 0,
    };
    let records = match found {
        Ok(records) => records,
        Err(error) => return error_number(error),
    };
    let Ok(lists) = lists_of(alloc, records) else {
        return XET_OUT_OF_MEMORY;
    };
    *counts = XetCounts {
        files: lists.files.len(),
        segments: lists.segments.len(),
        xorbs: lists.xorbs.len(),
        chunks: lists.chunks.len(),
    };
    if files.len() < lists.files.len()
        || segments.len() < lists.segments.len()
        || xorbs.len() < lists.xorbs.len()
        || chunks.len() < lists.chunks.len()
    {
        return XET_SHORT;
    }
    put(lists.files.as_slice(), files);
    put(lists.segments.as_slice(), segments);
    put(lists.xorbs.as_slice(), xorbs);
    put(lists.chunks.as_slice(), chunks);
    0
}

#[derive(Drop)]
struct Lists {
    files: Vec<XetListedFile>,
    segments: Vec<XetFileSegment>,
    xorbs: Vec<XetListedXorb>,
    chunks: Vec<XetChunk>,
}

fn lists_of(alloc: Global, records: &Records) -> Result<Lists>
    ensures files { IfOk result
        (λ lists. lists.files.items ≡ map c_listed_file records.now.files.items) }
    ensures segments { IfOk result
        (λ lists. lists.segments.items ≡ all_segments records.now.files.items) }
    ensures xorbs { IfOk result
        (λ lists. lists.xorbs.items ≡ map c_listed_xorb records.now.xorbs.items) }
    ensures chunks { IfOk result
        (λ lists. lists.chunks.items ≡ all_chunks records.now.xorbs.items) }
    ensures causes { IfErr result (λ e. e ≡ CoreError.OutOfMemory) }
{
    Ok(Lists {
        files: listed_files(alloc, records.files.as_slice())?,
        segments: segments_of_all(alloc, records.files.as_slice())?,
        xorbs: listed_xorbs(alloc, records.xorbs.as_slice())?,
        chunks: chunks_of_all(alloc, records.xorbs.as_slice())?,
    })
}

fn listed_files(alloc: Global, files: &[MDBFileInfo]) -> Result<Vec<XetListedFile>>
    ensures ok { IfOk result (λ listed. listed.items ≡ map c_listed_file files.now) }
    ensures causes { IfErr result (λ e. e ≡ CoreError.OutOfMemory) }
{
    let mut listed = Vec::with_capacity(alloc, files.len())?;
    for file in files {
        listed.push(listed_file_of(file))?;
    }
    Ok(listed)
}

fn segments_of_all(alloc: Global, files: &[MDBFileInfo]) -> Result<Vec<XetFileSegment>>
    ensures ok { IfOk result (λ segments. segments.items ≡ all_segments files.now) }
    ensures causes { IfErr result (λ e. e ≡ CoreError.OutOfMemory) }
{
    let mut segments = Vec::new(alloc);
    for file in files {
        let own = segments_of(
            alloc,
            file.segments.as_slice(),
            file.verification.as_slice(),
        )?;
        segments.extend_from_slice(own.as_slice())?;
    }
    Ok(segments)
}

fn listed_xorbs(alloc: Global, xorbs: &[MDBXorbInfo]) -> Result<Vec<XetListedXorb>>
    ensures ok { IfOk result (λ listed. listed.items ≡ map c_listed_xorb xorbs.now) }
    ensures causes { IfErr result (λ e. e ≡ CoreError.OutOfMemory) }
{
    let mut listed = Vec::with_capacity(alloc, xorbs.len())?;
    for xorb in xorbs {
        listed.push(listed_xorb_of(xorb))?;
    }
    Ok(listed)
}

fn chunks_of_all(alloc: Global, xorbs: &[MDBXorbInfo]) -> Result<Vec<XetChunk>>
    ensures ok { IfOk result (λ chunks. chunks.items ≡ all_chunks xorbs.now) }
    ensures causes { IfErr result (λ e. e ≡ CoreError.OutOfMemory) }
{
    let mut chunks = Vec::new(alloc);
    for xorb in xorbs {
        push_chunks(&mut chunks, xorb.chunks.as_slice())?;
    }
    Ok(chunks)
}

fn push_chunks(chunks: &mut Vec<XetChunk>, entries: &[XorbChunkSequenceEntry]) -> Result<()>
    ensures ok { OnOk result (chunks.new.items ≡ chunks.old.items ++ map c_chunk entries.now) }
    ensures causes { IfErr result (λ e. e ≡ CoreError.OutOfMemory) }
{
    for entry in entries {
        chunks.push(chunk_of(entry))?;
    }
    Ok(())
}

fn put<T: Copy>(items: &[T], out: &mut [T])
    requires { length items.now ≤ length out.old }
    ensures { IsPut items.now out.old out.new }
{
    out[..items.len()].copy_from_slice(items);
}
