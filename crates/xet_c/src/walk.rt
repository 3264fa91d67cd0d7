//! Walking through the sections of a shard.

ghost use Rattle.std.specs.Prelude.{◌≡◌, ◌⊎◌, ◌+◌, ◌^◌, ◌≤◌, Option, map, IfOk, IfErr};
ghost use Rattle.xet_core_structures.specs.declared.file_structs.MDBFileInfo.{MDBFileInfo};
ghost use Rattle.xet_core_structures.specs.declared.xorb_structs.MDBXorbInfo.{MDBXorbInfo};
ghost use Rattle.xet_core_structures.specs.Errors.{CoreResult};
ghost use Rattle.xet_core_structures.specs.Hash.{words_of};
ghost use Rattle.xet_c.specs.ShownRecords.{IsFileAt, IsXorbAt, ShowsFileAt, ShowsXorbAt, c_bookend, c_file_place, c_xorb_place, c_xorb, c_chunk, chunks_in};

use crate::find::{XetFile, file_of, segments_found};
use crate::output::{XET_OUT_OF_MEMORY, error_number, give};
use crate::segment::XetFileSegment;
use shard_bytes::walk::{file_at, xorb_at};
use std::alloc::Global;
use xet_core_structures::error::{CoreError, Result};
use xet_core_structures::file_structs::MDBFileInfo;
use xet_core_structures::merklehash::MerkleHash;
use xet_core_structures::xorb_structs::{
    MDBXorbInfo, XorbChunkSequenceEntry, XorbChunkSequenceHeader,
};

/// The hash and flags of the record at a row, and the row of the next. At the bookend hash and
/// flags are zero, and the row is its own.
#[repr(C)]
#[derive(Clone, Copy, Drop)]
pub struct XetPlace {
    pub hash: [u64; 4],
    pub flags: u32,
    pub next: u64,
}

/// A xorb's record: the number of its chunks, and its bytes, unpacked and on disk. At the bookend
/// `found` is false and all else is zero.
#[repr(C)]
#[derive(Clone, Copy, Drop)]
pub struct XetXorb {
    pub found: bool,
    pub bytes: u32,
    pub bytes_on_disk: u32,
    pub chunks: usize,
}

/// A chunk of a xorb.
#[repr(C)]
#[derive(Clone, Copy, Drop)]
pub struct XetChunk {
    pub hash: [u64; 4],
    pub start: u32,
    pub bytes: u32,
    pub flags: u32,
    pub reserved: u32,
}

/// As `xet_find_file` for the record at a row of the file section, with its place, which an error
/// other than 19 leaves as it is.
#[unsafe(no_mangle)]
pub extern "C" fn xet_file_at(
    alloc: Global,
    shard: &[u8],
    row: u32,
    place: &mut XetPlace,
    file: &mut XetFile,
    segments: &mut [XetFileSegment],
) -> u32
    ensures { (found : CoreResult (Option MDBFileInfo)) × IsFileAt shard.now row found
        × (ShowsFileAt row found place.old place.new file.old file.new segments.old segments.new
        result
        ⊎ ((result ≡ 18) × (place.new ≡ place.old) × (file.new ≡ file.old)
        × (segments.new ≡ segments.old))) }
{
    let found = file_at(alloc, shard, row);
    show_file(alloc, row, &found, place, file, segments)
}

#[inline(always)]
pub fn show_file(
    alloc: Global,
    row: u32,
    found: &Result<Option<MDBFileInfo>>,
    place: &mut XetPlace,
    file: &mut XetFile,
    segments: &mut [XetFileSegment],
) -> u32
    ensures { ShowsFileAt row found.now place.old place.new file.old file.new segments.old
        segments.new result
        ⊎ ((result ≡ 18) × (place.new ≡ place.old) × (file.new ≡ file.old)
        × (segments.new ≡ segments.old)) }
{
    let found = match found {
        Ok(found) => found,
        Err(error) => return error_number(error),
    };
    let Ok(list) = segments_found(alloc, found) else {
        return XET_OUT_OF_MEMORY;
    };
    *place = file_place(row, found);
    *file = file_of(found);
    let mut count = 0;
    give(list.as_slice(), segments, &mut count)
}

fn file_place(row: u32, found: &Option<MDBFileInfo>) -> XetPlace
    ensures { result ≡ c_file_place row found.now }
{
    match found {
        Some(file) => place(
            file.metadata.file_hash,
            file.metadata.file_flags,
            u64::from(row) + 1 + file.metadata.rows_after(),
        ),
        None => bookend(row),
    }
}

fn place(hash: MerkleHash, flags: u32, next: u64) -> XetPlace
    ensures { result ≡ record { hash = words_of hash; flags = flags; next = next } }
{
    XetPlace {
        hash: [hash.word0, hash.word1, hash.word2, hash.word3],
        flags,
        next,
    }
}

fn bookend(row: u32) -> XetPlace
    ensures { result ≡ c_bookend row }
{
    XetPlace {
        hash: [0; 4],
        flags: 0,
        next: u64::from(row),
    }
}

/// As [`xet_file_at`] for the xorb section, with `xorb` and `chunks`.
#[unsafe(no_mangle)]
pub extern "C" fn xet_xorb_at(
    alloc: Global,
    shard: &[u8],
    row: u32,
    place: &mut XetPlace,
    xorb: &mut XetXorb,
    chunks: &mut [XetChunk],
) -> u32
    ensures { (found : CoreResult (Option MDBXorbInfo)) × IsXorbAt shard.now row found
        × (ShowsXorbAt row found place.old place.new xorb.old xorb.new chunks.old chunks.new result
        ⊎ ((result ≡ 18) × (place.new ≡ place.old) × (xorb.new ≡ xorb.old)
        × (chunks.new ≡ chunks.old))) }
{
    let found = xorb_at(alloc, shard, row);
    show_xorb(alloc, row, &found, place, xorb, chunks)
}

pub fn show_xorb(
    alloc: Global,
    row: u32,
    found: &Result<Option<MDBXorbInfo>>,
    place: &mut XetPlace,
    xorb: &mut XetXorb,
    chunks: &mut [XetChunk],
) -> u32
    ensures { ShowsXorbAt row found.now place.old place.new xorb.old xorb.new chunks.old chunks.new
        result
        ⊎ ((result ≡ 18) × (place.new ≡ place.old) × (xorb.new ≡ xorb.old)
        × (chunks.new ≡ chunks.old)) }
{
    let found = match found {
        Ok(found) => found,
        Err(error) => return error_number(error),
    };
    let Ok(list) = chunks_found(alloc, found) else {
        return XET_OUT_OF_MEMORY;
    };
    *place = xorb_place(row, found);
    *xorb = xorb_of(found);
    let mut count = 0;
    give(list.as_slice(), chunks, &mut count)
}

fn xorb_place(row: u32, found: &Option<MDBXorbInfo>) -> XetPlace
    ensures { result ≡ c_xorb_place row found.now }
{
    match found {
        Some(xorb) => {
            let header = xorb.metadata;
            let next = u64::from(row) + rows_of(header);
            place(header.xorb_hash, header.xorb_flags, next)
        }
        None => bookend(row),
    }
}

// The header is one row.
fn rows_of(header: XorbChunkSequenceHeader) -> u64
    ensures rows { result ≡ 1 + header.num_entries }
    ensures bound { result ≤ 2 ^ 32 }
{
    1 + u64::from(header.num_entries)
}

fn xorb_of(found: &Option<MDBXorbInfo>) -> XetXorb
    ensures { result ≡ c_xorb found.now }
{
    match found {
        Some(xorb) => XetXorb {
            found: true,
            bytes: xorb.metadata.num_bytes_in_xorb,
            bytes_on_disk: xorb.metadata.num_bytes_on_disk,
            chunks: xorb.chunks.len(),
        },
        None => XetXorb {
            found: false,
            bytes: 0,
            bytes_on_disk: 0,
            chunks: 0,
        },
    }
}

fn chunks_found(alloc: Global, found: &Option<MDBXorbInfo>) -> Result<Vec<XetChunk>>
    ensures ok { IfOk result (λ list. list.items ≡ chunks_in found.now) }
    ensures causes { IfErr result (λ e. e ≡ CoreError.OutOfMemory) }
{
    match found {
        Some(xorb) => chunks_of(alloc, xorb.chunks.as_slice()),
        None => Ok(Vec::new(alloc)),
    }
}

fn chunks_of(alloc: Global, entries: &[XorbChunkSequenceEntry]) -> Result<Vec<XetChunk>>
    ensures ok { IfOk result (λ chunks. chunks.items ≡ map c_chunk entries.now) }
    ensures causes { IfErr result (λ e. e ≡ CoreError.OutOfMemory) }
{
    let mut chunks = Vec::new(alloc);
    for entry in entries {
        chunks.push(chunk_of(entry))?;
    }
    Ok(chunks)
}

pub fn chunk_of(entry: &XorbChunkSequenceEntry) -> XetChunk
    ensures { result ≡ c_chunk entry.now }
{
    let hash = entry.chunk_hash;
    XetChunk {
        hash: [hash.word0, hash.word1, hash.word2, hash.word3],
        start: entry.chunk_byte_range_start,
        bytes: entry.unpacked_segment_bytes,
        flags: entry.flags,
        reserved: entry._unused,
    }
}
