//! Files and xorbs in lists, with all segments and all chunks in two other lists.

ghost use Rattle.std.specs.Prelude.{◌≡◌, [], ◌∷◌};
ghost use Rattle.xet_core_structures.specs.Hash.{words_of};
ghost use Rattle.xet_c.specs.Arguments.{c_segment};
ghost use Rattle.xet_c.specs.ShownRecords.{c_chunk};
ghost use Rattle.xet_c.specs.ListedRecords.{c_listed_file, c_listed_xorb};

use crate::hash::words_or_zero;
use crate::segment::XetFileSegment;
use crate::walk::XetChunk;
use xet_core_structures::file_structs::{
    FileDataSequenceEntry, FileDataSequenceHeader, FileVerificationEntry, MDBFileInfo,
};
use xet_core_structures::merklehash::MerkleHash;
use xet_core_structures::xorb_structs::{
    MDBXorbInfo, XorbChunkSequenceEntry, XorbChunkSequenceHeader,
};

/// A file of a list, and the number of its segments. The flags say which of SHA-256 and auxiliary
/// hash it has; one that it lacks is zeros.
#[repr(C)]
#[derive(Clone, Copy, Drop)]
pub struct XetListedFile {
    pub hash: [u64; 4],
    pub sha256: [u64; 4],
    pub aux_hash: [u64; 4],
    pub flags: u32,
    pub segments: u32,
}

/// A xorb of a list, the number of its chunks, and its bytes, unpacked and on disk.
#[repr(C)]
#[derive(Clone, Copy, Drop)]
pub struct XetListedXorb {
    pub hash: [u64; 4],
    pub flags: u32,
    pub chunks: u32,
    pub bytes: u32,
    pub bytes_on_disk: u32,
}

pub fn listed_file_of(file: &MDBFileInfo) -> XetListedFile
    ensures { result ≡ c_listed_file file.now }
{
    let hash = file.metadata.file_hash;
    let sha256 = file.metadata_ext.map(|row| row.sha256);
    let aux_hash = file.aux_ext.map(|row| row.aux_hash);
    XetListedFile {
        hash: [hash.word0, hash.word1, hash.word2, hash.word3],
        sha256: words_or_zero(sha256),
        aux_hash: words_or_zero(aux_hash),
        flags: file.metadata.file_flags,
        segments: file.metadata.num_entries,
    }
}

pub fn listed_xorb_of(xorb: &MDBXorbInfo) -> XetListedXorb
    ensures { result ≡ c_listed_xorb xorb.now }
{
    let header = xorb.metadata;
    let hash = header.xorb_hash;
    XetListedXorb {
        hash: [hash.word0, hash.word1, hash.word2, hash.word3],
        flags: header.xorb_flags,
        chunks: header.num_entries,
        bytes: header.num_bytes_in_xorb,
        bytes_on_disk: header.num_bytes_on_disk,
    }
}

pub fn file_header_of(file: &XetListedFile) -> FileDataSequenceHeader
    ensures hash { words_of result.file_hash ≡ file.now.hash }
    ensures flags { result.file_flags ≡ file.now.flags }
    ensures count { result.num_entries ≡ file.now.segments }
    ensures reserved { result._unused ≡ 0 }
{
    FileDataSequenceHeader {
        file_hash: MerkleHash::from(file.hash),
        file_flags: file.flags,
        num_entries: file.segments,
        _unused: 0,
    }
}

pub fn xorb_header_of(xorb: &XetListedXorb) -> XorbChunkSequenceHeader
    ensures hash { words_of result.xorb_hash ≡ xorb.now.hash }
    ensures flags { result.xorb_flags ≡ xorb.now.flags }
    ensures count { result.num_entries ≡ xorb.now.chunks }
    ensures bytes { result.num_bytes_in_xorb ≡ xorb.now.bytes }
    ensures disk { result.num_bytes_on_disk ≡ xorb.now.bytes_on_disk }
{
    XorbChunkSequenceHeader {
        xorb_hash: MerkleHash::from(xorb.hash),
        xorb_flags: xorb.flags,
        num_entries: xorb.chunks,
        num_bytes_in_xorb: xorb.bytes,
        num_bytes_on_disk: xorb.bytes_on_disk,
    }
}

pub fn entry_of(segment: &XetFileSegment) -> FileDataSequenceEntry
    ensures { c_segment result ≡ segment.now.segment }
{
    let entry = segment.segment;
    FileDataSequenceEntry {
        xorb_hash: MerkleHash::from(entry.xorb),
        xorb_flags: entry.flags,
        unpacked_segment_bytes: entry.bytes,
        chunk_index_start: entry.start,
        chunk_index_end: entry.end,
    }
}

pub fn verification_row_of(segment: &XetFileSegment) -> FileVerificationEntry
    ensures hash { words_of result.hash ≡ segment.now.verification }
    ensures reserved { result._unused ≡ 0 ∷ 0 ∷ [] }
{
    FileVerificationEntry::new(MerkleHash::from(segment.verification))
}

pub fn chunk_row_of(chunk: &XetChunk) -> XorbChunkSequenceEntry
    ensures { c_chunk result ≡ chunk.now }
{
    XorbChunkSequenceEntry {
        chunk_hash: MerkleHash::from(chunk.hash),
        chunk_byte_range_start: chunk.start,
        unpacked_segment_bytes: chunk.bytes,
        flags: chunk.flags,
        _unused: chunk.reserved,
    }
}
