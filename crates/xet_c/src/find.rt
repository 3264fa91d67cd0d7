//! Lookups of files.

ghost use Rattle.std.specs.Prelude.{◌≡◌, ◌⊎◌, [], Option, map, unwrap_or, IfOk, IfErr, MatchResult};
ghost use Rattle.xet_core_structures.specs.declared.file_structs.MDBFileInfo.{MDBFileInfo};
ghost use Rattle.xet_core_structures.specs.declared.merklehash.DataHash.{DataHash};
ghost use Rattle.xet_core_structures.specs.Errors.{CoreResult};
ghost use Rattle.shard_bytes.specs.Finding.{AnswersLookup, RefusesLookup};
ghost use Rattle.shard_bytes.specs.declared.records.Records.{Records};
ghost use Rattle.xet_c.specs.Arguments.{c_file, c_hash, segments_in};
ghost use Rattle.xet_c.specs.ListedFiles.{AreFoundFiles, RefusesFiles, no_file};
ghost use Rattle.xet_c.specs.ListedRecords.{ShowsRecords, no_counts};
ghost use Rattle.xet_c.specs.ShownFiles.{ShowsFile};

use crate::hash::{XetHash, hashes_of, words_or_zero};
use crate::listed::XetListedFile;
use crate::records::{XetCounts, show_records};
use crate::segment::{XetFileSegment, segments_of};
use crate::walk::{XetPlace, show_file};
use shard_bytes::find::{find_file, find_files};
use shard_bytes::records::Records;
use std::alloc::Global;
use xet_core_structures::error::{CoreError, Result};
use xet_core_structures::file_structs::{FileDataSequenceHeader, MDBFileInfo};
use xet_core_structures::merklehash::MerkleHash;
use xet_core_structures::rows::Rows;

/// A file's record. A hash that it does not have is zeros. If there is no such file, `found` is
/// false and all else is zero.
#[repr(C)]
#[derive(Clone, Copy, Drop)]
pub struct XetFile {
    pub found: bool,
    pub has_verification: bool,
    pub has_sha256: bool,
    pub has_aux: bool,
    pub flags: u32,
    pub segments: usize,
    pub sha256: [u64; 4],
    pub aux_hash: [u64; 4],
    pub reserved: u64,
}

/// Looks a file up, and puts its segments to the front of `segments`. If the result is 19 they do
/// not fit, `file` says how many there are, and `segments` stays. After another error both stay.
#[unsafe(no_mangle)]
pub extern "C" fn xet_find_file(
    alloc: Global,
    shard: &[u8],
    hash: &XetHash,
    file: &mut XetFile,
    segments: &mut [XetFileSegment],
) -> u32
    ensures { (h : DataHash) × (found : CoreResult (Option MDBFileInfo)) × (c_hash h ≡ hash.now)
        × MatchResult found (AnswersLookup shard.now h) (RefusesLookup shard.now h)
        × (ShowsFile found file.old file.new segments.old segments.new result
        ⊎ ((result ≡ 18) × (file.new ≡ file.old) × (segments.new ≡ segments.old))) }
{
    let hash = MerkleHash::from(hash.words);
    let found = find_file(alloc, shard, &hash);
    let mut place = XetPlace {
        hash: [0; 4],
        flags: 0,
        next: 0,
    };
    show_file(alloc, 0, &found, &mut place, file, segments)
}

/// Looks files up, and puts a listed file for each hash, in their order, and the segments of all to
/// the fronts of two lists. One that is not found has the hash of a bookend, and zeros else.
/// `counts` says how many there are of each, also if they do not fit; then both lists stay. After
/// an error the counts are 0.
#[unsafe(no_mangle)]
pub extern "C" fn xet_find_files(
    alloc: Global,
    shard: &[u8],
    hashes: &[XetHash],
    files: &mut [XetListedFile],
    segments: &mut [XetFileSegment],
    counts: &mut XetCounts,
) -> u32
    ensures { (found : CoreResult Records)
        × MatchResult found (AreFoundFiles shard.now hashes.now)
        (RefusesFiles shard.now hashes.now)
        × (ShowsRecords found
        (record { files = files.old; segments = segments.old; xorbs = []; chunks = [] })
        (record { files = files.new; segments = segments.new; xorbs = []; chunks = [] })
        counts.new result
        ⊎ ((result ≡ 18) × (counts.new ≡ no_counts) × (files.new ≡ files.old)
        × (segments.new ≡ segments.old))) }
{
    let found = found_files(alloc, shard, hashes);
    show_records(alloc, &found, files, segments, &mut [], &mut [], counts)
}

// What is found, as the records of a shard without xorbs.
fn found_files(alloc: Global, shard: &[u8], hashes: &[XetHash]) -> Result<Records>
    ensures { MatchResult result (AreFoundFiles shard.now hashes.now)
        (RefusesFiles shard.now hashes.now) }
{
    let hashes = hashes_of(alloc, hashes)?;
    let found = find_files(alloc, shard, hashes.as_slice())?;
    Ok(Records {
        files: files_or_none(alloc, found)?,
        xorbs: Vec::new(alloc),
    })
}

fn files_or_none(alloc: Global, found: Vec<Option<MDBFileInfo>>) -> Result<Vec<MDBFileInfo>>
    ensures ok { IfOk result
        (λ files. files.items ≡ map (λ file. unwrap_or file no_file) found.items) }
    ensures causes { IfErr result (λ e. e ≡ CoreError.OutOfMemory) }
{
    let mut files = Vec::with_capacity(alloc, found.len())?;
    for file in found {
        files.push(file.unwrap_or(no_file(alloc)))?;
    }
    Ok(files)
}

// A bookend, which stands for a file that is not found.
fn no_file(alloc: Global) -> MDBFileInfo
    ensures { result ≡ no_file }
{
    MDBFileInfo {
        metadata: FileDataSequenceHeader::bookend(),
        segments: Rows::new(alloc),
        verification: Rows::new(alloc),
        metadata_ext: None,
        aux_ext: None,
    }
}

#[inline(always)]
pub fn segments_found(alloc: Global, found: &Option<MDBFileInfo>) -> Result<Vec<XetFileSegment>>
    ensures ok { IfOk result (λ list. list.items ≡ segments_in found.now) }
    ensures causes { IfErr result (λ e. e ≡ CoreError.OutOfMemory) }
{
    match found {
        Some(record) => segments_of(
            alloc,
            record.segments.as_slice(),
            record.verification.as_slice(),
        ),
        None => Ok(Vec::new(alloc)),
    }
}

#[inline(always)]
pub fn file_of(found: &Option<MDBFileInfo>) -> XetFile
    ensures { result ≡ c_file found.now }
{
    let Some(record) = found else {
        return XetFile {
            found: false,
            has_verification: false,
            has_sha256: false,
            has_aux: false,
            flags: 0,
            segments: 0,
            sha256: [0; 4],
            aux_hash: [0; 4],
            reserved: 0,
        };
    };
    let sha256 = record.metadata_ext.map(|row| row.sha256);
    let aux_hash = record.aux_ext.map(|row| row.aux_hash);
    XetFile {
        found: true,
        has_verification: record.contains_verification(),
        has_sha256: sha256.is_some(),
        has_aux: aux_hash.is_some(),
        flags: record.metadata.file_flags,
        segments: record.segments.len(),
        sha256: words_or_zero(sha256),
        aux_hash: words_or_zero(aux_hash),
        reserved: record.metadata._unused,
    }
}
