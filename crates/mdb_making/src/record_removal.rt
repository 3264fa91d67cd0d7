//! The command that takes records out of a shard.

use mdb_assembly::block::{put_bookend, put_footer};
use mdb_base::expiry::{new_expiry, with_expiry_if_any};
use mdb_base::failure::Failure;
use mdb_base::input_failure::{combine_failure, combine_failure_in};
use mdb_base::outputs::bytes_in_file;
use mdb_base::request::{Removal, Target};
use mdb_report::fault::{Fault, fault_of};
use mdb_report::section::SectionReader;
use shard_bytes::combine::{Operation, combine_bytes};
use shard_bytes::load::load_bytes;
use std::alloc::Global;
use std::rt::Files;
use xet_core_structures::error::Result as ShardResult;
use xet_core_structures::file_structs::FileDataSequenceHeader;
use xet_core_structures::merklehash::{HMACKey, MerkleHash};
use xet_core_structures::record_reader::FormatVersion;
use xet_core_structures::rows::ROW_SIZE;
use xet_core_structures::shard_format::{MDBShardFileHeader, MDBShardInfo};
use xet_core_structures::shard_writer::bytes_from;
use xet_core_structures::xorb_structs::XorbChunkSequenceHeader;

/// The bytes of a shard without the files and xorbs that have some hashes, in the version of a
/// target: its difference from a shard of records with these hashes. A hash that no record has is
/// reported, and is a failure.
pub fn remove_records<'a, R: Files + Input + Eprint + AllocGlobal>(
    rt: &R,
    removal: &Removal<'a>,
    target: Target<'a>,
) -> Result<Vec<u8>, Failure<'a>> {
    let alloc = rt.alloc();
    let file = removal.file;
    let bytes = bytes_in_file(rt, file)?;
    let bytes = bytes.as_slice();
    let hashes = removal.hashes.as_slice();
    let info = match load_bytes(alloc, bytes) {
        Ok(info) => info,
        Err(error) => return Err(Failure::on_file(file, fault_of(alloc, bytes, error))),
    };
    has_records(rt, file, bytes, &info, hashes)?;
    let expiry = new_expiry(alloc, removal.expiry, &[file], &[bytes])?;
    match difference(
        alloc,
        bytes,
        info.metadata.chunk_hash_hmac_key,
        hashes,
        target.version,
    ) {
        Ok(rest) => match with_expiry_if_any(alloc, rest, expiry) {
            Ok(rest) => Ok(rest),
            Err(_) => Err(Failure::on_file(file, Fault::OutOfMemory)),
        },
        Err(error) => Err(combine_failure_in(alloc, &[file], &[bytes], target, error)),
    }
}

// The difference of a shard under a key from a shard of these hashes, in a version.
fn difference(
    alloc: Global,
    bytes: &[u8],
    key: HMACKey,
    hashes: &[MerkleHash],
    version: FormatVersion,
) -> ShardResult<Vec<u8>> {
    let removed = hash_shard(alloc, hashes, key)?;
    combine_bytes(
        alloc,
        Operation::Difference,
        removed.as_slice(),
        bytes,
        version,
    )
}

// Reports each hash that no record of the shard has, and fails if there is one.
fn has_records<'a, R: Eprint + AllocGlobal>(
    rt: &R,
    file: &'a str,
    bytes: &[u8],
    info: &MDBShardInfo,
    hashes: &[MerkleHash],
) -> Result<(), Failure<'a>> {
    let alloc = rt.alloc();
    let mut known = match record_hashes(alloc, bytes, info) {
        Ok(known) => known,
        Err(error) => return Err(combine_failure(alloc, &[file], &[bytes], error)),
    };
    known.as_mut_slice().sort_unstable();
    let mut lacking = None;
    for hash in hashes {
        if known.as_slice().binary_search(hash).is_ok() {
            continue;
        }
        if let Some(before) = lacking {
            let _ = rt.eprintln(&Failure::on_file(file, Fault::NoRecord(before)));
        }
        lacking = Some(*hash);
    }
    match lacking {
        Some(last) => Err(Failure::on_file(file, Fault::NoRecord(last))),
        None => Ok(()),
    }
}

// The hashes of the files and of the xorbs of a shard.
fn record_hashes(alloc: Global, bytes: &[u8], info: &MDBShardInfo) -> ShardResult<Vec<MerkleHash>> {
    let version = FormatVersion::of_header(info.header.version);
    let mut hashes = Vec::new(alloc);
    let files = bytes_from(bytes, info.metadata.file_info_offset);
    push_file_hashes(
        alloc,
        SectionReader::new(files, version),
        bytes.len(),
        &mut hashes,
    )?;
    let xorbs = bytes_from(bytes, info.metadata.xorb_info_offset);
    push_xorb_hashes(
        alloc,
        SectionReader::new(xorbs, version),
        bytes.len(),
        &mut hashes,
    )?;
    Ok(hashes)
}

fn push_file_hashes(
    alloc: Global,
    mut files: SectionReader<&[u8]>,
    most: usize,
    hashes: &mut Vec<MerkleHash>,
) -> ShardResult<()> {
    for _ in 0..most {
        match files.next_file(alloc)? {
            Some(file) => hashes.push(file.metadata.file_hash)?,
            None => break,
        }
    }
    Ok(())
}

fn push_xorb_hashes(
    alloc: Global,
    mut xorbs: SectionReader<&[u8]>,
    most: usize,
    hashes: &mut Vec<MerkleHash>,
) -> ShardResult<()> {
    for _ in 0..most {
        match xorbs.next_xorb(alloc)? {
            Some(xorb) => hashes.push(xorb.metadata.xorb_hash)?,
            None => break,
        }
    }
    Ok(())
}

// The bytes of a shard under a key that has, for each of some hashes, a file without segments and a
// xorb without chunks, and no tables.
fn hash_shard(alloc: Global, hashes: &[MerkleHash], key: HMACKey) -> ShardResult<Vec<u8>> {
    let mut sorted = Vec::from_slice(alloc, hashes)?;
    sorted.as_mut_slice().sort_unstable();
    sorted.dedup();
    let mut bytes = Vec::new(alloc);
    MDBShardFileHeader::of_version(FormatVersion::V3).serialize(&mut bytes)?;
    for hash in &sorted {
        FileDataSequenceHeader::new(*hash, 0, false, false).serialize(&mut bytes)?;
    }
    put_bookend(&mut bytes)?;
    for hash in &sorted {
        XorbChunkSequenceHeader::new(*hash, 0, 0).serialize(&mut bytes)?;
    }
    put_bookend(&mut bytes)?;
    let rows = sorted.len().saturating_mul(ROW_SIZE);
    put_footer(alloc, &mut bytes, rows, rows, key)?;
    Ok(bytes)
}
