//! Operations that count what they read or find.
//!
//! Each is compiled by itself. In the function that chooses an operation, their loops would have to
//! share its registers. `files_found_in_bytes` has one caller, a loop, and may be inlined there.

use crate::start::{add_files, add_xorbs};
use shard_bytes::find::find_file;
use std::alloc::Global;
use xet_core_structures::error::Result;
use xet_core_structures::merklehash::MerkleHash;
use xet_core_structures::shard_format::{MDBShardInfo, MOST_FOUND};
use xet_core_structures::shard_in_memory::MDBInMemoryShard;
use xet_core_structures::source::MemorySource;
use xet_core_structures::streaming_shard::MDBMinimalShard;

/// The number of hashes of a query for chunks.
const QUERY_LENGTH: usize = 8;

/// The records of both sections, read as views.
#[inline(never)]
pub fn minimal_records(alloc: Global, mut shard: &[u8]) -> Result<u64> {
    let minimal = MDBMinimalShard::from_reader(alloc, &mut shard, true, true)?;
    Ok((minimal.num_files() as u64).wrapping_add(minimal.num_xorb() as u64))
}

/// The files of a shard, added to one in memory.
#[inline(never)]
pub fn files_added(alloc: Global, shard: &[u8]) -> Result<u64> {
    let mut added = MDBInMemoryShard::new(alloc);
    add_files(alloc, shard, &mut added)?;
    Ok(added.num_file_entries() as u64)
}

/// The xorbs of a shard, added to one in memory.
#[inline(never)]
pub fn xorbs_added(alloc: Global, shard: &[u8]) -> Result<u64> {
    let mut added = MDBInMemoryShard::new(alloc);
    add_xorbs(alloc, shard, &mut added)?;
    Ok(added.num_xorb_entries() as u64)
}

/// The files that a shard has, of which header and footer were read.
#[inline(never)]
pub fn files_found(
    alloc: Global,
    info: &MDBShardInfo,
    shard: &[u8],
    files: &[MerkleHash],
) -> Result<u64> {
    let mut source = MemorySource::new(shard);
    let mut found: u64 = 0;
    for file in files {
        if info
            .get_file_reconstruction_info(alloc, &mut source, file)?
            .is_some()
        {
            found = found.wrapping_add(1);
        }
    }
    Ok(found)
}

/// The files that a shard has. Its header and footer are read for each.
pub fn files_found_in_bytes(alloc: Global, shard: &[u8], files: &[MerkleHash]) -> Result<u64> {
    let mut found: u64 = 0;
    for file in files {
        if find_file(alloc, shard, file)?.is_some() {
            found = found.wrapping_add(1);
        }
    }
    Ok(found)
}

/// The rows of the file table that have the first word of a hash.
#[inline(never)]
pub fn rows_found(
    alloc: Global,
    info: &MDBShardInfo,
    shard: &[u8],
    files: &[MerkleHash],
) -> Result<u64> {
    let mut source = MemorySource::new(shard);
    let mut dest = [0; MOST_FOUND];
    let mut rows: u64 = 0;
    for file in files {
        let found = info.get_file_info_index_by_hash(alloc, &mut source, file, &mut dest)?;
        rows = rows.wrapping_add(found as u64);
    }
    Ok(rows)
}

/// The chunks in the runs that are found of each `QUERY_LENGTH` hashes.
#[inline(never)]
pub fn chunks_found(
    alloc: Global,
    info: &MDBShardInfo,
    shard: &[u8],
    hashes: &[MerkleHash],
) -> Result<u64> {
    let mut source = MemorySource::new(shard);
    let mut chunks: u64 = 0;
    for query in hashes.chunks(QUERY_LENGTH) {
        if let Some((count, _)) = info.chunk_hash_dedup_query(alloc, &mut source, query)? {
            chunks = chunks.wrapping_add(count as u64);
        }
    }
    Ok(chunks)
}

/// The same of a shard that is in memory.
#[inline(never)]
pub fn chunks_found_in_memory(shard: &MDBInMemoryShard, hashes: &[MerkleHash]) -> u64 {
    let mut chunks: u64 = 0;
    for query in hashes.chunks(QUERY_LENGTH) {
        if let Some((count, _)) = shard.chunk_hash_dedup_query(query) {
            chunks = chunks.wrapping_add(count as u64);
        }
    }
    chunks
}
