//! A line for each of the callers.

use callers::uses::export::export_and_merge;
use callers::uses::find::open_and_find;
use callers::uses::merge::merge_and_find;
use callers::uses::query::stored_chunks;
use callers::uses::write::write_shard;
use std::alloc::Global;
use std::io;
use std::io::{ErrorKind, Write};
use xet_core_structures::error::{CoreError, Result};
use xet_core_structures::file_structs::{
    FileDataSequenceEntry, FileDataSequenceHeader, MDBFileInfo,
};
use xet_core_structures::merklehash::MerkleHash;
use xet_core_structures::rows::Rows;
use xet_core_structures::set_operations::MergePlan;
use xet_core_structures::source::MemorySource;
use xet_core_structures::xorb_structs::{
    MDBXorbInfo, XorbChunkSequenceEntry, XorbChunkSequenceHeader,
};

// A day, in seconds.
const DAY: u64 = 86400;

/// Makes two shards, calls each of the callers on them, and prints what it returns. An error of a
/// caller is `Other`.
pub fn run_callers<W: Write>(alloc: Global, out: &mut W) -> io::Result<()> {
    match print_all(alloc, out) {
        Err(CoreError::Io(error)) => Err(error),
        Err(_) => Err(io::Error::from(ErrorKind::Other)),
        Ok(()) => Ok(()),
    }
}

fn print_all<W: Write>(alloc: Global, out: &mut W) -> Result<()> {
    let one = write_shard(alloc, file(alloc, 100, 200)?, xorb(alloc, 200, &[20, 21])?)?;
    let other = write_shard(alloc, file(alloc, 101, 201)?, xorb(alloc, 201, &[22])?)?;
    writeln!(
        out,
        "write_shard: shards of {} and {} bytes",
        one.len(),
        other.len()
    )?;
    print_found(alloc, one.as_slice(), 100, out)?;
    print_found(alloc, one.as_slice(), 101, out)?;
    print_stored(alloc, one.as_slice(), &[hash(21), hash(22)], out)?;
    print_merged(alloc, &[one.as_slice(), other.as_slice()], 101, out)?;
    print_exported(alloc, one.as_slice(), other.as_slice(), out)
}

fn print_found<W: Write>(alloc: Global, shard: &[u8], number: u64, out: &mut W) -> Result<()> {
    let mut source = MemorySource::new(shard);
    match open_and_find(alloc, &mut source, &hash(number))? {
        Some(file) => writeln!(
            out,
            "open_and_find {number}: a file, segments {}",
            file.segments.len()
        )?,
        None => writeln!(out, "open_and_find {number}: none")?,
    }
    Ok(())
}

fn print_stored<W: Write>(
    alloc: Global,
    shard: &[u8],
    chunks: &[MerkleHash],
    out: &mut W,
) -> Result<()> {
    let asked = chunks.len();
    match stored_chunks(alloc, shard, chunks)? {
        Some((stored, run)) => writeln!(
            out,
            "stored_chunks: {stored} of {asked}, from chunk {} on",
            run.chunk_index_start
        )?,
        None => writeln!(out, "stored_chunks: none of {asked}")?,
    }
    Ok(())
}

fn print_merged<W: Write>(alloc: Global, shards: &[&[u8]], number: u64, out: &mut W) -> Result<()> {
    let first = Box::new(alloc, MergePlan::Leaf(0))?;
    let second = Box::new(alloc, MergePlan::Leaf(1))?;
    let plan = MergePlan::Both(first, second);
    let (merged, found) = merge_and_find(alloc, &plan, shards, &hash(number))?;
    writeln!(
        out,
        "merge_and_find {number}: {} bytes, {}",
        merged.len(),
        if found.is_some() { "found" } else { "none" }
    )?;
    Ok(())
}

fn print_exported<W: Write>(alloc: Global, one: &[u8], other: &[u8], out: &mut W) -> Result<()> {
    let merged = export_and_merge(alloc, one, other, hash(9), DAY, DAY)?;
    writeln!(out, "export_and_merge: {} bytes", merged.len())?;
    match export_and_merge(alloc, one, other, hash(9), u64::MAX, DAY) {
        Err(CoreError::InvalidArguments) => {
            writeln!(out, "export_and_merge with a late expiry: refused")?
        }
        Err(error) => return Err(error),
        Ok(_) => writeln!(out, "export_and_merge with a late expiry: not refused")?,
    }
    Ok(())
}

// A file of one segment, the first chunk of a xorb, which has 5 bytes.
fn file(alloc: Global, number: u64, xorb: u64) -> Result<MDBFileInfo> {
    let mut segments = Rows::new(alloc);
    segments.push(FileDataSequenceEntry::new(hash(xorb), 5, 0, 1))?;
    Ok(MDBFileInfo {
        metadata: FileDataSequenceHeader::new(hash(number), 1, false, false),
        segments,
        verification: Rows::new(alloc),
        metadata_ext: None,
        aux_ext: None,
    })
}

// A xorb of chunks of 5 bytes each.
fn xorb(alloc: Global, number: u64, chunks: &[u64]) -> Result<MDBXorbInfo> {
    let mut rows = Rows::new(alloc);
    let (mut count, mut size) = (0_u32, 0_u32);
    for chunk in chunks {
        rows.push(XorbChunkSequenceEntry::new(hash(*chunk), 5, size))?;
        count = count.saturating_add(1);
        size = size.saturating_add(5);
    }
    Ok(MDBXorbInfo {
        metadata: XorbChunkSequenceHeader::new(hash(number), count, size),
        chunks: rows,
    })
}

fn hash(number: u64) -> MerkleHash {
    MerkleHash::from([number, 1, 0, 0])
}
