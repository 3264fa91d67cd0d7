//! Blocks: the next records of a section, as a shard.

use crate::counts::{Counts, with_rows};
use shard_bytes::check::Section;
use std::alloc::Global;
use xet_core_structures::error::{CoreError, Result};
use xet_core_structures::file_structs::MDBFileInfo;
use xet_core_structures::input::OfReader;
use xet_core_structures::merklehash::{HMACKey, MerkleHash};
use xet_core_structures::record_reader::{FormatVersion, SectionRecord, read_header};
use xet_core_structures::rows::{ROW_LIMIT, ROW_SIZE};
use xet_core_structures::shard_format::{HEADER_SIZE, MDBShardFileHeader, MDBShardInfo};
use xet_core_structures::xorb_structs::{MDBXorbInfo, XorbChunkSequenceHeader};

/// How far a section is read.
#[derive(Clone, Copy)]
pub struct Mark {
    /// The bytes of the records read.
    pub bytes: usize,
    /// The hash of the last of them, else of the one before.
    pub last: Option<MerkleHash>,
    /// The rows that the section may still have.
    pub rows_left: u64,
    /// Whether the bookend comes next.
    pub ended: bool,
}

impl Mark {
    /// Where a section begins.
    pub fn start() -> Mark {
        Mark {
            bytes: 0,
            last: None,
            rows_left: ROW_LIMIT,
            ended: false,
        }
    }

    /// Whether the section has ended, or its last hash is not below `goal`.
    pub fn reaches(&self, goal: &MerkleHash) -> bool {
        match self.last {
            _ if self.ended => true,
            Some(last) => last >= *goal,
            None => false,
        }
    }
}

/// A shard's bytes up to a section, and the section's rows read.
#[derive(Drop)]
pub struct Block {
    pub bytes: Vec<u8>,
    section: Section,
    version: FormatVersion,
}

impl Block {
    /// A block without rows, with room for so many bytes.
    pub fn new(
        alloc: Global,
        section: Section,
        version: FormatVersion,
        room: usize,
    ) -> Result<Block> {
        let empty = MDBShardInfo::non_content_byte_size() as usize;
        let mut bytes = Vec::with_capacity(alloc, room.saturating_add(empty))?;
        MDBShardFileHeader::of_version(version).serialize(&mut bytes)?;
        if section == Section::Xorbs {
            put_bookend(&mut bytes)?;
        }
        Ok(Block {
            bytes,
            section,
            version,
        })
    }

    /// The mark behind the last whole record after a mark and up to a hash.
    ///
    /// `InvalidShard` if the version lacks a record's header, the rows pass 4294967295 or the
    /// hashes do not strictly ascend.
    pub fn read(&self, alloc: Global, after: Mark, limit: Option<MerkleHash>) -> Result<Mark> {
        let rows = rows_of(self.bytes.as_slice(), self.section);
        match self.section {
            Section::Files => read_records::<MDBFileInfo>(alloc, rows, self.version, after, limit),
            Section::Xorbs => read_records::<MDBXorbInfo>(alloc, rows, self.version, after, limit),
        }
    }

    /// The shard of the records in the first `rows` bytes, without tables.
    pub fn shard_of(self, alloc: Global, rows: usize, key: HMACKey) -> Result<Vec<u8>> {
        let Block {
            mut bytes,
            section,
            ..
        } = self;
        bytes.truncate(rows_start(section).saturating_add(rows));
        let rows = rows_of(bytes.as_slice(), section).len();
        put_bookend(&mut bytes)?;
        match section {
            Section::Files => {
                put_bookend(&mut bytes)?;
                put_footer(alloc, &mut bytes, rows, 0, key)?;
            }
            Section::Xorbs => put_footer(alloc, &mut bytes, 0, rows, key)?,
        }
        Ok(bytes)
    }
}

/// Puts the footer of a shard without tables, whose sections have so many bytes without bookends.
/// `InvalidShard` if the rows of one pass 32 bits.
pub fn put_footer(
    alloc: Global,
    bytes: &mut Vec<u8>,
    files: usize,
    xorbs: usize,
    key: HMACKey,
) -> Result<()> {
    let counts = Counts {
        file_rows: with_rows(alloc, 0, files as u64, ROW_SIZE as u64)?,
        xorb_rows: with_rows(alloc, 0, xorbs as u64, ROW_SIZE as u64)?,
        ..Counts::none()
    };
    counts.footer(key, None).serialize(bytes)?;
    Ok(())
}

fn rows_of(bytes: &[u8], section: Section) -> &[u8] {
    match bytes.get(rows_start(section)..) {
        Some(rows) => rows,
        None => &[],
    }
}

// The rows of xorbs are behind the bookend of the files.
fn rows_start(section: Section) -> usize {
    match section {
        Section::Files => HEADER_SIZE as usize,
        Section::Xorbs => HEADER_SIZE as usize + ROW_SIZE,
    }
}

/// Puts a section's bookend behind its rows.
pub fn put_bookend(bytes: &mut Vec<u8>) -> Result<()> {
    XorbChunkSequenceHeader::bookend().serialize(bytes)?;
    Ok(())
}

fn read_records<S: SectionRecord>(
    alloc: Global,
    rows: &[u8],
    version: FormatVersion,
    after: Mark,
    limit: Option<MerkleHash>,
) -> Result<Mark> {
    let mut mark = Mark { bytes: 0, ..after };
    for _ in 0..rows.len() {
        let Some(rest) = rows.get(mark.bytes..) else {
            break;
        };
        if rest.len() < ROW_SIZE {
            break;
        }
        let mut input = rest;
        let mut rows_left = mark.rows_left;
        let header = read_header::<S, OfReader, &[u8]>(alloc, &mut input, version, &mut rows_left)?;
        let Some(header) = header else {
            mark.ended = true;
            break;
        };
        let hash = S::hash(&header);
        let size = record_size(S::rows_after(&header));
        if is_past(&hash, limit) || size > rest.len() {
            break;
        }
        if !is_above(&hash, mark.last) {
            return Err(CoreError::InvalidShard(String::new(alloc)));
        }
        mark = Mark {
            bytes: mark.bytes.saturating_add(size),
            last: Some(hash),
            rows_left,
            ended: false,
        };
    }
    Ok(mark)
}

// In bytes; at most `usize::MAX`.
fn record_size(rows_after: u64) -> usize {
    let size = rows_after.saturating_add(1).saturating_mul(ROW_SIZE as u64);
    usize::try_from(size).unwrap_or(usize::MAX)
}

fn is_past(hash: &MerkleHash, limit: Option<MerkleHash>) -> bool {
    match limit {
        Some(limit) => *hash > limit,
        None => false,
    }
}

fn is_above(hash: &MerkleHash, last: Option<MerkleHash>) -> bool {
    match last {
        Some(last) => *hash > last,
        None => true,
    }
}
