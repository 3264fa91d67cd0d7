//! Segments of files.

ghost use Rattle.std.specs.Prelude.{◌≡◌, IfOk, IfErr, option_map, slice_get};
ghost use Rattle.xet_c.specs.Arguments.{c_segment, c_segments, words_or_zero};

use crate::hash::words_or_zero;
use std::alloc::Global;
use xet_core_structures::error::{CoreError, Result};
use xet_core_structures::file_structs::{FileDataSequenceEntry, FileVerificationEntry};

/// Chunks `start` to `end`, without `end`, of a xorb, and their size unpacked.
#[repr(C)]
#[derive(Clone, Copy, Drop)]
pub struct XetSegment {
    pub xorb: [u64; 4],
    pub flags: u32,
    pub bytes: u32,
    pub start: u32,
    pub end: u32,
}

/// A segment, and the hash of its verification row, or zeros if the file has none.
#[repr(C)]
#[derive(Clone, Copy, Drop)]
pub struct XetFileSegment {
    pub segment: XetSegment,
    pub verification: [u64; 4],
}

#[inline(always)]
pub fn segments_of(
    alloc: Global,
    entries: &[FileDataSequenceEntry],
    rows: &[FileVerificationEntry],
) -> Result<Vec<XetFileSegment>>
    ensures ok { IfOk result (λ segments. segments.items ≡ c_segments entries.now rows.now) }
    ensures causes { IfErr result (λ e. e ≡ CoreError.OutOfMemory) }
{
    let mut segments = Vec::new(alloc);
    for (index, entry) in entries.iter().enumerate() {
        segments.push(XetFileSegment {
            segment: segment_of(entry),
            verification: verification_of(rows, index),
        })?;
    }
    Ok(segments)
}

fn verification_of(rows: &[FileVerificationEntry], index: usize) -> [u64; 4]
    ensures { result
        ≡ words_or_zero (option_map (λ row. row.hash) (slice_get rows.now index)) }
{
    words_or_zero(rows.get(index).map(|row| row.range_hash))
}

pub fn segment_of(entry: &FileDataSequenceEntry) -> XetSegment
    ensures { result ≡ c_segment entry.now }
{
    let xorb = entry.xorb_hash;
    XetSegment {
        xorb: [xorb.word0, xorb.word1, xorb.word2, xorb.word3],
        flags: entry.xorb_flags,
        bytes: entry.unpacked_segment_bytes,
        start: entry.chunk_index_start,
        end: entry.chunk_index_end,
    }
}
