//! The bytes of a shard, split into sections, tables and footer.

ghost use Rattle.std.specs.Prelude.{◌≡◌, ◌+◌, ◌*◌, ◌<◌, ◌≤◌, ◌⊎◌, length, IfOk, IfErr, MatchOption, MatchResult, slice_range};
ghost use Rattle.shard_concatenation.specs.Concatenation.{ShardPart, bytes_of_part, IsPartUnder, IsNoPart};
ghost use Rattle.shard_concatenation.specs.Steps.SectionsSteps.{HasRanges, IsSplit, IsSplitOf};
ghost use Rattle.xet_base.specs.declared.merklehash.DataHash.{DataHash};

use std::alloc::Global;
use xet_base::error::{CoreError, Result};
use xet_base::source::MemorySource;
use xet_records::record_reader::FormatVersion;
use xet_records::rows::ROW_SIZE;
use xet_shards::shard_format::{HEADER_SIZE, MDBShardFileFooter, MDBShardInfo, START_ROW_SIZE};

/// The pieces of a shard, without bookends.
#[derive(Clone, Copy, Debug)]
pub struct SplitShard<'a> {
    pub version: FormatVersion,
    pub files: &'a [u8],
    pub xorbs: &'a [u8],
    pub file_table: &'a [u8],
    pub xorb_table: &'a [u8],
    pub chunk_table: &'a [u8],
    pub footer: MDBShardFileFooter,
}

// `None` if the offsets are not in order or past the end.
fn range_of(bytes: &[u8], from: u64, to: u64) -> Option<&[u8]>
    ensures { MatchOption result ((to < from) ⊎ (length bytes.now < to))
        (λ part. (from ≤ to) × (to ≤ length bytes.now)
        × (part.now ≡ slice_range bytes.now from to)) }
{
    if from > to || to > bytes.len() as u64 {
        return None;
    }
    Some(&bytes[from as usize..to as usize])
}

// `None` if it does not have `rows` rows or is past the end.
fn table_of(bytes: &[u8], from: u64, rows: u64, to: u64) -> Option<&[u8]>
    ensures { MatchOption result (to ≡ from + 12 * rows → length bytes.now < to)
        (λ part. (to ≡ from + 12 * rows) × (to ≤ length bytes.now)
        × (part.now ≡ slice_range bytes.now from to)) }
{
    let size = rows.checked_mul(START_ROW_SIZE as u64)?;
    if from.checked_add(size)? != to {
        return None;
    }
    range_of(bytes, from, to)
}

// `None` where `split_shard` tells `InvalidShard`.
fn parts_at<'a>(
    bytes: &'a [u8],
    version: FormatVersion,
    footer: &MDBShardFileFooter,
) -> Option<SplitShard<'a>>
    ensures { MatchOption result (HasRanges (length bytes.now) footer.now → ⊥)
        (λ split. HasRanges (length bytes.now) footer.now
        × IsSplit bytes.now footer.now split × (split.version ≡ version)) }
{
    let row_size = ROW_SIZE as u64;
    if footer.xorb_info_offset % row_size != 0 || footer.file_lookup_offset % row_size != 0 {
        return None;
    }
    let files_end = footer.xorb_info_offset.checked_sub(row_size)?;
    let xorbs_end = footer.file_lookup_offset.checked_sub(row_size)?;
    Some(SplitShard {
        version,
        files: range_of(bytes, HEADER_SIZE, files_end)?,
        xorbs: range_of(bytes, footer.xorb_info_offset, xorbs_end)?,
        file_table: table_of(
            bytes,
            footer.file_lookup_offset,
            footer.file_lookup_num_entry,
            footer.xorb_lookup_offset,
        )?,
        xorb_table: table_of(
            bytes,
            footer.xorb_lookup_offset,
            footer.xorb_lookup_num_entry,
            footer.chunk_lookup_offset,
        )?,
        chunk_table: range_of(bytes, footer.chunk_lookup_offset, footer.footer_offset)?,
        footer: *footer,
    })
}

/// `ShardVersion` or `UnexpectedEof` without a supported header and footer; `InvalidShard` if the
/// footer's offsets are not in order or past the end, or if a section does not have whole rows or
/// its table as many as the footer counts.
pub fn split_shard(alloc: Global, bytes: &[u8]) -> Result<SplitShard<'_>>
    ensures split { (key : DataHash) → (part : ShardPart) → IsPartUnder key part
        → bytes.now ≡ bytes_of_part part → MatchResult result (IsSplitOf part) (λ e. ⊥) }
    ensures ranges { IfOk result (λ split. HasRanges (length bytes.now) split.footer
        × IsSplit bytes.now split.footer split) }
    ensures causes { IfErr result (IsNoPart bytes.now) }
{
    let mut source = MemorySource::new(bytes);
    let info = MDBShardInfo::load_from_reader(alloc, &mut source)?;
    match parts_at(bytes, info.header.format_version(), &info.metadata) {
        Some(split) => Ok(split),
        None => Err(CoreError::InvalidShard(String::new(alloc))),
    }
}
