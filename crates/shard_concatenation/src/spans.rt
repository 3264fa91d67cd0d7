//! Spans of a concatenation.

ghost use Rattle.std.specs.Prelude.{◌≡◌, ◌+◌, ◌-◌, ◌*◌, ◌<◌, ◌≤◌, ◌^◌, ◌++◌, ⊤, ℕ, List, [], All, IfOk, IfErr, Some, map, flat_map, length, sum_by, slice_range};
ghost use Rattle.xet_records.specs.FileRecord.{FitsRecord, file_records};
ghost use Rattle.xet_records.specs.XorbRecord.{xorb_records};
ghost use Rattle.xet_base.specs.declared.merklehash.DataHash.{DataHash};
ghost use Rattle.xet_shards.specs.Content.Shard.{Shard, IsShard};
ghost use Rattle.shard_concatenation.specs.Concatenation.{ShardPart, bytes_of_part, IsPartUnder, files_in, xorbs_in, options_under, parts_layout, latest_of, AscendBoth, HaveFewRows, AreConsecutiveParts, AreBytesOf, IsConcatenation, IsBadPart, RefusesConcatenation};
ghost use Rattle.shard_concatenation.specs.Spans.{FillsSpan, FillsSpanWith};
ghost use Rattle.placed_shards.specs.Parts.{HasRecordsInOrder};
ghost use Rattle.shard_concatenation.specs.Steps.PartFilling.{HasBothEnds};
ghost use Rattle.shard_concatenation.specs.Steps.Gathering.{HasSizes, HasGathered, HoldTables, IsFooterOf};
ghost use Rattle.shard_concatenation.specs.Steps.SectionsSteps.{HoldSections, all_of};
ghost use Rattle.shard_concatenation.specs.Steps.ChunkCuts.{HoldInTables};
ghost use Rattle.shard_concatenation.specs.Steps.ChunkMerging.{Merges};
ghost use Rattle.shard_concatenation.specs.Steps.SpansSteps.{HoldsSpan, IsChunkSpan};
ghost use Rattle.xet_shards.specs.declared.shard_format.write.xorb_writer.ChunkTableRow.{ChunkTableRow};
ghost use Rattle.xet_shards.specs.Write.Layout.{layout_of, info_of};
ghost use Rattle.xet_shards.specs.Write.Section.{total_rows};
ghost use Rattle.xet_shards.specs.Write.Tables.{table_bytes, chunk_table_rows, chunk_table_bytes};

use crate::chunk_cuts::{check_row_counts, cuts_around, row_count, tables_between};
use crate::chunk_merging::{Cursor, check_chunk_tables};
use crate::concatenate::{EndBytes, end_bytes, info_of_parts};
use crate::gathering::GatheredParts;
use crate::ordered_parts::ordered_parts;
use crate::section_parts::{SectionPart, write_tables};
use crate::table_merge::{TableMerge, put_merged_tables};
use std::alloc::Global;
use xet_base::error::{CoreError, Result};
use xet_base::fields::put;
use xet_records::file_structs::{FileDataSequenceHeader, MDBFileInfo};
use xet_records::record_reader::SectionRecord;
use xet_records::rows::{ROW_SIZE, Row};
use xet_records::xorb_structs::{MDBXorbInfo, XorbChunkSequenceHeader};
use xet_shards::shard_format::{
    CHUNK_ROW_SIZE, FOOTER_SIZE, HEADER_SIZE, MDBShardFileFooter, MDBShardInfo,
};

/// Fills `out` with the bytes from offset `from` on of what
/// [`concatenate_shards_into`](crate::concatenate_shards_into) writes, with its errors, and returns
/// the size of the whole. `out` stays as it is if they pass its end or after an error. Threads may
/// write spans side by side (`laws::spans_are_the_whole`).
///
/// Of chunk tables only the rows in the span, and some around them, are tested and merged. Beside
/// `out`, memory is needed for these, for the tables of files and xorbs, and for a few hundred bytes
/// a shard.
pub fn concatenated_span_into(
    alloc: Global,
    shards: &[&[u8]],
    from: usize,
    out: &mut [u8],
) -> Result<usize>
    ensures parts { (key : DataHash) → (parts : List ShardPart) → All (IsPartUnder key) parts
        → map bytes_of_part parts ≡ map (λ x. x.now) shards.now
        → FillsSpanWith (λ bytes. bytes ≡ parts_layout key parts)
        (RefusesConcatenation (map (λ x. x.now) shards.now)) from out.old out.new result }
    ensures order { (key : DataHash) → (parts : List ShardPart) → All (IsPartUnder key) parts
        → map bytes_of_part parts ≡ map (λ x. x.now) shards.now
        → All (λ part. AscendBoth part.files part.xorbs) parts
        → IfOk result (λ _. AscendBoth (files_in parts) (xorbs_in parts)) }
    ensures rows { (key : DataHash) → (parts : List ShardPart) → All (IsPartUnder key) parts
        → map bytes_of_part parts ≡ map (λ x. x.now) shards.now
        → IfOk result (λ _. HaveFewRows (files_in parts) (xorbs_in parts)) }
    ensures succeeds { (key : DataHash) → (parts : List ShardPart) → AreConsecutiveParts key parts
        → map bytes_of_part parts ≡ map (λ x. x.now) shards.now
        → IfErr result (λ e. e ≡ CoreError.OutOfMemory) }
    ensures shard { (written : List Shard) → (are : AreBytesOf written (map (λ x. x.now) shards.now))
        → FillsSpanWith (IsConcatenation (latest_of written (map (λ x. x.now) shards.now) are) written)
        (RefusesConcatenation (map (λ x. x.now) shards.now)) from out.old out.new result }
    ensures shard_succeeds { (written : List Shard) → (all : Shard) → IsShard all
        → HasRecordsInOrder written all → AreBytesOf written (map (λ x. x.now) shards.now)
        → 0 < length shards.now → IfErr result (λ e. e ≡ CoreError.OutOfMemory) }
    ensures causes { FillsSpanWith (λ _. ⊤) (RefusesConcatenation (map (λ x. x.now) shards.now)) from
        out.old out.new result }
{
    fill_span(alloc, shards, from, out)
}

// `concatenated_span_into`, whose other clauses follow from these.
fn fill_span(alloc: Global, shards: &[&[u8]], from: usize, out: &mut [u8]) -> Result<usize>
    ensures parts { (key : DataHash) → (parts : List ShardPart) → All (IsPartUnder key) parts
        → map bytes_of_part parts ≡ map (λ x. x.now) shards.now
        → IfOk result (FillsSpan (parts_layout key parts) from out.old out.new) }
    ensures order { (key : DataHash) → (parts : List ShardPart) → All (IsPartUnder key) parts
        → map bytes_of_part parts ≡ map (λ x. x.now) shards.now
        → All (λ part. AscendBoth part.files part.xorbs) parts
        → IfOk result (λ _. AscendBoth (files_in parts) (xorbs_in parts)) }
    ensures rows { (key : DataHash) → (parts : List ShardPart) → All (IsPartUnder key) parts
        → map bytes_of_part parts ≡ map (λ x. x.now) shards.now
        → IfOk result (λ _. HaveFewRows (files_in parts) (xorbs_in parts)) }
    ensures succeeds { (key : DataHash) → (parts : List ShardPart) → AreConsecutiveParts key parts
        → map bytes_of_part parts ≡ map (λ x. x.now) shards.now
        → IfErr result (λ e. e ≡ CoreError.OutOfMemory) }
    ensures causes { FillsSpanWith (λ _. ⊤) (RefusesConcatenation (map (λ x. x.now) shards.now)) from
        out.old out.new result }
{
    let gathered = ordered_parts(alloc, shards)?;
    let info = info_of_parts(alloc, &gathered)?;
    let rows = info.metadata.chunk_lookup_num_entry;
    let cursors = gathered.cursors.as_slice();
    check_row_counts(alloc, cursors, rows)?;
    let ends = end_bytes(alloc, &info)?;
    let mut tables = Vec::new(alloc);
    add_table::<MDBFileInfo>(alloc, &mut tables, gathered.files.as_slice())?;
    add_table::<MDBXorbInfo>(alloc, &mut tables, gathered.xorbs.as_slice())?;
    let size = (info.metadata.footer_offset + FOOTER_SIZE) as usize;
    let until = from.saturating_add(out.len());
    if until > size {
        return Ok(size);
    }
    let chunks = chunk_span(alloc, cursors, &info.metadata, from, until)?;
    put_span(
        out,
        from,
        &gathered,
        &info,
        &ends,
        tables.as_slice(),
        &chunks,
    );
    Ok(size)
}

// `InvalidShard` if a row number passes `u32`.
fn add_table<R: SectionRecord>(
    alloc: Global,
    tables: &mut Vec<u8>,
    sections: &[SectionPart<'_>],
) -> Result<()>
    ensures bytes { (records : List (List R)) → HoldSections R.kind sections.now records
        → IfOk result (λ _. tables.new.items ≡ tables.old.items ++ table_bytes R.kind (all_of records)) }
    ensures succeeds { (records : List (List R)) → HoldSections R.kind sections.now records
        → total_rows R.kind (all_of records) < 2 ^ 32
        → IfErr result (λ e. e ≡ CoreError.OutOfMemory) }
    ensures causes { IfErr result IsBadPart }
{
    match write_tables::<R, Vec<u8>>(alloc, tables, sections) {
        Ok(_) => Ok(()),
        Err(CoreError::InvalidShard(text)) => Err(CoreError::InvalidShard(text)),
        Err(_) => Err(CoreError::OutOfMemory),
    }
}

/// Rows of the chunk table, and how many of its bytes are before them.
#[derive(Drop)]
pub struct ChunkSpan {
    pub before: usize,
    pub rows: Vec<u8>,
}

// The rows of which the span has a byte, with some around them. `InvalidShard` if one is refused.
fn chunk_span(
    alloc: Global,
    cursors: &[Cursor<'_>],
    footer: &MDBShardFileFooter,
    from: usize,
    until: usize,
) -> Result<ChunkSpan>
    requires small { footer.now.footer_offset < 2 ^ 40 }
    requires rows { 16 * footer.now.chunk_lookup_num_entry ≤ footer.now.footer_offset }
    ensures span { (xorbs : List MDBXorbInfo) → HoldTables cursors.now xorbs
        → footer.now.chunk_lookup_num_entry ≡ length (chunk_table_rows xorbs)
        → IfOk result
        (IsChunkSpan (chunk_table_bytes xorbs)
        (footer.now.footer_offset - 16 * footer.now.chunk_lookup_num_entry) from until) }
    ensures before { IfOk result (λ c. c.before ≤ 16 * footer.now.chunk_lookup_num_entry) }
    ensures succeeds { (xorbs : List MDBXorbInfo) → HoldTables cursors.now xorbs
        → footer.now.chunk_lookup_num_entry ≡ length (chunk_table_rows xorbs)
        → IfErr result (λ e. e ≡ CoreError.OutOfMemory) }
    ensures causes { IfErr result IsBadPart }
{
    let end = footer.footer_offset as usize;
    let size = CHUNK_ROW_SIZE * footer.chunk_lookup_num_entry as usize;
    let start = end - size;
    let rows = Vec::new(alloc);
    if until <= start {
        return Ok(ChunkSpan { before: 0, rows });
    }
    if end <= from {
        return Ok(ChunkSpan { before: size, rows });
    }
    let first = from.saturating_sub(start) / CHUNK_ROW_SIZE;
    let last = (until - start - 1) / CHUNK_ROW_SIZE;
    let cuts = cuts_around(cursors, first as u64);
    let high = cuts_around(cursors, last as u64).high;
    let tables = tables_between(alloc, cursors, cuts.low, high)?;
    let most = footer.chunk_lookup_num_entry - cuts.before;
    let rows = merged_rows(alloc, tables.as_slice(), most)?;
    let before = CHUNK_ROW_SIZE * cuts.before as usize;
    Ok(ChunkSpan { before, rows })
}

// `InvalidShard` if a table is refused, or if there are more than `most` rows.
fn merged_rows(alloc: Global, tables: &[Cursor<'_>], most: u64) -> Result<Vec<u8>>
    requires { most < 2 ^ 40 }
    ensures merges { (rows : List ChunkTableRow) → HoldInTables rows tables.now → length rows ≤ most
        → IfOk result (λ bytes. Merges rows (Some []) (Some bytes.items)) }
    ensures succeeds { (rows : List ChunkTableRow) → HoldInTables rows tables.now → length rows ≤ most
        → IfErr result (λ e. e ≡ CoreError.OutOfMemory) }
    ensures causes { IfErr result IsBadPart }
{
    let rows = row_count(tables).min(most);
    check_chunk_tables(alloc, tables, rows)?;
    let merge = TableMerge::of(alloc, tables)?;
    let mut bytes = Vec::new(alloc);
    bytes.resize(CHUNK_ROW_SIZE * rows as usize, 0)?;
    put_merged_tables(alloc, bytes.as_mut_slice(), 0, merge, rows);
    Ok(bytes)
}

fn put_span(
    out: &mut [u8],
    from: usize,
    gathered: &GatheredParts<'_>,
    info: &MDBShardInfo,
    ends: &EndBytes,
    tables: &[u8],
    chunks: &ChunkSpan,
)
    requires sizes { HasSizes gathered.now.files.items gathered.now.xorbs.items gathered.now.totals }
    requires footer { IsFooterOf gathered.now.totals info.now.metadata }
    requires ends { HasBothEnds info.now ends.now }
    requires before { chunks.now.before ≤ 16 * info.now.metadata.chunk_lookup_num_entry }
    ensures { (parts : List ShardPart)
        → HasGathered gathered.now.files.items gathered.now.xorbs.items gathered.now.cursors.items gathered.now.totals parts
        → All FitsRecord (files_in parts)
        → info.now ≡ info_of (files_in parts) (xorbs_in parts)
        (options_under gathered.now.version gathered.now.key)
        → tables.now ≡ table_bytes file_records (files_in parts) ++ table_bytes xorb_records (xorbs_in parts)
        → IsChunkSpan (chunk_table_bytes (xorbs_in parts))
        (info.now.metadata.footer_offset - 16 * info.now.metadata.chunk_lookup_num_entry) from
        (from + length out.old) chunks.now
        → from + length out.old ≤ info.now.metadata.footer_offset + 200
        → out.new ≡ slice_range
        (layout_of (files_in parts) (xorbs_in parts)
        (options_under gathered.now.version gathered.now.key)) from (from + length out.old) }
{
    let files = gathered.files.as_slice();
    let xorbs = gathered.xorbs.as_slice();
    let end = info.metadata.footer_offset as usize;
    let start = end - CHUNK_ROW_SIZE * info.metadata.chunk_lookup_num_entry as usize;
    put_within(out, from, 0, ends.header.as_slice());
    let at = put_rows_within(out, from, HEADER_SIZE as usize, files);
    put_within(out, from, at, &FileDataSequenceHeader::bookend().to_bytes());
    let at = put_rows_within(out, from, at + ROW_SIZE, xorbs);
    put_within(
        out,
        from,
        at,
        &XorbChunkSequenceHeader::bookend().to_bytes(),
    );
    put_within(out, from, at + ROW_SIZE, tables);
    put_within(out, from, start + chunks.before, chunks.rows.as_slice());
    put_within(out, from, end, ends.footer.as_slice());
}

fn put_rows_within(out: &mut [u8], from: usize, at: usize, sections: &[SectionPart<'_>]) -> usize
    requires { at + sum_by (λ s. length s.rows.now) sections.now < 2 ^ 63 }
    ensures end { result ≡ at + sum_by (λ s. length s.rows.now) sections.now }
    ensures bytes { (before : List ℕ) → at ≡ length before → HoldsSpan from before out.old
        → HoldsSpan from (before ++ flat_map (λ s. s.rows.now) sections.now) out.new }
{
    let mut end = at;
    for section in sections {
        put_within(out, from, end, section.rows);
        end += section.rows.len();
    }
    end
}

// Puts bytes at an offset of the whole, as far as they are within the span.
fn put_within(out: &mut [u8], from: usize, at: usize, bytes: &[u8])
    ensures { (before : List ℕ) → at ≡ length before → HoldsSpan from before out.old
        → HoldsSpan from (before ++ bytes.now) out.new }
{
    let place = at.saturating_sub(from);
    let rest = &bytes[from.saturating_sub(at).min(bytes.len())..];
    let count = out.len().saturating_sub(place).min(rest.len());
    if count > 0 {
        put(out, place, &rest[..count]);
    }
}
