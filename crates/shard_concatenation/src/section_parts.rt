//! Sections and their tables, one after another.

ghost use Rattle.std.specs.Prelude.{◌≡◌, ◌+◌, ◌^◌, ◌<◌, ◌≤◌, ℕ, List, All, OnOk, IfOk, IfErr, map, flat_map};
ghost use Rattle.std.specs.Io.KnownBytes.{Appends};
ghost use Rattle.xet_base.specs.Errors.{IsInvalidShard, IsWriteError};
ghost use Rattle.shard_concatenation.specs.Concatenation.{IsBadPart};
ghost use Rattle.xet_shards.specs.Read.TableReading.{FitsStart};
ghost use Rattle.shard_concatenation.specs.Steps.SectionsSteps.{HoldSections, all_of};
ghost use Rattle.xet_shards.specs.Write.RaisedRows.{start_later};
ghost use Rattle.xet_shards.specs.Write.Section.{total_rows};
ghost use Rattle.xet_shards.specs.Write.Tables.{start_row, table_bytes};

use std::alloc::Global;
use std::io::Write;
use xet_base::error::{CoreError, Result};
use xet_base::fields::{put_u32, put_u64, split_u32, split_u64};
use xet_base::serialization_utils::write_bytes;
use xet_records::record_reader::SectionRecord;
use xet_shards::shard_format::START_ROW_SIZE;

/// A section, without its bookend, and its table.
#[derive(Clone, Copy, Debug)]
pub struct SectionPart<'a> {
    pub rows: &'a [u8],
    pub count: u32,
    pub table: &'a [u8],
}

/// `InvalidShard` if a row number passes `u32`, else the writer's errors.
pub fn write_tables<R: SectionRecord, W: Write>(
    alloc: Global,
    writer: &mut W,
    sections: &[SectionPart<'_>],
) -> Result<()>
    ensures bytes { (records : List (List R)) → HoldSections R.kind sections.now records
        → OnOk result
        (Appends (W.contents writer.old) (W.contents writer.new)
        (table_bytes R.kind (all_of records))) }
    ensures succeeds { (records : List (List R)) → HoldSections R.kind sections.now records
        → total_rows R.kind (all_of records) < 2 ^ 32 → IfErr result IsWriteError }
    ensures causes { IfErr result IsBadPart }
{
    let mut first = 0;
    for section in sections {
        write_later(alloc, writer, section.table, first)?;
        first = add_u32(alloc, first, section.count)?;
    }
    Ok(())
}

/// The sum, or `InvalidShard` if it passes `u32`.
pub fn add_u32(alloc: Global, first: u32, count: u32) -> Result<u32>
    ensures sum { IfOk result (λ n. n ≡ first + count) }
    ensures passes { IfErr result (λ _. 2 ^ 32 ≤ first + count) }
    ensures causes { IfErr result IsInvalidShard }
{
    match first.checked_add(count) {
        Some(sum) => Ok(sum),
        None => Err(CoreError::InvalidShard(String::new(alloc))),
    }
}

// Adds `first` to each row number. Errors are as of `write_tables`.
fn write_later<W: Write>(alloc: Global, writer: &mut W, table: &[u8], first: u32) -> Result<()>
    ensures bytes { (rows : List (ℕ × ℕ)) → table.now ≡ flat_map start_row rows → All FitsStart rows
        → OnOk result
        (Appends (W.contents writer.old) (W.contents writer.new)
        (flat_map start_row (map (start_later first) rows))) }
    ensures succeeds { (rows : List (ℕ × ℕ)) → table.now ≡ flat_map start_row rows
        → All FitsStart rows → All (λ row. row.1 + first < 2 ^ 32) rows
        → IfErr result IsWriteError }
    ensures causes { IfErr result IsBadPart }
{
    let mut rest = table;
    while rest.len() >= START_ROW_SIZE {
        let (word, after) = split_u64(rest);
        let (row, after) = split_u32(after);
        write_start(writer, word, add_u32(alloc, row, first)?)?;
        rest = after;
    }
    Ok(())
}

fn write_start<W: Write>(writer: &mut W, word: u64, row: u32) -> Result<()>
    ensures bytes { OnOk result
        (Appends (W.contents writer.old) (W.contents writer.new) (start_row (word, row))) }
    ensures causes { IfErr result IsWriteError }
{
    let mut bytes = [0u8; START_ROW_SIZE];
    let at = put_u64(&mut bytes, 0, word);
    put_u32(&mut bytes, at, row);
    write_bytes(writer, &bytes)?;
    Ok(())
}
