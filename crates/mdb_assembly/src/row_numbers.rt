//! Raising the row numbers in a part's tables by the rows before it.

ghost use Rattle.std.specs.Prelude.{◌≡◌, ◌+◌, ◌<◌, ◌≤◌, ◌^◌, ◌++◌, ℕ, List, All, length, map, flat_map, IfErr, MatchResult};
ghost use Rattle.xet_base.specs.Bytes.{u32_bytes};
ghost use Rattle.xet_base.specs.Errors.{IsInvalidShard};
ghost use Rattle.xet_shards.specs.Read.TableReading.{FitsStart, FitsTriple, triple_of};
ghost use Rattle.xet_shards.specs.Write.RaisedRows.{start_later, chunk_row_later};
ghost use Rattle.xet_shards.specs.Write.Tables.{start_row, chunk_table_row_bytes};
ghost use Rattle.xet_shards.specs.declared.shard_format.write.xorb_writer.ChunkTableRow.{ChunkTableRow};
ghost use Rattle.mdb_assembly.specs.Assembly.{NumberedRow, row_bytes, row_later, IsRowOf};

use std::alloc::Global;
use xet_core_structures::error::{CoreError, Result};
use xet_core_structures::fields::{put_u32, split_u32};
use xet_core_structures::shard_format::{CHUNK_ROW_SIZE, START_ROW_SIZE};

/// The offset of the number in a row, in bytes.
const NUMBER_OFFSET: usize = 8;

/// Adds `first` to each row number of a file or xorb table. `InvalidShard` exactly if one passes 32
/// bits.
pub fn shift_starts(alloc: Global, rows: &mut [u8], first: u32) -> Result<()>
    ensures raised { (starts : List (ℕ × ℕ)) → rows.old ≡ flat_map start_row starts → All FitsStart starts
        → MatchResult result (λ _. rows.new ≡ flat_map start_row (map (start_later first) starts))
        (λ e. IsInvalidShard e × (All (λ start. first + start.1 < 2 ^ 32) starts → ⊥)) }
    ensures causes { IfErr result IsInvalidShard }
{
    shift_row_numbers(alloc, rows, START_ROW_SIZE, first)
}

/// As [`shift_starts`], of a chunk table.
pub fn shift_chunk_rows(alloc: Global, rows: &mut [u8], first: u32) -> Result<()>
    ensures raised { (table : List ChunkTableRow) → rows.old ≡ flat_map chunk_table_row_bytes table
        → All (λ row. FitsTriple (triple_of row)) table
        → MatchResult result
        (λ _. rows.new ≡ flat_map chunk_table_row_bytes (map (chunk_row_later first) table))
        (λ e. IsInvalidShard e
        × (All (λ (row : ChunkTableRow). first + row.row < 2 ^ 32) table → ⊥)) }
    ensures causes { IfErr result IsInvalidShard }
{
    shift_row_numbers(alloc, rows, CHUNK_ROW_SIZE, first)
}

fn shift_row_numbers(alloc: Global, rows: &mut [u8], row_size: usize, first: u32) -> Result<()>
    requires { 12 ≤ row_size }
    ensures raised { (table : List NumberedRow) → rows.old ≡ flat_map row_bytes table
        → All (IsRowOf row_size) table
        → MatchResult result
        (λ _. rows.new ≡ flat_map row_bytes (map (row_later first) table))
        (λ e. IsInvalidShard e × (All (λ row. first + row.number < 2 ^ 32) table → ⊥)) }
    ensures causes { IfErr result IsInvalidShard }
{
    let mut at = 0;
    while rows.len() - at >= row_size {
        shift_row_number(alloc, rows, at, first)?;
        at += row_size;
    }
    Ok(())
}

fn shift_row_number(alloc: Global, rows: &mut [u8], at: usize, first: u32) -> Result<()>
    requires { at + 12 ≤ length rows.old }
    ensures value { (before after : List ℕ) (number : ℕ) → length before ≡ at + 8 → number < 2 ^ 32
        → rows.old ≡ before ++ (u32_bytes number ++ after)
        → MatchResult result (λ _. rows.new ≡ before ++ (u32_bytes (first + number) ++ after))
        (λ _. 2 ^ 32 ≤ first + number) }
    ensures causes { MatchResult result (λ _. length rows.new ≡ length rows.old) IsInvalidShard }
{
    let at = at + NUMBER_OFFSET;
    let (number, _) = split_u32(&rows[at..]);
    match first.checked_add(number) {
        Some(shifted) => {
            put_u32(rows, at, shifted);
            Ok(())
        }
        None => Err(CoreError::InvalidShard(String::new(alloc))),
    }
}
