//! Cuts through chunk tables at first words of hashes: rows with lower ones are before the cut.

ghost use Rattle.std.specs.Prelude.{◌≡◌, ◌*◌, ◌<◌, ◌≤◌, ◌^◌, List, filter, All, IfErr, IfOk, IfSome, length, map, flat_map};
ghost use Rattle.xet_shards.specs.declared.shard_format.write.xorb_writer.ChunkTableRow.{ChunkTableRow};
ghost use Rattle.xet_base.specs.Errors.{IsInvalidShard};
ghost use Rattle.shard_concatenation.specs.Steps.ChunkMerging.{HoldsRows, rows_held};
ghost use Rattle.shard_concatenation.specs.Steps.ChunkCuts.{rows_before, rows_behind, rows_between, is_until, AreClose, IsCut, HoldInTables};

use crate::chunk_merging::Cursor;
use std::alloc::Global;
use xet_base::error::{CoreError, Result};
use xet_base::fields::split_u64;
use xet_shards::shard_format::CHUNK_ROW_SIZE;

/// Two cuts, of which the second may be the end, and how many rows are before the first.
#[derive(Clone, Copy, Debug)]
pub struct Cuts {
    pub low: u64,
    pub high: Option<u64>,
    pub before: u64,
}

/// Cuts around a row of the merged table. Closer ones are looked for until there are no more rows
/// between them than tables: to merge these takes less time.
pub fn cuts_around(cursors: &[Cursor<'_>], row: u64) -> Cuts
    ensures below { result.before ≤ row }
    ensures before { (held : List (Cursor × List ChunkTableRow))
        → map (λ h. h.0) held ≡ cursors.now → All HoldsRows held
        → length (flat_map rows_held held) < 2 ^ 64
        → result.before ≡ length (rows_before result.low (flat_map rows_held held)) }
    ensures high { (held : List (Cursor × List ChunkTableRow))
        → map (λ h. h.0) held ≡ cursors.now → All HoldsRows held
        → length (flat_map rows_held held) < 2 ^ 64
        → IfSome result.high
        (λ word. row < length (rows_before word (flat_map rows_held held))) }
    ensures close { (held : List (Cursor × List ChunkTableRow))
        → map (λ h. h.0) held ≡ cursors.now → All HoldsRows held
        → length (flat_map rows_held held) < 2 ^ 64
        → AreClose (length cursors.now) result.low result.high (flat_map rows_held held) }
{
    let mut low = 0u64;
    let mut before = 0u64;
    let mut high = None;
    let mut after = row_count(cursors);
    for bit in 0..u64::BITS {
        if after.saturating_sub(before) <= cursors.len() as u64 {
            return Cuts { low, high, before };
        }
        let word = low + (1 << (63 - bit));
        let count = count_before(cursors, word);
        if count <= row {
            low = word;
            before = count;
        } else {
            high = Some(word);
            after = count;
        }
    }
    Cuts { low, high, before }
}

/// `InvalidShard` if a table ends within a row, or if they have more rows together or fewer.
pub fn check_row_counts(alloc: Global, cursors: &[Cursor<'_>], rows: u64) -> Result<()>
    ensures held { (held : List (Cursor × List ChunkTableRow))
        → map (λ h. h.0) held ≡ cursors.now → All HoldsRows held
        → rows ≡ length (flat_map rows_held held) → IfErr result (λ e. ⊥) }
    ensures causes { IfErr result IsInvalidShard }
{
    for cursor in cursors {
        if cursor.rest.len() % CHUNK_ROW_SIZE != 0 {
            return Err(CoreError::InvalidShard(String::new(alloc)));
        }
    }
    if row_count(cursors) != rows {
        return Err(CoreError::InvalidShard(String::new(alloc)));
    }
    Ok(())
}

/// How many whole rows the tables have together.
pub fn row_count(cursors: &[Cursor<'_>]) -> u64
    ensures { (held : List (Cursor × List ChunkTableRow))
        → map (λ h. h.0) held ≡ cursors.now → All HoldsRows held
        → length (flat_map rows_held held) < 2 ^ 64
        → result ≡ length (flat_map rows_held held) }
{
    let mut count = 0u64;
    for cursor in cursors {
        count = count.saturating_add((cursor.rest.len() / CHUNK_ROW_SIZE) as u64);
    }
    count
}

fn count_before(cursors: &[Cursor<'_>], word: u64) -> u64
    ensures { (held : List (Cursor × List ChunkTableRow))
        → map (λ h. h.0) held ≡ cursors.now → All HoldsRows held
        → length (flat_map rows_held held) < 2 ^ 64
        → result ≡ length (rows_before word (flat_map rows_held held)) }
{
    let mut count = 0u64;
    for cursor in cursors {
        count = count.saturating_add(cut_of(cursor, word) as u64);
    }
    count
}

// Also in a table that does not ascend the row before the cut has a lower word, and that behind it
// none.
fn cut_of(cursor: &Cursor<'_>, word: u64) -> usize
    ensures within { 16 * result ≤ length cursor.now.rest.now }
    ensures cut { (rows : List ChunkTableRow) → HoldsRows (cursor.now, rows)
        → IsCut word rows result }
{
    let table = cursor.rest;
    let mut low = 0;
    let mut high = table.len() / CHUNK_ROW_SIZE;
    while low < high {
        let middle = low + (high - low) / 2;
        let (at, _) = split_u64(&table[CHUNK_ROW_SIZE * middle..]);
        if at < word {
            low = middle + 1;
        } else {
            high = middle;
        }
    }
    low
}

fn behind<'a>(cursor: &Cursor<'a>, word: u64) -> Cursor<'a>
    ensures first { result.first ≡ cursor.now.first }
    ensures held { (rows : List ChunkTableRow) → HoldsRows (cursor.now, rows)
        → HoldsRows (result, rows_behind word rows) }
{
    let cut = cut_of(cursor, word);
    Cursor {
        rest: &cursor.rest[CHUNK_ROW_SIZE * cut..],
        first: cursor.first,
    }
}

// The rows before the cut, or all if there is none.
fn until<'a>(cursor: &Cursor<'a>, word: Option<u64>) -> Cursor<'a>
    ensures first { result.first ≡ cursor.now.first }
    ensures held { (rows : List ChunkTableRow) → HoldsRows (cursor.now, rows)
        → HoldsRows (result, filter (is_until word) rows) }
{
    let Some(word) = word else {
        return *cursor;
    };
    let cut = cut_of(cursor, word);
    Cursor {
        rest: &cursor.rest[..CHUNK_ROW_SIZE * cut],
        first: cursor.first,
    }
}

/// The rows of each table from the cut `low` to the cut `high`, or to the end; or `OutOfMemory`.
pub fn tables_between<'a>(
    alloc: Global,
    cursors: &[Cursor<'a>],
    low: u64,
    high: Option<u64>,
) -> Result<Vec<Cursor<'a>>>
    ensures held { (held : List (Cursor × List ChunkTableRow))
        → map (λ h. h.0) held ≡ cursors.now → All HoldsRows held
        → IfOk result
        (λ tables. HoldInTables (rows_between low high (flat_map rows_held held)) tables.items) }
    ensures causes { IfErr result (λ e. e ≡ CoreError.OutOfMemory) }
{
    let mut tables = Vec::with_capacity(alloc, cursors.len())?;
    for cursor in cursors {
        tables.push(until(&behind(cursor, low), high))?;
    }
    Ok(tables)
}
