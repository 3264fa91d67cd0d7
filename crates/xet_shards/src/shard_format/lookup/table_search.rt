//! Searching a lookup table for a first word.

ghost use Rattle.std.specs.Prelude.{◌≡◌, ◌⊎◌, ℕ, List, ◌+◌, ◌<◌, ◌≤◌, length, min, MatchResult, OnOk, IfOk, IfErr};
ghost use Rattle.xet_base.specs.Source.{FillFails, next_bytes, NoFailure};
ghost use Rattle.xet_base.specs.Search.Table.{table_at, Finds, FitsTable, SearchRefused, hits, IsSorted, SearchIsBounded, IsEven, ReadsCount};
ghost use Rattle.xet_shards.specs.Lookup.Lookup.{IsRowNumber, IsRowAndIndex, Searches, LooksUpIndex};

use crate::shard_format::MOST_FOUND;
use std::alloc::Global;
use std::io;
use xet_base::error::{CoreError, Result};
use xet_base::fields::split_u32;
use xet_base::interpolation_search::search_on_sorted_u64s;
use xet_base::source::{ShardSource, read_full};

/// What a row of a lookup table has behind its first word.
pub(in crate::shard_format) trait TableValue: Default + Copy {
    ghost WIDTH: { ℕ };

    ghost Spells: { List ℕ → Self → Type 0 };

    const WIDTH: u64;

    /// Reads a value. `UnexpectedEof` if too few bytes are left.
    fn read<S: ShardSource>(source: &mut S) -> io::Result<Self>
        ensures { MatchResult result
            (λ value. ReadsCount (S.meaning source.old) (S.meaning source.new) WIDTH
            × Spells (next_bytes (S.meaning source.old) WIDTH) value)
            (FillFails (S.meaning source.old) (S.meaning source.new) WIDTH) };
}

/// The row at which a record starts.
impl TableValue for u32 {
    ghost WIDTH = { 4 };

    ghost Spells = { IsRowNumber };

    const WIDTH: u64 = 4;

    fn read<S: ShardSource>(source: &mut S) -> io::Result<u32> {
        let mut bytes = [0u8; 4];
        read_full(source, &mut bytes)?;
        let (row, _) = split_u32(&bytes);
        Ok(row)
    }
}

/// The row at which a xorb starts, and a chunk's index in it.
impl TableValue for (u32, u32) {
    ghost WIDTH = { 8 };

    ghost Spells = { IsRowAndIndex };

    const WIDTH: u64 = 8;

    fn read<S: ShardSource>(source: &mut S) -> io::Result<(u32, u32)> {
        let mut bytes = [0u8; 8];
        read_full(source, &mut bytes)?;
        let (row, rest) = split_u32(&bytes);
        let (index, _) = split_u32(rest);
        Ok((row, index))
    }
}

/// As `search_table`, but `TruncatedHashCollision` of the word if eight or more rows have it.
pub(in crate::shard_format) fn find_rows<S: ShardSource>(
    alloc: Global,
    source: &mut S,
    start: u64,
    rows: u64,
    word: u64,
    dest: &mut [u32; MOST_FOUND],
) -> Result<usize>
    ensures { LooksUpIndex (table_at (S.meaning source.old) start rows 4) word dest.old dest.new
        (S.meaning source.old) (S.meaning source.new) result }
{
    let found = search_table::<u32, S>(alloc, source, start, rows, word, dest)?;
    if found < dest.len() {
        Ok(found)
    } else {
        Err(CoreError::TruncatedHashCollision(word))
    }
}

/// Puts the values of rows with this word at the front of `dest`, as many as fit, and returns their
/// number. The errors are those of `search_on_sorted_u64s`.
pub(in crate::shard_format) fn search_table<V: TableValue, S: ShardSource>(
    alloc: Global,
    source: &mut S,
    start: u64,
    rows: u64,
    word: u64,
    dest: &mut [V],
) -> Result<usize>
    ensures { Searches (table_at (S.meaning source.old) start rows V.WIDTH) word V.Spells
        (length dest.old) dest.old dest.new (S.meaning source.old) (S.meaning source.new) result }
{
    search_on_sorted_u64s(
        alloc,
        source,
        start,
        rows,
        word,
        V::WIDTH,
        |s: &mut S| V::read(s),
        dest,
    )
}
