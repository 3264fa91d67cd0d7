//! Search for the rows of a key in a table that is sorted by its keys.
//!
//! A search probes the row of its window where the key would be if keys rose evenly, but at least
//! 256 rows from the last probe. Once at most 256 rows are left, it reads them in turn.

ghost use Rattle.std.specs.Prelude.{◌≡◌, ◌+◌, ◌<◌, ◌≤◌, length, min, MatchResult, IfOk, OnOk, IfErr};
ghost use Rattle.xet_base.specs.Source.{FillFails, next_bytes, NoFailure};
ghost use Rattle.xet_base.specs.Bytes.{u64_from_bytes};
ghost use Rattle.xet_base.specs.Search.Table.{table_at, row_offset, hits, IsSorted, Finds, FitsTable, SearchRefused, SearchIsBounded, ReadsCount, ActsAsReadFull, Answers, IsEven};
ghost use Rattle.xet_base.specs.Steps.SearchSteps.{TableFailure, table_in, ReadsKey, ReadsValues, StopsWithin, IsRow, KeepsValue, Extends, Counts, ReadsThrough, Runs};

mod table_range;
mod window;

use crate::error::{CoreError, Result};
use crate::source::{ShardSource, read_full};
use std::alloc::Global;
use std::io;
use std::ops::Range;
use table_range::TableRange;
use window::Window;

/// Looks in a sorted table for the rows with this key, and writes their values to the front of
/// `results`, as many as fit. Returns how many it wrote.
///
/// The table has `num_entries` rows from byte `read_start` of the source on: a key of eight bytes,
/// lowest byte first, and a value of `value_width` bytes. `read_value` reads these: it can always
/// be called, and acts on the source as `read_full` of `value_width` bytes does. Does not allocate.
/// Each result is the value of a different row with the key, even if the table is not sorted. On a
/// sorted table of n rows, d of which have the key, it makes at most (n + 1) / 128 + d / 4 + 8
/// seeks. On an even table of fewer than `u32::MAX` rows, where row i, counted from 1, has the key
/// `i * (u64::MAX / (num_entries + 1))`, it makes at most three seeks.
///
/// `InvalidShard` if `num_entries + 1` or the table's end does not fit `u64`, `UnexpectedEof` if
/// the search reads past the end of the source; any other error is the source's. If `results` is
/// empty it reads nothing and returns 0.
pub fn search_on_sorted_u64s<S: ShardSource, V: Default + Copy, F: Fn(&mut S) -> io::Result<V>>(
    alloc: Global,
    source: &mut S,
    read_start: u64,
    num_entries: u64,
    key: u64,
    value_width: u64,
    read_value: F,
    results: &mut [V],
) -> Result<usize>
    requires callable { F.IsAlwaysCallable read_value }
    requires reads { (s : _) (r : _) (t : _) → F.post read_value s r t
        → ActsAsReadFull value_width (S.meaning s.now) r (S.meaning t.now) }
    ensures empty { length results.old ≡ 0
        → (result ≡ Ok 0) × (S.meaning source.new ≡ S.meaning source.old) }
    ensures found { IfOk result
        (Finds (table_at (S.meaning source.old) read_start num_entries value_width) key
        (Answers (λ s. S.meaning s.now) (F.post read_value) value_width) results.old
        results.new) }
    ensures count { let t = table_at (S.meaning source.old) read_start num_entries value_width in
        IsSorted t → IfOk result (λ n. n ≡ min (hits t key) (length results.old)) }
    ensures no_failure { OnOk result (NoFailure (S.meaning source.old) (S.meaning source.new)) }
    ensures fits { let t = table_at (S.meaning source.old) read_start num_entries value_width in
        OnOk result (0 < length results.old → FitsTable t) }
    ensures refused { IfErr result (SearchRefused
        (table_at (S.meaning source.old) read_start num_entries value_width)
        (S.meaning source.old) (S.meaning source.new)) }
    ensures kept { (S.meaning source.new).bytes ≡ (S.meaning source.old).bytes }
    ensures bounds { let t = table_at (S.meaning source.old) read_start num_entries value_width in
        IsSorted t → SearchIsBounded t key (S.meaning source.old) (S.meaning source.new) }
    ensures even { IsEven (table_at (S.meaning source.old) read_start num_entries value_width)
        → (S.meaning source.new).seeks ≤ (S.meaning source.old).seeks + 3 }
{
    if results.is_empty() {
        return Ok(0);
    }
    let Some(range) = TableRange::new(read_start, num_entries, value_width) else {
        return Err(CoreError::InvalidShard(String::new(alloc)));
    };
    Ok(search_rows(source, range, key, &read_value, results)?)
}

// Searches a table whose offsets fit `u64`. The window counts rows from 1, all else from 0.
fn search_rows<S: ShardSource, V: Copy, F: Fn(&mut S) -> io::Result<V>>(
    source: &mut S,
    range: TableRange,
    key: u64,
    read_value: &F,
    results: &mut [V],
) -> io::Result<usize>
    requires callable { F.IsAlwaysCallable read_value.now }
    requires reads { ReadsValues range.width (λ s. S.meaning s.now) (F.post read_value.now) }
    ensures found { IfOk result
        (Finds (table_in range (S.meaning source.old).bytes) key
        (Answers (λ s. S.meaning s.now) (F.post read_value.now) range.width) results.old
        results.new) }
    ensures count { IsSorted (table_in range (S.meaning source.old).bytes)
        → IfOk result
        (λ n. n ≡ min (hits (table_in range (S.meaning source.old).bytes) key)
        (length results.old)) }
    ensures no_failure { OnOk result (NoFailure (S.meaning source.old) (S.meaning source.new)) }
    ensures refused { IfErr result
        (TableFailure (table_in range (S.meaning source.old).bytes) (S.meaning source.old)
        (S.meaning source.new)) }
    ensures kept { (S.meaning source.new).bytes ≡ (S.meaning source.old).bytes }
    ensures bounds { IsSorted (table_in range (S.meaning source.old).bytes)
        → SearchIsBounded (table_in range (S.meaning source.old).bytes) key (S.meaning source.old)
        (S.meaning source.new) }
    ensures even { IsEven (table_in range (S.meaning source.old).bytes)
        → (S.meaning source.new).seeks ≤ (S.meaning source.old).seeks + 3 }
{
    let mut window = Window::new(range.rows, key);
    let mut count = 0;
    while window.high - window.low > 256 {
        let found = read_key_of(source, range, window.probe - 1)?;
        if found == key {
            let rows = window.probe - 1..window.high - 1;
            count = keep_equal(source, range, rows, key, read_value, results, count)?;
        }
        window = window.after(found, key);
    }
    source.seek_to(range.row_offset(window.low))?;
    let rows = window.low..window.high - 1;
    collect(source, range, rows, key, read_value, results, count)
}

// Keeps the value of the first of these rows, whose key was just read and is the key, and those of
// the rows after it until a key differs. Returns how many values are kept then, `had` of them
// before.
fn keep_equal<S: ShardSource, V: Copy, F: Fn(&mut S) -> io::Result<V>>(
    source: &mut S,
    range: TableRange,
    rows: Range<u64>,
    key: u64,
    read_value: &F,
    results: &mut [V],
    had: usize,
) -> io::Result<usize>
    requires before { rows.start < rows.end }
    requires callable { F.IsAlwaysCallable read_value.now }
    requires reads { ReadsValues range.width (λ s. S.meaning s.now) (F.post read_value.now) }
    requires within { rows.end ≤ range.rows }
    requires room { had ≤ length results.old }
    requires equal { IsRow (table_in range (S.meaning source.old).bytes) key rows.start }
    requires key_read { let t = table_in range (S.meaning source.old).bytes in
        (S.meaning source.old).at ≡ row_offset t rows.start + 8 }
    ensures found { Extends (table_in range (S.meaning source.old).bytes) key
        (Answers (λ s. S.meaning s.now) (F.post read_value.now) range.width)
        rows.start rows.end had results.old results.new result }
    ensures count { let t = table_in range (S.meaning source.old).bytes in
        IsSorted t → IfOk result (Counts t key rows.start rows.end (length results.old) had) }
    ensures no_failure { OnOk result (NoFailure (S.meaning source.old) (S.meaning source.new)) }
    ensures refused { let t = table_in range (S.meaning source.old).bytes in
        IfErr result (TableFailure t (S.meaning source.old) (S.meaning source.new)) }
    ensures runs { let t = table_in range (S.meaning source.old).bytes in
        Runs t key rows.start rows.end (S.meaning source.old) (S.meaning source.new) }
{
    let value = read_value(source)?;
    let mut count = keep(results, had, value);
    for row in rows.start + 1..rows.end {
        if read_key(source)? != key {
            return Ok(count);
        }
        let value = read_value(source)?;
        count = keep(results, count, value);
    }
    Ok(count)
}

// Keeps the values of those of these rows that have the key, up to the first row with a greater
// key, whose value is read too. The source is at the first of the rows. Returns how many values are
// kept then, `had` of them before.
fn collect<S: ShardSource, V: Copy, F: Fn(&mut S) -> io::Result<V>>(
    source: &mut S,
    range: TableRange,
    rows: Range<u64>,
    key: u64,
    read_value: &F,
    results: &mut [V],
    had: usize,
) -> io::Result<usize>
    requires before { rows.start ≤ rows.end }
    requires callable { F.IsAlwaysCallable read_value.now }
    requires reads { ReadsValues range.width (λ s. S.meaning s.now) (F.post read_value.now) }
    requires within { rows.end ≤ range.rows }
    requires room { had ≤ length results.old }
    requires at_row { let t = table_in range (S.meaning source.old).bytes in
        (S.meaning source.old).at ≡ row_offset t rows.start }
    ensures found { Extends (table_in range (S.meaning source.old).bytes) key
        (Answers (λ s. S.meaning s.now) (F.post read_value.now) range.width)
        rows.start rows.end had results.old results.new result }
    ensures count { let t = table_in range (S.meaning source.old).bytes in
        IsSorted t → IfOk result (Counts t key rows.start rows.end (length results.old) had) }
    ensures no_failure { OnOk result (NoFailure (S.meaning source.old) (S.meaning source.new)) }
    ensures refused { let t = table_in range (S.meaning source.old).bytes in
        IfErr result (TableFailure t (S.meaning source.old) (S.meaning source.new)) }
    ensures passes { let t = table_in range (S.meaning source.old).bytes in
        ReadsThrough t rows.start rows.end (S.meaning source.old) (S.meaning source.new) }
{
    let mut count = had;
    for row in rows.start..rows.end {
        let found = read_key(source)?;
        let value = read_value(source)?;
        if found > key {
            return Ok(count);
        }
        if found == key {
            count = keep(results, count, value);
        }
    }
    Ok(count)
}

// Stores a value behind the first `count` results, where there is room.
#[inline]
fn keep<V: Copy>(results: &mut [V], count: usize, value: V) -> usize
    ensures { KeepsValue results.old results.new count value result }
{
    if count < results.len() {
        results[count] = value;
        return count + 1;
    }
    count
}

// Reads the key of a row, by one seek.
fn read_key_of<S: ShardSource>(source: &mut S, range: TableRange, row: u64) -> io::Result<u64>
    requires { row < range.rows }
    ensures { MatchResult result
        (ReadsKey (table_in range (S.meaning source.old).bytes) row (S.meaning source.old)
        (S.meaning source.new))
        (StopsWithin (table_in range (S.meaning source.old).bytes) 1 8 (S.meaning source.old)
        (S.meaning source.new)) }
{
    source.seek_to(range.row_offset(row))?;
    read_key(source)
}

// Reads a key at the source's position.
#[tactic(auto, unfolding(crate::specs::Bytes::u64_from_bytes))]
#[inline(always)]
fn read_key<S: ShardSource>(source: &mut S) -> io::Result<u64>
    ensures { MatchResult result
        (λ key. ReadsCount (S.meaning source.old) (S.meaning source.new) 8
        × (key ≡ u64_from_bytes (next_bytes (S.meaning source.old) 8)))
        (FillFails (S.meaning source.old) (S.meaning source.new) 8) }
{
    let mut bytes = [0u8; 8];
    read_full(source, &mut bytes)?;
    Ok(u64::from_le_bytes(bytes))
}
