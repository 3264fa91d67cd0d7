//! The search, on tables that lines describe.

ghost use Rattle.std.specs.Prelude.{◌≤◌, MatchResult, IfOk};
ghost use Rattle.xet_core_structures.specs.Source.{FillFails};
ghost use Rattle.xet_core_structures.specs.Table.{ReadsCount};

use crate::device::Device;
use crate::probe::Probe;
use crate::runs::Run;
use crate::stop::Stop;
use script_lines::show::show_counted;
use script_lines::words::parse_u64;
use std::io;
use std::io::Write;
use xet_core_structures::interpolation_search::search_on_sorted_u64s;
use xet_core_structures::source::{ShardSource, read_full};

/// The greatest width of a value, in bytes.
const MAX_WIDTH: u64 = 64;

/// The value of a table's first row.
const FIRST_VALUE: u64 = 100;

impl Probe {
    /// Makes a table of these rows. `KEY` is a row with this key, `KEYxN` so many, and `even:N` so
    /// many with the keys i * s, s the greatest for which all of them are below the end of 64 bits.
    /// The values count up.
    pub fn make_table(&mut self, name: &str, width: &str, rows: &[&str]) -> Result<(), Stop> {
        let width = checked_width(parse_u64(width)?)?;
        let mut bytes = Vec::new(self.alloc);
        let mut value = FIRST_VALUE;
        for row in rows {
            let (first, step, count) = parse_rows(row)?;
            push_rows(&mut bytes, width, first, step, count, value)?;
            value = value.wrapping_add(count);
        }
        self.put_buffer(name, bytes)
    }
}

fn checked_width(width: u64) -> Result<usize, Stop>
    ensures { IfOk result (λ width. width ≤ 64) }
{
    if width > MAX_WIDTH {
        return Err(Stop::Unreadable);
    }
    Ok(width as usize)
}

// The first key, what the next ones are greater by, and the number of rows.
fn parse_rows(word: &str) -> Result<(u64, u64, u64), Stop> {
    if let Some(count) = word.strip_prefix("even:") {
        let count = parse_u64(count)?;
        let step = u64::MAX / count.saturating_add(1).max(1);
        return Ok((step, step, count));
    }
    match word.split_once('x') {
        Some((key, count)) => Ok((parse_u64(key)?, 0, parse_u64(count)?)),
        None => Ok((parse_u64(word)?, 0, 1)),
    }
}

// Appends rows, each with its value in `width` bytes, lowest first, cut or filled with zeros.
fn push_rows(
    bytes: &mut Vec<u8>,
    width: usize,
    first: u64,
    step: u64,
    count: u64,
    first_value: u64,
) -> Result<(), Stop>
    requires { width ≤ 64 }
{
    let mut key = first;
    let mut value = first_value;
    for _row in 0..count {
        bytes.extend_from_slice(&key.to_le_bytes())?;
        bytes.extend_from_slice(&value_bytes(value)[..width])?;
        key = key.wrapping_add(step);
        value = value.wrapping_add(1);
    }
    Ok(())
}

// The value's bytes, lowest first, and zeros.
fn value_bytes(value: u64) -> [u8; 64] {
    let mut bytes = [0u8; 64];
    bytes[..8].copy_from_slice(&value.to_le_bytes());
    bytes
}

impl Run<'_> {
    /// Searches a table from byte START on, of so many rows, for a key, by words `START ROWS WIDTH
    /// KEY RESULTS`, and prints the values, ascending.
    pub fn search(&mut self, numbers: &[&str], out: &mut Vec<u8>) -> Result<(), Stop> {
        let [start, rows, width, key, most] = numbers else {
            return Err(Stop::Unreadable);
        };
        let start = parse_u64(start)?;
        let rows = parse_u64(rows)?;
        let width = checked_width(parse_u64(width)?)?;
        let key = parse_u64(key)?;
        let mut results = vec![in self.alloc; 0u64; parse_u64(most)? as usize]?;
        let found = search_on_sorted_u64s(
            self.alloc,
            &mut self.first,
            start,
            rows,
            key,
            width as u64,
            |source: &mut Device<'_>| read_value(source, width),
            results.as_mut_slice(),
        )?;
        results.truncate(found);
        results.sort_unstable();
        write!(out, "found ")?;
        show_counted(results.as_slice(), out)?;
        Ok(())
    }
}

// Reads a value of so many bytes: the number that its first eight spell.
fn read_value<S: ShardSource>(source: &mut S, width: usize) -> io::Result<u64>
    requires { width ≤ 64 }
    ensures { MatchResult result (λ _. ReadsCount (S.meaning source.old) (S.meaning source.new) width)
        (FillFails (S.meaning source.old) (S.meaning source.new) width) }
{
    let mut bytes = [0u8; 64];
    read_full(source, &mut bytes[..width])?;
    let mut first = [0u8; 8];
    first.copy_from_slice(&bytes[..8]);
    Ok(u64::from_le_bytes(first))
}
