//! Shards that are not written yet: merges of lists in a range, also put into memory that is there, and
//! ranges that are opened by lookup tables.

use crate::probe::Probe;
use crate::stop::Stop;
use bumpalo::Bump;
use placed_shards::by_tables::open_by_tables;
use placed_shards::merge::merge;
use placed_shards::range::HashRange;
use placed_shards::selection::{Access, Selection};
use script_lines::words::{parse_hash, parse_u64};
use std::alloc::Global;
use std::io::Write;
use xet_core_structures::error::Result;
use xet_core_structures::merklehash::MerkleHash;
use xet_core_structures::record_reader::FormatVersion;

// What is there before bytes are put.
const BEFORE: u8 = 7;

impl Probe {
    /// Runs a command on shards that are not written yet. `false` if the words are no such command.
    pub fn run_on_placed(
        &mut self,
        words: &[&str],
        out: &mut Vec<u8>,
    ) -> std::result::Result<bool, Stop> {
        match words {
            ["placed_merge", name, version, how, from, to, names @ ..] => {
                let selection = parse_selection(how, from, to)?;
                self.merge_selected(name, parse_version(version)?, selection, names)
            }
            ["placed_by_tables", name, from, to, input] => {
                self.open_range(name, parse_range(from, to)?, input)
            }
            ["placed_fill", name, size, names @ ..] => self.fill(
                name,
                parse_u64(size)?,
                names,
                out,
            ),
            _ => return Ok(false),
        }?;
        Ok(true)
    }

    fn merge_selected(
        &mut self,
        name: &str,
        version: FormatVersion,
        selection: Selection,
        names: &[&str],
    ) -> std::result::Result<(), Stop> {
        let bytes = merged(
            self.alloc,
            self.buffers(names)?.as_slice(),
            selection,
            version,
        )?;
        self.put_buffer(name, bytes)
    }

    fn open_range(
        &mut self,
        name: &str,
        range: HashRange,
        input: &str,
    ) -> std::result::Result<(), Stop> {
        let bytes = found_by_tables(self.alloc, self.buffer(input)?, &range)?;
        self.put_buffer(name, bytes)
    }

    fn fill(
        &mut self,
        name: &str,
        size: u64,
        names: &[&str],
        out: &mut Vec<u8>,
    ) -> std::result::Result<(), Stop> {
        let mut bytes = vec![in self.alloc; BEFORE; size as usize]?;
        let count = filled(
            self.alloc,
            self.buffers(names)?.as_slice(),
            bytes.as_mut_slice(),
        )?;
        writeln!(out, "{count}")?;
        self.put_buffer(name, bytes)
    }
}

// The bytes of the merge of a list of shards.
fn merged(
    alloc: Global,
    inputs: &[&[u8]],
    selection: Selection,
    version: FormatVersion,
) -> Result<Vec<u8>> {
    let arena = Bump::new(alloc);
    merge(alloc, &arena, inputs, &selection)?.to_bytes(alloc, version)
}

// The bytes of the records in a range of a shard, found by its lookup tables.
fn found_by_tables(alloc: Global, bytes: &[u8], range: &HashRange) -> Result<Vec<u8>> {
    open_by_tables(alloc, bytes, range)?.to_bytes(alloc, FormatVersion::V3)
}

// The number of the bytes of a list of shards, which are put into memory if they fit.
fn filled(alloc: Global, inputs: &[&[u8]], out: &mut [u8]) -> Result<usize> {
    let arena = Bump::new(alloc);
    merge(alloc, &arena, inputs, &Selection::ALL)?.write_into(alloc, FormatVersion::V3, out)
}

fn parse_version(word: &str) -> std::result::Result<FormatVersion, Stop> {
    FormatVersion::of_number(parse_u64(word)?).ok_or(Stop::Unreadable)
}

/// The records from a hash on and below another, found by a `scan` or by the lookup `tables`; `-` is
/// no bound.
pub fn parse_selection(how: &str, from: &str, to: &str) -> std::result::Result<Selection, Stop> {
    let access = match how {
        "scan" => Access::Scan,
        "tables" => Access::Tables,
        _ => return Err(Stop::Unreadable),
    };
    Ok(Selection {
        range: parse_range(from, to)?,
        access,
    })
}

fn parse_range(from: &str, to: &str) -> std::result::Result<HashRange, Stop> {
    Ok(HashRange {
        from: parse_bound(from)?,
        to: parse_bound(to)?,
    })
}

fn parse_bound(word: &str) -> std::result::Result<Option<MerkleHash>, Stop> {
    match word {
        "-" => Ok(None),
        hash => Ok(Some(parse_hash(hash)?)),
    }
}
