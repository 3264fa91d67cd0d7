//! Commands that read a buffer through a device.

use crate::runs::Run;
use crate::stop::Stop;
use script_lines::command::{Command, parse_words};
use script_lines::fields::{footer_fields, header_fields};
use script_lines::records::{Form, parse_hashes};
use script_lines::show::{Show, show_counted, show_joined, show_line};
use script_lines::words::{parse_hash, parse_optional_u64, parse_u32};
use std::alloc::Global;
use std::io::{self, Write};
use xet_core_structures::error::Result as CoreResult;
use xet_core_structures::shard_format::{MDBShardInfo, MOST_FOUND};
use xet_core_structures::source::{MemorySource, ShardSource};
use xet_core_structures::streaming_shard::MDBMinimalShard;

/// Header and footer of a shard's bytes, read by a source that does not fail.
pub fn info_of(alloc: Global, bytes: &[u8]) -> Result<MDBShardInfo, Stop> {
    Ok(MDBShardInfo::load_from_reader(alloc, &mut MemorySource::new(bytes))?)
}

impl Run<'_> {
    /// Makes the call of a command that reads the first source, and prints what it returns. Most
    /// calls take header and footer, which are read before by a source that does not fail.
    pub fn read(&mut self, words: &[&str], out: &mut Vec<u8>) -> Result<(), Stop> {
        let alloc = self.alloc;
        let source = &mut self.first;
        match words {
            ["load", _, fields @ ..] => {
                show_info(&MDBShardInfo::load_from_reader(alloc, source)?, fields, out)
            }
            ["eligible_chunks", _] => {
                let hashes = MDBShardInfo::filter_cas_chunks_for_global_dedup(alloc, source)?;
                Ok(show_line(&hashes, out)?)
            }
            ["copy_eligible", _] => {
                let hashes = MDBMinimalShard::eligible_chunks_from_reader(alloc, source)?;
                Ok(show_line(&hashes, out)?)
            }
            ["read_file_ranges", _, from @ ..] => {
                if let Some(from) = parse_optional_u64(from)? {
                    source.seek_to(from)?;
                }
                let ranges = MDBShardInfo::read_file_info_ranges(alloc, source)?;
                Ok(show_line(&ranges, out)?)
            }
            ["search", _, numbers @ ..] => self.search(numbers, out),
            [
                "minimal_sums" | "dropmin_sizes" | "minimal_records" | "minimal_eligible",
                _,
                parts,
            ] => { self.show_minimal(words[0], parts, out) }
            ["find" | "query", ..] => self.find_or_query(words, out),
            [command, _, arguments @ ..] => {
                let info = info_of(alloc, source.bytes)?;
                self.read_known(&info, command, arguments, out)
            }
            _ => Err(Stop::Unreadable),
        }
    }

    // Makes the call of a command that `shardtool` has too.
    fn find_or_query(&mut self, words: &[&str], out: &mut Vec<u8>) -> Result<(), Stop> {
        let alloc = self.alloc;
        let source = &mut self.first;
        let info = info_of(alloc, source.bytes)?;
        match parse_words(alloc, words, Form::Full)? {
            Some(Command::Find { hash, .. }) => {
                show_line(
                    &info.get_file_reconstruction_info(alloc, source, &hash)?,
                    out,
                )?;
            }
            Some(Command::Query { hashes, .. }) => {
                let run = info.chunk_hash_dedup_query(alloc, source, hashes.as_slice())?;
                show_line(&run, out)?;
            }
            _ => return Err(Stop::Unreadable),
        }
        Ok(())
    }

    // Makes a call that takes header and footer.
    fn read_known(
        &mut self,
        info: &MDBShardInfo,
        command: &str,
        arguments: &[&str],
        out: &mut Vec<u8>,
    ) -> Result<(), Stop> {
        let alloc = self.alloc;
        macro_rules! show {
            ($call:ident) => {
                show_answer(info.$call(alloc, &mut self.first), out)
            };
        }
        match (command, arguments) {
            ("ranges" | "num_bytes" | "num_chunks" | "totals" | "key", []) => {
                show_known(info, alloc, command, out)
            }
            ("read_files", []) => show!(read_all_file_info_sections),
            ("read_xorbs", []) => show!(read_all_xorb_blocks_full),
            ("read_xorb_headers", []) => show!(read_all_xorb_blocks),
            ("read_xorb_table", []) => show!(read_full_xorb_lookup),
            ("read_words", []) => show!(read_all_truncated_hashes),
            ("file_at", [row]) => self.show_file_at(info, row, out),
            ("query_at", [row, index, hashes @ ..]) => {
                self.show_query_at(info, row, index, hashes, out)
            }
            (_, [hash]) => self.look_up(info, command, hash, out),
            _ => Err(Stop::Unreadable),
        }
    }

    fn show_file_at(
        &mut self,
        info: &MDBShardInfo,
        row: &str,
        out: &mut Vec<u8>,
    ) -> Result<(), Stop> {
        let row = parse_u32(row)?;
        show_answer(info.read_file_info(self.alloc, &mut self.first, row), out)
    }

    fn show_query_at(
        &mut self,
        info: &MDBShardInfo,
        row: &str,
        index: &str,
        hashes: &[&str],
        out: &mut Vec<u8>,
    ) -> Result<(), Stop> {
        let alloc = self.alloc;
        let hashes = parse_hashes(alloc, hashes)?;
        let (row, index) = (parse_u32(row)?, parse_u32(index)?);
        let source = &mut self.first;
        let run = info.chunk_hash_dedup_query_direct(alloc, source, hashes.as_slice(), row, index);
        show_answer(run, out)
    }

    // Makes a call that takes a hash. What it finds, up to 8 rows or locations, most put into an
    // array.
    fn look_up(
        &mut self,
        info: &MDBShardInfo,
        command: &str,
        hash: &str,
        out: &mut Vec<u8>,
    ) -> Result<(), Stop> {
        let hash = parse_hash(hash)?;
        macro_rules! show_found {
            ($call:ident, $none:expr) => {{
                let mut found = [$none; MOST_FOUND];
                let count = info.$call(self.alloc, &mut self.first, &hash, &mut found)?;
                found[..count].sort_unstable();
                show_counted(&found[..count], out)?;
            }};
        }
        match command {
            "file_index" => show_found!(get_file_info_index_by_hash, 0u32),
            "xorb_index" => show_found!(get_xorb_info_index_by_hash, 0u32),
            "chunk_index" => show_found!(get_xorb_info_index_by_chunk, (0u32, 0u32)),
            "keyed" => show_line(&info.keyed_chunk_hash(&hash), out)?,
            _ => return Err(Stop::Unreadable),
        }
        Ok(())
    }
}

/// Prints what a call returns, if it does not fail.
pub fn show_answer<T: Show + Drop>(answer: CoreResult<T>, out: &mut Vec<u8>) -> Result<(), Stop> {
    Ok(show_line(&answer?, out)?)
}

// Makes a call that takes nothing besides header and footer.
fn show_known(
    info: &MDBShardInfo,
    alloc: Global,
    command: &str,
    out: &mut Vec<u8>,
) -> Result<(), Stop> {
    match command {
        "num_bytes" => show_line(&info.num_bytes(alloc)?, out)?,
        "num_chunks" => show_line(&info.total_num_chunks(), out)?,
        "totals" => show_totals(info, out)?,
        "key" => show_key(info, out)?,
        _ => show_ranges(info, out)?,
    }
    Ok(())
}

fn show_totals(info: &MDBShardInfo, out: &mut Vec<u8>) -> io::Result<()> {
    let files = info.num_file_entries();
    let xorbs = info.num_xorb_entries();
    let stored = info.stored_bytes();
    let disk = info.stored_bytes_on_disk();
    let materialized = info.materialized_bytes();
    write!(out, "files {files} xorbs {xorbs} ")?;
    writeln!(
        out,
        "stored {stored} disk {disk} materialized {materialized}"
    )
}

fn show_key(info: &MDBShardInfo, out: &mut Vec<u8>) -> io::Result<()> {
    let is_protected = info.chunk_hashes_protected();
    write!(out, "protected {is_protected} ")?;
    show_line(&info.chunk_hmac_key(), out)
}

fn show_ranges(info: &MDBShardInfo, out: &mut Vec<u8>) -> io::Result<()> {
    let ranges = [
        info.file_info_byte_range(),
        info.xorb_info_byte_range(),
        info.file_lookup_byte_range(),
        info.xorb_lookup_byte_range(),
        info.chuck_lookup_byte_range(),
    ];
    show_joined("", &ranges, " ", out)?;
    writeln!(out)
}

/// Prints the fields that are named, on one line, or if none is all fields of the header on a line
/// and all fields of the footer on the next. `Unreadable` if a field has another name.
pub fn show_info(info: &MDBShardInfo, names: &[&str], out: &mut Vec<u8>) -> Result<(), Stop> {
    if names.is_empty() {
        show_line(&info.header, out)?;
        show_line(&info.metadata, out)?;
        return Ok(());
    }
    let header = header_fields(&info.header);
    let footer = footer_fields(&info.metadata);
    let mut before = "";
    for name in names {
        write!(out, "{before}")?;
        let field = header
            .iter()
            .chain(footer.iter())
            .find(|field| field.name == *name);
        field.ok_or(Stop::Unreadable)?.show(out)?;
        before = " ";
    }
    writeln!(out)?;
    Ok(())
}
