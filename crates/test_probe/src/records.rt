//! Commands on rows and records by themselves.

ghost use Rattle.std.specs.Prelude.{◌<◌, ◌+◌, ◌^◌, ◌↔◌, IsTrue};
ghost use Rattle.xet_core_structures.specs.XorbRecord.{end_of_chunk};

use crate::probe::Probe;
use crate::sets::split_at_with;
use crate::stop::Stop;
use script_lines::files_and_xorbs::{parse_file, parse_xorb};
use script_lines::records::{Form, parse_full_chunk};
use script_lines::show::{show_joined, show_line};
use script_lines::words::parse_u32;
use std::alloc::Global;
use std::io::Write;
use xet_core_structures::file_structs::{FileDataSequenceEntry, FileDataSequenceHeader};
use xet_core_structures::xorb_structs::XorbChunkSequenceEntry;

impl Probe {
    /// Runs a command on rows or records alone. `false` if the words are no such command.
    pub fn show_records(&self, words: &[&str], out: &mut Vec<u8>) -> Result<bool, Stop> {
        let alloc = self.alloc;
        match words {
            ["flags", first, second] => show_compared(first, second, out),
            ["rows_after", record @ ..] => show_rows_after(alloc, record, out),
            ["file_parts", record @ ..] => show_parts(alloc, record, out),
            ["file_sizes", record @ ..] => show_file_sizes(alloc, record, out),
            ["xorb_size", record @ ..] => show_xorb_size(alloc, record, out),
            ["is_bookend", kind, record @ ..] => show_is_bookend(alloc, kind, record, out),
            ["is_eligible_chunk", chunk] => show_is_eligible(chunk, out),
            ["merge_files", records @ ..] => show_merged(alloc, records, out),
            ["clone_file", record @ ..] => show_cloned_file(alloc, record, out),
            ["clone_xorb", record @ ..] => show_cloned_xorb(alloc, record, out),
            ["segment_of", start, end, record @ ..] => {
                show_segment(alloc, start, end, record, out)
            }
            ["boundaries", record @ ..] => show_boundaries(alloc, record, out),
            _ => return Ok(false),
        }?;
        Ok(true)
    }
}

fn show_compared(first: &str, second: &str, out: &mut Vec<u8>) -> Result<(), Stop> {
    let first = header_with(parse_u32(first)?);
    let second = header_with(parse_u32(second)?);
    let compared = FileDataSequenceHeader::compare_flag_superset(&first, &second);
    Ok(writeln!(out, "{compared:?}")?)
}

fn header_with(file_flags: u32) -> FileDataSequenceHeader {
    FileDataSequenceHeader {
        file_flags,
        ..FileDataSequenceHeader::default()
    }
}

// `Unreadable` if the rows are more than 32 bits count: then the call may not be made.
fn show_rows_after(alloc: Global, record: &[&str], out: &mut Vec<u8>) -> Result<(), Stop> {
    let file = parse_file(alloc, record, Form::Full)?;
    if file.metadata.rows_after() > u64::from(u32::MAX) {
        return Err(Stop::Unreadable);
    }
    let rows = file.metadata.num_info_entry_following();
    Ok(writeln!(out, "{rows}")?)
}

// Prints which optional parts the header of a record announces, and which the record has by it.
fn show_parts(alloc: Global, record: &[&str], out: &mut Vec<u8>) -> Result<(), Stop> {
    let file = parse_file(alloc, record, Form::Full)?;
    let verification = file.metadata.contains_verification();
    let metadata_ext = file.metadata.contains_metadata_ext();
    writeln!(
        out,
        "header: verification {verification} metadata {metadata_ext}"
    )?;
    let verification = file.contains_verification();
    let metadata_ext = file.contains_metadata_ext();
    Ok(writeln!(
        out,
        "record: verification {verification} metadata {metadata_ext}"
    )?)
}

// Prints the bytes of a record, and those of its file. `Unreadable` if its parts are not those that
// its header announces: then the calls may not be made.
fn show_file_sizes(alloc: Global, record: &[&str], out: &mut Vec<u8>) -> Result<(), Stop> {
    let file = parse_file(alloc, record, Form::Full)?;
    if !file.fits_its_header() {
        return Err(Stop::Unreadable);
    }
    let bytes = file.num_bytes();
    let size = file.file_size();
    Ok(writeln!(out, "record {bytes} file {size}")?)
}

// Prints the bytes of a record. `Unreadable` if its chunks are not as many as its header announces.
fn show_xorb_size(alloc: Global, record: &[&str], out: &mut Vec<u8>) -> Result<(), Stop> {
    let xorb = parse_xorb(alloc, record, Form::Full)?;
    if xorb.chunks.len() != xorb.metadata.num_entries as usize {
        return Err(Stop::Unreadable);
    }
    let bytes = xorb.num_bytes();
    Ok(writeln!(out, "{bytes}")?)
}

// Prints whether the header of a record ends a section.
fn show_is_bookend(
    alloc: Global,
    kind: &str,
    record: &[&str],
    out: &mut Vec<u8>,
) -> Result<(), Stop> {
    let is_bookend = match kind {
        "file" => parse_file(alloc, record, Form::Full)?.metadata.is_bookend(),
        "xorb" => parse_xorb(alloc, record, Form::Full)?.metadata.is_bookend(),
        _ => return Err(Stop::Unreadable),
    };
    Ok(writeln!(out, "{is_bookend}")?)
}

fn show_is_eligible(chunk: &str, out: &mut Vec<u8>) -> Result<(), Stop> {
    let is_eligible = parse_full_chunk(chunk, 0)?.is_global_dedup_eligible();
    Ok(writeln!(out, "{is_eligible}")?)
}

// Prints the first of two records after the other is merged into it. `Unreadable` if they are not of
// one file.
fn show_merged(alloc: Global, records: &[&str], out: &mut Vec<u8>) -> Result<(), Stop> {
    let (first, second) = split_at_with(records)?;
    let mut file = parse_file(alloc, first, Form::Full)?;
    let other = parse_file(alloc, second, Form::Full)?;
    if !FileDataSequenceHeader::verify_same_file(&file.metadata, &other.metadata) {
        return Err(Stop::Unreadable);
    }
    file.merge_from(alloc, &other)?;
    Ok(show_line(&file, out)?)
}

fn show_cloned_file(alloc: Global, record: &[&str], out: &mut Vec<u8>) -> Result<(), Stop> {
    let file = parse_file(alloc, record, Form::Full)?;
    Ok(show_line(&file.try_clone(alloc)?, out)?)
}

fn show_cloned_xorb(alloc: Global, record: &[&str], out: &mut Vec<u8>) -> Result<(), Stop> {
    let xorb = parse_xorb(alloc, record, Form::Full)?;
    Ok(show_line(&xorb.try_clone(alloc)?, out)?)
}

// Prints the segment of the chunks of a xorb, none or two, at these indices. `Unreadable` if they are
// others, or have more bytes than 32 bits count: then the call may not be made.
fn show_segment(
    alloc: Global,
    start: &str,
    end: &str,
    record: &[&str],
    out: &mut Vec<u8>,
) -> Result<(), Stop> {
    let xorb = parse_xorb(alloc, record, Form::Full)?;
    let header = &xorb.metadata;
    let (start, end) = (parse_u32(start)?, parse_u32(end)?);
    let segment = match xorb.chunks.as_slice() {
        [] => FileDataSequenceEntry::from_xorb_entries(header, &[], start, end),
        [first, second] if fit_together(first, second) => {
            FileDataSequenceEntry::from_xorb_entries(header, &[*first, *second], start, end)
        }
        _ => return Err(Stop::Unreadable),
    };
    Ok(show_line(&segment, out)?)
}

fn fit_together(first: &XorbChunkSequenceEntry, second: &XorbChunkSequenceEntry) -> bool
    ensures { IsTrue result
        ↔ (first.now.unpacked_segment_bytes + second.now.unpacked_segment_bytes < 2 ^ 32) }
{
    first
        .unpacked_segment_bytes
        .checked_add(second.unpacked_segment_bytes)
        .is_some()
}

fn show_boundaries(alloc: Global, xorb: &[&str], out: &mut Vec<u8>) -> Result<(), Stop> {
    let xorb = parse_xorb(alloc, xorb, Form::Full)?;
    if !xorb.chunks.as_slice().iter().all(|chunk| end_fits(chunk)) {
        return Err(Stop::Unreadable);
    }
    let boundaries = xorb.chunks_and_boundaries(alloc)?;
    if boundaries.is_empty() {
        return Ok(writeln!(out, "none")?);
    }
    show_joined("", boundaries.as_slice(), " ", out)?;
    writeln!(out)?;
    Ok(())
}

fn end_fits(chunk: &XorbChunkSequenceEntry) -> bool
    ensures { IsTrue result ↔ (end_of_chunk chunk.now < 2 ^ 32) }
{
    chunk
        .chunk_byte_range_start
        .checked_add(chunk.unpacked_segment_bytes)
        .is_some()
}
