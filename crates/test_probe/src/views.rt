//! Commands on views of records.

use crate::probe::Probe;
use crate::reading::show_answer;
use crate::stop::Stop;
use bytes::Bytes;
use script_lines::files_and_xorbs::{parse_file, parse_xorb};
use script_lines::records::Form;
use script_lines::show::{Show, show_bytes, show_line};
use script_lines::words::{parse_u32, parse_u64};
use std::alloc::Global;
use std::io::{self, Write};
use xet_core_structures::error::Result as CoreResult;
use xet_core_structures::file_structs::MDBFileInfoView;
use xet_core_structures::xorb_structs::{MDBXorbInfoView, XorbChunkSequenceEntry};

impl Probe {
    /// Runs a command on a view of the record that a buffer begins with. `false` if the words are
    /// no such command.
    pub fn show_views(&self, words: &[&str], out: &mut Vec<u8>) -> Result<bool, Stop> {
        match words {
            ["file_view", name, call @ ..] => self.view_file(name, call, out),
            ["file_view_under", name, record @ ..] => self.view_file_under(name, record, out),
            ["xorb_view", name, call @ ..] => self.view_xorb(name, call, out),
            ["xorb_view_under", name, record @ ..] => self.view_xorb_under(name, record, out),
            _ => return Ok(false),
        }?;
        Ok(true)
    }

    fn view_file(&self, name: &str, call: &[&str], out: &mut Vec<u8>) -> Result<(), Stop> {
        let view = MDBFileInfoView::new(self.alloc, self.copy_of(name)?)?;
        show_file_view(&view, self.alloc, call, out)
    }

    fn view_file_under(&self, name: &str, record: &[&str], out: &mut Vec<u8>) -> Result<(), Stop> {
        let header = parse_file(self.alloc, record, Form::Full)?.metadata;
        let bytes = self.copy_of(name)?;
        let view = MDBFileInfoView::from_data_and_header(self.alloc, header, bytes)?;
        Ok(show_line(view.header(), out)?)
    }

    fn view_xorb(&self, name: &str, call: &[&str], out: &mut Vec<u8>) -> Result<(), Stop> {
        let view = MDBXorbInfoView::new(self.copy_of(name)?)?;
        show_xorb_view(&view, self.alloc, call, out)
    }

    fn view_xorb_under(&self, name: &str, record: &[&str], out: &mut Vec<u8>) -> Result<(), Stop> {
        let header = parse_xorb(self.alloc, record, Form::Full)?.metadata;
        let view = MDBXorbInfoView::from_data_and_header(header, self.copy_of(name)?)?;
        Ok(show_line(view.header(), out)?)
    }

    fn copy_of(&self, name: &str) -> Result<Bytes, Stop> {
        Ok(Bytes::copy_from_slice(self.alloc, self.buffer(name)?)?)
    }
}

// Prints the result of a call on a view, or its header if no call is named.
fn show_file_view(
    view: &MDBFileInfoView,
    alloc: Global,
    call: &[&str],
    out: &mut Vec<u8>,
) -> Result<(), Stop> {
    match call {
        [] => show_answer(Ok(*view.header()), out),
        ["fields"] => Ok(show_fields(view, out)?),
        ["entry" | "verification" | "metadata", ..] => show_row(view, alloc, call, out),
        ["bytes"] => show_data(view, alloc, out),
        ["size", "with"] => show_size(view, true, out),
        ["size", "without"] => show_size(view, false, out),
        ["serialize", "with"] => show_serialized(view, alloc, true, out),
        ["serialize", "without"] => show_serialized(view, alloc, false, out),
        ["to_info"] => show_answer(view.to_info(alloc), out),
        ["copy"] => show_answer(view.try_clone()?.to_info(alloc), out),
        _ => Err(Stop::Unreadable),
    }
}

// Prints what the calls on a view return of the header.
fn show_fields(view: &MDBFileInfoView, out: &mut Vec<u8>) -> io::Result<()> {
    view.file_hash().show(out)?;
    let flags = view.file_flags();
    let count = view.num_entries();
    let verification = view.contains_verification();
    let metadata_ext = view.contains_metadata_ext();
    writeln!(
        out,
        " flags {flags} entries {count} verification {verification} metadata {metadata_ext}"
    )
}

// Prints a row of a view. `Unreadable` if there is none at the index: then the call may not be made.
fn show_row(
    view: &MDBFileInfoView,
    alloc: Global,
    call: &[&str],
    out: &mut Vec<u8>,
) -> Result<(), Stop> {
    match call {
        ["metadata"] => Ok(show_line(&view.metadata_ext(), out)?),
        ["entry", index] => {
            let index = parse_u32(index)? as usize;
            if index >= view.num_entries() {
                return Err(Stop::Unreadable);
            }
            Ok(show_line(&view.entry(index), out)?)
        }
        ["verification", index] => {
            let index = parse_u32(index)? as usize;
            let rows = view.to_info(alloc)?.verification.len();
            if index >= rows {
                return Err(Stop::Unreadable);
            }
            Ok(show_line(&view.verification(index), out)?)
        }
        _ => Err(Stop::Unreadable),
    }
}

fn show_data(view: &MDBFileInfoView, alloc: Global, out: &mut Vec<u8>) -> Result<(), Stop> {
    Ok(show_bytes(alloc, view.bytes()?.as_slice(), out)?)
}

fn show_size(view: &MDBFileInfoView, verification: bool, out: &mut Vec<u8>) -> Result<(), Stop> {
    let size = view.byte_size(verification);
    Ok(writeln!(out, "{size}")?)
}

fn show_serialized(
    view: &MDBFileInfoView,
    alloc: Global,
    verification: bool,
    out: &mut Vec<u8>,
) -> Result<(), Stop> {
    let mut bytes = Vec::new(alloc);
    let written = view.serialize(&mut bytes, verification);
    show_written(alloc, written, bytes.as_slice(), out)
}

fn show_xorb_view(
    view: &MDBXorbInfoView,
    alloc: Global,
    call: &[&str],
    out: &mut Vec<u8>,
) -> Result<(), Stop> {
    match call {
        [] => show_answer(Ok(*view.header()), out),
        ["fields"] => Ok(show_xorb_fields(view, out)?),
        ["chunk", index] => show_chunk(view, parse_u32(index)?, out),
        ["serialize"] => show_serialized_xorb(view, alloc, out),
        ["mark", index] => show_marked(view, alloc, parse_u64(index)?, out),
        ["to_info"] => show_answer(view.to_info(alloc), out),
        ["copy"] => show_answer(view.try_clone()?.to_info(alloc), out),
        _ => Err(Stop::Unreadable),
    }
}

// Prints what the calls on a view return of the header, and the bytes of the record.
fn show_xorb_fields(view: &MDBXorbInfoView, out: &mut Vec<u8>) -> io::Result<()> {
    view.xorb_hash().show(out)?;
    let count = view.num_entries();
    let bytes = view.byte_size();
    writeln!(out, " entries {count} bytes {bytes}")
}

// Prints a chunk of a view. `Unreadable` if there is none at the index: then the call may not be
// made.
fn show_chunk(view: &MDBXorbInfoView, index: u32, out: &mut Vec<u8>) -> Result<(), Stop> {
    let index = index as usize;
    if index >= view.num_entries() {
        return Err(Stop::Unreadable);
    }
    Ok(show_line(&view.chunk(index), out)?)
}

fn show_serialized_xorb(
    view: &MDBXorbInfoView,
    alloc: Global,
    out: &mut Vec<u8>,
) -> Result<(), Stop> {
    let mut bytes = Vec::new(alloc);
    let written = view.serialize(&mut bytes);
    show_written(alloc, written, bytes.as_slice(), out)
}

// Serializes a xorb with the mark on one chunk, by its index.
fn show_marked(
    view: &MDBXorbInfoView,
    alloc: Global,
    marked: u64,
    out: &mut Vec<u8>,
) -> Result<(), Stop> {
    let mut bytes = Vec::new(alloc);
    let mark = |index: usize, chunk: XorbChunkSequenceEntry| {
        chunk.with_global_dedup_flag(index as u64 == marked)
    };
    let count = view.serialize_with_chunk_rewrite(&mut bytes, mark)?;
    show_written(alloc, Ok(count), bytes.as_slice(), out)
}

// Prints the count that a call returned, and the bytes that it wrote, also if it failed.
fn show_written(
    alloc: Global,
    written: CoreResult<usize>,
    bytes: &[u8],
    out: &mut Vec<u8>,
) -> Result<(), Stop> {
    if let Ok(count) = &written {
        write!(out, "{count} ")?;
    }
    show_bytes(alloc, bytes, out)?;
    written?;
    Ok(())
}
