//! Sections that are read in one pass, with a function that is called with each record.

use crate::minimal::show_endless;
use crate::probe::Probe;
use crate::stop::Stop;
use script_lines::show::{Show, show_line};
use script_lines::words::{parse_optional_u64, parse_u64};
use std::alloc::Global;
use std::io;
use std::io::{Read, Write};
use xet_core_structures::error::{CoreError, Result as CoreResult};
use xet_core_structures::file_structs::MDBFileInfoView;
use xet_core_structures::streaming_shard::{
    process_shard_file_info_section, process_shard_file_info_section_versioned,
    process_shard_xorb_info_section,
};
use xet_core_structures::xorb_structs::MDBXorbInfoView;

impl Probe {
    /// Runs a command that reads a section in one pass. `false` if the words are no such command.
    pub fn show_sections(&self, words: &[&str], out: &mut Vec<u8>) -> Result<bool, Stop> {
        match words {
            ["each_file", name, from, last @ ..] => self.show_files(name, from, last, out),
            ["each_file_in", version, name, from, last @ ..] => {
                self.show_files_in(version, name, from, last, out)
            }
            ["each_xorb", name, from, last @ ..] => self.show_xorbs(name, from, last, out),
            ["endless_files", last] => count_files(self.alloc, last, out),
            ["endless_minimal", parts] => show_endless(self.alloc, parts, out),
            _ => return Ok(false),
        }?;
        Ok(true)
    }

    fn show_files(
        &self,
        name: &str,
        from: &str,
        last: &[&str],
        out: &mut Vec<u8>,
    ) -> Result<(), Stop> {
        let (mut left, mut calls) = self.section(name, from, last)?;
        let alloc = self.alloc;
        let mut show = |view: MDBFileInfoView| calls.show(&view.to_info(alloc)?, out);
        let answer = process_shard_file_info_section(alloc, &mut left, &mut show);
        show_left(answer, left, out)
    }

    fn show_files_in(
        &self,
        version: &str,
        name: &str,
        from: &str,
        last: &[&str],
        out: &mut Vec<u8>,
    ) -> Result<(), Stop> {
        let (mut left, mut calls) = self.section(name, from, last)?;
        let version = parse_u64(version)?;
        let alloc = self.alloc;
        let mut show = |view: MDBFileInfoView| calls.show(&view.to_info(alloc)?, out);
        let answer = process_shard_file_info_section_versioned(
            alloc, &mut left, version, &mut show,
        );
        show_left(answer, left, out)
    }

    fn show_xorbs(
        &self,
        name: &str,
        from: &str,
        last: &[&str],
        out: &mut Vec<u8>,
    ) -> Result<(), Stop> {
        let (mut left, mut calls) = self.section(name, from, last)?;
        let alloc = self.alloc;
        let mut show = |view: MDBXorbInfoView| calls.show(&view.to_info(alloc)?, out);
        let answer = process_shard_xorb_info_section(alloc, &mut left, &mut show);
        show_left(answer, left, out)
    }

    // The bytes of a section, and its calls.
    fn section(&self, name: &str, from: &str, last: &[&str]) -> Result<(&[u8], Calls), Stop> {
        let bytes = self.buffer_from(name, parse_u64(from)?)?;
        Ok((bytes, Calls::parse(last)?))
    }
}

// Prints how many bytes are left behind a section.
fn show_left(answer: CoreResult<()>, left: &[u8], out: &mut Vec<u8>) -> Result<(), Stop> {
    let left = left.len();
    writeln!(out, "left {left}")?;
    Ok(answer?)
}

// The calls that were made, and the one that fails, from 1, or 0 if none does.
#[derive(Clone, Copy)]
struct Calls {
    made: u64,
    last: u64,
}

impl Calls {
    fn parse(last: &[&str]) -> Result<Calls, Stop> {
        let last = parse_optional_u64(last)?.unwrap_or(0);
        Ok(Calls { made: 0, last })
    }

    // Counts a call, and fails if it is the one that has to.
    fn count(&mut self) -> CoreResult<()> {
        self.made = self.made.saturating_add(1);
        if self.made == self.last {
            return Err(CoreError::InvalidRange);
        }
        Ok(())
    }

    // Prints the record of a call, and fails if the call has to.
    fn show<T: Show>(&mut self, record: &T, out: &mut Vec<u8>) -> CoreResult<()> {
        show_line(record, out)?;
        self.count()
    }
}

// Prints how many files of a section without an end are read.
fn count_files(alloc: Global, last: &str, out: &mut Vec<u8>) -> Result<(), Stop> {
    let mut calls = Calls::parse(&[last])?;
    let mut count = |_view: MDBFileInfoView| calls.count();
    let answer = process_shard_file_info_section(alloc, &mut Zeros {}, &mut count);
    let made = calls.made;
    writeln!(out, "calls {made}")?;
    Ok(answer?)
}

/// A reader of zero bytes without an end.
#[derive(Drop)]
pub struct Zeros {}

impl Read for Zeros {
    fn read(&mut self, buf: &mut [u8]) -> io::Result<usize> {
        buf.fill(0);
        Ok(buf.len())
    }
}
