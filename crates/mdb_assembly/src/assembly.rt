//! A shard written in parts: the rows of files, those of xorbs, then the tables, whose rows wait in
//! another file.

ghost use Rattle.std.specs.Prelude.{◌≡◌, ◌+◌, ◌-◌, ◌<◌, ◌≤◌, ◌^◌, ℕ, List, All, length, map, flat_map, drop, slice_range, true, false, IfOk, IfErr, OnOk};
ghost use Rattle.std.specs.Io.KnownBytes.{Appends};
ghost use Rattle.xet_base.specs.Errors.{IsDeviceError};
ghost use Rattle.xet_records.specs.XorbRow.{xorb_header_row};
ghost use Rattle.xet_records.specs.XorbRecord.{xorb_bookend};
ghost use Rattle.xet_shards.specs.Read.TableReading.{FitsStart, FitsTriple, triple_of};
ghost use Rattle.xet_shards.specs.Write.RaisedRows.{start_later, chunk_row_later};
ghost use Rattle.xet_shards.specs.Write.Tables.{start_row, chunk_table_row_bytes};
ghost use Rattle.xet_shards.specs.declared.shard_format.write.xorb_writer.ChunkTableRow.{ChunkTableRow};
ghost use Rattle.mdb_assembly.specs.Assembly.{AddFails, AddsFiles, AddsPart, AddsXorbs, EndsWith, FitFiles, FitTable, FitXorbs, HasChunkRows, HasStarts, NoneWritten, StepFails, bytes_in, missing_header, state_of};

use crate::counts::{Counts, sum, with_rows};
use crate::equal_shares::share_of;
use crate::part_ranges::{before_bookend, check_range, range};
use crate::row_numbers::{shift_chunk_rows, shift_starts};
use crate::runs::{Extent, merge_runs};
use shard_bytes::check::Section;
use shard_bytes::load::load_bytes;
use std::alloc::Global;
use std::io::{BufWriter, Read, Seek, SeekFrom, Write};
use xet_core_structures::error::{CoreError, Result};
use xet_core_structures::merklehash::HMACKey;
use xet_core_structures::rows::ROW_SIZE;
use xet_core_structures::shard_format::{
    CHUNK_ROW_SIZE, HEADER_SIZE, MDBShardFileFooter, START_ROW_SIZE,
};
use xet_core_structures::xorb_structs::XorbChunkSequenceHeader;

/// The least bytes of a table read at once.
const LEAST_READ: u64 = 4096;

/// The most bytes of a table read at once.
const MOST_READ: u64 = 1 << 20;

/// The bytes of the output written at once.
const OUTPUT_SIZE: usize = 1 << 16;

/// Merging chunk tables takes a quarter of the memory.
const MEMORY_PARTS: u64 = 4;

/// A shard that is written in parts.
#[derive(Drop)]
pub struct Assembly<F: Read + Write + Seek + Drop> {
    alloc: Global,
    output: F,
    tables: F,
    tables_size: u64,
    /// Whether the header is written.
    has_header: bool,
    counts: Counts,
    /// The ranges of file tables in `tables`.
    file_tables: Vec<Extent>,
    /// The ranges of xorb tables there.
    xorb_tables: Vec<Extent>,
    /// The ranges of chunk tables there.
    runs: Vec<Extent>,
}

impl<F: Read + Write + Seek + Drop> Assembly<F> {
    /// A shard of which nothing is written; the rows of its tables wait in `tables`.
    pub fn new(alloc: Global, output: F, tables: F) -> Assembly<F>
        ensures { NoneWritten (F.contents output) (F.contents tables) (state_of F.contents result) }
    {
        Assembly {
            alloc,
            output,
            tables,
            tables_size: 0,
            has_header: false,
            counts: Counts::none(),
            file_tables: Vec::new(alloc),
            xorb_tables: Vec::new(alloc),
            runs: Vec::new(alloc),
        }
    }

    /// Writes the next part of a section from a shard's bytes: the header, unless it is written,
    /// and the rows; those of its tables wait.
    ///
    /// Fails as [`load_bytes`]; with `InvalidShard` if the part lacks what its footer names, a
    /// section has too many rows or a sum passes 64 bits; or with a file's error.
    pub fn add(&mut self, section: Section, part: &mut [u8]) -> Result<()>
        ensures added { OnOk result
            (AddsPart section part.old (state_of F.contents self.old) (state_of F.contents self.new)) }
        ensures causes { IfErr result
            (AddFails section part.old (state_of F.contents self.old)) }
    {
        let footer = load_bytes(self.alloc, part)?.metadata;
        self.write_header(part)?;
        self.counts = self.counts.with_sums(self.alloc, &footer)?;
        match section {
            Section::Files => self.add_files(&footer, part),
            Section::Xorbs => self.add_xorbs(&footer, part),
        }
    }

    fn write_header(&mut self, part: &[u8]) -> Result<()>
        ensures header { OnOk result
            (Appends (F.contents self.old.output) (F.contents self.new.output)
            (missing_header self.old.has_header part.now)) }
        ensures written { OnOk result (self.new.has_header ≡ true) }
        ensures others { self.new ≡ record self.old {
          has_header = self.new.has_header;
          output = self.new.output;
        } }
        ensures causes { IfErr result (StepFails (48 ≤ length part.now)) }
    {
        if !self.has_header {
            let header = range(self.alloc, part, 0, HEADER_SIZE)?;
            self.output.write_all(header)?;
            self.has_header = true;
        }
        Ok(())
    }

    fn add_files(&mut self, footer: &MDBShardFileFooter, part: &mut [u8]) -> Result<()>
        ensures added { OnOk result
            (AddsFiles footer.now part.old (state_of F.contents self.old)
            (state_of F.contents self.new)) }
        ensures causes { IfErr result
            (StepFails (FitFiles footer.now part.old (state_of F.contents self.old))) }
    {
        let before = self.counts;
        let rows = self.write_rows(part, footer.file_info_offset, footer.xorb_info_offset)?;
        let (from, to) = (footer.file_lookup_offset, footer.xorb_lookup_offset);
        let table = self.keep_starts(part, from, to, before.file_rows)?;
        self.file_tables.push(table)?;
        self.counts = Counts {
            file_rows: with_rows(self.alloc, before.file_rows, rows, ROW_SIZE as u64)?,
            files: with_rows(self.alloc, before.files, table.size, START_ROW_SIZE as u64)?,
            ..before
        };
        Ok(())
    }

    fn add_xorbs(&mut self, footer: &MDBShardFileFooter, part: &mut [u8]) -> Result<()>
        ensures added { OnOk result
            (AddsXorbs footer.now part.old (state_of F.contents self.old)
            (state_of F.contents self.new)) }
        ensures causes { IfErr result
            (StepFails (FitXorbs footer.now part.old (state_of F.contents self.old))) }
    {
        let before = self.counts;
        let rows = self.write_rows(part, footer.xorb_info_offset, footer.file_lookup_offset)?;
        let (from, to) = (footer.xorb_lookup_offset, footer.chunk_lookup_offset);
        let table = self.keep_starts(part, from, to, before.xorb_rows)?;
        let (from, to) = (footer.chunk_lookup_offset, footer.footer_offset);
        let run = self.keep_chunk_rows(part, from, to, before.xorb_rows)?;
        self.xorb_tables.push(table)?;
        self.runs.push(run)?;
        self.counts = Counts {
            xorb_rows: with_rows(self.alloc, before.xorb_rows, rows, ROW_SIZE as u64)?,
            xorbs: with_rows(self.alloc, before.xorbs, table.size, START_ROW_SIZE as u64)?,
            chunks: with_rows(self.alloc, before.chunks, run.size, CHUNK_ROW_SIZE as u64)?,
            ..before
        };
        Ok(())
    }

    // Leaves the bookend out, and returns how many bytes were written.
    fn write_rows(&mut self, part: &[u8], from: u64, end: u64) -> Result<u64>
        ensures rows { OnOk result
            (Appends (F.contents self.old.output) (F.contents self.new.output)
            (slice_range part.now from (end - 48))) }
        ensures size { IfOk result (λ size. size ≡ end - 48 - from) }
        ensures others { self.new ≡ record self.old { output = self.new.output } }
        ensures causes { IfErr result
            (StepFails ((from + 48 ≤ end) × (end ≤ length part.now + 48))) }
    {
        let end = before_bookend(self.alloc, end)?;
        let rows = range(self.alloc, part, from, end)?;
        self.output.write_all(rows)?;
        Ok(end - from)
    }

    // Keeps the rows of a table of a part with `first` rows before it.
    fn keep_starts(&mut self, part: &mut [u8], from: u64, to: u64, first: u32) -> Result<Extent>
        ensures written { (starts : List (ℕ × ℕ)) → All FitsStart starts
            → slice_range part.old from to ≡ flat_map start_row starts
            → OnOk result
            (Appends (F.contents self.old.tables) (F.contents self.new.tables)
            (flat_map start_row (map (start_later first) starts))) }
        ensures extent { IfOk result (λ extent. (extent.start ≡ self.old.tables_size)
            × (extent.size ≡ to - from)
            × (self.new.tables_size ≡ self.old.tables_size + (to - from))) }
        ensures elsewhere { (i : ℕ) → to ≤ i → drop i part.new ≡ drop i part.old }
        ensures others { self.new ≡ record self.old {
          tables = self.new.tables;
          tables_size = self.new.tables_size;
        } }
        ensures causes { IfErr result (StepFails (FitTable part.old self.old.tables_size from to
            × HasStarts (slice_range part.old from to) first)) }
    {
        check_range(self.alloc, part.len(), from, to)?;
        let rows = &mut part[from as usize..to as usize];
        shift_starts(self.alloc, rows, first)?;
        self.keep_rows(rows)
    }

    fn keep_chunk_rows(&mut self, part: &mut [u8], from: u64, to: u64, first: u32) -> Result<Extent>
        ensures written { (chunks : List ChunkTableRow)
            → All (λ row. FitsTriple (triple_of row)) chunks
            → slice_range part.old from to ≡ flat_map chunk_table_row_bytes chunks
            → OnOk result
            (Appends (F.contents self.old.tables) (F.contents self.new.tables)
            (flat_map chunk_table_row_bytes (map (chunk_row_later first) chunks))) }
        ensures extent { IfOk result (λ extent. (extent.start ≡ self.old.tables_size)
            × (extent.size ≡ to - from)
            × (self.new.tables_size ≡ self.old.tables_size + (to - from))) }
        ensures others { self.new ≡ record self.old {
          tables = self.new.tables;
          tables_size = self.new.tables_size;
        } }
        ensures causes { IfErr result (StepFails (FitTable part.old self.old.tables_size from to
            × HasChunkRows (slice_range part.old from to) first)) }
    {
        check_range(self.alloc, part.len(), from, to)?;
        let rows = &mut part[from as usize..to as usize];
        shift_chunk_rows(self.alloc, rows, first)?;
        self.keep_rows(rows)
    }

    fn keep_rows(&mut self, rows: &[u8]) -> Result<Extent>
        ensures written { OnOk result
            (Appends (F.contents self.old.tables) (F.contents self.new.tables) rows.now) }
        ensures extent { IfOk result (λ extent. (extent.start ≡ self.old.tables_size)
            × (extent.size ≡ length rows.now)
            × (self.new.tables_size ≡ self.old.tables_size + length rows.now)) }
        ensures others { self.new ≡ record self.old {
          tables = self.new.tables;
          tables_size = self.new.tables_size;
        } }
        ensures causes { IfErr result (StepFails (self.old.tables_size + length rows.now < 2 ^ 64)) }
    {
        self.tables.write_all(rows)?;
        let extent = Extent {
            start: self.tables_size,
            size: rows.len() as u64,
        };
        self.tables_size = sum(self.alloc, self.tables_size, extent.size)?;
        Ok(extent)
    }

    /// Ends a section whose parts are all written.
    pub fn end_section(&mut self) -> Result<()>
        ensures bookend { OnOk result
            (Appends (F.contents self.old.output) (F.contents self.new.output)
            (xorb_header_row xorb_bookend)) }
        ensures causes { IfErr result IsDeviceError }
    {
        XorbChunkSequenceHeader::bookend().serialize(&mut self.output)?;
        Ok(())
    }

    /// Writes the tables and the footer, with an expiry in seconds, and returns the file. Chunk
    /// tables take about a quarter of `memory` bytes. The errors are those of the files.
    pub fn finish(self, key: HMACKey, expiry: Option<u64>, memory: u64) -> Result<F>
        ensures written { IfOk result
            (λ file. EndsWith (state_of F.contents self) key expiry (F.contents file)) }
        ensures causes { IfErr result IsDeviceError }
    {
        let Assembly {
            alloc,
            output,
            mut tables,
            counts,
            file_tables,
            xorb_tables,
            runs,
            ..
        } = self;
        let mut output = BufWriter::with_capacity(alloc, OUTPUT_SIZE, output)?;
        copy_all(&mut tables, file_tables.as_slice(), &mut output)?;
        copy_all(&mut tables, xorb_tables.as_slice(), &mut output)?;
        let each = share_of(memory / MEMORY_PARTS, runs.len() as u64)
            .max(LEAST_READ)
            .min(MOST_READ);
        merge_runs(alloc, &mut tables, runs.as_slice(), each, &mut output)?;
        counts.footer(key, expiry).serialize(&mut output)?;
        match output.into_inner() {
            Ok(output) => Ok(output),
            Err(error) => Err(CoreError::Io(error.into_error())),
        }
    }
}

fn copy_all<F: Read + Seek, W: Write>(
    tables: &mut F,
    extents: &[Extent],
    output: &mut W,
) -> Result<()>
    ensures copied { OnOk result ((bytes : List ℕ) × (length bytes ≡ bytes_in extents.now)
        × Appends (W.contents output.old) (W.contents output.new) bytes) }
    ensures causes { IfErr result IsDeviceError }
{
    for extent in extents {
        copy(tables, *extent, output)?;
    }
    Ok(())
}

fn copy<F: Read + Seek, W: Write>(tables: &mut F, extent: Extent, output: &mut W) -> Result<()>
    ensures copied { OnOk result ((bytes : List ℕ) × (length bytes ≡ extent.size)
        × Appends (W.contents output.old) (W.contents output.new) bytes) }
    ensures causes { IfErr result IsDeviceError }
{
    let mut block = [0u8; LEAST_READ as usize];
    tables.seek(SeekFrom::Start(extent.start))?;
    let mut left = extent.size;
    while left > 0 {
        let next = left.min(LEAST_READ) as usize;
        let part = &mut block[..next];
        tables.read_exact(part)?;
        output.write_all(part)?;
        left -= next as u64;
    }
    Ok(())
}
