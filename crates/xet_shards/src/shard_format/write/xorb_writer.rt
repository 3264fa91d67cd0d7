//! Writing the xorb section, and collecting its tables.

ghost use Rattle.std.specs.Prelude.{◌≡◌, ◌+◌, ◌*◌, ◌≤◌, ◌++◌, [], ◌∷◌, List, length, true, false, MatchResult, OnOk, IfOk, IfErr};
ghost use Rattle.std.specs.Io.KnownBytes.{Appends};
ghost use Rattle.xet_base.specs.Errors.{IsWriteError};
ghost use Rattle.xet_records.specs.declared.xorb_structs.MDBXorbInfo.{MDBXorbInfo};
ghost use Rattle.xet_records.specs.declared.xorb_structs.XorbChunkSequenceEntry.{XorbChunkSequenceEntry};
ghost use Rattle.xet_records.specs.Copying.{CopiesRows, CopyFails, IsOutputFailure};
ghost use Rattle.xet_records.specs.XorbRecord.{xorb_record_bytes, xorb_row_count, HasItsChunks};
ghost use Rattle.xet_records.specs.XorbRow.{chunk_row, FitsChunk};
ghost use Rattle.xet_shards.specs.Write.Tables.{chunk_table_row_bytes};
ghost use Rattle.xet_shards.specs.Steps.Collecting.{BeginsWithChunks};
ghost use Rattle.xet_shards.specs.Steps.TablesSteps.{AddsChunkRows};
ghost use Rattle.xet_shards.specs.Write.Written.{AddsRecord, HasWrittenFor, HasWrittenXorbs};
ghost use Rattle.xet_records.specs.Limits.{MAX_ROWS};

use super::written::{RecordTable, WrittenSection, WrittenXorbs};
use crate::shard_format::CHUNK_ROW_SIZE;
use crate::shard_format::read::placed_record::PlacedRecord;
use std::alloc::Global;
use std::io::Write;
use xet_base::error::{CoreError, Result};
use xet_base::fields::{put_u32, put_u64};
use xet_base::input::ByteInput;
use xet_records::record_bytes::row;
use xet_records::row_copier::{CopyFailure, CopyResult, copy_row, write_copied_row};
use xet_records::xorb_structs::{MDBXorbInfo, XorbChunkSequenceEntry, XorbChunkSequenceHeader};

/// A row of the chunk table: the first word of a chunk's hash, the row at which its xorb starts,
/// and its index in the xorb. Rows ascend by this order of fields.
#[derive(Clone, Copy, Debug, PartialEq, Eq, PartialOrd, Ord)]
pub struct ChunkTableRow {
    pub word: u64,
    pub row: u32,
    pub index: u32,
}

impl ChunkTableRow {
    /// The bytes of the row.
    pub fn to_bytes(&self) -> [u8; CHUNK_ROW_SIZE]
        ensures { result ≡ chunk_table_row_bytes self.now }
    {
        let mut bytes = [0u8; CHUNK_ROW_SIZE];
        let at = put_u64(&mut bytes, 0, self.word);
        let at = put_u32(&mut bytes, at, self.row);
        put_u32(&mut bytes, at, self.index);
        bytes
    }
}

impl WrittenXorbs {
    /// Adds the next xorb without its chunks, and returns the row at which it starts. `OutOfMemory`
    /// if an allocation fails.
    pub fn add(&mut self, header: &XorbChunkSequenceHeader) -> Result<u32>
        requires rows { self.old.table.rows + (1 + header.now.num_entries) ≤ MAX_ROWS }
        ensures row { IfOk result (λ row. row ≡ self.old.table.rows) }
        ensures table { OnOk result
            (AddsRecord self.old.table self.new.table header.now.xorb_hash.word0
            (1 + header.now.num_entries)) }
        ensures chunk_rows { self.new.chunk_rows ≡ self.old.chunk_rows }
        ensures bytes { OnOk result
            (self.new.stored_bytes ≡ self.old.stored_bytes + header.now.num_bytes_in_xorb) }
        ensures bytes_on_disk { OnOk result
            (self.new.stored_bytes_on_disk
            ≡ self.old.stored_bytes_on_disk + header.now.num_bytes_on_disk) }
        ensures causes { IfErr result (λ e. e ≡ CoreError.OutOfMemory) }
    {
        let row = self.table.rows as u32;
        let rows = 1 + u64::from(header.num_entries);
        self.table.add(header.xorb_hash.word0, rows)?;
        self.stored_bytes += u64::from(header.num_bytes_in_xorb);
        self.stored_bytes_on_disk += u64::from(header.num_bytes_on_disk);
        Ok(row)
    }

    /// Adds and writes the next xorb, and collects rows of the chunk table if `chunk_table`. The
    /// error is the writer's, or `OutOfMemory`.
    pub fn write_for<W: Write>(
        &mut self,
        writer: &mut W,
        xorb: &MDBXorbInfo,
        chunk_table: bool,
    ) -> Result<()>
        requires whole { HasItsChunks xorb.now }
        requires rows { self.old.table.rows + xorb_row_count xorb.now ≤ MAX_ROWS }
        ensures appended { OnOk result
            (Appends (W.contents writer.old) (W.contents writer.new) (xorb_record_bytes xorb.now)) }
        ensures written { OnOk result ((before : List MDBXorbInfo)
            → HasWrittenFor chunk_table self.old before
            → HasWrittenFor chunk_table self.new (before ++ xorb.now ∷ [])) }
        ensures no_rows { chunk_table ≡ false → self.new.chunk_rows ≡ self.old.chunk_rows }
        ensures causes { IfErr result IsWriteError }
    {
        let row = self.add(&xorb.metadata)?;
        collect_chunk_rows(
            &mut self.chunk_rows,
            chunk_table,
            row,
            xorb.chunks.as_slice(),
        )?;
        xorb.serialize(writer)?;
        Ok(())
    }
}

impl WrittenSection for WrittenXorbs {
    type Record = MDBXorbInfo;

    ghost is_whole = { HasItsChunks };

    ghost has_written = { HasWrittenXorbs };

    ghost rows = { λ written. written.table.rows };

    ghost counts_rows = { λ written xorbs have. have.table.rows };

    fn new(alloc: Global) -> WrittenXorbs {
        WrittenXorbs {
            table: RecordTable::new(alloc),
            chunk_rows: Vec::new(alloc),
            stored_bytes: 0,
            stored_bytes_on_disk: 0,
        }
    }

    fn has_room(&self, more: u64) -> bool {
        self.table.has_room(more)
    }

    fn write<W: Write>(&mut self, writer: &mut W, xorb: &MDBXorbInfo) -> Result<()> {
        self.write_for(writer, xorb, true)
    }

    fn copy<M, I: ByteInput<M>, W: Write>(
        &mut self,
        input: &mut I,
        writer: &mut W,
        header: XorbChunkSequenceHeader,
    ) -> CopyResult<()> {
        write_copied_row(&header, writer)?;
        let row = match self.add(&header) {
            Ok(row) => row,
            Err(error) => return Err(CopyFailure::Output(error)),
        };
        copy_chunks::<M, I, W>(&mut self.chunk_rows, row, input, writer, header.num_entries)?;
        Ok(())
    }

    fn collect(&mut self, placed: &PlacedRecord<'_, XorbChunkSequenceHeader>) -> Result<()> {
        let first = self.add(&placed.header)?;
        let count = placed.header.num_entries;
        collect_rows_of(&mut self.chunk_rows, first, placed.rows, count)
    }

    fn write_bookend<W: Write>(writer: &mut W) -> Result<()> {
        XorbChunkSequenceHeader::bookend().serialize(writer)?;
        Ok(())
    }
}

fn collect_chunk_rows(
    chunk_rows: &mut Vec<ChunkTableRow>,
    wanted: bool,
    row: u32,
    chunks: &[XorbChunkSequenceEntry],
) -> Result<()>
    requires { length chunks.now ≤ MAX_ROWS }
    ensures ok { OnOk result
        (wanted ≡ true → AddsChunkRows chunk_rows.old.items chunk_rows.new.items row chunks.now) }
    ensures no_rows { wanted ≡ false → chunk_rows.new ≡ chunk_rows.old }
    ensures causes { IfErr result (λ e. e ≡ CoreError.OutOfMemory) }
{
    if wanted {
        push_chunk_rows(chunk_rows, row, chunks)?;
    }
    Ok(())
}

// Adds the rows of the chunks of a xorb that starts at this row.
fn push_chunk_rows(
    chunk_rows: &mut Vec<ChunkTableRow>,
    row: u32,
    chunks: &[XorbChunkSequenceEntry],
) -> Result<()>
    requires { length chunks.now ≤ MAX_ROWS }
    ensures ok { OnOk result
        (AddsChunkRows chunk_rows.old.items chunk_rows.new.items row chunks.now) }
    ensures causes { IfErr result (λ e. e ≡ CoreError.OutOfMemory) }
{
    let mut index = 0;
    for chunk in chunks {
        let word = chunk.chunk_hash.word0;
        chunk_rows.push(ChunkTableRow { word, row, index })?;
        index += 1;
    }
    Ok(())
}

// The same of the chunks in the first of these rows.
fn collect_rows_of(
    chunk_rows: &mut Vec<ChunkTableRow>,
    first: u32,
    rows: &[u8],
    count: u32,
) -> Result<()>
    requires { 48 * count ≤ length rows.now }
    ensures added { OnOk result ((chunks : List XorbChunkSequenceEntry)
        → BeginsWithChunks rows.now count chunks
        → AddsChunkRows chunk_rows.old.items chunk_rows.new.items first chunks) }
    ensures causes { IfErr result (λ e. e ≡ CoreError.OutOfMemory) }
{
    for index in 0..count {
        let chunk: XorbChunkSequenceEntry = row(rows, index as usize);
        chunk_rows.push(ChunkTableRow {
            word: chunk.chunk_hash.word0,
            row: first,
            index,
        })?;
    }
    Ok(())
}

fn copy_chunks<M, I: ByteInput<M>, W: Write>(
    chunk_rows: &mut Vec<ChunkTableRow>,
    row: u32,
    input: &mut I,
    writer: &mut W,
    count: u32,
) -> CopyResult<()>
    ensures { MatchResult result
        (λ _. (chunks : List XorbChunkSequenceEntry)
        × CopiesRows chunk_row FitsChunk (λ c. c) (I.reads input.old input.new)
        (W.contents writer.old) (W.contents writer.new) count chunks
        × AddsChunkRows chunk_rows.old.items chunk_rows.new.items row chunks)
        (CopyFails I.reads I.fails input.old input.new (48 * count)) }
{
    for index in 0..count {
        let chunk = copy_row::<XorbChunkSequenceEntry, M, I, W>(input, writer)?;
        let word = chunk.chunk_hash.word0;
        add_chunk_row(chunk_rows, ChunkTableRow { word, row, index })?;
    }
    Ok(())
}

// `OutOfMemory` is the output's failure.
fn add_chunk_row(chunk_rows: &mut Vec<ChunkTableRow>, row: ChunkTableRow) -> CopyResult<()>
    ensures added { OnOk result (chunk_rows.new.items ≡ chunk_rows.old.items ++ row ∷ []) }
    ensures causes { IfErr result IsOutputFailure }
{
    match chunk_rows.push(row) {
        Ok(_) => Ok(()),
        Err(_) => Err(CopyFailure::Output(CoreError::OutOfMemory)),
    }
}
