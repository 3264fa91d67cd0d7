//! The end of a shard: its lookup tables and footer.

ghost use Rattle.std.specs.Prelude.{◌≡◌, ◌+◌, ◌*◌, ◌≤◌, length, true, List, All, OnOk, IfOk, IfErr, flat_map, if◌then◌else◌};
ghost use Rattle.std.specs.Io.KnownBytes.{Appends};
ghost use Rattle.xet_base.specs.declared.error.CoreError.{CoreError};
ghost use Rattle.xet_base.specs.Errors.{IsWriteError};
ghost use Rattle.xet_records.specs.declared.file_structs.MDBFileInfo.{MDBFileInfo};
ghost use Rattle.xet_records.specs.declared.xorb_structs.MDBXorbInfo.{MDBXorbInfo};
ghost use Rattle.xet_records.specs.FileRecord.{FitsRecord};
ghost use Rattle.xet_shards.specs.Ends.Ends.{FitsFooter};
ghost use Rattle.xet_shards.specs.Write.Layout.{if_included, footer_value};
ghost use Rattle.xet_shards.specs.Write.Puts.{Puts};
ghost use Rattle.xet_shards.specs.Write.ShardEnd.{end_bytes};
ghost use Rattle.xet_shards.specs.Write.Tables.{chunk_table_row_bytes, chunk_table_rows, chunk_table_bytes};
ghost use Rattle.xet_shards.specs.Write.Written.{HasWritten, HasWrittenFor, end_of_layout};

use super::row_order::in_order;
use super::written::{WrittenFiles, WrittenXorbs};
use super::xorb_writer::ChunkTableRow;
use crate::shard_format::ends::footer::MDBShardFileFooter;
use crate::shard_format::ends::options::LayoutOptions;
use crate::shard_format::{CHUNK_ROW_SIZE, FOOTER_SIZE, HEADER_SIZE, START_ROW_SIZE};
use std::io::Write;
use xet_base::error::Result;
use xet_base::fields::put;
use xet_base::serialization_utils::write_bytes;
use xet_records::rows::ROW_SIZE;

// The rows that go to the writer at once.
const BLOCK_ROWS: usize = 64;

/// The tables, each empty if left out, and the footer.
#[derive(Drop)]
pub struct ShardEnd<'a> {
    file_table: &'a [u8],
    xorb_table: Vec<u8>,
    // In ascending order.
    chunk_rows: Vec<ChunkTableRow>,
    footer: MDBShardFileFooter,
}

impl<'a> ShardEnd<'a> {
    /// The end of a shard, by what was collected of its files and xorbs. `OutOfMemory` if an
    /// allocation fails.
    pub fn make(
        files: &'a WrittenFiles,
        xorbs: WrittenXorbs,
        options: &LayoutOptions,
    ) -> Result<ShardEnd<'a>>
        ensures bytes { IfOk result (λ end. (rs : List MDBFileInfo) → (xs : List MDBXorbInfo)
            → All FitsRecord rs → HasWritten files.now rs
            → HasWrittenFor options.now.chunk_table xorbs xs
            → end_bytes end ≡ end_of_layout rs xs options.now) }
        ensures footer { IfOk result (λ end. (rs : List MDBFileInfo) → (xs : List MDBXorbInfo)
            → All FitsRecord rs → HasWritten files.now rs
            → HasWrittenFor options.now.chunk_table xorbs xs
            → end.footer ≡ footer_value rs xs options.now) }
        ensures widths { IfOk result (λ end. FitsFooter end.footer) }
        ensures causes { IfErr result (λ e. e ≡ CoreError.OutOfMemory) }
    {
        let footer = footer_of(files, &xorbs, options);
        let file_table = table_if_included(options.file_table, files.table.bytes.as_slice());
        let xorb_table = owned_table_if_included(options.xorb_table, xorbs.table.bytes);
        let chunk_rows = rows_in_order(options.chunk_table, xorbs.chunk_rows)?;
        Ok(ShardEnd {
            file_table,
            xorb_table,
            chunk_rows,
            footer,
        })
    }

    /// Writes it. The error is the writer's.
    pub fn write<W: Write>(&self, writer: &mut W) -> Result<()>
        ensures bytes { OnOk result
            (Appends (W.contents writer.old) (W.contents writer.new) (end_bytes self.now)) }
        ensures causes { IfErr result IsWriteError }
    {
        write_bytes(writer, self.file_table)?;
        write_bytes(writer, self.xorb_table.as_slice())?;
        write_chunk_rows(writer, self.chunk_rows.as_slice())?;
        self.footer.serialize(writer)?;
        Ok(())
    }

    /// Puts it into a slice at an offset, and returns the offset after it.
    pub fn put(&self, out: &mut [u8], at: usize) -> usize
        requires { at + length (end_bytes self.now) ≤ length out.old }
        ensures { Puts out.old out.new at result (end_bytes self.now) }
    {
        let footer = self.footer.to_bytes();
        let at = put(out, at, self.file_table);
        let at = put(out, at, self.xorb_table.as_slice());
        let at = put_rows(out, at, self.chunk_rows.as_slice());
        put(out, at, &footer)
    }
}

/// Makes and writes the end of a shard, and returns its footer. The error is the writer's, or
/// `OutOfMemory`.
pub fn write_end<W: Write>(
    writer: &mut W,
    files: &WrittenFiles,
    xorbs: WrittenXorbs,
    options: &LayoutOptions,
) -> Result<MDBShardFileFooter>
    ensures bytes { OnOk result ((rs : List MDBFileInfo) → (xs : List MDBXorbInfo)
        → All FitsRecord rs → HasWritten files.now rs
        → HasWrittenFor options.now.chunk_table xorbs xs
        → Appends (W.contents writer.old) (W.contents writer.new) (end_of_layout rs xs options.now)) }
    ensures footer { IfOk result (λ footer. (rs : List MDBFileInfo) → (xs : List MDBXorbInfo)
        → All FitsRecord rs → HasWritten files.now rs
        → HasWrittenFor options.now.chunk_table xorbs xs
        → footer ≡ footer_value rs xs options.now) }
    ensures widths { IfOk result FitsFooter }
    ensures causes { IfErr result IsWriteError }
{
    let end = ShardEnd::make(files, xorbs, options)?;
    end.write(writer)?;
    Ok(end.footer)
}

fn table_if_included(is_in: bool, table: &[u8]) -> &[u8]
    ensures { result.now ≡ if_included is_in table.now }
{
    if is_in { table } else { &[] }
}

fn owned_table_if_included(is_in: bool, mut table: Vec<u8>) -> Vec<u8>
    ensures { result.items ≡ if_included is_in table.items }
{
    if !is_in {
        table.clear();
    }
    table
}

fn rows_in_order(is_in: bool, mut rows: Vec<ChunkTableRow>) -> Result<Vec<ChunkTableRow>>
    ensures bytes { IfOk result (λ sorted. (xorbs : List MDBXorbInfo)
        → (is_in ≡ true → rows.items ≡ chunk_table_rows xorbs)
        → flat_map chunk_table_row_bytes sorted.items ≡ if_included is_in (chunk_table_bytes xorbs)) }
    ensures causes { IfErr result (λ e. e ≡ CoreError.OutOfMemory) }
{
    if is_in {
        in_order(rows)
    } else {
        rows.clear();
        Ok(rows)
    }
}

fn write_chunk_rows<W: Write>(writer: &mut W, rows: &[ChunkTableRow]) -> Result<()>
    ensures bytes { OnOk result
        (Appends (W.contents writer.old) (W.contents writer.new)
        (flat_map chunk_table_row_bytes rows.now)) }
    ensures causes { IfErr result IsWriteError }
{
    let blocks = rows.len() / BLOCK_ROWS;
    for block in 0..blocks {
        let start = BLOCK_ROWS * block;
        write_block(writer, &rows[start..start + BLOCK_ROWS])?;
    }
    write_block(writer, &rows[BLOCK_ROWS * blocks..])?;
    Ok(())
}

// Writes at most `BLOCK_ROWS` rows by one call of the writer.
fn write_block<W: Write>(writer: &mut W, rows: &[ChunkTableRow]) -> Result<()>
    requires { length rows.now ≤ 64 }
    ensures bytes { OnOk result
        (Appends (W.contents writer.old) (W.contents writer.new)
        (flat_map chunk_table_row_bytes rows.now)) }
    ensures causes { IfErr result IsWriteError }
{
    let mut bytes = [0u8; CHUNK_ROW_SIZE * BLOCK_ROWS];
    let end = put_rows(&mut bytes, 0, rows);
    write_bytes(writer, &bytes[..end])?;
    Ok(())
}

// Puts rows at an offset, and returns the offset after them.
fn put_rows(out: &mut [u8], at: usize, rows: &[ChunkTableRow]) -> usize
    requires { at + 16 * length rows.now ≤ length out.old }
    ensures end { result ≡ at + 16 * length rows.now }
    ensures bytes { Puts out.old out.new at result (flat_map chunk_table_row_bytes rows.now) }
{
    let mut end = at;
    for row in rows {
        end = put(out, end, &row.to_bytes());
    }
    end
}

fn footer_of(
    files: &WrittenFiles,
    xorbs: &WrittenXorbs,
    options: &LayoutOptions,
) -> MDBShardFileFooter
    ensures widths { FitsFooter result }
    ensures value { (rs : List MDBFileInfo) → (xs : List MDBXorbInfo) → All FitsRecord rs
        → HasWritten files.now rs → HasWrittenFor options.now.chunk_table xorbs.now xs
        → result ≡ footer_value rs xs options.now }
{
    let row_size = ROW_SIZE as u64;
    let start_row_size = START_ROW_SIZE as u64;
    let xorb_info_offset = HEADER_SIZE + row_size * files.table.rows + row_size;
    let file_lookup_offset = xorb_info_offset + row_size * xorbs.table.rows + row_size;
    let file_starts = rows_if_included(options.file_table, files.table.records);
    let xorb_lookup_offset = file_lookup_offset + start_row_size * file_starts;
    let xorb_starts = rows_if_included(options.xorb_table, xorbs.table.records);
    let chunk_lookup_offset = xorb_lookup_offset + start_row_size * xorb_starts;
    // Each row of the xorb section that is no header is a chunk.
    let chunks = rows_if_included(options.chunk_table, xorbs.table.rows - xorbs.table.records);
    let footer = MDBShardFileFooter {
        file_info_offset: HEADER_SIZE,
        xorb_info_offset,
        file_lookup_offset,
        file_lookup_num_entry: file_starts,
        xorb_lookup_offset,
        xorb_lookup_num_entry: xorb_starts,
        chunk_lookup_offset,
        chunk_lookup_num_entry: chunks,
        chunk_hash_hmac_key: options.key,
        shard_creation_timestamp: options.creation,
        shard_key_expiry: options.expiry,
        stored_bytes_on_disk: xorbs.stored_bytes_on_disk,
        materialized_bytes: files.materialized_bytes,
        stored_bytes: xorbs.stored_bytes,
        footer_offset: chunk_lookup_offset + CHUNK_ROW_SIZE as u64 * chunks,
        ..MDBShardFileFooter::default()
    };
    footer.widths();
    footer
}

fn rows_if_included(is_in: bool, rows: u64) -> u64
    ensures { result ≡ (if is_in then rows else 0) }
{
    if is_in { rows } else { 0 }
}
