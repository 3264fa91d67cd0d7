//! Putting records into a slice that has room for them.

ghost use Rattle.std.specs.Prelude.{◌≡◌, ◌+◌, ◌*◌, ◌≤◌, List, ℕ, All, ◌++◌, flat_map, length, map};
ghost use Rattle.xet_records.specs.declared.file_structs.rows.HashRow.{HashRow};
ghost use Rattle.xet_records.specs.FileRecord.{file_record_bytes, file_records, row_count};
ghost use Rattle.xet_records.specs.FileRow.{hash_row, FitsHashRow, clear};
ghost use Rattle.xet_records.specs.XorbRecord.{xorb_records};
ghost use Rattle.xet_shards.specs.Write.Layout.{header_value, shard_header_bytes};
ghost use Rattle.xet_shards.specs.Write.Puts.{Puts};
ghost use Rattle.xet_shards.specs.Write.Section.{section_bytes, total_rows};
ghost use Rattle.placed_shards.specs.StoredFiles.{file_as, files_as};

use crate::placed_file::PlacedFile;
use crate::placed_record::PlacedRecord;
use crate::placed_xorb::PlacedXorb;
use xet_base::fields::{put, put_u64};
use xet_records::record_reader::FormatVersion;
use xet_records::rows::{ROW_SIZE, Row};
use xet_shards::shard_format::MDBShardFileHeader;

/// Puts the header of a version, and returns the offset after it.
pub fn put_header(out: &mut [u8], version: FormatVersion) -> usize
    requires { 48 ≤ length out.old }
    ensures { Puts out.old out.new 0 result (shard_header_bytes (header_value version)) }
{
    let header = MDBShardFileHeader::of_version(version);
    let at = put_bytes(out, 0, &header.tag);
    let at = put_u64(out, at, header.version);
    put_u64(out, at, header.footer_size)
}

/// Puts the section of files, as stored or as read, at an offset, and returns the offset after it.
pub fn put_files(out: &mut [u8], at: usize, files: &[PlacedFile<'_>], is_read: bool) -> usize
    requires { at + 48 * (total_rows file_records files.now + 1) ≤ length out.old }
    ensures { Puts out.old out.new at result
        (section_bytes file_records (files_as is_read files.now)) }
{
    let mut end = at;
    for file in files {
        end = put_file(out, end, file, is_read);
    }
    put_bytes(out, end, &PlacedFile::bookend().to_bytes())
}

fn put_file(out: &mut [u8], at: usize, file: &PlacedFile<'_>, is_read: bool) -> usize
    requires { at + 48 * row_count file.now ≤ length out.old }
    ensures end { result ≡ at + 48 * row_count file.now }
    ensures bytes { Puts out.old out.new at result (file_record_bytes (file_as is_read file.now)) }
{
    file.is_stored();
    let bytes = file.bytes();
    if !is_read {
        return put_bytes(out, at, bytes);
    }
    let header = file.header();
    let fixed = 1 + header.num_entries as usize;
    let (front, optional) = bytes.split_at(ROW_SIZE * fixed);
    let end = put_bytes(out, at, front);
    put_cleared(out, end, optional, 1 + header.rows_after() as usize - fixed)
}

// Puts rows of optional parts with reserved words of zero.
fn put_cleared(out: &mut [u8], at: usize, rows: &[u8], count: usize) -> usize
    requires rows { 48 * count ≤ length rows.now }
    requires room { at + 48 * count ≤ length out.old }
    ensures { (stored : List HashRow) (rest : List ℕ) → All FitsHashRow stored
        → length stored ≡ count → rows.now ≡ flat_map hash_row stored ++ rest
        → Puts out.old out.new at result (flat_map hash_row (map clear stored)) }
{
    let mut end = at;
    for i in 0..count {
        end = put_cleared_row(out, end, &rows[ROW_SIZE * i..ROW_SIZE * i + ROW_SIZE]);
    }
    end
}

fn put_cleared_row(out: &mut [u8], at: usize, row: &[u8]) -> usize
    requires row { length row.now ≡ 48 }
    requires room { at + 48 ≤ length out.old }
    ensures end { result ≡ at + 48 }
    ensures bytes { (stored : HashRow) → FitsHashRow stored → row.now ≡ hash_row stored
        → Puts out.old out.new at result (hash_row (clear stored)) }
{
    let end = put_bytes(out, at, &row[..32]);
    let end = put_u64(out, end, 0);
    put_u64(out, end, 0)
}

/// As [`put_files`], of xorbs.
pub fn put_xorbs(out: &mut [u8], at: usize, xorbs: &[PlacedXorb<'_>]) -> usize
    requires { at + 48 * (total_rows xorb_records xorbs.now + 1) ≤ length out.old }
    ensures { Puts out.old out.new at result (section_bytes xorb_records xorbs.now) }
{
    let mut end = at;
    for xorb in xorbs {
        end = put_bytes(out, end, xorb.bytes());
    }
    put_bytes(out, end, &PlacedXorb::bookend().to_bytes())
}

fn put_bytes(out: &mut [u8], at: usize, bytes: &[u8]) -> usize
    requires { at + length bytes.now ≤ length out.old }
    ensures { Puts out.old out.new at result bytes.now }
{
    put(out, at, bytes)
}
