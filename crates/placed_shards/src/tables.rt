//! The rows of ranges of hashes in a section, by its lookup table.

ghost use Rattle.std.specs.Prelude.{◌≡◌, ◌+◌, ◌*◌, ◌≤◌, length};
ghost use Rattle.placed_shards.specs.RangeRows.{first_row, end_row, row_from, word_in, row_in, table_rows, last_row, file_table, xorb_table, last_file_row, last_xorb_row};

use xet_base::fields::{split_u32, split_u64};
use xet_base::merklehash::MerkleHash;
use xet_records::rows::{ROW_LIMIT, ROW_SIZE, START_ROW_SIZE};
use xet_shards::shard_format::MDBShardInfo;

/// The lookup table of a section.
#[derive(Clone, Copy)]
pub struct SectionTable<'a> {
    /// The first word of the hash of each record, and the row at which the record starts.
    pub rows: &'a [u8],
    /// The last row for which the section has room, where its bookend is.
    pub last: u32,
}

impl<'a> SectionTable<'a> {
    /// The table of the files by the footer, unchecked.
    pub fn of_files(bytes: &'a [u8], info: &MDBShardInfo) -> SectionTable<'a>
        ensures rows { result.rows.now ≡ file_table bytes.now info.now }
        ensures last { result.last ≡ last_file_row info.now }
    {
        let footer = &info.metadata;
        SectionTable {
            rows: table_at(
                bytes,
                footer.file_lookup_offset,
                footer.file_lookup_num_entry,
            ),
            last: last_between(footer.file_info_offset, footer.xorb_info_offset),
        }
    }

    /// As [`Self::of_files`], of the xorbs.
    pub fn of_xorbs(bytes: &'a [u8], info: &MDBShardInfo) -> SectionTable<'a>
        ensures rows { result.rows.now ≡ xorb_table bytes.now info.now }
        ensures last { result.last ≡ last_xorb_row info.now }
    {
        let footer = &info.metadata;
        SectionTable {
            rows: table_at(
                bytes,
                footer.xorb_lookup_offset,
                footer.xorb_lookup_num_entry,
            ),
            last: last_between(footer.xorb_info_offset, footer.file_lookup_offset),
        }
    }

    /// The row at which a range begins: beside the first word not below that of `from`, by
    /// bisection, or `last` if there is none; 0 without a hash.
    pub fn first_row(&self, from: &Option<MerkleHash>) -> u32
        ensures { result ≡ first_row self.now.rows.now self.now.last from.now }
    {
        match from {
            Some(hash) => row_from(self.rows, hash.word0, self.last),
            None => 0,
        }
    }

    /// The row before which a range ends, where the next begins; `last` without a hash.
    pub fn end_row(&self, to: &Option<MerkleHash>) -> u32
        ensures { result ≡ end_row self.now.rows.now self.now.last to.now }
    {
        match to {
            Some(hash) => row_from(self.rows, hash.word0, self.last),
            None => self.last,
        }
    }
}

// The rows of a table that are in these bytes.
fn table_at(bytes: &[u8], offset: u64, count: u64) -> &[u8]
    ensures { result.now ≡ table_rows bytes.now offset count }
{
    if offset >= bytes.len() as u64 {
        return &bytes[bytes.len()..];
    }
    let rest = &bytes[offset as usize..];
    let size = count.saturating_mul(START_ROW_SIZE as u64);
    if size >= rest.len() as u64 {
        return rest;
    }
    &rest[..size as usize]
}

fn last_between(start: u64, end: u64) -> u32
    ensures { result ≡ last_row start end }
{
    let rows = end.saturating_sub(start) / ROW_SIZE as u64;
    rows.saturating_sub(1).min(ROW_LIMIT) as u32
}

fn row_from(table: &[u8], word: u64, last: u32) -> u32
    ensures { result ≡ row_from table.now word last }
{
    let count = table.len() / START_ROW_SIZE;
    let mut low = 0;
    let mut size = count;
    while size > 0 {
        let half = (size - 1) / 2;
        if entry_at(table, low + half).0 < word {
            low += half + 1;
            size -= half + 1;
        } else {
            size = half;
        }
    }
    if low < count {
        entry_at(table, low).1
    } else {
        last
    }
}

fn entry_at(table: &[u8], index: usize) -> (u64, u32)
    requires { 12 * index + 12 ≤ length table.now }
    ensures word { result.0 ≡ word_in table.now index }
    ensures row { result.1 ≡ row_in table.now index }
{
    let (word, rest) = split_u64(&table[index * START_ROW_SIZE..]);
    let (row, _) = split_u32(rest);
    (word, row)
}
