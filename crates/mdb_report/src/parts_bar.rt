//! Where the parts of a shard are, and a bar of them.

ghost use Rattle.std.specs.Prelude.{◌≡◌, ◌↔◌, ◌*◌, ◌/◌, ◌<◌, IfOk, IsTrue, string_bytes};
ghost use Rattle.mdb_report.specs.PartsBar.{letter_of, columns, PartsAscend};
ghost use Rattle.mdb_report.specs.Summary.{ArePartsOf};

use serde::Serialize;
use std::alloc::{AllocError, Global};
use std::fmt;
use xet_core_structures::shard_format::MDBShardInfo;

/// The offsets of a part in its shard, the end excluded.
#[derive(Clone, Copy, Serialize)]
pub struct PartRange {
    pub start: u64,
    pub end: u64,
}

impl fmt::Display for PartRange {
    fn fmt<W: fmt::Write>(&self, f: &mut fmt::Formatter<W>) -> fmt::Result {
        let PartRange { start, end } = *self;
        write!(f, "{start}..{end}")
    }
}

/// A table's bytes and rows.
#[derive(Clone, Copy, Serialize)]
pub struct TablePart {
    pub start: u64,
    pub end: u64,
    pub rows: u64,
}

impl fmt::Display for TablePart {
    fn fmt<W: fmt::Write>(&self, f: &mut fmt::Formatter<W>) -> fmt::Result {
        let TablePart { start, end, rows } = *self;
        write!(f, "{start}..{end} rows {rows}")
    }
}

/// A shard's parts by its footer; each ends where the next starts.
#[derive(Clone, Copy, Serialize)]
pub struct Parts {
    pub header: PartRange,
    pub files: PartRange,
    pub xorbs: PartRange,
    pub file_table: TablePart,
    pub xorb_table: TablePart,
    pub chunk_table: TablePart,
    pub footer: PartRange,
}

impl Parts {
    /// The parts of a shard of so many bytes with this footer.
    pub fn of_shard(info: &MDBShardInfo, bytes: u64) -> Parts
        ensures { ArePartsOf info.now bytes result }
    {
        let footer = info.metadata;
        Parts {
            header: PartRange {
                start: 0,
                end: footer.file_info_offset,
            },
            files: PartRange {
                start: footer.file_info_offset,
                end: footer.xorb_info_offset,
            },
            xorbs: PartRange {
                start: footer.xorb_info_offset,
                end: footer.file_lookup_offset,
            },
            file_table: TablePart {
                start: footer.file_lookup_offset,
                end: footer.xorb_lookup_offset,
                rows: footer.file_lookup_num_entry,
            },
            xorb_table: TablePart {
                start: footer.xorb_lookup_offset,
                end: footer.chunk_lookup_offset,
                rows: footer.xorb_lookup_num_entry,
            },
            chunk_table: TablePart {
                start: footer.chunk_lookup_offset,
                end: footer.footer_offset,
                rows: footer.chunk_lookup_num_entry,
            },
            footer: PartRange {
                start: footer.footer_offset,
                end: bytes,
            },
        }
    }

    /// Whether no part ends before it starts, and none after the shard.
    pub fn ascend(&self) -> bool
        ensures { IsTrue result ↔ PartsAscend self.now }
    {
        self.header.end <= self.files.end
            && self.files.end <= self.xorbs.end
            && self.xorbs.end <= self.file_table.end
            && self.file_table.end <= self.xorb_table.end
            && self.xorb_table.end <= self.chunk_table.end
            && self.chunk_table.end <= self.footer.end
    }

    fn letter_at(&self, offset: u64) -> char
        ensures letter { result ≡ letter_of self.now offset }
        ensures ascii { result < 128 }
    {
        if offset < self.header.end {
            'H'
        } else if offset < self.files.end {
            'F'
        } else if offset < self.xorbs.end {
            'X'
        } else if offset < self.chunk_table.end {
            'T'
        } else {
            'E'
        }
    }
}

/// The columns of a bar.
const COLUMNS: u64 = 60;

/// What the letters of a bar stand for.
pub const LEGEND: &str = "H header  F files  X xorbs  T tables  E footer";

/// A bar of a shard's parts: column k of 60 has the letter of the part with byte k * bytes / 60.
pub fn bar_of(alloc: Global, parts: &Parts, bytes: u64) -> Result<String, AllocError>
    ensures { IfOk result (λ bar. string_bytes bar ≡ columns parts.now bytes 60) }
{
    let mut bar = String::with_capacity(alloc, COLUMNS as usize)?;
    for column in 0..COLUMNS {
        bar.push(parts.letter_at(byte_at(column, bytes)))?;
    }
    Ok(bar)
}

// column * bytes / 60, without a product that overflows.
fn byte_at(column: u64, bytes: u64) -> u64
    requires { column < 60 }
    ensures { result ≡ column * bytes / 60 }
{
    bytes / COLUMNS * column + bytes % COLUMNS * column / COLUMNS
}
