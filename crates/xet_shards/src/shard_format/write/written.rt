//! What writers collect of a section.

ghost use Rattle.std.specs.Prelude.{◌≡◌, ◌≢◌, ℕ, ◌+◌, ◌*◌, ◌≤◌, List, [], ◌∷◌, ◌++◌, length, OnOk, IfErr, MatchResult, IsTrue, ◌↔◌};
ghost use Rattle.std.specs.Io.KnownBytes.{Appends};
ghost use Rattle.xet_base.specs.declared.error.CoreError.{CoreError};
ghost use Rattle.xet_base.specs.Errors.{IsWriteError};
ghost use Rattle.xet_base.specs.Hash.{all_ones};
ghost use Rattle.xet_records.specs.Copying.{CopyFails};
ghost use Rattle.xet_shards.specs.Write.Section.{total_rows};
ghost use Rattle.xet_shards.specs.Write.RecordCopying.{CopiesRecord, CollectsRecord};
ghost use Rattle.xet_records.specs.Limits.{MAX_ROWS};

use super::xorb_writer::ChunkTableRow;
use crate::shard_format::read::placed_record::PlacedRecord;
use std::alloc::Global;
use std::io::Write;
use xet_base::error::Result;
use xet_base::input::ByteInput;
use xet_records::record_reader::SectionRecord;
use xet_records::row_copier::CopyResult;

/// What is collected of files or of xorbs.
pub trait WrittenSection {
    type Record: SectionRecord;

    // it has the rows that its header announces
    ghost is_whole: { Self.Record → Type 0 };

    // these records were written
    ghost has_written: { Self → List Self.Record → Type 0 };

    ghost rows: { Self → ℕ };

    /// Before the first record.
    fn new(alloc: Global) -> Self
        ensures { has_written result [] };

    /// Whether so many rows more fit the section.
    fn has_room(&self, more: u64) -> bool
        ensures { IsTrue result ↔ (rows self.now + more ≤ MAX_ROWS) };

    /// Adds and writes the next record. The error is the writer's, or `OutOfMemory`.
    fn write<W: Write>(&mut self, writer: &mut W, next: &Self::Record) -> Result<()>
        requires whole { is_whole next.now }
        requires rows { rows self.old + Self.Record.kind.row_count next.now ≤ MAX_ROWS }
        ensures appended { OnOk result
            (Appends (W.contents writer.old) (W.contents writer.new)
            (Self.Record.kind.record_bytes next.now)) }
        ensures written { OnOk result
            ((before : List Self.Record) → has_written self.old before
            → has_written self.new (before ++ next.now ∷ [])) }
        ensures causes { IfErr result IsWriteError };

    /// Adds and writes the record of a header that was read, copying its rows from the input, as
    /// reading returns them. The failure is the input's, `UnexpectedEof` if fewer rows are left; or
    /// the output's, `OutOfMemory` if an allocation fails.
    fn copy<M, I: ByteInput<M>, W: Write>(
        &mut self,
        input: &mut I,
        writer: &mut W,
        header: <Self::Record as SectionRecord>::Header,
    ) -> CopyResult<()>
        requires is_record { Self.Record.kind.hash_of header ≢ all_ones }
        requires fits { Self.Record.kind.Fits header }
        requires rows { rows self.old + (1 + Self.Record.kind.rows_after header) ≤ MAX_ROWS }
        ensures { MatchResult result
            (λ _. CopiesRecord Self.Record.kind header (I.reads input.old input.new)
            (W.contents writer.old) (W.contents writer.new) (has_written self.old)
            (has_written self.new))
            (CopyFails I.reads I.fails input.old input.new
            (48 * Self.Record.kind.rows_after header)) };

    /// Adds a record that is written elsewhere. `OutOfMemory` if an allocation fails.
    fn collect(
        &mut self,
        placed: &PlacedRecord<'_, <Self::Record as SectionRecord>::Header>,
    ) -> Result<()>
        requires there { 48 * Self.Record.kind.rows_after placed.now.header
            ≤ length placed.now.rows.now }
        requires rows { rows self.old + (1 + Self.Record.kind.rows_after placed.now.header)
            ≤ MAX_ROWS }
        ensures collected { OnOk result
            (CollectsRecord Self.Record.kind placed.now (has_written self.old)
            (has_written self.new)) }
        ensures more { OnOk result (rows self.new
            ≡ rows self.old + (1 + Self.Record.kind.rows_after placed.now.header)) }
        ensures causes { IfErr result (λ e. e ≡ CoreError.OutOfMemory) };

    /// Writes the bookend. The error is the writer's.
    fn write_bookend<W: Write>(writer: &mut W) -> Result<()>
        ensures bytes { OnOk result
            (Appends (W.contents writer.old) (W.contents writer.new)
            (Self.Record.kind.header_bytes Self.Record.kind.bookend)) }
        ensures causes { IfErr result IsWriteError };

    ghost counts_rows: { (written : Self) (records : List Self.Record)
        → has_written written records → rows written ≡ total_rows Self.Record.kind records };
}

/// The records and rows written so far, and the bytes of their lookup table.
#[derive(Drop)]
pub struct RecordTable {
    pub records: u64,
    pub rows: u64,
    pub bytes: Vec<u8>,
    ghost records_fit: { records ≤ rows },
    ghost rows_fit: { rows ≤ MAX_ROWS },
}

/// The files written so far, and the sum of their sizes.
#[derive(Drop)]
pub struct WrittenFiles {
    pub table: RecordTable,
    pub materialized_bytes: u64,
    ghost bytes_fit: { materialized_bytes ≤ 4294967295 * table.rows },
}

/// The xorbs written so far, the chunk table's rows in the section's order, if wanted, and the sums
/// of sizes, unpacked and on disk, by the headers.
#[derive(Drop)]
pub struct WrittenXorbs {
    pub table: RecordTable,
    pub chunk_rows: Vec<ChunkTableRow>,
    pub stored_bytes: u64,
    pub stored_bytes_on_disk: u64,
    ghost bytes_fit: { stored_bytes ≤ 4294967295 * table.rows },
    ghost bytes_on_disk_fit: { stored_bytes_on_disk ≤ 4294967295 * table.rows },
}
