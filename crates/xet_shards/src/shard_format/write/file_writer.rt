//! Writing the file section, and collecting its table.

ghost use Rattle.std.specs.Prelude.{◌≡◌, ◌+◌, ◌*◌, ◌≤◌, ◌++◌, [], ◌∷◌, List, length, sum_by, OnOk, IfErr};
ghost use Rattle.std.specs.Io.KnownBytes.{Appends};
ghost use Rattle.xet_base.specs.Errors.{IsWriteError};
ghost use Rattle.xet_records.specs.declared.file_structs.MDBFileInfo.{MDBFileInfo};
ghost use Rattle.xet_records.specs.FileRecord.{file_record_bytes, row_count, FitsItsHeader};
ghost use Rattle.xet_records.specs.declared.file_structs.rows.FileDataSequenceEntry.{FileDataSequenceEntry};
ghost use Rattle.xet_shards.specs.Steps.Collecting.{BeginsWithSegments};
ghost use Rattle.xet_shards.specs.Write.Written.{IsFileOf, HasWritten};
ghost use Rattle.xet_records.specs.Limits.{MAX_ROWS};

use super::written::{RecordTable, WrittenFiles, WrittenSection};
use crate::shard_format::read::placed_record::PlacedRecord;
use std::alloc::Global;
use std::io::Write;
use xet_base::error::{CoreError, Result};
use xet_base::input::ByteInput;
use xet_records::file_copier::copy_file_rows;
use xet_records::file_structs::{FileDataSequenceEntry, FileDataSequenceHeader, MDBFileInfo};
use xet_records::record_bytes::row;
use xet_records::row_copier::{CopyFailure, CopyResult, write_copied_row};

impl WrittenFiles {
    /// Adds the next file, by the first word of its hash, its rows, header included, and its size
    /// in bytes. `OutOfMemory` if an allocation fails.
    pub fn add(&mut self, word: u64, rows: u64, bytes: u64) -> Result<()>
        requires header { 1 ≤ rows }
        requires rows { self.old.table.rows + rows ≤ MAX_ROWS }
        requires bytes { bytes ≤ 4294967295 * rows }
        ensures written { OnOk result
            ((before : List MDBFileInfo) → (file : MDBFileInfo) → HasWritten self.old before
            → IsFileOf word rows bytes file → HasWritten self.new (before ++ file ∷ [])) }
        ensures rows { OnOk result (self.new.table.rows ≡ self.old.table.rows + rows) }
        ensures causes { IfErr result (λ e. e ≡ CoreError.OutOfMemory) }
    {
        self.table.add(word, rows)?;
        self.materialized_bytes += bytes;
        Ok(())
    }
}

impl WrittenSection for WrittenFiles {
    type Record = MDBFileInfo;

    ghost is_whole = { FitsItsHeader };

    ghost has_written = { HasWritten };

    ghost rows = { λ written. written.table.rows };

    ghost counts_rows = { λ written files have. have.table.rows };

    fn new(alloc: Global) -> WrittenFiles {
        WrittenFiles {
            table: RecordTable::new(alloc),
            materialized_bytes: 0,
        }
    }

    fn has_room(&self, more: u64) -> bool {
        self.table.has_room(more)
    }

    #[tactic(auto, using(xet_records::proofs::Record::rows_whole))]
    fn write<W: Write>(&mut self, writer: &mut W, file_info: &MDBFileInfo) -> Result<()> {
        let metadata = &file_info.metadata;
        let rows = 1 + metadata.rows_after();
        self.add(metadata.file_hash.word0, rows, file_info.file_size())?;
        file_info.serialize(writer)?;
        Ok(())
    }

    fn copy<M, I: ByteInput<M>, W: Write>(
        &mut self,
        input: &mut I,
        writer: &mut W,
        header: FileDataSequenceHeader,
    ) -> CopyResult<()> {
        write_copied_row(&header, writer)?;
        let size = copy_file_rows::<M, I, W>(input, writer, header)?;
        let rows = 1 + header.rows_after();
        match self.add(header.file_hash.word0, rows, size) {
            Ok(()) => Ok(()),
            Err(error) => Err(CopyFailure::Output(error)),
        }
    }

    fn collect(&mut self, placed: &PlacedRecord<'_, FileDataSequenceHeader>) -> Result<()> {
        let header = &placed.header;
        let size = size_of_segments(placed.rows, header.num_entries);
        let rows = 1 + header.rows_after();
        self.add(header.file_hash.word0, rows, size)
    }

    fn write_bookend<W: Write>(writer: &mut W) -> Result<()> {
        FileDataSequenceHeader::bookend().serialize(writer)?;
        Ok(())
    }
}

// The bytes of the segments in the first rows of these.
fn size_of_segments(rows: &[u8], count: u32) -> u64
    requires { 48 * count ≤ length rows.now }
    ensures size { (segments : List FileDataSequenceEntry) → BeginsWithSegments rows.now count segments
        → result ≡ sum_by (λ s. s.unpacked_segment_bytes) segments }
    ensures bound { result ≤ 4294967295 * count }
{
    let mut size = 0;
    for index in 0..count {
        let segment: FileDataSequenceEntry = row(rows, index as usize);
        size += u64::from(segment.unpacked_segment_bytes);
    }
    size
}
