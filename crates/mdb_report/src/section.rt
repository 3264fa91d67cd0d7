//! A section that is read from a file, record by record.

ghost use Rattle.std.specs.Prelude.{◌≡◌, IfOk, IfSome, MatchResult};
ghost use Rattle.xet_core_structures.specs.FileRecord.{FitsItsHeader, file_records};
ghost use Rattle.xet_core_structures.specs.XorbRecord.{HasItsChunks, xorb_records};
ghost use Rattle.xet_records.specs.Limits.{MAX_ROWS};
ghost use Rattle.mdb_report.specs.SectionWalks.{ReadsNext, NextFails};

use std::alloc::Global;
use std::io::Read;
use xet_core_structures::error::Result;
use xet_core_structures::file_structs::MDBFileInfo;
use xet_core_structures::input::OfReader;
use xet_core_structures::record_reader::{FormatVersion, SectionRecord, read_record};
use xet_core_structures::rows::ROW_LIMIT;
use xet_core_structures::xorb_structs::MDBXorbInfo;

/// A section with at most one record in memory.
#[derive(Drop)]
pub struct SectionReader<R: Read + Drop> {
    reader: R,
    version: FormatVersion,
    /// The rows that the section may still have.
    rows_left: u32,
}

impl<R: Read + Drop> SectionReader<R> {
    /// The section that comes next in a reader.
    pub fn new(reader: R, version: FormatVersion) -> SectionReader<R>
        ensures reader { result.reader ≡ reader }
        ensures version { result.version ≡ version }
        ensures rows { result.rows_left ≡ MAX_ROWS }
    {
        SectionReader {
            reader,
            version,
            rows_left: ROW_LIMIT as u32,
        }
    }

    /// The next file, or `None` at the bookend.
    ///
    /// `UnexpectedEof` if the reader ends before; `InvalidShard` if the version lacks the file's
    /// header or the rows pass 4294967295; `OutOfMemory`; else the reader's error.
    pub fn next_file(&mut self, alloc: Global) -> Result<Option<MDBFileInfo>>
        ensures read { MatchResult result
            (ReadsNext file_records R.remaining self.old.version self.old.rows_left self.old.reader
            self.new.reader self.new.rows_left)
            (NextFails file_records R.remaining self.old.version self.old.rows_left self.old.reader
            self.new.reader) }
        ensures version { self.new.version ≡ self.old.version }
        ensures fits { IfOk result (λ found. IfSome found FitsItsHeader) }
    {
        self.next::<MDBFileInfo>(alloc)
    }

    /// The next xorb, or `None` at the bookend. Fails as `next_file`.
    pub fn next_xorb(&mut self, alloc: Global) -> Result<Option<MDBXorbInfo>>
        ensures read { MatchResult result
            (ReadsNext xorb_records R.remaining self.old.version self.old.rows_left self.old.reader
            self.new.reader self.new.rows_left)
            (NextFails xorb_records R.remaining self.old.version self.old.rows_left self.old.reader
            self.new.reader) }
        ensures version { self.new.version ≡ self.old.version }
        ensures whole { IfOk result (λ found. IfSome found HasItsChunks) }
    {
        self.next::<MDBXorbInfo>(alloc)
    }

    fn next<T: SectionRecord>(&mut self, alloc: Global) -> Result<Option<T>>
        ensures read { MatchResult result
            (ReadsNext T.kind R.remaining self.old.version self.old.rows_left self.old.reader
            self.new.reader self.new.rows_left)
            (NextFails T.kind R.remaining self.old.version self.old.rows_left self.old.reader
            self.new.reader) }
        ensures version { self.new.version ≡ self.old.version }
    {
        let mut rows = u64::from(self.rows_left);
        let reader = &mut self.reader;
        let record = read_record::<T, OfReader, R>(alloc, reader, self.version, &mut rows)?;
        self.rows_left = u32::try_from(rows).unwrap_or(0);
        Ok(record)
    }
}
