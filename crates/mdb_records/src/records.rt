//! What is printed of files, xorbs and chunks.

ghost use Rattle.std.specs.Prelude.{◌≡◌, IfOk, map};
ghost use Rattle.xet_records.specs.FileRecord.{FitsItsHeader};
ghost use Rattle.mdb_records.specs.RecordReports.{ReportsFile, ReportsRows, ReportsXorb, ReportsChunk, segment_report, chunk_row_of};

use crate::flags::{ChunkFlags, FileFlags};
use crate::hex::Hex;
use serde::{Deserialize, Serialize};
use std::alloc::{AllocError, Global};
use std::fmt;
use xet_records::file_structs::{FileDataSequenceEntry, FileVerificationEntry, MDBFileInfo};
use xet_records::xorb_structs::{MDBXorbInfo, XorbChunkSequenceEntry};

/// A file.
#[derive(Drop, Serialize, Deserialize)]
pub struct FileReport {
    pub file: Hex,
    pub flags: u32,
    pub segments: u32,
    /// The segments' bytes together.
    pub bytes: u64,
    #[serde(default, skip_serializing_if = "Option::is_none")]
    pub rows: Option<FileRows>,
}

/// A file's rows after its header.
#[derive(Drop, Serialize, Deserialize)]
pub struct FileRows {
    pub segments: Vec<SegmentReport>,
    pub verification: Vec<Hex>,
    pub sha256: Option<Hex>,
    pub aux: Option<Hex>,
}

/// A segment: the chunks `start..end` of a xorb.
#[derive(Drop, Serialize, Deserialize)]
pub struct SegmentReport {
    pub xorb: Hex,
    pub flags: u32,
    pub start: u32,
    pub end: u32,
    pub bytes: u32,
}

impl FileReport {
    /// The report of a file that fits its header, with its rows or without.
    pub fn of_file(
        alloc: Global,
        file: &MDBFileInfo,
        with_rows: bool,
    ) -> Result<FileReport, AllocError>
        requires { FitsItsHeader file.now }
        ensures { IfOk result (ReportsFile file.now with_rows) }
    {
        let header = file.metadata;
        let rows = if with_rows {
            Some(FileRows::of_file(alloc, file)?)
        } else {
            None
        };
        Ok(FileReport {
            file: Hex(header.file_hash),
            flags: header.file_flags,
            segments: header.num_entries,
            bytes: file.file_size(),
            rows,
        })
    }
}

impl FileRows {
    fn of_file(alloc: Global, file: &MDBFileInfo) -> Result<FileRows, AllocError>
        ensures { IfOk result (ReportsRows file.now) }
    {
        Ok(FileRows {
            segments: segment_reports(alloc, file.segments.as_slice())?,
            verification: range_hashes(alloc, file.verification.as_slice())?,
            sha256: file.metadata_ext.map(|row| Hex(row.sha256)),
            aux: file.aux_ext.map(|row| Hex(row.aux_hash)),
        })
    }
}

fn segment_reports(
    alloc: Global,
    segments: &[FileDataSequenceEntry],
) -> Result<Vec<SegmentReport>, AllocError>
    ensures { IfOk result (λ reports. reports.items ≡ map segment_report segments.now) }
{
    segments
        .iter()
        .map(|segment| SegmentReport::of_segment(segment))
        .collect(alloc)
}

fn range_hashes(alloc: Global, rows: &[FileVerificationEntry]) -> Result<Vec<Hex>, AllocError>
    ensures { IfOk result
        (λ hashes. hashes.items ≡ map (λ row. record { 0 = row.hash }) rows.now) }
{
    rows.iter().map(|row| Hex(row.range_hash)).collect(alloc)
}

impl SegmentReport {
    /// The report of a segment.
    pub fn of_segment(segment: &FileDataSequenceEntry) -> SegmentReport
        ensures { result ≡ segment_report segment.now }
    {
        SegmentReport {
            xorb: Hex(segment.xorb_hash),
            flags: segment.xorb_flags,
            start: segment.chunk_index_start,
            end: segment.chunk_index_end,
            bytes: segment.unpacked_segment_bytes,
        }
    }
}

impl fmt::Display for FileReport {
    fn fmt<W: fmt::Write>(&self, f: &mut fmt::Formatter<W>) -> fmt::Result {
        let file = self.file;
        let flags = FileFlags(self.flags);
        let segments = self.segments;
        let bytes = self.bytes;
        write!(
            f,
            "file {file} flags {flags} segments {segments} bytes {bytes}"
        )?;
        match &self.rows {
            Some(rows) => write!(f, "{rows}"),
            None => Ok(()),
        }
    }
}

impl fmt::Display for FileRows {
    fn fmt<W: fmt::Write>(&self, f: &mut fmt::Formatter<W>) -> fmt::Result {
        for segment in &self.segments {
            write!(f, "\n  {segment}")?;
        }
        for row in &self.verification {
            write!(f, "\n  verification {row}")?;
        }
        if let Some(sha256) = self.sha256 {
            write!(f, "\n  sha256 {sha256}")?;
        }
        if let Some(aux) = self.aux {
            write!(f, "\n  aux {aux}")?;
        }
        Ok(())
    }
}

impl fmt::Display for SegmentReport {
    fn fmt<W: fmt::Write>(&self, f: &mut fmt::Formatter<W>) -> fmt::Result {
        let xorb = self.xorb;
        let flags = self.flags;
        let start = self.start;
        let end = self.end;
        let bytes = self.bytes;
        write!(
            f,
            "segment {xorb} flags {flags:08x} chunks {start}..{end} bytes {bytes}"
        )
    }
}

/// A xorb.
#[derive(Drop, Serialize, Deserialize)]
pub struct XorbReport {
    pub xorb: Hex,
    pub flags: u32,
    pub chunks: u32,
    /// Its bytes, unpacked.
    pub bytes: u32,
    /// Its bytes, as stored.
    pub bytes_on_disk: u32,
    #[serde(default, skip_serializing_if = "Option::is_none")]
    pub rows: Option<Vec<ChunkRow>>,
}

/// A chunk of a xorb.
#[derive(Drop, Serialize, Deserialize)]
pub struct ChunkRow {
    pub chunk: Hex,
    pub flags: u32,
    /// The offset in the xorb's unpacked bytes.
    pub start: u32,
    pub bytes: u32,
}

/// A chunk, with its xorb and its index there.
#[derive(Clone, Copy, Serialize)]
pub struct ChunkReport {
    pub chunk: Hex,
    pub xorb: Hex,
    pub index: u64,
    pub bytes: u32,
    #[serde(skip_serializing_if = "Option::is_none")]
    pub rest: Option<ChunkRest>,
}

/// What else is known of a chunk.
#[derive(Clone, Copy, Serialize)]
pub struct ChunkRest {
    pub flags: u32,
    pub start: u32,
    /// Whether the global index keeps it for its flags or its hash.
    pub eligible: bool,
}

impl XorbReport {
    /// The report of a xorb, with its chunks or without.
    pub fn of_xorb(
        alloc: Global,
        xorb: &MDBXorbInfo,
        with_rows: bool,
    ) -> Result<XorbReport, AllocError>
        ensures { IfOk result (ReportsXorb xorb.now with_rows) }
    {
        let header = xorb.metadata;
        let rows = if with_rows {
            Some(chunk_rows(alloc, xorb.chunks.as_slice())?)
        } else {
            None
        };
        Ok(XorbReport {
            xorb: Hex(header.xorb_hash),
            flags: header.xorb_flags,
            chunks: header.num_entries,
            bytes: header.num_bytes_in_xorb,
            bytes_on_disk: header.num_bytes_on_disk,
            rows,
        })
    }
}

fn chunk_rows(alloc: Global, chunks: &[XorbChunkSequenceEntry]) -> Result<Vec<ChunkRow>, AllocError>
    ensures { IfOk result (λ rows. rows.items ≡ map chunk_row_of chunks.now) }
{
    chunks
        .iter()
        .map(|chunk| ChunkRow::of_chunk(chunk))
        .collect(alloc)
}

impl ChunkRow {
    fn of_chunk(chunk: &XorbChunkSequenceEntry) -> ChunkRow
        ensures { result ≡ chunk_row_of chunk.now }
    {
        ChunkRow {
            chunk: Hex(chunk.chunk_hash),
            flags: chunk.flags,
            start: chunk.chunk_byte_range_start,
            bytes: chunk.unpacked_segment_bytes,
        }
    }
}

impl ChunkReport {
    /// The report of a xorb's chunk, with the rest if `whole`.
    pub fn of_chunk(
        xorb: &MDBXorbInfo,
        index: u64,
        chunk: &XorbChunkSequenceEntry,
        whole: bool,
    ) -> ChunkReport
        ensures { ReportsChunk xorb.now index chunk.now whole result }
    {
        let rest = if whole {
            Some(ChunkRest {
                flags: chunk.flags,
                start: chunk.chunk_byte_range_start,
                eligible: chunk.is_global_dedup_eligible(),
            })
        } else {
            None
        };
        ChunkReport {
            chunk: Hex(chunk.chunk_hash),
            xorb: Hex(xorb.metadata.xorb_hash),
            index,
            bytes: chunk.unpacked_segment_bytes,
            rest,
        }
    }
}

impl fmt::Display for XorbReport {
    fn fmt<W: fmt::Write>(&self, f: &mut fmt::Formatter<W>) -> fmt::Result {
        let xorb = self.xorb;
        let flags = self.flags;
        let chunks = self.chunks;
        let bytes = self.bytes;
        let on_disk = self.bytes_on_disk;
        write!(
            f,
            "xorb {xorb} flags {flags:08x} chunks {chunks} bytes {bytes} on disk {on_disk}"
        )?;
        if let Some(rows) = &self.rows {
            for row in rows {
                write!(f, "\n  {row}")?;
            }
        }
        Ok(())
    }
}

impl fmt::Display for ChunkRow {
    fn fmt<W: fmt::Write>(&self, f: &mut fmt::Formatter<W>) -> fmt::Result {
        let chunk = self.chunk;
        let flags = ChunkFlags(self.flags);
        let start = self.start;
        let bytes = self.bytes;
        write!(f, "chunk {chunk} flags {flags} start {start} bytes {bytes}")
    }
}

impl fmt::Display for ChunkReport {
    fn fmt<W: fmt::Write>(&self, f: &mut fmt::Formatter<W>) -> fmt::Result {
        let chunk = self.chunk;
        let xorb = self.xorb;
        let index = self.index;
        let bytes = self.bytes;
        write!(f, "chunk {chunk} xorb {xorb} index {index} bytes {bytes}")?;
        if let Some(
            ChunkRest {
                flags,
                start,
                eligible,
            },
        ) = self.rest
        {
            let flags = ChunkFlags(flags);
            write!(f, " flags {flags} start {start} eligible {eligible}")?;
        }
        Ok(())
    }
}
