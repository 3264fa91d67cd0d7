//! Reading a record from its line of JSON.

ghost use Rattle.std.specs.Prelude.{◌≡◌, true, IfOk, IfErr, OnOk, IsUtf8, map};
ghost use Rattle.xet_records.specs.FileRecord.{FitsItsHeader};
ghost use Rattle.xet_records.specs.XorbRecord.{HasItsChunks};
ghost use Rattle.mdb_records.specs.RecordReports.{ReportsFile, ReportsRows, ReportsXorb, segment_report, chunk_row_of};
ghost use Rattle.mdb_records.specs.RecordLines.{IsWhole, NoFile, NoXorb};

use crate::hex::Hex;
use crate::records::{ChunkRow, FileReport, FileRows, SegmentReport, XorbReport};
use serde::Deserialize;
use std::alloc::{AllocError, AllocFailed, Global};
use std::fmt;
use xet_records::file_structs::{
    FileAuxExt, FileDataSequenceEntry, FileDataSequenceHeader, FileMetadataExt,
    FileVerificationEntry, MDBFileInfo,
};
use xet_records::rows::Rows;
use xet_records::xorb_structs::{MDBXorbInfo, XorbChunkSequenceEntry, XorbChunkSequenceHeader};

/// A record of a shard.
#[derive(Drop)]
pub enum Record {
    File(MDBFileInfo),
    Xorb(MDBXorbInfo),
}

/// Why a line is no record.
#[derive(Clone, Copy)]
pub enum LineFault {
    OutOfMemory,
    /// It is no JSON, from this column on.
    Syntax(usize),
    /// A member is missing or of another kind; at this column that is known.
    Member(usize),
    /// It is neither a file nor a xorb, or both.
    NoRecord,
    /// It is a record without its rows.
    NoRows,
    /// Its numbers or its flags are not those of its rows.
    Mismatch,
}

impl From<AllocError> for LineFault {
    ghost use Rattle.std.specs.Prelude.{◌≡◌};
    ghost use Rattle.mdb_records.specs.declared.record_line.LineFault.TheVariants.{OutOfMemory};

    ghost from_gives = { λ _ fault. fault ≡ OutOfMemory };

    fn from(_error: AllocError) -> LineFault {
        LineFault::OutOfMemory
    }
}

impl<T: Drop> From<AllocFailed<T>> for LineFault {
    ghost use Rattle.std.specs.Prelude.{◌≡◌};
    ghost use Rattle.mdb_records.specs.declared.record_line.LineFault.TheVariants.{OutOfMemory};

    ghost from_gives = { λ _ fault. fault ≡ OutOfMemory };

    fn from(_error: AllocFailed<T>) -> LineFault {
        LineFault::OutOfMemory
    }
}

impl From<serde_json::Error> for LineFault {
    fn from(error: serde_json::Error) -> LineFault {
        if error.is_memory() {
            LineFault::OutOfMemory
        } else if error.is_data() {
            LineFault::Member(error.column())
        } else {
            LineFault::Syntax(error.column())
        }
    }
}

impl fmt::Display for LineFault {
    fn fmt<W: fmt::Write>(&self, f: &mut fmt::Formatter<W>) -> fmt::Result {
        match self {
            LineFault::OutOfMemory => f.write_str("out of memory"),
            LineFault::Syntax(column) => write!(f, "it is no JSON, at column {column}"),
            LineFault::Member(column) => {
                write!(
                    f,
                    "a member lacks or is of another kind, at column {column}"
                )
            }
            LineFault::NoRecord => f.write_str("it has neither a member file nor a member xorb"),
            LineFault::NoRows => f.write_str("it has no member rows, as --long prints it"),
            LineFault::Mismatch => f.write_str(
                "its numbers or its flags are not those of its rows",
            ),
        }
    }
}

#[derive(Drop, Deserialize)]
struct Kind {
    #[serde(default)]
    file: Option<Hex>,
    #[serde(default)]
    xorb: Option<Hex>,
}

/// The record in a line of JSON with its rows, which are those that its header announces.
pub fn record_of(alloc: Global, line: &[u8]) -> Result<Record, LineFault>
    ensures text { OnOk result (IsUtf8 line.now) }
    ensures whole { IfOk result IsWhole }
{
    let kind: Kind = serde_json::from_slice(alloc, line)?;
    match (kind.file, kind.xorb) {
        (Some(_), None) => {
            let report: FileReport = serde_json::from_slice(alloc, line)?;
            Ok(Record::File(file_of(alloc, &report)?))
        }
        (None, Some(_)) => {
            let report: XorbReport = serde_json::from_slice(alloc, line)?;
            Ok(Record::Xorb(xorb_of(alloc, &report)?))
        }
        _ => Err(LineFault::NoRecord),
    }
}

/// The file of a report.
///
/// `NoRows` exactly if it has no rows; `Mismatch` exactly if no file that fits its header has this
/// report; `OutOfMemory` if memory is lacking.
pub fn file_of(alloc: Global, report: &FileReport) -> Result<MDBFileInfo, LineFault>
    ensures report { IfOk result (λ file. ReportsFile file true report.now) }
    ensures fits { IfOk result FitsItsHeader }
    ensures causes { IfErr result (NoFile report.now) }
{
    let Some(rows) = &report.rows else {
        return Err(LineFault::NoRows);
    };
    let file = made_of(alloc, report, rows)?;
    if file.fits_its_header() && file.file_size() == report.bytes {
        Ok(file)
    } else {
        Err(LineFault::Mismatch)
    }
}

fn made_of(alloc: Global, report: &FileReport, rows: &FileRows) -> Result<MDBFileInfo, AllocError>
    ensures header { IfOk result (λ file. (file.metadata.file_hash ≡ report.now.file.0)
        × (file.metadata.file_flags ≡ report.now.flags)
        × (file.metadata.num_entries ≡ report.now.segments)) }
    ensures rows { IfOk result (λ file. ReportsRows file rows.now) }
{
    Ok(MDBFileInfo {
        metadata: FileDataSequenceHeader {
            file_hash: report.file.0,
            file_flags: report.flags,
            num_entries: report.segments,
            _unused: 0,
        },
        segments: segments_of(alloc, rows.segments.as_slice())?,
        verification: verification_of(alloc, rows.verification.as_slice())?,
        metadata_ext: rows.sha256.map(|hash| FileMetadataExt::new(hash.0)),
        aux_ext: rows.aux.map(|hash| FileAuxExt::new(hash.0)),
    })
}

fn segments_of(
    alloc: Global,
    rows: &[SegmentReport],
) -> Result<Rows<FileDataSequenceEntry>, AllocError>
    ensures { IfOk result (λ made. map segment_report made ≡ rows.now) }
{
    let mut made = Rows::new(alloc);
    for row in rows {
        made.push(FileDataSequenceEntry {
            xorb_hash: row.xorb.0,
            xorb_flags: row.flags,
            unpacked_segment_bytes: row.bytes,
            chunk_index_start: row.start,
            chunk_index_end: row.end,
        })?;
    }
    Ok(made)
}

fn verification_of(alloc: Global, hashes: &[Hex]) -> Result<Rows<FileVerificationEntry>, AllocError>
    ensures { IfOk result (λ made. map (λ row. record { 0 = row.hash }) made ≡ hashes.now) }
{
    let mut made = Rows::new(alloc);
    for hash in hashes {
        made.push(FileVerificationEntry::new(hash.0))?;
    }
    Ok(made)
}

/// The xorb of a report.
///
/// `NoRows` exactly if it has no rows; `Mismatch` exactly if no xorb that has its chunks has this
/// report; `OutOfMemory` if memory is lacking.
pub fn xorb_of(alloc: Global, report: &XorbReport) -> Result<MDBXorbInfo, LineFault>
    ensures report { IfOk result (λ xorb. ReportsXorb xorb true report.now) }
    ensures whole { IfOk result HasItsChunks }
    ensures causes { IfErr result (NoXorb report.now) }
{
    let Some(rows) = &report.rows else {
        return Err(LineFault::NoRows);
    };
    let chunks = chunks_of(alloc, rows.as_slice())?;
    if chunks.len() as u64 != u64::from(report.chunks) {
        return Err(LineFault::Mismatch);
    }
    Ok(MDBXorbInfo {
        metadata: XorbChunkSequenceHeader {
            xorb_hash: report.xorb.0,
            xorb_flags: report.flags,
            num_entries: report.chunks,
            num_bytes_in_xorb: report.bytes,
            num_bytes_on_disk: report.bytes_on_disk,
        },
        chunks,
    })
}

fn chunks_of(alloc: Global, rows: &[ChunkRow]) -> Result<Rows<XorbChunkSequenceEntry>, AllocError>
    ensures { IfOk result (λ made. map chunk_row_of made ≡ rows.now) }
{
    let mut made = Rows::new(alloc);
    for row in rows {
        made.push(XorbChunkSequenceEntry {
            chunk_hash: row.chunk.0,
            chunk_byte_range_start: row.start,
            unpacked_segment_bytes: row.bytes,
            flags: row.flags,
            _unused: 0,
        })?;
    }
    Ok(made)
}
