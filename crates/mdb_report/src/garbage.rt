//! What does not fit together in shards, in words.

ghost use Rattle.std.specs.Prelude.{◌≡◌, ◌⊎◌, All, IfOk, IfErr, IsTrue, MatchResult};
ghost use Rattle.xet_core_structures.specs.XorbRecord.{HasItsChunks};
ghost use Rattle.mdb_report.specs.FileReports.{FilesNotRead};
ghost use Rattle.mdb_report.specs.LookupTables.{XorbsNotRead};
ghost use Rattle.mdb_report.specs.GarbageReport.{HoldsXorbs, HoldsGarbage, IsFit};

use crate::files::read_files;
use crate::inquiry::InquiryFault;
use mdb_garbage::finding::{GarbageFinding, Misfit, Segment};
use mdb_garbage::garbage::find_garbage;
use mdb_records::hex::Hex;
use mdb_records::line::{Layout, Style, print};
use mdb_records::shown::ShownText;
use serde::{Described, Serialize, Serializer};
use std::alloc::Global;
use std::io::Write;
use std::{fmt, io};
use xet_core_structures::error::CoreError;
use xet_core_structures::shard_format::MDBShardInfo;
use xet_core_structures::source::MemorySource;
use xet_core_structures::xorb_structs::MDBXorbInfo;

/// A finding, for `{}` to print.
#[derive(Clone, Copy)]
pub struct GarbageInWords(pub GarbageFinding);

/// A finding and its shard.
#[derive(Clone, Copy, Serialize)]
pub struct GarbageReport<'a> {
    /// The name of the shard's file, if known.
    pub shard: Option<&'a str>,
    pub code: &'static str,
    pub xorb: Hex,
    /// The file whose segment is found.
    #[serde(skip_serializing_if = "Option::is_none")]
    pub file: Option<Hex>,
    /// The segment's index in the file, from 0.
    #[serde(skip_serializing_if = "Option::is_none")]
    pub segment: Option<usize>,
    #[serde(rename = "problem")]
    pub finding: GarbageInWords,
}

impl<'a> GarbageReport<'a> {
    /// The report of a finding in a shard, if known.
    pub fn of_finding(shard: Option<&'a str>, finding: GarbageFinding) -> GarbageReport<'a>
        ensures shard { result.shard ≡ shard.entry }
        ensures finding { result.finding.0 ≡ finding }
    {
        let segment = segment_of(finding.misfit);
        GarbageReport {
            shard,
            code: code_of(finding.misfit),
            xorb: Hex(finding.xorb),
            file: segment.map(|segment| Hex(segment.file)),
            segment: segment.map(|segment| segment.index),
            finding: GarbageInWords(finding),
        }
    }
}

fn code_of(misfit: Misfit) -> &'static str {
    match misfit {
        Misfit::Unnamed => "xorb_unnamed",
        Misfit::Total { .. } => "xorb_bytes_differ",
        Misfit::Start { .. } => "chunk_start_differs",
        Misfit::Lacking(_) => "xorb_missing",
        Misfit::Outside(_, _) => "segment_outside",
        Misfit::Bytes(_, _) => "segment_bytes_differ",
    }
}

fn segment_of(misfit: Misfit) -> Option<Segment> {
    match misfit {
        Misfit::Lacking(segment) | Misfit::Outside(segment, _) | Misfit::Bytes(segment, _) => {
            Some(segment)
        }
        _ => None,
    }
}

/// Prints what does not fit together in a shard, and answers whether that is nothing; `false`, with
/// nothing printed, if the shard can't be read, unless memory is lacking.
pub(crate) fn print_garbage<W: Write>(
    alloc: Global,
    file: &str,
    bytes: &[u8],
    style: Style,
    output: &mut W,
) -> Result<bool, InquiryFault>
    ensures { IfOk result (λ fits. IsTrue fits → IsFit bytes.now) }
{
    match garbage_in(alloc, bytes) {
        Ok(found) => {
            let fits = found.is_empty();
            print_findings(alloc, file, found.as_slice(), style, output)?;
            Ok(fits)
        }
        Err(CoreError::OutOfMemory) => Err(InquiryFault::Shard(CoreError::OutOfMemory)),
        Err(_) => Ok(false),
    }
}

fn print_findings<W: Write>(
    alloc: Global,
    shard: &str,
    findings: &[GarbageFinding],
    style: Style,
    output: &mut W,
) -> io::Result<()> {
    for finding in findings {
        print_finding(alloc, Some(shard), *finding, style, output)?;
    }
    Ok(())
}

/// Prints a finding, with its shard's name if known.
pub fn print_finding<W: Write>(
    alloc: Global,
    shard: Option<&str>,
    finding: GarbageFinding,
    style: Style,
    output: &mut W,
) -> io::Result<()> {
    let report = GarbageReport::of_finding(shard, finding);
    print(alloc, &report, Layout::plain(style), output)
}

/// What does not fit together in a shard, in ascending order of xorb hashes.
///
/// The errors are those of loading the shard and of reading its sections.
pub fn garbage_in(alloc: Global, bytes: &[u8]) -> Result<Vec<GarbageFinding>, CoreError>
    ensures found { IfOk result (λ found. HoldsGarbage bytes.now found.items) }
    ensures refused { IfErr result (λ e. FilesNotRead bytes.now e ⊎ XorbsNotRead bytes.now e) }
{
    let files = read_files(alloc, bytes)?;
    let xorbs = read_xorbs(alloc, bytes)?;
    Ok(find_garbage(alloc, files.as_slice(), xorbs.as_slice())?)
}

fn read_xorbs(alloc: Global, bytes: &[u8]) -> Result<Vec<MDBXorbInfo>, CoreError>
    ensures read { MatchResult result (λ xorbs. HoldsXorbs bytes.now xorbs.items)
        (XorbsNotRead bytes.now) }
    ensures whole { IfOk result (λ xorbs. All HasItsChunks xorbs.items) }
{
    let mut source = MemorySource::new(bytes);
    let info = MDBShardInfo::load_from_reader(alloc, &mut source)?;
    info.read_all_xorb_blocks_full(alloc, &mut source)
}

impl fmt::Display for GarbageReport<'_> {
    fn fmt<W: fmt::Write>(&self, f: &mut fmt::Formatter<W>) -> fmt::Result {
        if let Some(shard) = self.shard {
            let shard = ShownText(shard);
            write!(f, "{shard}: ")?;
        }
        let finding = self.finding;
        write!(f, "{finding}")
    }
}

impl Described for GarbageInWords {}

impl Serialize for GarbageInWords {
    fn serialize<S: Serializer>(&self, out: &mut S) -> std::result::Result<(), S::Error> {
        out.collect_str(self)
    }
}

impl fmt::Display for GarbageInWords {
    fn fmt<W: fmt::Write>(&self, f: &mut fmt::Formatter<W>) -> fmt::Result {
        let xorb = self.0.xorb;
        write!(f, "xorb {xorb}: ")?;
        match self.0.misfit {
            Misfit::Unnamed => f.write_str("no file names it"),
            Misfit::Total { said, sum } => {
                write!(f, "it says {said} bytes, and its chunks have {sum}")
            }
            Misfit::Start { index, said, sum } => {
                write!(
                    f,
                    "chunk {index} says to start at {said}, and those before it have {sum} bytes"
                )
            }
            Misfit::Lacking(segment) => {
                write!(f, "it is missing, and {} names it", SegmentName(segment))
            }
            Misfit::Outside(segment, chunks) => {
                let name = SegmentName(segment);
                let (start, end) = (segment.start, segment.end);
                write!(f, "it has {chunks} chunks, and {name} names {start}..{end}")
            }
            Misfit::Bytes(segment, sum) => {
                let name = SegmentName(segment);
                let (start, end) = (segment.start, segment.end);
                let bytes = segment.bytes;
                write!(
                    f,
                    "its chunks {start}..{end} have {sum} bytes, and {name} says {bytes}"
                )
            }
        }
    }
}

#[derive(Clone, Copy)]
struct SegmentName(Segment);

impl fmt::Display for SegmentName {
    fn fmt<W: fmt::Write>(&self, f: &mut fmt::Formatter<W>) -> fmt::Result {
        let index = self.0.index;
        let file = self.0.file;
        write!(f, "segment {index} of file {file}")
    }
}
