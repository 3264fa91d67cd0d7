//! What a shard is asked, and printing its answers.

ghost use Rattle.std.specs.Prelude.{◌≡◌, ◌≢◌, ◌↔◌, [], All, is_some, IfOk, IsOk, IsTrue};
ghost use Rattle.mdb_report.specs.FileFindings.{IsFileNote};
ghost use Rattle.mdb_report.specs.PartsBar.{PartsAscend};
ghost use Rattle.mdb_report.specs.InquiryAnswers.{IsCheck, LooksUp, IsClean, IsSound, HasAscendingParts, SaysNoMore};
ghost use Rattle.mdb_report.specs.GarbageReport.{IsFit};

use crate::brief::Brief;
use crate::file_finding::{FileFinding, FindingReport, findings_to_report};
use crate::files::file_reports;
use crate::garbage::print_garbage;
use crate::lookup::{FoundReport, RunReport};
use crate::name::print_name;
use crate::summary::Summary;
use crate::tables::{Table, lacks_chunk_table, lacks_file_table};
use crate::tally::Tally;
use crate::xorb_printing::{find_xorbs, print_lacking};
use mdb_records::hex::{HashReport, Hex};
use mdb_records::line::{Layout, Style, print};
use mdb_records::records::{ChunkReport, XorbReport};
use shard_bytes::check::Section;
use shard_bytes::load::load_bytes;
use shard_bytes::minimal::eligible_chunks;
use std::alloc::{AllocError, Global};
use std::io;
use std::io::Write;
use xet_core_structures::error::CoreError;
use xet_core_structures::merklehash::{HMACKey, MerkleHash};
use xet_core_structures::source::MemorySource;
use xet_core_structures::xorb_structs::MDBXorbInfo;

/// What a shard is asked.
#[derive(Drop)]
pub enum Inquiry {
    /// What its header and footer say.
    Summary,
    /// The same in a line, without its parts.
    Brief,
    /// The findings of a check.
    Check(Checks),
    /// The name by its hash under a key.
    Name {
        key: HMACKey,
    },
    /// Its files, with their rows or without.
    Files {
        long: bool,
    },
    /// Its xorbs, with their chunks or without.
    Xorbs {
        long: bool,
    },
    /// Its chunks, with all that is known or without.
    Chunks {
        long: bool,
    },
    /// The files with these hashes, with each lookup's costs or without.
    Find {
        hashes: Vec<MerkleHash>,
        costs: bool,
    },
    /// The xorbs with these hashes.
    FindXorbs {
        hashes: Vec<MerkleHash>,
    },
    /// A run of these chunks.
    Query {
        hashes: Vec<MerkleHash>,
    },
    /// The chunks that the global index keeps.
    Eligible,
}

/// What a check looks at beside the bytes.
#[derive(Clone, Copy)]
pub struct Checks {
    /// Whether the file has the name of a shard.
    pub named: bool,
    /// Whether its name has the bytes' hash under this key.
    pub key: Option<HMACKey>,
    /// Whether its records fit together.
    pub deep: bool,
    /// Whether a note counts as well.
    pub strict: bool,
}

impl Inquiry {
    /// Whether it is a lookup, which may find nothing.
    pub fn looks_up(&self) -> bool
        ensures { IsTrue result ↔ LooksUp self.now }
    {
        match self {
            Inquiry::Find { .. } | Inquiry::FindXorbs { .. } | Inquiry::Query { .. } => true,
            _ => false,
        }
    }
}

/// What came of an inquiry.
#[derive(Clone, Copy)]
pub enum Answer {
    Printed,
    /// A check found something, or a footer's offsets do not ascend.
    HasFindings,
    /// A lookup found nothing.
    FoundNothing,
}

/// Why there is no answer.
#[derive(Drop)]
pub enum InquiryFault {
    /// A call on the shard's bytes failed, or an allocation.
    Shard(CoreError),
    /// Header and footer could not be read.
    Ends(CoreError),
    /// A section could not be read to its bookend.
    Section(Section, CoreError),
    /// The file could not be read.
    Input(io::Error),
    /// A call lacks pages after all rounds of reading.
    TooManyRounds,
    /// The shard has records, but not this table for lookups.
    NoTable(Table),
    /// The output failed.
    Output(io::Error),
}

impl From<CoreError> for InquiryFault {
    fn from(error: CoreError) -> InquiryFault {
        InquiryFault::Shard(error)
    }
}

impl From<AllocError> for InquiryFault {
    fn from(_error: AllocError) -> InquiryFault {
        InquiryFault::Shard(CoreError::OutOfMemory)
    }
}

impl From<io::Error> for InquiryFault {
    fn from(error: io::Error) -> InquiryFault {
        InquiryFault::Output(error)
    }
}

/// Prints the answer of a shard's bytes, in its order: a value for each record, lookup or finding,
/// or for the whole shard. Adds what is found to the tally.
///
/// With shards' names, lookups that find nothing are printed only with their costs.
pub fn print_answer<W: Write>(
    alloc: Global,
    inquiry: &Inquiry,
    file: &str,
    bytes: &[u8],
    layout: Layout<'_>,
    tally: &mut Tally,
    output: &mut W,
) -> Result<Answer, InquiryFault>
    ensures findings { IfOk result
        (λ answer. answer ≡ Answer.HasFindings → IsCheck inquiry.now) }
    ensures nothing { IfOk result
        (λ answer. answer ≡ Answer.FoundNothing → LooksUp inquiry.now) }
    ensures clean { IfOk result
        (λ answer. answer ≡ Answer.Printed → IsClean inquiry.now bytes.now) }
{
    match inquiry {
        Inquiry::Summary => return summarize(alloc, file, bytes, layout.style, output),
        Inquiry::Brief => return brief_of(alloc, file, bytes, layout.style, tally, output),
        Inquiry::Check(checks) => {
            return check(alloc, file, *checks, bytes, layout.style, output);
        }
        Inquiry::Name { key } => print_name(alloc, bytes, *key, layout, output)?,
        Inquiry::Files { long } => print_files(alloc, bytes, *long, layout, output)?,
        Inquiry::Xorbs { .. } | Inquiry::Chunks { .. } => {
            print_xorbs(alloc, inquiry, bytes, layout, output)?;
        }
        Inquiry::Find { hashes, costs } => {
            return find(
                alloc,
                bytes,
                hashes.as_slice(),
                *costs,
                layout,
                tally,
                output,
            );
        }
        Inquiry::FindXorbs { hashes } => {
            return find_xorbs(alloc, bytes, hashes.as_slice(), layout, tally, output);
        }
        Inquiry::Query { hashes } => {
            return query(alloc, bytes, hashes.as_slice(), layout, tally, output);
        }
        Inquiry::Eligible => {
            let hashes = eligible_chunks(alloc, bytes)?;
            for hash in &hashes {
                print(alloc, &HashReport { hash: Hex(*hash) }, layout, output)?;
            }
        }
    }
    Ok(Answer::Printed)
}

/// Prints what follows all answers: the total of `info --brief`, or what lookups found in none of
/// several shards.
pub fn print_end<W: Write>(
    alloc: Global,
    inquiry: &Inquiry,
    style: Style,
    named: bool,
    tally: &Tally,
    output: &mut W,
) -> io::Result<()>
    ensures { SaysNoMore inquiry.now named → IsOk result × (output.new ≡ output.old) }
{
    let layout = Layout::of_no_shard(style);
    match inquiry {
        Inquiry::Brief => print(alloc, &tally.total, layout, output),
        Inquiry::Find {
            hashes,
            costs: false,
        } if named => {
            for hash in hashes {
                if !tally.has_found(hash) {
                    print(alloc, &FoundReport::nothing(*hash), layout, output)?;
                }
            }
            Ok(())
        }
        Inquiry::FindXorbs { hashes } if named => {
            print_lacking(alloc, hashes.as_slice(), layout, tally, output)
        }
        Inquiry::Query { .. } if named && !tally.has_run => {
            print(alloc, &RunReport { run: None }, layout, output)
        }
        _ => Ok(()),
    }
}

fn summarize<W: Write>(
    alloc: Global,
    file: &str,
    bytes: &[u8],
    style: Style,
    output: &mut W,
) -> Result<Answer, InquiryFault>
    ensures { IfOk result (λ answer. (answer ≢ Answer.FoundNothing)
        × (answer ≡ Answer.Printed → HasAscendingParts bytes.now)) }
{
    let summary = Summary::of_bytes(alloc, file, bytes)?;
    print_summary(alloc, &summary, style, output)
}

pub(crate) fn print_summary<W: Write>(
    alloc: Global,
    summary: &Summary<'_>,
    style: Style,
    output: &mut W,
) -> Result<Answer, InquiryFault>
    ensures { IfOk result (λ answer. (answer ≢ Answer.FoundNothing)
        × (answer ≡ Answer.Printed → PartsAscend summary.now.parts)) }
{
    print(alloc, summary, Layout::plain(style), output)?;
    if summary.parts.ascend() {
        Ok(Answer::Printed)
    } else {
        Ok(Answer::HasFindings)
    }
}

fn brief_of<W: Write>(
    alloc: Global,
    file: &str,
    bytes: &[u8],
    style: Style,
    tally: &mut Tally,
    output: &mut W,
) -> Result<Answer, InquiryFault>
    ensures { IfOk result (λ answer. (answer ≢ Answer.FoundNothing)
        × (answer ≡ Answer.Printed → HasAscendingParts bytes.now)) }
{
    let brief = Brief::of_bytes(alloc, file, bytes)?;
    print_brief(alloc, &brief, style, tally, output)
}

// Prints a brief report and adds it to the tally.
pub(crate) fn print_brief<W: Write>(
    alloc: Global,
    brief: &Brief<'_>,
    style: Style,
    tally: &mut Tally,
    output: &mut W,
) -> Result<Answer, InquiryFault>
    ensures { IfOk result (λ answer. (answer ≢ Answer.FoundNothing)
        × (answer ≡ Answer.Printed → IsTrue brief.now.ascends)) }
{
    tally.total.add(brief);
    print(alloc, brief, Layout::plain(style), output)?;
    if brief.ascends {
        Ok(Answer::Printed)
    } else {
        Ok(Answer::HasFindings)
    }
}

fn check<W: Write>(
    alloc: Global,
    file: &str,
    checks: Checks,
    bytes: &[u8],
    style: Style,
    output: &mut W,
) -> Result<Answer, InquiryFault>
    ensures { IfOk result (λ answer. (answer ≢ Answer.FoundNothing)
        × (answer ≡ Answer.Printed → IsSound checks bytes.now)) }
{
    let findings = findings_to_report(alloc, file, checks.named, checks.key, bytes)?;
    let info = load_bytes(alloc, bytes).ok();
    for finding in &findings {
        let report = FindingReport::of_finding(file, info.as_ref(), *finding);
        print(alloc, &report, Layout::plain(style), output)?;
    }
    let fits = fits_if(alloc, checks.deep, file, bytes, style, output)?;
    if are_accepted(findings.as_slice(), checks.strict) && fits {
        Ok(Answer::Printed)
    } else {
        Ok(Answer::HasFindings)
    }
}

fn fits_if<W: Write>(
    alloc: Global,
    deep: bool,
    file: &str,
    bytes: &[u8],
    style: Style,
    output: &mut W,
) -> Result<bool, InquiryFault>
    ensures { IfOk result (λ fits. IsTrue fits → IsTrue deep → IsFit bytes.now) }
{
    if deep {
        print_garbage(alloc, file, bytes, style, output)
    } else {
        Ok(true)
    }
}

fn are_accepted(findings: &[FileFinding], strict: bool) -> bool
    ensures notes { IsTrue result → All IsFileNote findings.now }
    ensures none { IsTrue result → IsTrue strict → findings.now ≡ [] }
{
    if strict {
        findings.is_empty()
    } else {
        are_notes(findings)
    }
}

fn are_notes(findings: &[FileFinding]) -> bool
    ensures { IsTrue result ↔ All IsFileNote findings.now }
{
    findings.iter().all(
        |finding: &FileFinding| -> bool
            ensures { IsTrue result ↔ IsFileNote finding.now }
        { finding.is_note() },
    )
}

fn find<W: Write>(
    alloc: Global,
    bytes: &[u8],
    hashes: &[MerkleHash],
    costs: bool,
    layout: Layout<'_>,
    tally: &mut Tally,
    output: &mut W,
) -> Result<Answer, InquiryFault>
    ensures { IfOk result (λ answer. answer ≢ Answer.HasFindings) }
{
    if lacks_file_table(alloc, bytes)? {
        return Err(InquiryFault::NoTable(Table::Files));
    }
    let mut found = false;
    for hash in hashes {
        let report = FoundReport::of_lookup(alloc, bytes, *hash, costs)?;
        found |= print_lookup(alloc, &report, layout, tally, output)?;
    }
    if found {
        Ok(Answer::Printed)
    } else {
        Ok(Answer::FoundNothing)
    }
}

// A report of nothing is printed only with costs, or without shards' names.
pub(crate) fn print_lookup<W: Write>(
    alloc: Global,
    report: &FoundReport,
    layout: Layout<'_>,
    tally: &mut Tally,
    output: &mut W,
) -> Result<bool, InquiryFault>
    ensures { IfOk result (λ found. found ≡ is_some report.now.found) }
{
    let found = report.found.is_some();
    if found {
        tally.add_found(report.hash.0)?;
    }
    if found || report.costs.is_some() || !layout.is_of_one() {
        print(alloc, report, layout, output)?;
    }
    Ok(found)
}

fn query<W: Write>(
    alloc: Global,
    bytes: &[u8],
    hashes: &[MerkleHash],
    layout: Layout<'_>,
    tally: &mut Tally,
    output: &mut W,
) -> Result<Answer, InquiryFault>
    ensures { IfOk result (λ answer. answer ≢ Answer.HasFindings) }
{
    if lacks_chunk_table(alloc, bytes)? {
        return Err(InquiryFault::NoTable(Table::Chunks));
    }
    let report = RunReport::of_query(alloc, bytes, hashes)?;
    print_run(alloc, &report, layout, tally, output)
}

// A report of nothing is printed only without shards' names.
pub(crate) fn print_run<W: Write>(
    alloc: Global,
    report: &RunReport,
    layout: Layout<'_>,
    tally: &mut Tally,
    output: &mut W,
) -> Result<Answer, InquiryFault>
    ensures { IfOk result (λ answer. answer ≢ Answer.HasFindings) }
{
    if report.run.is_some() {
        tally.has_run = true;
        print(alloc, report, layout, output)?;
        return Ok(Answer::Printed);
    }
    if !layout.is_of_one() {
        print(alloc, report, layout, output)?;
    }
    Ok(Answer::FoundNothing)
}

fn print_files<W: Write>(
    alloc: Global,
    bytes: &[u8],
    long: bool,
    layout: Layout<'_>,
    output: &mut W,
) -> Result<(), InquiryFault> {
    for file in &file_reports(alloc, bytes, long)? {
        print(alloc, file, layout, output)?;
    }
    Ok(())
}

fn print_xorbs<W: Write>(
    alloc: Global,
    inquiry: &Inquiry,
    bytes: &[u8],
    layout: Layout<'_>,
    output: &mut W,
) -> Result<(), InquiryFault> {
    let info = load_bytes(alloc, bytes)?;
    let mut source = MemorySource::new(bytes);
    let xorbs = info.read_all_xorb_blocks_full(alloc, &mut source)?;
    for xorb in &xorbs {
        print_xorb(alloc, inquiry, xorb, layout, output)?;
    }
    Ok(())
}

pub(crate) fn print_xorb<W: Write>(
    alloc: Global,
    inquiry: &Inquiry,
    xorb: &MDBXorbInfo,
    layout: Layout<'_>,
    output: &mut W,
) -> Result<(), InquiryFault> {
    match inquiry {
        Inquiry::Xorbs { long } => {
            let report = XorbReport::of_xorb(alloc, xorb, *long)?;
            print(alloc, &report, layout, output)?;
        }
        Inquiry::Chunks { long } => print_chunks_of(alloc, xorb, *long, layout, output)?,
        _ => {}
    }
    Ok(())
}

fn print_chunks_of<W: Write>(
    alloc: Global,
    xorb: &MDBXorbInfo,
    long: bool,
    layout: Layout<'_>,
    output: &mut W,
) -> io::Result<()> {
    for (index, chunk) in xorb.chunks.as_slice().iter().enumerate() {
        let chunk = ChunkReport::of_chunk(xorb, index as u64, chunk, long);
        print(alloc, &chunk, layout, output)?;
    }
    Ok(())
}
