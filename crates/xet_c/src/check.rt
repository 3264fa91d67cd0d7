//! What is wrong with the bytes of a shard.

ghost use Rattle.std.specs.Prelude.{◌≡◌, map, IfOk, IfErr};
ghost use Rattle.xet_core_structures.specs.declared.error.CoreError.{CoreError};
ghost use Rattle.xet_c.specs.ShownChecks.{c_finding, c_part, c_section, ShowsFindings};
ghost use Rattle.xet_c.specs.Output.{Outcome};

use crate::output::deliver;
use shard_bytes::check::{Finding, Part, Section, check_bytes};
use shard_bytes::format::Format;
use std::alloc::Global;
use xet_core_structures::error::{CoreError, Result};

/// A finding: its kind, its part and a number, 0 where the kind has none. Parts are 1 to 7 in the
/// order of the bytes, the header first. Kinds: 1, no tag; 2, an unknown version, `number`; 3, no
/// footer; 4, too few bytes for header and footer; 5, a section ends before its bookend; 6, a
/// section has a header that the version does not have, or too many rows; 7, the hash of record
/// `number` does not ascend; 8, the part differs from what the records give; 9, the size should be
/// `number`; 10, record `number` is malformed; 11, a note: chunk table rows with one first word are
/// in another order.
#[repr(C)]
#[derive(Clone, Copy, Drop)]
pub struct XetFinding {
    pub kind: u32,
    pub part: u32,
    pub number: u64,
}

/// Puts all that is wrong with a shard's bytes to the front of `findings`: nothing if they are what
/// the library would write of the records in them, which a shard may have; a note alone if they are
/// so but for the order of rows of the chunk table.
#[unsafe(no_mangle)]
pub extern "C" fn xet_check(
    alloc: Global,
    shard: &[u8],
    findings: &mut [XetFinding],
    written: &mut usize,
) -> u32
    ensures { Outcome (ShowsFindings shard.now) (λ e. e ≡ CoreError.OutOfMemory) findings.old
        findings.new written.new result }
{
    let found = shown_findings(alloc, shard);
    deliver(found, findings, written)
}

fn shown_findings(alloc: Global, shard: &[u8]) -> Result<Vec<XetFinding>>
    ensures ok { IfOk result (λ shown. ShowsFindings shard.now shown.items) }
    ensures causes { IfErr result (λ e. e ≡ CoreError.OutOfMemory) }
{
    let findings = check_bytes(alloc, shard)?;
    to_c_findings(alloc, findings.as_slice())
}

fn to_c_findings(alloc: Global, findings: &[Finding]) -> Result<Vec<XetFinding>>
    ensures ok { IfOk result (λ shown. shown.items ≡ map c_finding findings.now) }
    ensures causes { IfErr result (λ e. e ≡ CoreError.OutOfMemory) }
{
    let mut shown = Vec::new(alloc);
    for finding in findings {
        shown.push(finding_of(*finding))?;
    }
    Ok(shown)
}

fn finding_of(finding: Finding) -> XetFinding
    ensures { result ≡ c_finding finding }
{
    match finding {
        Finding::Unsupported(Format::NoTag) => to_c_finding(1, number_of_part(Part::Header), 0),
        Finding::Unsupported(Format::OtherVersion(version)) => {
            to_c_finding(2, number_of_part(Part::Header), version)
        }
        Finding::Unsupported(Format::NoFooter) => to_c_finding(3, number_of_part(Part::Footer), 0),
        Finding::TooShort => to_c_finding(4, 0, 0),
        Finding::Cut(section) => to_c_finding(5, number_of_section(section), 0),
        Finding::Refused(section) => to_c_finding(6, number_of_section(section), 0),
        Finding::OutOfOrder(section, index) => {
            to_c_finding(7, number_of_section(section), index as u64)
        }
        Finding::Differs(part) => to_c_finding(8, number_of_part(part), 0),
        Finding::Size(size) => to_c_finding(9, 0, size as u64),
        Finding::Malformed(section, index) => {
            to_c_finding(10, number_of_section(section), index as u64)
        }
        Finding::Reordered => to_c_finding(11, number_of_part(Part::ChunkTable), 0),
    }
}

fn to_c_finding(kind: u32, part: u32, number: u64) -> XetFinding
    ensures { result ≡ record { kind = kind; part = part; number = number } }
{
    XetFinding { kind, part, number }
}

fn number_of_section(section: Section) -> u32
    ensures { result ≡ c_section section }
{
    match section {
        Section::Files => 2,
        Section::Xorbs => 3,
    }
}

fn number_of_part(part: Part) -> u32
    ensures { result ≡ c_part part }
{
    match part {
        Part::Header => 1,
        Part::FileSection => 2,
        Part::XorbSection => 3,
        Part::FileTable => 4,
        Part::XorbTable => 5,
        Part::ChunkTable => 6,
        Part::Footer => 7,
    }
}
