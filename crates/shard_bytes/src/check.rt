//! Checks of a shard: would the library write the same bytes?

ghost use Rattle.std.specs.Prelude.{◌≡◌, ◌↔◌, [], ◌∷◌, ◌++◌, map, All, Contains, MatchOption, MatchResult, OnOk, IfOk, IfErr, IsTrue, if◌then◌else◌};
ghost use Rattle.std.specs.List.{slice_range};
ghost use Rattle.std.specs.List.Sorted.{IsStrictlySortedBy};
ghost use Rattle.std.specs.declared.cmp.Ordering.TheVariants.{Less};
ghost use Rattle.xet_core_structures.specs.declared.shard_format.MDBShardInfo.{MDBShardInfo};
ghost use Rattle.xet_core_structures.specs.Ends.{HasHeaderAndFooter};
ghost use Rattle.xet_core_structures.specs.TwoShards.ByteResults.{LoadRefusal};
ghost use Rattle.xet_core_structures.specs.Hash.{hash_cmp};
ghost use Rattle.xet_shards.specs.Read.SectionsBehindHeader.{options_of};
ghost use Rattle.xet_shards.specs.Write.Tables.{hash_in};
ghost use Rattle.placed_shards.specs.Content.{content};
ghost use Rattle.shard_bytes.specs.declared.check.Finding.{Finding};
ghost use Rattle.shard_bytes.specs.Checking.{IsWhole, IsIntact, IsFinding, IsNote, IsOutOfOrder, IsReadAs, IsSamePart, HoldsSomeShard};
ghost use Rattle.shard_bytes.specs.Steps.CheckingSteps.{IsReport, IsUnloaded, IsUnreadable, AddsPart, AddsTable, FindsInTable, AddsSize, AddsDisorder, AddsDifferences, Compares, IsWritten, IsWrittenTable};

mod malformed;
mod reordered;

use crate::format::{Format, unsupported_for};
use crate::load::load_bytes;
use malformed::push_malformed;
use placed_shards::placed_file::PlacedFile;
use placed_shards::placed_record::PlacedRecord;
use placed_shards::placed_shard::PlacedShard;
use placed_shards::placed_xorb::PlacedXorb;
use placed_shards::section::read_section;
use reordered::is_reordered;
use std::alloc::Global;
use std::cmp::Ordering;
use xet_core_structures::error::{CoreError, Result};
use xet_core_structures::record_reader::FormatVersion;
use xet_core_structures::shard_format::{HEADER_SIZE, MDBShardFileFooter, MDBShardInfo};
use xet_core_structures::shard_writer::{LayoutOptions, bytes_from};

/// A section of a shard.
#[derive(Clone, Copy, Debug, PartialEq, Eq)]
pub enum Section {
    Files,
    Xorbs,
}

/// A part of a shard, in the order of its bytes.
#[derive(Clone, Copy, Debug, PartialEq, Eq)]
pub enum Part {
    Header,
    FileSection,
    XorbSection,
    FileTable,
    XorbTable,
    ChunkTable,
    Footer,
}

/// What is not as the library would write it.
#[derive(Clone, Copy, Debug, PartialEq, Eq)]
pub enum Finding {
    /// The format is not supported.
    Unsupported(Format),
    /// There are too few bytes for a header and a footer.
    TooShort,
    /// The bytes end before the section's bookend.
    Cut(Section),
    /// The section has a header that the version lacks, or more than 4294967295 rows.
    Refused(Section),
    /// The hash at this index, from 0 on, is the first of the section that is not greater than the
    /// one before.
    OutOfOrder(Section, usize),
    /// The record at this index, from 0 on, is malformed: a file has an unknown flag, or a reserved
    /// word that is not zero in its header or a row of an optional part; the chunks of a xorb pass
    /// 4294967295 bytes together.
    Malformed(Section, usize),
    /// The part differs from what the records give; in a section, this is its bookend.
    Differs(Part),
    /// A note: rows of the chunk table with the same first word stand in another order, as the
    /// original implementation may leave them.
    Reordered,
    /// The records give this other size, in bytes.
    Size(usize),
}

impl Finding {
    /// Whether this is a note: nothing is lost by it.
    pub fn is_note(&self) -> bool
        ensures { IsTrue result ↔ IsNote self.now }
    {
        match self {
            Finding::Reordered => true,
            _ => false,
        }
    }
}

/// All findings about the bytes of a shard; just one if they cannot be read.
///
/// There is none exactly if the library would write these bytes for their records, version, key,
/// timestamps and the tables that have rows by the footer, and the records are well-formed and
/// their hashes strictly ascend; there are only notes exactly if that is so but for the order of
/// rows of the chunk table with the same first word. Then the bytes hold a well-formed shard.
///
/// Fails only with `OutOfMemory`.
pub fn check_bytes(alloc: Global, bytes: &[u8]) -> Result<Vec<Finding>>
    ensures whole { IfOk result (λ findings. (findings.items ≡ []) ↔ IsWhole bytes.now) }
    ensures intact { IfOk result (λ findings. All IsNote findings.items ↔ IsIntact bytes.now) }
    ensures shard { IfOk result (λ findings. All IsNote findings.items → HoldsSomeShard bytes.now) }
    ensures each { IfOk result (λ findings. All (IsFinding bytes.now) findings.items) }
    ensures all { IfOk result
        (λ findings. (f : Finding) → IsFinding bytes.now f → Contains findings.items f) }
    ensures causes { IfErr result (λ e. e ≡ CoreError.OutOfMemory) }
{
    match load_bytes(alloc, bytes) {
        Ok(info) => check_sections(alloc, bytes, &info),
        Err(error) => single_finding(alloc, load_finding(bytes, error)),
    }
}

fn load_finding(bytes: &[u8], error: CoreError) -> Finding
    requires { LoadRefusal bytes.now error }
    ensures { IsUnloaded bytes.now result }
{
    match error {
        CoreError::ShardVersion(_) => Finding::Unsupported(unsupported_for(bytes)),
        _ => Finding::TooShort,
    }
}

fn check_sections(alloc: Global, bytes: &[u8], info: &MDBShardInfo) -> Result<Vec<Finding>>
    requires { HasHeaderAndFooter bytes.now info.now }
    ensures report { IfOk result (λ findings. IsReport bytes.now findings.items) }
    ensures causes { IfErr result (λ e. e ≡ CoreError.OutOfMemory) }
{
    let version = FormatVersion::of_header(info.header.version);
    let from_files = bytes_from(bytes, HEADER_SIZE);
    let files = match read_section::<PlacedFile<'_>>(alloc, from_files, version) {
        Ok(files) => files,
        Err(error) => return section_findings(alloc, Section::Files, error),
    };
    // The xorb section comes next, whatever the footer says.
    let xorbs = match read_section::<PlacedXorb<'_>>(alloc, files.rest, FormatVersion::V3) {
        Ok(xorbs) => xorbs,
        Err(error) => return section_findings(alloc, Section::Xorbs, error),
    };
    let shard = PlacedShard {
        options: LayoutOptions::of_info(info),
        as_read: false,
        files: files.records,
        xorbs: xorbs.records,
    };
    let files = shard.files.as_slice();
    let xorbs = shard.xorbs.as_slice();
    let mut findings = Vec::new(alloc);
    push_disorder(&mut findings, Section::Files, files)?;
    push_disorder(&mut findings, Section::Xorbs, xorbs)?;
    push_malformed(&mut findings, Section::Files, files)?;
    push_malformed(&mut findings, Section::Xorbs, xorbs)?;
    push_differences(alloc, &mut findings, bytes, info, &shard)?;
    Ok(findings)
}

fn section_findings(alloc: Global, section: Section, error: CoreError) -> Result<Vec<Finding>>
    ensures report { IfOk result (λ findings. IsUnreadable section error findings.items) }
    ensures causes { IfErr result (λ e. e ≡ CoreError.OutOfMemory) }
{
    match error {
        CoreError::OutOfMemory => Err(CoreError::OutOfMemory),
        CoreError::InvalidShard(_) => single_finding(alloc, Finding::Refused(section)),
        _ => single_finding(alloc, Finding::Cut(section)),
    }
}

fn single_finding(alloc: Global, finding: Finding) -> Result<Vec<Finding>>
    ensures ok { IfOk result (λ findings. findings.items ≡ finding ∷ []) }
    ensures causes { IfErr result (λ e. e ≡ CoreError.OutOfMemory) }
{
    let mut findings = Vec::new(alloc);
    findings.push(finding)?;
    Ok(findings)
}

fn push_disorder<'a, P: PlacedRecord<'a>>(
    findings: &mut Vec<Finding>,
    section: Section,
    records: &[P],
) -> Result<()>
    ensures added { OnOk result
        (AddsDisorder section (map (hash_in P.kind) records.now) findings.old.items
        findings.new.items) }
    ensures causes { IfErr result (λ e. e ≡ CoreError.OutOfMemory) }
{
    if let Some(index) = first_out_of_order(records) {
        findings.push(Finding::OutOfOrder(section, index))?;
    }
    Ok(())
}

fn first_out_of_order<'a, P: PlacedRecord<'a>>(records: &[P]) -> Option<usize>
    ensures { MatchOption result (IsStrictlySortedBy hash_cmp (map (hash_in P.kind) records.now))
        (λ index. IsOutOfOrder index (map (hash_in P.kind) records.now)) }
{
    for index in 1..records.len() {
        if !ascend(&records[index - 1], &records[index]) {
            return Some(index);
        }
    }
    None
}

fn ascend<'a, P: PlacedRecord<'a>>(first: &P, second: &P) -> bool
    ensures { IsTrue result
        ↔ (hash_cmp (hash_in P.kind first.now) (hash_in P.kind second.now) ≡ Less) }
{
    first.hash().cmp(&second.hash()) == Ordering::Less
}

fn push_differences(
    alloc: Global,
    findings: &mut Vec<Finding>,
    bytes: &[u8],
    info: &MDBShardInfo,
    shard: &PlacedShard<'_>,
) -> Result<()>
    requires read { IsReadAs bytes.now info.now shard.now.files.items shard.now.xorbs.items }
    requires made { content shard.now ≡ record {
      files = shard.now.files.items;
      xorbs = shard.now.xorbs.items;
      options = options_of info.now;
    } }
    ensures added { OnOk result
        (AddsDifferences bytes.now info.now shard.now.files.items shard.now.xorbs.items
        findings.old.items findings.new.items) }
    ensures causes { IfErr result (λ e. e ≡ CoreError.OutOfMemory) }
{
    let written = shard.to_bytes(alloc, shard.options.version)?;
    let written = written.as_slice();
    let footer = load_bytes(alloc, written)?.metadata;
    compare(alloc, findings, bytes, info, written, &footer)
}

fn compare(
    alloc: Global,
    findings: &mut Vec<Finding>,
    bytes: &[u8],
    info: &MDBShardInfo,
    written: &[u8],
    footer: &MDBShardFileFooter,
) -> Result<()>
    requires { IsWritten written.now footer.now }
    ensures added { OnOk result
        (Compares bytes.now info.now written.now footer.now findings.old.items findings.new.items) }
    ensures causes { IfErr result (λ e. e ≡ CoreError.OutOfMemory) }
{
    push_part(findings, Part::Header, bytes, info, written, footer)?;
    push_part(findings, Part::FileSection, bytes, info, written, footer)?;
    push_part(findings, Part::XorbSection, bytes, info, written, footer)?;
    push_part(findings, Part::FileTable, bytes, info, written, footer)?;
    push_part(findings, Part::XorbTable, bytes, info, written, footer)?;
    push_chunk_table(alloc, findings, bytes, written, footer)?;
    push_part(findings, Part::Footer, bytes, info, written, footer)?;
    push_size(findings, bytes, written)
}

fn push_part(
    findings: &mut Vec<Finding>,
    part: Part,
    bytes: &[u8],
    info: &MDBShardInfo,
    written: &[u8],
    footer: &MDBShardFileFooter,
) -> Result<()>
    ensures added { OnOk result
        (AddsPart part bytes.now info.now written.now footer.now findings.old.items
        findings.new.items) }
    ensures causes { IfErr result (λ e. e ≡ CoreError.OutOfMemory) }
{
    let same = is_same_part(part, bytes, info, written, footer);
    push_unless(findings, same, Finding::Differs(part))
}

fn push_chunk_table(
    alloc: Global,
    findings: &mut Vec<Finding>,
    bytes: &[u8],
    written: &[u8],
    footer: &MDBShardFileFooter,
) -> Result<()>
    requires { IsWritten written.now footer.now }
    ensures added { OnOk result
        ((info : MDBShardInfo) → AddsTable bytes.now info written.now footer.now
        findings.old.items findings.new.items) }
    ensures causes { IfErr result (λ e. e ≡ CoreError.OutOfMemory) }
{
    let start = footer.chunk_lookup_offset;
    let end = footer.footer_offset;
    match table_finding(alloc, slice(written, start, end), slice(bytes, start, end))? {
        Some(finding) => Ok(findings.push(finding)?),
        None => Ok(()),
    }
}

fn table_finding(alloc: Global, written: &[u8], found: &[u8]) -> Result<Option<Finding>>
    requires { IsWrittenTable written.now }
    ensures { MatchResult result (FindsInTable written.now found.now)
        (λ e. e ≡ CoreError.OutOfMemory) }
{
    if found == written {
        return Ok(None);
    }
    if is_reordered(alloc, written, found)? {
        Ok(Some(Finding::Reordered))
    } else {
        Ok(Some(Finding::Differs(Part::ChunkTable)))
    }
}

fn push_size(findings: &mut Vec<Finding>, bytes: &[u8], written: &[u8]) -> Result<()>
    ensures added { OnOk result
        (AddsSize bytes.now written.now findings.old.items findings.new.items) }
    ensures causes { IfErr result (λ e. e ≡ CoreError.OutOfMemory) }
{
    let size = written.len();
    push_unless(findings, bytes.len() == size, Finding::Size(size))
}

fn push_unless(findings: &mut Vec<Finding>, holds: bool, finding: Finding) -> Result<()>
    ensures added { OnOk result
        (findings.new.items
        ≡ (if holds then findings.old.items else findings.old.items ++ finding ∷ [])) }
    ensures causes { IfErr result (λ e. e ≡ CoreError.OutOfMemory) }
{
    if !holds {
        findings.push(finding)?;
    }
    Ok(())
}

fn is_same_part(
    part: Part,
    bytes: &[u8],
    info: &MDBShardInfo,
    written: &[u8],
    footer: &MDBShardFileFooter,
) -> bool
    ensures { IsTrue result ↔ IsSamePart part bytes.now info.now written.now footer.now }
{
    match part {
        Part::Header => have_same_bytes(bytes, written, 0, footer.file_info_offset),
        Part::FileSection => {
            have_same_bytes(
                bytes,
                written,
                footer.file_info_offset,
                footer.xorb_info_offset,
            )
        }
        Part::XorbSection => {
            have_same_bytes(
                bytes,
                written,
                footer.xorb_info_offset,
                footer.file_lookup_offset,
            )
        }
        Part::FileTable => {
            have_same_bytes(
                bytes,
                written,
                footer.file_lookup_offset,
                footer.xorb_lookup_offset,
            )
        }
        Part::XorbTable => {
            have_same_bytes(
                bytes,
                written,
                footer.xorb_lookup_offset,
                footer.chunk_lookup_offset,
            )
        }
        Part::ChunkTable => {
            have_same_bytes(
                bytes,
                written,
                footer.chunk_lookup_offset,
                footer.footer_offset,
            )
        }
        Part::Footer => info.metadata == *footer,
    }
}

fn have_same_bytes(bytes: &[u8], written: &[u8], start: u64, end: u64) -> bool
    ensures { IsTrue result
        ↔ (slice_range bytes.now start end ≡ slice_range written.now start end) }
{
    slice(bytes, start, end) == slice(written, start, end)
}

// The bytes from one offset up to another, as far as they go.
fn slice(bytes: &[u8], start: u64, end: u64) -> &[u8]
    ensures { result.now ≡ slice_range bytes.now start end }
{
    let end = bytes.len().min(end as usize);
    let start = end.min(start as usize);
    &bytes[start..end]
}
