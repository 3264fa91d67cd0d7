//! What a check finds, in words.

ghost use Rattle.std.specs.Prelude.{◌≡◌, ◌↔◌, [], map, All, Contains, IsTrue, IfOk, IfErr, MatchOption};
ghost use Rattle.xet_core_structures.specs.Blake3.{keyed_hash};
ghost use Rattle.xet_core_structures.specs.Names.{IsShardName, NamesShard};
ghost use Rattle.shard_bytes.specs.Checking.{IsWhole, IsIntact};
ghost use Rattle.mdb_report.specs.declared.file_finding.FileFinding.{FileFinding};
ghost use Rattle.xet_core_structures.specs.declared.shard_format.MDBShardInfo.{MDBShardInfo};
ghost use Rattle.mdb_report.specs.FileFindings.{IsFileFinding, IsFileNote, IsFileName, AreFindings, start_in};

use mdb_records::shown::ShownText;
use serde::{Described, Serialize, Serializer};
use shard_bytes::check::{Finding, Part, Section, check_bytes};
use shard_bytes::format::Format;
use std::alloc::{AllocError, Global};
use std::fmt;
use xet_core_structures::error::{CoreError, Result};
use xet_core_structures::merklehash::{HMACKey, MerkleHash, keyed_hash};
use xet_core_structures::shard_format::MDBShardInfo;
use xet_core_structures::utils::parse_shard_filename;

/// What a check finds wrong with a file.
#[derive(Clone, Copy)]
pub enum FileFinding {
    /// The bytes are not as the library writes them.
    Bytes(Finding),
    /// The name is not 64 hexadecimal digits and `.mdb`.
    Name,
    /// The name has another hash than this one of the bytes.
    Hash(MerkleHash),
}

impl FileFinding {
    /// Whether it is only a note: nothing is lost.
    pub fn is_note(&self) -> bool
        ensures { IsTrue result ↔ IsFileNote self.now }
    {
        match self {
            FileFinding::Bytes(finding) => finding.is_note(),
            FileFinding::Name | FileFinding::Hash(_) => false,
        }
    }
}

/// A finding and its file.
#[derive(Clone, Copy, Serialize)]
pub struct FindingReport<'a> {
    /// The file's name.
    pub shard: &'a str,
    pub code: &'static str,
    /// Where in the file it starts, if the footer says that.
    pub offset: Option<u64>,
    #[serde(rename = "problem")]
    pub finding: FileFinding,
}

impl<'a> FindingReport<'a> {
    /// The report of a finding; `info` is the file's header and footer, if read.
    pub fn of_finding(
        file: &'a str,
        info: Option<&MDBShardInfo>,
        finding: FileFinding,
    ) -> FindingReport<'a>
        ensures shard { result.shard.now ≡ file.now }
        ensures finding { result.finding ≡ finding }
    {
        FindingReport {
            shard: file,
            code: code_of(finding),
            offset: offset_of(info, finding),
            finding,
        }
    }
}

fn code_of(finding: FileFinding) -> &'static str {
    match finding {
        FileFinding::Name => "name",
        FileFinding::Hash(_) => "hash_differs",
        FileFinding::Bytes(finding) => match finding {
            Finding::Unsupported(Format::NoTag) => "no_tag",
            Finding::Unsupported(Format::OtherVersion(_)) => "other_version",
            Finding::Unsupported(Format::NoFooter) => "no_footer",
            Finding::TooShort => "too_short",
            Finding::Cut(_) => "section_cut",
            Finding::Refused(_) => "section_refused",
            Finding::OutOfOrder(_, _) => "out_of_order",
            Finding::Malformed(_, _) => "malformed_record",
            Finding::Differs(Part::Header) => "header_differs",
            Finding::Differs(Part::FileSection) => "file_section_differs",
            Finding::Differs(Part::XorbSection) => "xorb_section_differs",
            Finding::Differs(Part::FileTable) => "file_table_differs",
            Finding::Differs(Part::XorbTable) => "xorb_table_differs",
            Finding::Differs(Part::ChunkTable) => "chunk_table_differs",
            Finding::Differs(Part::Footer) => "footer_differs",
            Finding::Reordered => "chunk_table_reordered",
            Finding::Size(_) => "size_differs",
        },
    }
}

// `None` for a name or a size, or without a footer.
fn offset_of(info: Option<&MDBShardInfo>, finding: FileFinding) -> Option<u64> {
    match (info, finding) {
        (Some(info), FileFinding::Bytes(finding)) => start_of(info, finding),
        _ => None,
    }
}

/// The offset, by the footer, of the part that a finding is about, if it is about one.
pub fn start_of(info: &MDBShardInfo, finding: Finding) -> Option<u64>
    ensures { result ≡ start_in info.now finding }
{
    let footer = &info.metadata;
    match finding {
        Finding::Differs(Part::Header) => Some(0),
        Finding::Cut(Section::Files)
        | Finding::Refused(Section::Files)
        | Finding::OutOfOrder(Section::Files, _)
        | Finding::Malformed(Section::Files, _)
        | Finding::Differs(Part::FileSection) => Some(footer.file_info_offset),
        Finding::Cut(Section::Xorbs)
        | Finding::Refused(Section::Xorbs)
        | Finding::OutOfOrder(Section::Xorbs, _)
        | Finding::Malformed(Section::Xorbs, _)
        | Finding::Differs(Part::XorbSection) => Some(footer.xorb_info_offset),
        Finding::Differs(Part::FileTable) => Some(footer.file_lookup_offset),
        Finding::Differs(Part::XorbTable) => Some(footer.xorb_lookup_offset),
        Finding::Differs(Part::ChunkTable) | Finding::Reordered => Some(footer.chunk_lookup_offset),
        Finding::Differs(Part::Footer) => Some(footer.footer_offset),
        Finding::Unsupported(_) | Finding::TooShort | Finding::Size(_) => None,
    }
}

/// The findings of a file: those of [`check_bytes`], in its order, then that of its name.
///
/// The only error is `OutOfMemory`.
pub fn findings_of_file(alloc: Global, name: &str, bytes: &[u8]) -> Result<Vec<FileFinding>>
    ensures whole { IfOk result
        (λ findings. (findings.items ≡ []) ↔ (IsWhole bytes.now × IsShardName name.now)) }
    ensures intact { IfOk result
        (λ findings. All IsFileNote findings.items → IsIntact bytes.now) }
    ensures each { IfOk result (λ findings. All (IsFileFinding name.now bytes.now) findings.items) }
    ensures all { IfOk result
        (λ findings. (f : FileFinding) → IsFileFinding name.now bytes.now f → Contains findings.items f) }
    ensures causes { IfErr result (λ e. e ≡ CoreError.OutOfMemory) }
{
    let of_bytes = check_bytes(alloc, bytes)?;
    let mut findings = file_findings(alloc, of_bytes.as_slice())?;
    if parse_shard_filename(name).is_some() {
        return Ok(findings);
    }
    findings.push(FileFinding::Name)?;
    Ok(findings)
}

/// As [`findings_of_file`], but of the bytes alone.
pub fn findings_of_bytes(alloc: Global, bytes: &[u8]) -> Result<Vec<FileFinding>>
    ensures whole { IfOk result (λ findings. (findings.items ≡ []) ↔ IsWhole bytes.now) }
    ensures intact { IfOk result
        (λ findings. All IsFileNote findings.items → IsIntact bytes.now) }
    ensures findings { IfOk result (λ findings. AreFindings bytes.now findings.items) }
    ensures causes { IfErr result (λ e. e ≡ CoreError.OutOfMemory) }
{
    let findings = check_bytes(alloc, bytes)?;
    Ok(file_findings(alloc, findings.as_slice())?)
}

/// As [`findings_of_file`], then that of a shard's name with another hash than the bytes have under
/// `key`.
pub fn findings_under_key(
    alloc: Global,
    name: &str,
    key: HMACKey,
    bytes: &[u8],
) -> Result<Vec<FileFinding>>
    ensures whole { IfOk result
        (λ findings. (findings.items ≡ [])
        ↔ (IsWhole bytes.now × NamesShard name.now (keyed_hash key bytes.now))) }
    ensures intact { IfOk result
        (λ findings. All IsFileNote findings.items → IsIntact bytes.now) }
    ensures causes { IfErr result (λ e. e ≡ CoreError.OutOfMemory) }
{
    let mut findings = findings_of_file(alloc, name, bytes)?;
    let Some(hash) = other_hash(name, key, bytes) else {
        return Ok(findings);
    };
    findings.push(FileFinding::Hash(hash))?;
    Ok(findings)
}

/// The findings of the file at a path: with a key as [`findings_under_key`], else if `named` as
/// [`findings_of_file`], else as [`findings_of_bytes`].
pub fn findings_to_report(
    alloc: Global,
    path: &str,
    named: bool,
    key: Option<HMACKey>,
    bytes: &[u8],
) -> Result<Vec<FileFinding>>
    ensures whole { IfOk result (λ findings. findings.items ≡ [] → IsWhole bytes.now) }
    ensures intact { IfOk result
        (λ findings. All IsFileNote findings.items → IsIntact bytes.now) }
    ensures causes { IfErr result (λ e. e ≡ CoreError.OutOfMemory) }
{
    match key {
        Some(key) => findings_under_key(alloc, file_name(path), key, bytes),
        None if named => findings_of_file(alloc, file_name(path), bytes),
        None => findings_of_bytes(alloc, bytes),
    }
}

// The bytes' hash, if the name is a shard's with another one.
fn other_hash(name: &str, key: HMACKey, bytes: &[u8]) -> Option<MerkleHash>
    ensures { MatchOption result (IsShardName name.now → NamesShard name.now (keyed_hash key bytes.now))
        (λ hash. (hash ≡ keyed_hash key bytes.now) × IsShardName name.now
        × (¬ NamesShard name.now hash)) }
{
    let named = parse_shard_filename(name)?;
    let hash = keyed_hash(key, bytes);
    if named == hash { None } else { Some(hash) }
}

fn file_findings(
    alloc: Global,
    findings: &[Finding],
) -> std::result::Result<Vec<FileFinding>, AllocError>
    ensures { IfOk result (λ found. found.items ≡ map FileFinding.Bytes findings.now) }
{
    findings
        .iter()
        .map(|finding| FileFinding::Bytes(*finding))
        .collect(alloc)
}

/// What follows a path's last slash, or all of it without one.
pub fn file_name(path: &str) -> &str
    ensures { IsFileName path.now result.now }
{
    match path.rsplit_once('/') {
        Some((_, name)) => name,
        None => path,
    }
}

impl fmt::Display for FindingReport<'_> {
    fn fmt<W: fmt::Write>(&self, f: &mut fmt::Formatter<W>) -> fmt::Result {
        let shard = ShownText(self.shard);
        let finding = self.finding;
        write!(f, "{shard}: {finding}")
    }
}

impl fmt::Display for FileFinding {
    fn fmt<W: fmt::Write>(&self, f: &mut fmt::Formatter<W>) -> fmt::Result {
        match *self {
            FileFinding::Bytes(finding) => write!(f, "{}", InWords(finding)),
            FileFinding::Name => f.write_str("its name is not 64 hexadecimal digits and .mdb"),
            FileFinding::Hash(hash) => write!(
                f,
                "its bytes have the hash {hash}, and its name another"
            ),
        }
    }
}

impl Described for FileFinding {}

impl Serialize for FileFinding {
    fn serialize<S: Serializer>(&self, out: &mut S) -> std::result::Result<(), S::Error> {
        out.collect_str(self)
    }
}

/// A finding, for `{}` to print.
#[derive(Clone, Copy)]
pub struct InWords(pub Finding);

impl fmt::Display for InWords {
    fn fmt<W: fmt::Write>(&self, f: &mut fmt::Formatter<W>) -> fmt::Result {
        match self.0 {
            Finding::Unsupported(Format::NoTag) => {
                f.write_str("no shard: its first 32 bytes are no tag")
            }
            Finding::Unsupported(Format::OtherVersion(version)) => {
                write!(f, "version {version}: this program reads 2 and 3")
            }
            Finding::Unsupported(Format::NoFooter) => {
                f.write_str("its last 200 bytes are no footer: it was cut or lengthened")
            }
            Finding::TooShort => f.write_str("it is too short for a header and a footer"),
            Finding::Cut(section) => {
                let section = section_name(section);
                write!(f, "{section} ends before its bookend")
            }
            Finding::Refused(section) => {
                let section = section_name(section);
                write!(
                    f,
                    "{section} has a record that its version does not have, or too many rows"
                )
            }
            Finding::OutOfOrder(section, record) => {
                let section = section_name(section);
                write!(
                    f,
                    "{section} has a hash at record {record} that is not above the one before"
                )
            }
            Finding::Malformed(section, record) => {
                let section = section_name(section);
                write!(
                    f,
                    "{section} has a record that no shard may have, record {record}"
                )
            }
            Finding::Differs(Part::Header) => {
                f.write_str("the header has another footer size than 200")
            }
            Finding::Differs(part) => {
                let part = part_name(part);
                write!(f, "{part} does not match the records")
            }
            Finding::Reordered => f.write_str(
                "the chunk table has rows with one first word in another order: nothing is lost",
            ),
            Finding::Size(bytes) => write!(f, "it should have {bytes} bytes, by its records"),
        }
    }
}

fn section_name(section: Section) -> &'static str {
    match section {
        Section::Files => "the file section",
        Section::Xorbs => "the xorb section",
    }
}

fn part_name(part: Part) -> &'static str {
    match part {
        Part::Header => "the header",
        Part::FileSection => "the file section",
        Part::XorbSection => "the xorb section",
        Part::FileTable => "the file table",
        Part::XorbTable => "the xorb table",
        Part::ChunkTable => "the chunk table",
        Part::Footer => "the footer",
    }
}
