//! Why a command failed, in words.

ghost use Rattle.std.specs.Prelude.{◌≡◌, ◌↔◌, ℕ, All, Contains, IfSome, IsTrue, MatchOption, MatchResult};
ghost use Rattle.xet_core_structures.specs.View.{IsIoOther};
ghost use Rattle.shard_bytes.specs.Checking.{IsFinding};
ghost use Rattle.mdb_report.specs.Faults.{IsFaultOf, IsFaultOfRecord, MayBeCause, KeepsFrom, IsBlocking, IsExportFault, IsMinimalFault};

use crate::file_finding::InWords;
use crate::tables::Table;
use mdb_records::record_line::LineFault;
use placed_shards::findings::RecordHash;
use shard_bytes::check::{Finding, Part, Section, check_bytes};
use shard_bytes::export::Export;
use shard_bytes::load::load_bytes;
use std::alloc::{AllocError, AllocFailed, Global};
use std::{fmt, io};
use xet_core_structures::error::CoreError;
use xet_core_structures::file_structs::KeptParts;
use xet_core_structures::merklehash::MerkleHash;

/// Why a command failed.
#[derive(Drop)]
pub enum Fault {
    /// Reading or writing failed.
    Device(io::Error),
    OutOfMemory,
    /// Memory is too little for a merge without `--memory`.
    NoRoomAtOnce,
    /// A shard's bytes are not as the library writes them.
    Bytes(Finding),
    /// Too many files share this first word of a hash.
    Collision(u64),
    /// The shards have different keys.
    KeysDiffer,
    /// The shards have files that can't be combined, or too many rows.
    NoUnion,
    /// Records differ under so many hashes, of which this is the first.
    Disagree(usize, RecordHash),
    /// A shard has a record with this hash that no shard may have.
    Malformed(RecordHash),
    /// The shard has a key already.
    HasKey,
    /// The expiry is past the last timestamp.
    LateExpiry,
    /// A file lacks the verification rows that are asked for.
    NoVerification,
    /// A file has an auxiliary row, which the version lacks.
    HasAuxRow,
    /// The shard has records, but not this table for lookups.
    NoTable(Table),
    /// No xorb has this hash.
    NoXorb(MerkleHash),
    /// No file and no xorb has this hash.
    NoRecord(MerkleHash),
    /// This line of a list is no hash.
    NoHash(u64),
    /// A lookup lacks pages after all rounds of reading.
    TooManyRounds,
    /// There is nothing to merge.
    NoFiles,
    /// A folder has no shard.
    NoShards,
    /// Neither a folder nor one in it has a shard.
    NoShardsWithin,
    /// A word is not UTF-8, so it opens no file.
    NoText,
    /// A word is too long.
    LongWord,
    /// Standard input is named again.
    InputTwice,
    /// The output is a terminal.
    Terminal,
    /// An input of `--memory`, `--to`, `gc` or `report` is no regular file.
    NoParts,
    /// The target of `--memory` is no regular file.
    NoPlace,
    /// The file changed since it was first read.
    Changed,
    /// An input stays, since it is not what was read.
    StaysChanged,
    /// An input stays, since it is no regular file, as a link.
    StaysAsLink,
    /// A folder's file with this hash in its name has other bytes.
    OtherBytes(MerkleHash),
    /// This line of a list of records is no record.
    NoLine(u64, LineFault),
    /// This line has a record that no shard may have.
    NoRecordOfShard(u64),
    /// Any other error of the library.
    Other(CoreError),
}

impl fmt::Display for Fault {
    fn fmt<W: fmt::Write>(&self, f: &mut fmt::Formatter<W>) -> fmt::Result {
        match self {
            Fault::Device(error) => write!(f, "{error}"),
            Fault::Bytes(finding) => write!(f, "{}", InWords(*finding)),
            Fault::Collision(word) => {
                write!(
                    f,
                    "eight or more files have hashes that begin with {word:016x}"
                )
            }
            Fault::Disagree(1, first) => write!(f, "a record differs, of {}", NamedHash(*first)),
            Fault::Disagree(count, first) => {
                write!(
                    f,
                    "{count} records differ, the first of {}",
                    NamedHash(*first)
                )
            }
            Fault::Malformed(hash) => {
                write!(
                    f,
                    "it has a record that no shard may have, of {}",
                    NamedHash(*hash)
                )
            }
            Fault::NoTable(table) => write!(f, "it has no {table}, which this needs"),
            Fault::NoXorb(hash) => write!(f, "no xorb has the hash {hash}"),
            Fault::NoRecord(hash) => write!(f, "no file and no xorb has the hash {hash}"),
            Fault::NoHash(line) => {
                write!(
                    f,
                    "line {line} is no hash: a hash has 64 hexadecimal digits"
                )
            }
            Fault::OtherBytes(hash) => {
                write!(
                    f,
                    "{hash}.mdb is there, with other bytes than its name says"
                )
            }
            Fault::NoLine(line, fault) => write!(f, "line {line}: {fault}"),
            Fault::NoRecordOfShard(line) => {
                write!(f, "line {line}: no shard may have this record")
            }
            Fault::Other(error) => write!(f, "{error}"),
            fault => f.write_str(fault.text()),
        }
    }
}

impl Fault {
    fn text(&self) -> &'static str {
        match self {
            Fault::OutOfMemory => "out of memory",
            Fault::NoRoomAtOnce =>
                "out of memory: with --memory SIZE a merge takes about that much",
            Fault::KeysDiffer => "the shards are under different keys",
            Fault::NoUnion => {
                "the shards have a file in common that can't be combined, or too many rows"
            }
            Fault::HasKey => "its chunk hashes are under a key already",
            Fault::LateExpiry => "the expiry is past the last timestamp",
            Fault::NoVerification => "a file has no verification rows",
            Fault::HasAuxRow => {
                "a file has an auxiliary row, which version 2 of the format does not have"
            }
            Fault::TooManyRounds => "the lookup gave up: it has read from the file too many times",
            Fault::NoFiles => "there are no files to merge",
            Fault::NoShards => "it has no .mdb file, and folders in it are read only with -r",
            Fault::NoShardsWithin => "neither it nor a folder in it has a .mdb file",
            Fault::NoText => "the name is not UTF-8, so it can't be opened",
            Fault::LongWord => "an argument is too long",
            Fault::InputTwice => "it can be read only once",
            Fault::Terminal => "it is a terminal: write the shard to a file, by -o, or to a pipe",
            Fault::NoParts => "it is no regular file, which --memory, --to, gc and report need",
            Fault::NoPlace => "it is no regular file, which --memory needs to write to",
            Fault::Changed => "it was changed while it was read",
            Fault::StaysChanged => "it stays, since it was changed after it was read",
            Fault::StaysAsLink => "it stays, since it is no regular file",
            _ => "it failed",
        }
    }
}

#[derive(Clone, Copy, Drop)]
struct NamedHash(RecordHash);

impl fmt::Display for NamedHash {
    fn fmt<W: fmt::Write>(&self, f: &mut fmt::Formatter<W>) -> fmt::Result {
        match self.0 {
            RecordHash::File(hash) => write!(f, "file {hash}"),
            RecordHash::Xorb(hash) => write!(f, "xorb {hash}"),
        }
    }
}

impl From<io::Error> for Fault {
    fn from(error: io::Error) -> Fault {
        if error.kind() == io::ErrorKind::OutOfMemory {
            Fault::OutOfMemory
        } else {
            Fault::Device(error)
        }
    }
}

impl From<AllocError> for Fault {
    fn from(_error: AllocError) -> Fault {
        Fault::OutOfMemory
    }
}

impl<T: Drop> From<AllocFailed<T>> for Fault {
    fn from(_error: AllocFailed<T>) -> Fault {
        Fault::OutOfMemory
    }
}

/// The fault behind a call's error on a shard's bytes: `OutOfMemory` or `Collision` as the error
/// says, else the first finding of a check that may be the cause, else `Other`.
pub fn fault_of(alloc: Global, bytes: &[u8], error: CoreError) -> Fault
    ensures is { IsFaultOf bytes.now error result }
    ensures memory { error ≡ CoreError.OutOfMemory → result ≡ Fault.OutOfMemory }
    ensures collision { (word : ℕ) → error ≡ CoreError.TruncatedHashCollision word
        → result ≡ Fault.Collision word }
{
    match error {
        CoreError::OutOfMemory => Fault::OutOfMemory,
        CoreError::TruncatedHashCollision(word) => Fault::Collision(word),
        error => match first_finding(alloc, bytes) {
            Ok(Some(finding)) => Fault::Bytes(finding),
            Ok(None) => Fault::Other(error),
            Err(fault) => fault,
        },
    }
}

/// The fault behind an error of reading a section's records.
pub fn section_fault(section: Section, error: CoreError) -> Fault
    ensures memory { error ≡ CoreError.OutOfMemory → result ≡ Fault.OutOfMemory }
{
    match error {
        CoreError::OutOfMemory => Fault::OutOfMemory,
        CoreError::InvalidShard(_) => Fault::Bytes(Finding::Refused(section)),
        CoreError::Io(error) if error.kind() == io::ErrorKind::UnexpectedEof => {
            Fault::Bytes(Finding::Cut(section))
        }
        CoreError::Io(error) => Fault::Device(error),
        error => Fault::Other(error),
    }
}

/// As [`fault_of`], but in place of `Other` the first record that no shard may have, if any.
pub fn fault_of_record(alloc: Global, bytes: &[u8], error: CoreError) -> Fault
    ensures { IsFaultOfRecord bytes.now error result }
{
    match fault_of(alloc, bytes, error) {
        Fault::Other(error) => match first_malformed(alloc, bytes) {
            Ok(Some(finding)) => Fault::Bytes(finding),
            Ok(None) => Fault::Other(error),
            Err(fault) => fault,
        },
        fault => fault,
    }
}

fn first_malformed(alloc: Global, bytes: &[u8]) -> Result<Option<Finding>, Fault>
    ensures { MatchResult result (λ found. IfSome found (IsFinding bytes.now))
        (λ fault. fault ≡ Fault.OutOfMemory) }
{
    match check_bytes(alloc, bytes) {
        Ok(findings) => Ok(malformed_in(findings.as_slice())),
        Err(_) => Err(Fault::OutOfMemory),
    }
}

fn malformed_in(findings: &[Finding]) -> Option<Finding>
    ensures { IfSome result (Contains findings.now) }
{
    let malformed = findings.iter().find(|finding: &&Finding| -> bool {
        matches!(finding, Finding::Malformed(_, _))
    });
    malformed.copied()
}

fn first_finding(alloc: Global, bytes: &[u8]) -> Result<Option<Finding>, Fault>
    ensures { MatchResult result
        (λ found. MatchOption found ((f : Finding) → IsFinding bytes.now f → ¬ MayBeCause f)
        (λ f. IsFinding bytes.now f × MayBeCause f))
        (λ fault. fault ≡ Fault.OutOfMemory) }
{
    match check_bytes(alloc, bytes) {
        Ok(findings) => Ok(cause_in(findings.as_slice())),
        Err(_) => Err(Fault::OutOfMemory),
    }
}

fn cause_in(findings: &[Finding]) -> Option<Finding>
    ensures { MatchOption result (All (λ f. ¬ MayBeCause f) findings.now)
        (λ f. Contains findings.now f × MayBeCause f) }
{
    let cause = findings.iter().find(
        |finding: &&Finding| -> bool
            ensures { IsTrue result ↔ MayBeCause finding.now.now }
        { may_be_cause(finding) },
    );
    cause.copied()
}

// Calls pass over records that no shard may have, and over the order of rows.
fn may_be_cause(finding: &Finding) -> bool
    ensures { IsTrue result ↔ MayBeCause finding.now }
{
    match finding {
        Finding::Malformed(_, _) | Finding::Reordered => false,
        _ => true,
    }
}

/// The first finding that prevents unions and differences, or `None`: the sections can't be read,
/// or hashes do not ascend.
pub fn first_blocking_finding(alloc: Global, bytes: &[u8]) -> Result<Option<Finding>, Fault>
    ensures { MatchResult result
        (λ found. MatchOption found ((f : Finding) → ¬ IsBlocking bytes.now f)
        (IsBlocking bytes.now))
        (λ fault. fault ≡ Fault.OutOfMemory) }
{
    match check_bytes(alloc, bytes) {
        Ok(findings) => Ok(blocking_finding(findings.as_slice())),
        Err(_) => Err(Fault::OutOfMemory),
    }
}

fn blocking_finding(findings: &[Finding]) -> Option<Finding>
    ensures { MatchOption result (All (λ f. ¬ KeepsFrom f) findings.now)
        (λ f. Contains findings.now f × KeepsFrom f) }
{
    let blocking = findings.iter().find(
        |finding: &&Finding| -> bool
            ensures { IsTrue result ↔ KeepsFrom finding.now.now }
        { keeps_from(finding) },
    );
    blocking.copied()
}

// Other parts, another size and what calls pass over do not.
fn keeps_from(finding: &Finding) -> bool
    ensures { IsTrue result ↔ KeepsFrom finding.now }
{
    match finding {
        Finding::Differs(_) | Finding::Size(_) => false,
        Finding::Malformed(_, _) | Finding::Reordered => false,
        _ => true,
    }
}

/// Whether the footer, by which unions and differences find sections, is not the one that the
/// records give.
pub fn has_wrong_footer(alloc: Global, bytes: &[u8]) -> Result<bool, Fault>
    ensures { MatchResult result
        (λ wrong. IsTrue wrong ↔ IsFinding bytes.now (Finding.Differs Part.Footer))
        (λ fault. fault ≡ Fault.OutOfMemory) }
{
    match check_bytes(alloc, bytes) {
        Ok(findings) => Ok(
            findings
                .as_slice()
                .contains(&Finding::Differs(Part::Footer)),
        ),
        Err(_) => Err(Fault::OutOfMemory),
    }
}

/// Why an export failed. For refused arguments: `HasKey`, else `LateExpiry`, else `HasAuxRow`; else
/// as [`fault_of`].
pub fn export_fault(alloc: Global, bytes: &[u8], export: &Export, error: CoreError) -> Fault
    ensures { IsExportFault export.entry.now bytes.now error result }
{
    match error {
        CoreError::InvalidArguments => export_argument_fault(alloc, bytes, export),
        error => fault_of(alloc, bytes, error),
    }
}

fn export_argument_fault(alloc: Global, bytes: &[u8], export: &Export) -> Fault
    ensures { IsExportFault export.entry.now bytes.now CoreError.InvalidArguments result }
{
    match load_bytes(alloc, bytes) {
        Ok(info) if info.chunk_hashes_protected() => Fault::HasKey,
        Ok(_) if u64::MAX - export.now < export.valid_seconds => Fault::LateExpiry,
        Ok(_) => Fault::HasAuxRow,
        // They were loaded before.
        Err(_) => Fault::OutOfMemory,
    }
}

/// Why a minimal shard failed: `NoVerification` if rows to keep are lacking, `HasAuxRow` for
/// refused arguments, else as [`fault_of`].
pub fn minimal_fault(alloc: Global, bytes: &[u8], kept: KeptParts, error: CoreError) -> Fault
    ensures { IsMinimalFault kept bytes.now error result }
{
    if kept.verification && lacks_verification(&error) {
        return Fault::NoVerification;
    }
    match error {
        CoreError::InvalidArguments => Fault::HasAuxRow,
        error => fault_of(alloc, bytes, error),
    }
}

fn lacks_verification(error: &CoreError) -> bool
    ensures { IsTrue result ↔ IsIoOther error.now }
{
    match error {
        CoreError::Io(error) => error.kind() == io::ErrorKind::Other,
        _ => false,
    }
}
