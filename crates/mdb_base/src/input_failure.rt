//! Why inputs can't be combined.

ghost use Rattle.std.specs.Prelude.{◌≡◌, ⊤, List, [], map, slice_get, IsTrue, MatchOption, MatchResult};
ghost use Rattle.placed_shards.specs.Content.{Content};
ghost use Rattle.placed_shards.specs.Findings.{AreOpened, FirstRefusal, HasAllDisagreements};
ghost use Rattle.placed_shards.specs.Selections.{all_records};
ghost use Rattle.mdb_base.specs.MergeOutcomes.{SaysDisagree, SaysCause};

use crate::failure::{Failure, Subject};
use crate::request::Target;
use mdb_files::files::read_shard;
use mdb_report::fault::{Fault, first_blocking_finding, has_wrong_footer};
use placed_shards::findings::{Disagreement, MalformedRecord, find_disagreements};
use placed_shards::selection::Selection;
use shard_bytes::check::{Finding, Part};
use shard_bytes::combine::{Operation, combine_bytes};
use shard_bytes::load::load_bytes;
use std::alloc::Global;
use std::rt::Files;
use xet_core_structures::error::CoreError;
use xet_core_structures::merklehash::MerkleHash;
use xet_core_structures::record_reader::FormatVersion;

/// Why a union or a difference failed: `OutOfMemory`, else the first input that can't be read, else
/// what is wrong with all together.
pub fn combine_failure<'a>(
    alloc: Global,
    files: &[&'a str],
    inputs: &[&[u8]],
    error: CoreError,
) -> Failure<'a>
    ensures { error ≡ CoreError.OutOfMemory → result.fault ≡ Fault.OutOfMemory }
{
    if error == CoreError::OutOfMemory {
        return failure_on_all(files, Fault::OutOfMemory);
    }
    for (file, bytes) in files.iter().zip(inputs) {
        match first_blocking_finding(alloc, bytes) {
            Ok(Some(finding)) => return Failure::on_file(file, Fault::Bytes(finding)),
            Ok(None) => {}
            Err(fault) => return Failure::on_file(file, fault),
        }
    }
    if error == CoreError::InvalidArguments {
        return key_failure(alloc, files, inputs);
    }
    footer_failure(alloc, files, inputs)
}

/// As [`combine_failure`], but `HasAuxRow` on the target if its version lacks a file.
pub fn combine_failure_in<'a>(
    alloc: Global,
    files: &[&'a str],
    inputs: &[&[u8]],
    target: Target<'a>,
    error: CoreError,
) -> Failure<'a>
    ensures { error ≡ CoreError.OutOfMemory → result.fault ≡ Fault.OutOfMemory }
{
    if lacks_files(alloc, inputs, target.version, &error) {
        return Failure::on_target(target.path, Fault::HasAuxRow);
    }
    combine_failure(alloc, files, inputs, error)
}

/// Whether a union or a difference failed since the version lacks a file, and not since keys
/// differ.
pub fn lacks_files(
    alloc: Global,
    inputs: &[&[u8]],
    version: FormatVersion,
    error: &CoreError,
) -> bool
    ensures version { IsTrue result → version ≡ FormatVersion.V2 }
    ensures error { IsTrue result → error.now ≡ CoreError.InvalidArguments }
{
    version == FormatVersion::V2
        && matches!(error, CoreError::InvalidArguments)
        && other_key(alloc, inputs).is_none()
}

fn key_failure<'a>(alloc: Global, files: &[&'a str], inputs: &[&[u8]]) -> Failure<'a> {
    if let (Some(first), Some(at)) = (files.first(), other_key(alloc, inputs))
        && let Some(other) = files.get(at)
    {
        return failure_of_two_keys(first, other);
    }
    failure_on_all(files, Fault::KeysDiffer)
}

// The first input under another key than the first one.
fn other_key(alloc: Global, inputs: &[&[u8]]) -> Option<usize> {
    let mut first: Option<MerkleHash> = None;
    for (at, bytes) in inputs.iter().enumerate() {
        let key = load_bytes(alloc, bytes).ok()?.metadata.chunk_hash_hmac_key;
        match first {
            None => first = Some(key),
            Some(its) if its == key => {}
            Some(_) => return Some(at),
        }
    }
    None
}

/// `KeysDiffer` on two files.
pub fn failure_of_two_keys<'a>(first: &'a str, second: &'a str) -> Failure<'a> {
    Failure {
        subject: Subject::Pair(first, second),
        fault: Fault::KeysDiffer,
    }
}

// The first input with a wrong footer, else as [`union_failure`].
fn footer_failure<'a>(alloc: Global, files: &[&'a str], inputs: &[&[u8]]) -> Failure<'a> {
    for (file, bytes) in files.iter().zip(inputs) {
        match has_wrong_footer(alloc, bytes) {
            Ok(true) => {
                return Failure::on_file(file, Fault::Bytes(Finding::Differs(Part::Footer)));
            }
            Ok(false) => {}
            Err(fault) => return Failure::on_file(file, fault),
        }
    }
    union_failure(alloc, files, inputs)
}

/// `NoUnion` on the first two inputs with a differing record and no union, else on all.
pub fn union_failure<'a>(alloc: Global, files: &[&'a str], inputs: &[&[u8]]) -> Failure<'a> {
    let Ok(found) = find_disagreements(alloc, inputs, &Selection::ALL) else {
        return failure_on_all(files, Fault::NoUnion);
    };
    let mut tried = (0, 0);
    for disagreement in &found {
        let pair = (disagreement.first, disagreement.second);
        if pair == tried {
            continue;
        }
        tried = pair;
        if let (Some(one), Some(other)) = (inputs.get(pair.0), inputs.get(pair.1))
            && combine_bytes(alloc, Operation::Union, one, other, FormatVersion::V3).is_err()
        {
            return Failure {
                subject: subject_of(files, disagreement),
                fault: Fault::NoUnion,
            };
        }
    }
    failure_on_all(files, Fault::NoUnion)
}

/// A failure on all files.
pub fn failure_on_all<'a>(files: &[&'a str], fault: Fault) -> Failure<'a>
    ensures { result.fault ≡ fault }
{
    Failure {
        subject: Subject::of_all(files),
        fault,
    }
}

/// What differs in the inputs' records, or `None` if they agree.
pub fn disagreement_failure<'a>(
    alloc: Global,
    files: &[&'a str],
    inputs: &[&[u8]],
) -> Result<Option<Failure<'a>>, Failure<'a>>
    ensures { MatchResult result
        (λ found. MatchOption found
        ((cs : List Content) × AreOpened all_records (map (λ x. x.now) inputs.now) cs
        × HasAllDisagreements cs [])
        (SaysDisagree (map (λ x. x.now) inputs.now)))
        (SaysCause (FirstRefusal all_records (λ c. ⊤) (map (λ x. x.now) inputs.now))) }
{
    let found = match find_disagreements(alloc, inputs, &Selection::ALL) {
        Ok(found) => found,
        Err(error) => return Err(combine_failure(alloc, files, inputs, error)),
    };
    let Some(first) = found.as_slice().first() else {
        return Ok(None);
    };
    Ok(Some(disagreement_under(files, first, found.len())))
}

/// The failure of files with records that differ under `count` hashes, the first of them this one.
pub fn disagreement_under<'a>(files: &[&'a str], first: &Disagreement, count: usize) -> Failure<'a>
    ensures { result.fault ≡ Fault.Disagree count first.now.record_hash }
{
    Failure {
        subject: subject_of(files, first),
        fault: Fault::Disagree(count, first.record_hash),
    }
}

/// The failure of the file with a record that no shard may have.
pub fn failure_on_malformed<'a>(files: &[&'a str], malformed: &MalformedRecord) -> Failure<'a>
    ensures fault { result.fault ≡ Fault.Malformed malformed.now.record_hash }
    ensures subject { MatchOption (slice_get files.now malformed.now.input)
        (result.subject ≡ Subject.StandardOutput) (λ file. result.subject ≡ Subject.File file) }
{
    let subject = match files.get(malformed.input) {
        Some(file) => Subject::File(file),
        None => Subject::StandardOutput,
    };
    Failure {
        subject,
        fault: Fault::Malformed(malformed.record_hash),
    }
}

/// The failure of the first file that can't be read, else of the first with a wrong footer, else
/// `None`. One file is in memory at a time.
pub fn failure_in_files<'a, R: Files + Input + AllocGlobal>(
    rt: &R,
    files: &[&'a str],
) -> Option<Failure<'a>> {
    if let Some(failure) = unreadable_file(rt, files) {
        return Some(failure);
    }
    for file in files {
        let wrong = match read_shard(rt, file) {
            Ok(contents) => has_wrong_footer(rt.alloc(), contents.bytes.as_slice()),
            Err(error) => Err(Fault::from(error)),
        };
        match wrong {
            Ok(true) => {
                let finding = Finding::Differs(Part::Footer);
                return Some(Failure::on_file(file, Fault::Bytes(finding)));
            }
            Ok(false) => {}
            Err(fault) => return Some(Failure::on_file(file, fault)),
        }
    }
    None
}

/// As [`failure_in_files`], but whatever the footers are.
pub fn unreadable_file<'a, R: Files + Input + AllocGlobal>(
    rt: &R,
    files: &[&'a str],
) -> Option<Failure<'a>> {
    for file in files {
        let outcome = match read_shard(rt, file) {
            Ok(contents) => first_blocking_finding(rt.alloc(), contents.bytes.as_slice()),
            Err(error) => Err(Fault::from(error)),
        };
        match outcome {
            Ok(Some(finding)) => return Some(Failure::on_file(file, Fault::Bytes(finding))),
            Ok(None) => {}
            Err(fault) => return Some(Failure::on_file(file, fault)),
        }
    }
    None
}

fn subject_of<'a>(files: &[&'a str], disagreement: &Disagreement) -> Subject<'a> {
    match (
        files.get(disagreement.first),
        files.get(disagreement.second),
    ) {
        (Some(first), Some(second)) => Subject::Pair(first, second),
        _ => Subject::StandardOutput,
    }
}
