//! The command that merges shards.

ghost use Rattle.std.specs.Prelude.{List, ℕ, Option, zip, map, IfOk, MatchResult};
ghost use Rattle.placed_shards.specs.MergedLists.{IsMergeOf};
ghost use Rattle.placed_shards.specs.Selections.{all_records};
ghost use Rattle.shard_bytes.specs.Versions.{IsWrittenIn};
ghost use Rattle.mdb_base.specs.Expiries.{IsNewExpiry};
ghost use Rattle.mdb_base.specs.MergeOutcomes.{UnitesTo, UnionFails, SaysNotMerged};
ghost use Rattle.mdb_base.specs.Writing.{HasExpiry};

use crate::by_key::{distinct_keys, path_under, values_under};
use crate::compaction::merge_groups;
use crate::rounds::merge_in_rounds;
use crate::skipping::without_unreadable;
use mdb_base::expiry::{new_expiry, report_expired_in, with_expiry_if_any, without_expired};
use mdb_base::failure::{Failure, Subject};
use mdb_base::host::Host;
use mdb_base::infos::{infos_of, keys_in};
use mdb_base::input_failure::{
    combine_failure_in, disagreement_failure, disagreement_under, failure_on_all,
    failure_on_malformed, lacks_files,
};
use mdb_base::outputs::{contents_of, put};
use mdb_base::progress::{Progress, Stage};
use mdb_base::request::{Merge, Strictness, Target};
use mdb_base::status::Status;
use mdb_base::terminals::Terminals;
use mdb_files::files::{Contents, STANDARD_STREAM, is_worth_reading, open_sized, read_ends};
use mdb_files::free_memory::free_memory;
use mdb_records::line::Style;
use mdb_records::shown::ShownText;
use mdb_report::fault::Fault;
use placed_shards::selection::Selection;
use placed_shards::strict::Agreed;
use shard_bytes::agree::merge_agreeing_bytes;
use shard_bytes::merge::merge_bytes;
use std::alloc::{AllocError, Global};
use std::fs;
use std::rt::Files;
use xet_core_structures::merklehash::HMACKey;

/// Writes the merge of shards to the target: with `by_key` one for each key, in the folder at its
/// path, by the key's digits; with `memory` in about so many bytes. Shows progress if standard
/// error is a terminal. `Partial` if files that can't be read were left out, else `Done`.
pub fn merge_files<'a, R: Host>(
    rt: &R,
    files: &[&'a str],
    merge: Merge<'a>,
    terminals: Terminals,
) -> Result<Status, Failure<'a>> {
    if terminals.output && merge.target.path == STANDARD_STREAM {
        return Err(Failure::on_output(Fault::Terminal));
    }
    let mut progress = Progress::new(rt, terminals.error && !merge.verbose && !merge.quiet);
    let merged = match (merge.now, merge.drops_expired) {
        (Some(now), true) => match without_expired(rt, files, now, merge.verbose) {
            Ok(remaining) => merge_readable(rt, remaining.as_slice(), merge, &mut progress),
            Err(failure) => Err(failure),
        },
        _ => merge_readable(rt, files, merge, &mut progress),
    };
    progress.clear(rt);
    merged
}

fn merge_readable<'a, R: Host>(
    rt: &R,
    files: &[&'a str],
    merge: Merge<'a>,
    progress: &mut Progress,
) -> Result<Status, Failure<'a>> {
    if !merge.skips_unreadable {
        merge_remaining(rt, files, merge, progress)?;
        return Ok(Status::Done);
    }
    let readable = without_unreadable(rt, files, progress)?;
    merge_remaining(rt, readable.as_slice(), merge, progress)?;
    if readable.len() == files.len() {
        Ok(Status::Done)
    } else {
        Ok(Status::Partial)
    }
}

fn merge_remaining<'a, R: Host>(
    rt: &R,
    files: &[&'a str],
    merge: Merge<'a>,
    progress: &mut Progress,
) -> Result<(), Failure<'a>> {
    match (merge.compaction, merge.memory) {
        // There are no groups.
        (Some(_), _) if files.is_empty() => Ok(()),
        _ if files.is_empty() => Err(Failure::on_words(Fault::NoFiles)),
        (Some(compaction), _) => merge_groups(rt, files, merge, compaction, progress),
        (None, Some(memory)) => merge_in_rounds(rt, files, merge, memory, progress),
        (None, None) => merge_in_memory(rt, files, merge, progress),
    }
}

fn merge_in_memory<'a, R: Host>(
    rt: &R,
    files: &[&'a str],
    merge: Merge<'a>,
    progress: &mut Progress,
) -> Result<(), Failure<'a>> {
    if exceed_memory(rt, files) {
        return Err(failure_on_all(files, Fault::NoRoomAtOnce));
    }
    match read_and_merge(rt, files, merge, progress) {
        Err(
            Failure {
                subject,
                fault: Fault::OutOfMemory,
            },
        ) => Err(Failure {
            subject,
            fault: Fault::NoRoomAtOnce,
        }),
        made => made,
    }
}

fn exceed_memory<R: Files + AllocGlobal>(rt: &R, files: &[&str]) -> bool {
    let room = free_memory(rt);
    // Ends, which say what is read whole, are read only if the sizes are too large.
    size_of_files(rt, files) > room && size_of_shards(rt, files) > room
}

fn size_of_files<R: Files>(rt: &R, files: &[&str]) -> u64 {
    let mut size = 0u64;
    for file in files {
        let more = match fs::metadata(rt, file) {
            Ok(there) if there.is_file() => there.len(),
            _ => 0,
        };
        size = size.saturating_add(more);
    }
    size
}

// The bytes that are read of some regular files.
fn size_of_shards<R: Files + AllocGlobal>(rt: &R, files: &[&str]) -> u64 {
    let mut size = 0u64;
    for file in files {
        size = size.saturating_add(size_at(rt, file));
    }
    size
}

// The bytes that are read of a regular file; 0 of anything else.
fn size_at<R: Files + AllocGlobal>(rt: &R, path: &str) -> u64 {
    match open_sized(rt, path) {
        Ok(Some((_, size))) => match read_ends(rt, path) {
            Ok(ends) if is_worth_reading(rt.alloc(), ends.as_slice()) => size,
            _ => 0,
        },
        _ => 0,
    }
}

fn read_and_merge<'a, R: Host>(
    rt: &R,
    files: &[&'a str],
    merge: Merge<'a>,
    progress: &mut Progress,
) -> Result<(), Failure<'a>> {
    let contents = contents_of_all(rt, files, merge, progress)?;
    progress.show(rt, Stage::Merging(files.len()));
    merge_contents(rt, files, contents.as_slice(), merge, progress)
}

fn merge_contents<'a, R: Host>(
    rt: &R,
    files: &[&'a str],
    contents: &[Contents],
    merge: Merge<'a>,
    progress: &mut Progress,
) -> Result<(), Failure<'a>> {
    let inputs: Result<Vec<&[u8]>, AllocError> = contents
        .iter()
        .map(|contents| contents.bytes.as_slice())
        .collect(rt.alloc());
    let inputs = Subject::of_all(files).in_memory(inputs)?;
    if merge.by_key {
        return merge_by_key(rt, files, inputs.as_slice(), merge, progress);
    }
    let bytes = merge_with_expiry(rt, files, inputs.as_slice(), merge, progress)?;
    put(rt, merge.target.path, bytes.as_slice())
}

/// What is read of each file, once, since pipes can't be read again.
pub fn contents_of_all<'a, R: Host>(
    rt: &R,
    files: &[&'a str],
    merge: Merge<'a>,
    progress: &mut Progress,
) -> Result<Vec<Contents>, Failure<'a>> {
    let mut all = Vec::new(rt.alloc());
    for file in files {
        let stage = Stage::Reading {
            read: all.len(),
            all: files.len(),
        };
        progress.show_after_pause(rt, stage);
        let contents = contents_of(rt, file)?;
        if merge.verbose && contents.whole {
            report_size(rt, file, contents.bytes.len() as u64);
        }
        let bytes = contents.bytes.as_slice();
        report_expired_in(rt, Style::Text, file, bytes, merge.now, progress);
        Subject::File(file).in_memory(all.push(contents))?;
    }
    Ok(all)
}

fn merge_by_key<'a, R: Host>(
    rt: &R,
    files: &[&'a str],
    inputs: &[&[u8]],
    merge: Merge<'a>,
    progress: &mut Progress,
) -> Result<(), Failure<'a>> {
    let alloc = rt.alloc();
    let infos = infos_of(alloc, files, inputs)?;
    let keys = Subject::of_all(files).in_memory(keys_in(alloc, infos.as_slice()))?;
    let distinct = Subject::of_all(files).in_memory(distinct_keys(alloc, keys.as_slice()))?;
    for key in &distinct {
        write_under(rt, files, inputs, keys.as_slice(), key, merge, progress)?;
    }
    Ok(())
}

fn write_under<'a, R: Host>(
    rt: &R,
    files: &[&'a str],
    inputs: &[&[u8]],
    keys: &[HMACKey],
    key: &HMACKey,
    merge: Merge<'a>,
    progress: &mut Progress,
) -> Result<(), Failure<'a>> {
    let alloc = rt.alloc();
    let folder = merge.target.path;
    let files_under = Subject::of_all(files).in_memory(values_under(alloc, files, keys, key))?;
    let inputs_under = Subject::of_all(files).in_memory(values_under(alloc, inputs, keys, key))?;
    let path = Subject::of_all(files).in_memory(path_under(alloc, folder, key))?;
    let bytes = merge_with_expiry(
        rt,
        files_under.as_slice(),
        inputs_under.as_slice(),
        merge,
        progress,
    )?;
    match put(rt, path.as_str(), bytes.as_slice()) {
        Ok(()) => Ok(()),
        Err(failure) => Err(Failure::on_file(folder, failure.fault)),
    }
}

/// The union of the inputs in the target's version, with the expiry if any.
pub fn merge_with_expiry<'a, R: Eprint + AllocGlobal>(
    rt: &R,
    files: &[&'a str],
    inputs: &[&[u8]],
    merge: Merge<'a>,
    progress: &mut Progress,
) -> Result<Vec<u8>, Failure<'a>>
    ensures { IfOk result (λ written. (union : List ℕ) × (expiry : Option ℕ)
        × UnitesTo merge.entry.strictness merge.entry.target.version
        (map (λ x. x.now) inputs.now) union
        × IsNewExpiry merge.entry.expiry (zip files.now inputs.now) expiry
        × HasExpiry expiry union written.items) }
{
    let bytes = unite_inputs(rt, files, inputs, merge.strictness, merge.target, progress)?;
    progress.clear(rt);
    let expiry = new_expiry(rt.alloc(), merge.expiry, files, inputs)?;
    match with_expiry_if_any(rt.alloc(), bytes, expiry) {
        Ok(bytes) => Ok(bytes),
        Err(_) => Err(failure_on_all(files, Fault::OutOfMemory)),
    }
}

// Records that differ, or that no shard may have, are a failure, even if there is no union, or are
// reported.
fn unite_inputs<'a, R: Eprint + AllocGlobal>(
    rt: &R,
    files: &[&'a str],
    inputs: &[&[u8]],
    strictness: Strictness,
    target: Target<'a>,
    progress: &mut Progress,
) -> Result<Vec<u8>, Failure<'a>>
    ensures { MatchResult result
        (λ bytes. UnitesTo strictness target.entry.version (map (λ x. x.now) inputs.now)
        bytes.items)
        (UnionFails strictness target.entry.version files.now (map (λ x. x.now) inputs.now)) }
{
    match strictness {
        Strictness::Strict => unite_agreeing(rt.alloc(), files, inputs, target),
        Strictness::Lenient => unite_leniently(rt, files, inputs, target, progress),
    }
}

fn unite_agreeing<'a>(
    alloc: Global,
    files: &[&'a str],
    inputs: &[&[u8]],
    target: Target<'a>,
) -> Result<Vec<u8>, Failure<'a>>
    ensures { MatchResult result
        (λ bytes. UnitesTo Strictness.Strict target.entry.version (map (λ x. x.now) inputs.now)
        bytes.items)
        (UnionFails Strictness.Strict target.entry.version files.now
        (map (λ x. x.now) inputs.now)) }
{
    match merge_agreeing_bytes(alloc, inputs, &Selection::ALL, target.version) {
        Ok(Agreed::Made(bytes)) => Ok(bytes),
        Ok(Agreed::Disagreements(found)) => {
            Err(disagreement_under(files, &found[0], found.len()))
        }
        Ok(Agreed::Malformed(malformed)) => Err(failure_on_malformed(files, &malformed)),
        Err(error) => Err(combine_failure_in(alloc, files, inputs, target, error)),
    }
}

// Inputs with nothing to report are read once.
fn unite_leniently<'a, R: Eprint + AllocGlobal>(
    rt: &R,
    files: &[&'a str],
    inputs: &[&[u8]],
    target: Target<'a>,
    progress: &mut Progress,
) -> Result<Vec<u8>, Failure<'a>>
    ensures { MatchResult result
        (λ bytes. IsWrittenIn target.entry.version
        (IsMergeOf all_records (map (λ x. x.now) inputs.now)) bytes.items)
        (SaysNotMerged target.entry.version (map (λ x. x.now) inputs.now)) }
{
    let alloc = rt.alloc();
    match merge_agreeing_bytes(alloc, inputs, &Selection::ALL, target.version) {
        Ok(Agreed::Made(bytes)) => Ok(bytes),
        Ok(Agreed::Disagreements(found)) => {
            let choice = Some(disagreement_under(files, &found[0], found.len()));
            unite_and_report(rt, files, inputs, target, &None, &choice, progress)
        }
        Ok(Agreed::Malformed(malformed)) => {
            let choice = disagreement_failure(alloc, files, inputs)?;
            let malformed = Some(failure_on_malformed(files, &malformed));
            unite_and_report(rt, files, inputs, target, &malformed, &choice, progress)
        }
        Err(error) => Err(combine_failure_in(alloc, files, inputs, target, error)),
    }
}

fn unite_and_report<'a, R: Eprint + AllocGlobal>(
    rt: &R,
    files: &[&'a str],
    inputs: &[&[u8]],
    target: Target<'a>,
    malformed: &Option<Failure<'a>>,
    choice: &Option<Failure<'a>>,
    progress: &mut Progress,
) -> Result<Vec<u8>, Failure<'a>>
    ensures { MatchResult result
        (λ bytes. IsWrittenIn target.entry.version
        (IsMergeOf all_records (map (λ x. x.now) inputs.now)) bytes.items)
        (SaysNotMerged target.entry.version (map (λ x. x.now) inputs.now)) }
{
    let alloc = rt.alloc();
    match merge_bytes(alloc, inputs, &Selection::ALL, target.version) {
        Ok(bytes) => {
            report_findings(rt, malformed, choice, progress);
            Ok(bytes)
        }
        Err(error) => {
            if lacks_files(alloc, inputs, target.version, &error) {
                report_findings(rt, malformed, choice, progress);
            }
            Err(combine_failure_in(alloc, files, inputs, target, error))
        }
    }
}

/// Reports a record that no shard may have, and records that differ, if any.
pub fn report_findings<R: Eprint>(
    rt: &R,
    malformed: &Option<Failure<'_>>,
    disagreement: &Option<Failure<'_>>,
    progress: &mut Progress,
) {
    progress.clear(rt);
    if let Some(malformed) = malformed {
        report_malformed(rt, malformed);
    }
    if let Some(disagreement) = disagreement {
        report_choice(rt, disagreement);
    }
}

/// Reports the size of a file.
pub fn report_size<R: Eprint>(rt: &R, file: &str, bytes: u64) {
    let file = ShownText(file);
    let _ = rt.eprintln(format_args!("{file}: {bytes} bytes"));
}

fn report_malformed<R: Eprint>(rt: &R, malformed: &Failure<'_>) {
    let _ = rt.eprintln(format_args!(
        "{malformed}; what the merge writes may depend on the order of the files"
    ));
}

fn report_choice<R: Eprint>(rt: &R, disagreement: &Failure<'_>) {
    let _ = rt.eprintln(format_args!(
        "{disagreement}; of xorbs the first is kept, of files the one with more parts, else the first with all parts"
    ));
}
