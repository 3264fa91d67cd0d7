//! Merging shards with only parts in memory: each round reads the next records of each, and merges
//! those up to the least of their last hashes. Rows of tables wait in a second file.

ghost use Rattle.std.specs.Prelude.{◌≡◌, map, IfOk};

mod findings;
mod merged_parts;

use crate::by_key::{distinct_keys, path_under, values_under};
use crate::merge::report_size;
use mdb_assembly::assembly::Assembly;
use mdb_base::expiry::report_expired;
use mdb_base::failure::{Failure, Subject};
use mdb_base::host::Host;
use mdb_base::input_failure::failure_in_files;
use mdb_base::outputs::report_leftovers;
use mdb_base::progress::{Progress, Stage};
use mdb_base::request::Merge;
use mdb_base::shard_file::{RoundFault, ShardFile, ends_of};
use mdb_files::files::{Place, STANDARD_STREAM, is_worth_reading, place_at, rename_over};
use mdb_files::new_file::{NewFile, create_beside, create_private};
use mdb_records::line::Style;
use mdb_report::fault::{Fault, fault_of};
use merged_parts::merge_parts;
use shard_bytes::load::load_bytes;
use std::alloc::{AllocError, AllocFailed, Global};
use std::fs::OpenFile;
use std::random::RandomSource;
use std::rt::Files;
use std::{fs, io};
use xet_core_structures::error::CoreError;
use xet_core_structures::merklehash::HMACKey;

/// The least memory for a merge, in bytes.
const LEAST_MEMORY: u64 = 1 << 20;

/// Writes the merge of shards to the target in about `memory` bytes, but at least 1 MiB; with
/// `by_key` one for each key, in the folder at its path.
pub fn merge_in_rounds<'a, R: Host>(
    rt: &R,
    files: &[&'a str],
    merge: Merge<'a>,
    memory: u64,
    progress: &mut Progress,
) -> Result<(), Failure<'a>> {
    let memory = memory.max(LEAST_MEMORY);
    let shards = open_all(rt, files, merge, progress)?;
    let shards = shards.as_slice();
    if !merge.by_key {
        return write_merge(rt, shards, merge, merge.target.path, memory, progress);
    }
    let alloc = rt.alloc();
    let keys = Subject::of_all(files).in_memory(keys_of(alloc, shards))?;
    let distinct = Subject::of_all(files).in_memory(distinct_keys(alloc, keys.as_slice()))?;
    for key in &distinct {
        write_under(rt, shards, keys.as_slice(), key, merge, memory, progress)?;
    }
    Ok(())
}

fn write_under<'a, R: Host>(
    rt: &R,
    shards: &[ShardFile<'a>],
    keys: &[HMACKey],
    key: &HMACKey,
    merge: Merge<'a>,
    memory: u64,
    progress: &mut Progress,
) -> Result<(), Failure<'a>> {
    let folder = merge.target.path;
    let named = Subject::File(folder);
    let under = named.in_memory(values_under(rt.alloc(), shards, keys, key))?;
    let path = named.in_memory(path_under(rt.alloc(), folder, key))?;
    write_merge(rt, under.as_slice(), merge, path.as_str(), memory, progress)
}

fn keys_of(alloc: Global, shards: &[ShardFile<'_>]) -> Result<Vec<HMACKey>, AllocError>
    ensures { IfOk result
        (λ keys. keys.items ≡ map (λ s. s.info.metadata.chunk_hash_hmac_key) shards.now) }
{
    let mut keys = Vec::new(alloc);
    for shard in shards {
        keys.push(shard.key())?;
    }
    Ok(keys)
}

fn open_all<'a, R: Host>(
    rt: &R,
    files: &[&'a str],
    merge: Merge<'a>,
    progress: &mut Progress,
) -> Result<Vec<ShardFile<'a>>, Failure<'a>> {
    let alloc = rt.alloc();
    let mut opened = Vec::new(alloc);
    let mut first_failure = None;
    for (read, file) in files.iter().enumerate() {
        let all = files.len();
        progress.show_after_pause(rt, Stage::Reading { read, all });
        let (stamp, ends) = ends_of(rt, file)?;
        if merge.verbose && is_worth_reading(alloc, ends.as_slice()) {
            report_size(rt, file, stamp.size);
        }
        match load_bytes(alloc, ends.as_slice()) {
            Ok(info) => {
                report_expired(rt, Style::Text, file, &info, merge.now, progress);
                Subject::of_all(files).in_memory(opened.push(ShardFile::new(file, info, stamp)))?;
            }
            Err(error) if first_failure.is_none() => {
                let fault = fault_of(alloc, ends.as_slice(), error);
                first_failure = Some(Failure::on_file(file, fault));
            }
            Err(_) => {}
        }
    }
    match first_failure {
        // A file before it may have a section that can't be read, which is reported first.
        Some(first_failure) if !merge.by_key => Err(failure_in_files(rt, files).unwrap_or(
            first_failure,
        )),
        Some(first_failure) => Err(first_failure),
        None => Ok(opened),
    }
}

// The merge is written to a new file beside the path, which is renamed over it.
fn write_merge<'a, R: Host>(
    rt: &R,
    shards: &[ShardFile<'a>],
    merge: Merge<'a>,
    path: &str,
    memory: u64,
    progress: &mut Progress,
) -> Result<(), Failure<'a>> {
    let alloc = rt.alloc();
    let named = merge.target.path;
    if path == STANDARD_STREAM {
        return Err(Failure::on_target(named, Fault::NoPlace));
    }
    let (target, replaced) = match place_at(rt, alloc, path) {
        Ok(Place::File { target, replaced }) => (target, replaced),
        Ok(Place::Other) => return Err(Failure::on_target(named, Fault::NoPlace)),
        Err(error) => return Err(Failure::on_target(named, Fault::from(error))),
    };
    let target = target.as_str();
    let NewFile { file, path: beside } = match create_beside(rt, alloc, target, replaced.as_ref()) {
        Ok(new) => new,
        Err(error) => return Err(Failure::on_target(named, Fault::from(error))),
    };
    let made = fill(rt, shards, merge, target, file, memory, progress);
    let done = match made {
        Ok(()) => match rename_over(rt, beside.as_str(), target) {
            Ok(()) => Ok(()),
            Err(error) => Err(Failure::on_target(named, Fault::from(error))),
        },
        Err(failure) => {
            let _ = fs::remove_file(rt, beside.as_str());
            Err(failure)
        }
    };
    report_leftovers(rt, path);
    done
}

fn fill<'a, R: Host>(
    rt: &R,
    shards: &[ShardFile<'a>],
    merge: Merge<'a>,
    target: &str,
    output: R::File,
    memory: u64,
    progress: &mut Progress,
) -> Result<(), Failure<'a>> {
    let named = merge.target.path;
    let tables = match unlinked_file(rt, target) {
        Ok(tables) => tables,
        Err(error) => return Err(Failure::on_target(named, Fault::from(error))),
    };
    let assembly = Assembly::new(rt.alloc(), output, tables);
    let written = merge_parts(rt, shards, merge, memory, assembly, progress)?;
    match written.sync_all() {
        Ok(()) => Ok(()),
        Err(error) => Err(Failure::on_target(named, Fault::from(error))),
    }
}

// Its name is removed at once, so that nothing is left of it.
fn unlinked_file<R: Files + RandomSource + AllocGlobal>(
    rt: &R,
    target: &str,
) -> io::Result<R::File> {
    let NewFile { file, path } = create_private(rt, rt.alloc(), target)?;
    fs::remove_file(rt, path.as_str())?;
    Ok(file)
}
