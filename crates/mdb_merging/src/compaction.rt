//! Merging shards in groups up to a size; the name of each merge is its hash.

use crate::input_removal::{HashedFile, ReadInput, remove_inputs};
use crate::merge::{contents_of_all, merge_with_expiry};
use mdb_base::failure::{Failure, Subject};
use mdb_base::host::Host;
use mdb_base::outputs::{path_in, put};
use mdb_base::progress::{Progress, Stage};
use mdb_base::request::{Compaction, Merge};
use mdb_base::shard_file::ShardFile;
use mdb_files::files::{Contents, read_to_end, sync_folder};
use mdb_files::new_file::remove_leftovers;
use mdb_files::stamp::FileId;
use mdb_records::shown::ShownText;
use mdb_report::fault::Fault;
use std::alloc::{AllocError, Global};
use std::fs::OpenFile;
use std::rt::Files;
use std::{fs, io};
use xet_core_structures::error::Result as ShardResult;
use xet_core_structures::merklehash::{HMACKey, MerkleHash, keyed_hash};
use xet_core_structures::utils::shard_file_name;

/// Shards under one key, and their bytes together.
#[derive(Drop)]
struct Group<'a> {
    key: HMACKey,
    bytes: u64,
    files: Vec<&'a str>,
}

/// Merges shards in groups, in their order, each of one key and at most `max_size` bytes; a larger
/// shard is a group of its own. Each merge is written to the target's folder, by the hash of its
/// bytes, and its path is printed. After a failure the merges before it stay. Inputs are removed,
/// if they are to be, only once the device has all merges.
pub fn merge_groups<'a, R: Host>(
    rt: &R,
    files: &[&'a str],
    merge: Merge<'a>,
    compaction: Compaction,
    progress: &mut Progress,
) -> Result<(), Failure<'a>> {
    // This run has the lock of the folder.
    remove_leftovers(rt, merge.target.path);
    let groups = groups_of(rt, files, compaction.max_size)?;
    let mut inputs = Vec::new(rt.alloc());
    let mut results = Vec::new(rt.alloc());
    for group in &groups {
        let shards = group.files.as_slice();
        let result = write_group(rt, shards, merge, compaction, &mut inputs, progress)?;
        Subject::of_all(files).in_memory(results.push(result))?;
    }
    if !compaction.remove_inputs {
        return Ok(());
    }
    let folder = merge.target.path;
    if let Err(error) = sync_folder(rt, folder) {
        return Err(Failure::on_file(folder, Fault::from(error)));
    }
    remove_inputs(
        rt,
        inputs.as_slice(),
        results.as_slice(),
        compaction.hash_key,
    )
}

fn groups_of<'a, R: Files + AllocGlobal>(
    rt: &R,
    files: &[&'a str],
    max_size: u64,
) -> Result<Vec<Group<'a>>, Failure<'a>> {
    let alloc = rt.alloc();
    let mut groups: Vec<Group<'a>> = Vec::new(alloc);
    for file in files {
        let shard = ShardFile::open(rt, file)?;
        Subject::of_all(files).in_memory(add_to_group(alloc, &mut groups, max_size, &shard))?;
    }
    Ok(groups)
}

// Adds a shard to the last group under its key, or begins one if that would be too large.
fn add_to_group<'a>(
    alloc: Global,
    groups: &mut Vec<Group<'a>>,
    max_size: u64,
    shard: &ShardFile<'a>,
) -> Result<(), AllocError> {
    for group in groups.as_mut_slice().iter_mut().rev() {
        if group.key != shard.key() {
            continue;
        }
        let bytes = group.bytes.saturating_add(shard.size());
        if bytes > max_size {
            break;
        }
        group.files.push(shard.path)?;
        group.bytes = bytes;
        return Ok(());
    }
    let mut files = Vec::new(alloc);
    files.push(shard.path)?;
    groups.push(Group {
        key: shard.key(),
        bytes: shard.size(),
        files,
    })?;
    Ok(())
}

// Adds what was read to the inputs, if they are to be removed.
fn write_group<'a, R: Host>(
    rt: &R,
    files: &[&'a str],
    merge: Merge<'a>,
    compaction: Compaction,
    inputs: &mut Vec<ReadInput<'a>>,
    progress: &mut Progress,
) -> Result<FileId, Failure<'a>> {
    let contents = contents_of_all(rt, files, merge, progress)?;
    let shards: Result<Vec<&[u8]>, AllocError> = contents
        .as_slice()
        .iter()
        .map(|contents| contents.bytes.as_slice())
        .collect(rt.alloc());
    let shards = Subject::of_all(files).in_memory(shards)?;
    progress.show(rt, Stage::Merging(files.len()));
    let bytes = merge_with_expiry(rt, files, shards.as_slice(), merge, progress)?;
    if compaction.remove_inputs {
        note_inputs(files, contents.as_slice(), compaction.hash_key, inputs)?;
    }
    put_by_hash(rt, merge.target.path, compaction.hash_key, bytes.as_slice())
}

fn note_inputs<'a>(
    files: &[&'a str],
    contents: &[Contents],
    hash_key: HMACKey,
    inputs: &mut Vec<ReadInput<'a>>,
) -> Result<(), Failure<'a>> {
    for (file, contents) in files.iter().zip(contents) {
        let Some(stamp) = contents.stamp else {
            return Err(Failure::on_file(file, Fault::NoParts));
        };
        let seen = HashedFile {
            stamp,
            hash: keyed_hash(hash_key, contents.bytes.as_slice()),
        };
        Subject::File(file).in_memory(inputs.push(ReadInput { path: *file, seen }))?;
    }
    Ok(())
}

// Writes a shard to a folder, by the hash of its bytes, and prints its path.
fn put_by_hash<'a, R: Host>(
    rt: &R,
    folder: &'a str,
    hash_key: HMACKey,
    bytes: &[u8],
) -> Result<FileId, Failure<'a>> {
    let hash = keyed_hash(hash_key, bytes);
    let path = Subject::File(folder).in_memory(path_of_hash(rt.alloc(), folder, &hash))?;
    let path = path.as_str();
    if fs::symlink_metadata(rt, path).is_err() {
        if let Err(failure) = put(rt, path, bytes) {
            return Err(Failure::on_file(folder, failure.fault));
        }
    }
    let id = match id_of_synced(rt, path, bytes) {
        Ok(Some(id)) => id,
        Ok(None) => return Err(Failure::on_file(folder, Fault::OtherBytes(hash))),
        Err(error) => return Err(Failure::on_file(folder, Fault::from(error))),
    };
    match rt.println(ShownText(path)) {
        Ok(()) => Ok(id),
        Err(error) => Err(Failure::on_output(Fault::from(error))),
    }
}

fn path_of_hash(alloc: Global, folder: &str, hash: &MerkleHash) -> ShardResult<String> {
    let name = shard_file_name(alloc, hash)?;
    Ok(path_in(alloc, folder, name.as_str())?)
}

// Asked before a file is opened, since opening a pipe waits. `false` for a link that leads nowhere.
fn is_regular<R: Files>(rt: &R, path: &str) -> io::Result<bool> {
    match fs::metadata(rt, path) {
        Ok(there) => Ok(there.is_file()),
        Err(_) if fs::symlink_metadata(rt, path).is_ok() => Ok(false),
        Err(error) => Err(error),
    }
}

// `None` if the file has other bytes.
fn id_of_synced<R: Files + AllocGlobal>(
    rt: &R,
    path: &str,
    bytes: &[u8],
) -> io::Result<Option<FileId>> {
    if !is_regular(rt, path)? {
        return Ok(None);
    }
    let mut file = fs::open(rt, path)?;
    let there = file.metadata()?;
    if !there.is_file() || there.len() != bytes.len() as u64 {
        return Ok(None);
    }
    if read_to_end(rt.alloc(), &mut file)?.as_slice() != bytes {
        return Ok(None);
    }
    file.sync_all()?;
    Ok(Some(FileId::of(&there)))
}
