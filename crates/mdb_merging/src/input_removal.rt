//! Removing the inputs of merges.

ghost use Rattle.std.specs.Prelude.{◌↔◌, IsTrue};
ghost use Rattle.mdb_merging.specs.Removal.{MayRemove};

use mdb_base::failure::Failure;
use mdb_files::files::read_to_end;
use mdb_files::stamp::{FileId, Stamp};
use mdb_report::fault::Fault;
use std::fs::OpenFile;
use std::io::ErrorKind;
use std::rt::Files;
use std::{fs, io};
use xet_core_structures::merklehash::{HMACKey, MerkleHash, keyed_hash};

/// An input as it was read.
#[derive(Clone, Copy)]
pub struct ReadInput<'a> {
    pub path: &'a str,
    pub seen: HashedFile,
}

/// A file and its hash.
#[derive(Clone, Copy, PartialEq, Eq)]
pub struct HashedFile {
    pub stamp: Stamp,
    pub hash: MerkleHash,
}

/// Whether an input may be removed: it is as it was read, and no result.
pub fn may_remove(read: &HashedFile, now: &HashedFile, results: &[FileId]) -> bool
    ensures { IsTrue result ↔ MayRemove read.now now.now results.now }
{
    now == read && !results.contains(&now.stamp.id)
}

/// Removes the inputs that may be; others, except results, are reported and a failure. `key` is
/// that of the hashes. The device must have the results and their names.
pub fn remove_inputs<'a, R: Files + Eprint + AllocGlobal>(
    rt: &R,
    inputs: &[ReadInput<'a>],
    results: &[FileId],
    key: HMACKey,
) -> Result<(), Failure<'a>> {
    let mut last = None;
    for input in inputs {
        if let Err(fault) = remove_input(rt, input, results, key) {
            if let Some(before) = &last {
                let _ = rt.eprintln(before);
            }
            last = Some(Failure::on_file(input.path, fault));
        }
    }
    match last {
        Some(failure) => Err(failure),
        None => Ok(()),
    }
}

// Removes an input, unless it is a result; else says why it stays.
fn remove_input<R: Files + AllocGlobal>(
    rt: &R,
    input: &ReadInput<'_>,
    results: &[FileId],
    key: HMACKey,
) -> Result<(), Fault> {
    match fs::symlink_metadata(rt, input.path) {
        Ok(there) if there.is_file() => {}
        Ok(_) => return Err(Fault::StaysAsLink),
        // It was named twice.
        Err(error) if error.kind() == ErrorKind::NotFound => return Ok(()),
        Err(error) => return Err(Fault::from(error)),
    }
    let now = seen_at(rt, input.path, key)?;
    if may_remove(&input.seen, &now, results) {
        fs::remove_file(rt, input.path)?;
        Ok(())
    } else if results.contains(&now.stamp.id) {
        Ok(())
    } else {
        Err(Fault::StaysChanged)
    }
}

fn seen_at<R: Files + AllocGlobal>(rt: &R, path: &str, key: HMACKey) -> io::Result<HashedFile> {
    let mut file = fs::open(rt, path)?;
    let bytes = read_to_end(rt.alloc(), &mut file)?;
    Ok(HashedFile {
        stamp: Stamp::of(&file.metadata()?),
        hash: keyed_hash(key, bytes.as_slice()),
    })
}
