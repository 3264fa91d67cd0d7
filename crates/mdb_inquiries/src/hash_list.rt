//! Hashes that a file or standard input lists.

use mdb_base::failure::{Failure, Subject};
use mdb_base::request::{HashList, MakeCommand, Request};
use mdb_base::words::is_among;
use mdb_files::files::read;
use mdb_report::fault::Fault;
use mdb_report::inquiry::Inquiry;
use shard_bytes::minimal::KeptXorbs;
use std::rt::Files;
use xet_core_structures::merklehash::MerkleHash;

/// Adds the hashes of the list that a request names, if any, to its own. `NoText` if the list's
/// name is among `unreadable`; `NoHash` for a line that is none.
pub fn add_listed<'a, R: Files + Input + AllocGlobal>(
    rt: &R,
    request: &mut Request<'a>,
    unreadable: &[String],
) -> Result<(), Failure<'a>> {
    let Some(list) = list_of(request) else {
        return Ok(());
    };
    if is_among(unreadable, list.path) {
        return Err(Failure::on_file(list.path, Fault::NoText));
    }
    match request {
        Request::Inspect(_, inquiry, _) => add_to_inquiry(rt, list, inquiry),
        Request::Make(MakeCommand::Drop(removal), _) => add_from(rt, list, &mut removal.hashes),
        Request::Make(MakeCommand::Subset(_, subset, _, _), _) => {
            add_to_kept(rt, list, &mut subset.kept)
        }
        _ => Ok(()),
    }
}

fn list_of<'a>(request: &Request<'a>) -> Option<HashList<'a>> {
    match request {
        Request::Inspect(sources, _, _) => sources.hashes,
        Request::Make(MakeCommand::Drop(removal), _) => removal.list,
        Request::Make(MakeCommand::Subset(_, _, list, _), _) => *list,
        _ => None,
    }
}

fn add_to_inquiry<'a, R: Files + Input + AllocGlobal>(
    rt: &R,
    list: HashList<'a>,
    inquiry: &mut Inquiry,
) -> Result<(), Failure<'a>> {
    match inquiry {
        Inquiry::Find { hashes, .. } => add_from(rt, list, hashes),
        Inquiry::FindXorbs { hashes } => add_from(rt, list, hashes),
        Inquiry::Query { hashes } => add_from(rt, list, hashes),
        _ => Ok(()),
    }
}

// Of all xorbs, only those in the list are kept.
fn add_to_kept<'a, R: Files + Input + AllocGlobal>(
    rt: &R,
    list: HashList<'a>,
    kept: &mut KeptXorbs,
) -> Result<(), Failure<'a>> {
    if let KeptXorbs::All = kept {
        *kept = KeptXorbs::Listed(Vec::new(rt.alloc()));
    }
    match kept {
        KeptXorbs::Listed(hashes) => add_from(rt, list, hashes),
        KeptXorbs::All => Ok(()),
    }
}

// Empty lines are passed over.
fn add_from<'a, R: Files + Input + AllocGlobal>(
    rt: &R,
    list: HashList<'a>,
    hashes: &mut Vec<MerkleHash>,
) -> Result<(), Failure<'a>> {
    let bytes = match read(rt, list.path) {
        Ok(bytes) => bytes,
        Err(error) => return Err(Failure::on_file(list.path, Fault::from(error))),
    };
    let end = list.end;
    let mut number: u64 = 0;
    for line in bytes.as_slice().split(|byte| *byte == end) {
        number = number.saturating_add(1);
        if line.is_empty() {
            continue;
        }
        match hash_in(line) {
            Some(hash) => Subject::File(list.path).in_memory(hashes.push(hash))?,
            None => return Err(Failure::on_file(list.path, Fault::NoHash(number))),
        }
    }
    Ok(())
}

fn hash_in(line: &[u8]) -> Option<MerkleHash> {
    let Ok(text) = str::from_utf8(line) else {
        return None;
    };
    MerkleHash::from_hex(text).ok()
}
