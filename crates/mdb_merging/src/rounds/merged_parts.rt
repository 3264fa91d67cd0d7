//! The rounds of a merge.

ghost use Rattle.std.specs.Prelude.{map};
ghost use Rattle.mdb_base.specs.Expiries.{shard_expiry, IsEarliest};

use crate::merge::report_findings;
use crate::rounds::findings::Findings;
use mdb_assembly::assembly::Assembly;
use mdb_assembly::block::{Block, Mark};
use mdb_assembly::equal_shares::share_of;
use mdb_base::expiry::{earlier_of, shard_expiry};
use mdb_base::failure::{Failure, Subject};
use mdb_base::host::Host;
use mdb_base::input_failure::{
    failure_in_files, failure_of_two_keys, failure_on_all, lacks_files, union_failure,
    unreadable_file,
};
use mdb_base::progress::{Progress, Stage};
use mdb_base::request::{Merge, NewExpiry, Strictness};
use mdb_base::shard_file::{Cursor, RoundFault, ShardFile};
use mdb_report::fault::Fault;
use placed_shards::selection::Selection;
use placed_shards::strict::Agreed;
use shard_bytes::agree::merge_agreeing_bytes;
use shard_bytes::check::Section;
use shard_bytes::merge::merge_bytes;
use std::alloc::{AllocError, Global};
use std::io::{Read, Seek, Write};
use std::rt::Files;
use xet_core_structures::error::CoreError;
use xet_core_structures::merklehash::MerkleHash;

/// A round reads a quarter of the memory; the union and the places of records take the rest.
const MEMORY_PARTS: u64 = 4;

/// The least bytes of a shard read in a round.
const LEAST_READ: u64 = 4096;

/// A merge of which parts are written.
#[derive(Drop)]
struct Rounds<'a, F: Read + Write + Seek + Drop> {
    files: Vec<&'a str>,
    merge: Merge<'a>,
    /// The bytes read in a round.
    room: u64,
    total_bytes: u64,
    /// The bytes of the sections after the merged one.
    later_bytes: u64,
    findings: Findings,
    /// Without, only what differs is looked for.
    has_one_key: bool,
    /// Why the merge fails at its end, if not before.
    key_failure: Option<Failure<'a>>,
    assembly: Assembly<F>,
}

/// Writes the merge of shards in about `memory` bytes, and returns its file.
pub fn merge_parts<'a, R: Host, F: Read + Write + Seek + Drop>(
    rt: &R,
    shards: &[ShardFile<'a>],
    merge: Merge<'a>,
    memory: u64,
    assembly: Assembly<F>,
    progress: &mut Progress,
) -> Result<F, Failure<'a>> {
    let alloc = rt.alloc();
    let target = Subject::of_target(merge.target.path);
    let files = target.in_memory(paths_of(alloc, shards))?;
    let mut cursors = target.in_memory(cursors_of(alloc, shards, Section::Files))?;
    let mut xorbs = target.in_memory(cursors_of(alloc, shards, Section::Xorbs))?;
    let key_failure = other_key(rt, files.as_slice(), shards, merge.strictness)?;
    let later_bytes = bytes_left(xorbs.as_slice());
    let mut rounds = Rounds {
        files,
        merge,
        room: memory / MEMORY_PARTS,
        total_bytes: bytes_left(cursors.as_slice()).saturating_add(later_bytes),
        later_bytes,
        findings: Findings::none(),
        has_one_key: key_failure.is_none(),
        key_failure,
        assembly,
    };
    rounds.merge_section(rt, Section::Files, cursors.as_mut_slice(), progress)?;
    rounds.later_bytes = 0;
    rounds.merge_section(rt, Section::Xorbs, xorbs.as_mut_slice(), progress)?;
    rounds.finish(rt, shards, memory, progress)
}

impl<'a, F: Read + Write + Seek + Drop> Rounds<'a, F> {
    fn merge_section<R: Host>(
        &mut self,
        rt: &R,
        section: Section,
        cursors: &mut [Cursor<'a>],
        progress: &mut Progress,
    ) -> Result<(), Failure<'a>> {
        for _ in 0..u64::MAX {
            self.merge_round(rt, section, cursors)?;
            if all_ended(cursors) {
                break;
            }
            let left = bytes_left(cursors).saturating_add(self.later_bytes);
            progress.show_after_pause(rt, self.stage(left));
        }
        match self.assembly.end_section() {
            Ok(()) => Ok(()),
            Err(error) => Err(self.write_failure(error)),
        }
    }

    fn stage(&self, left: u64) -> Stage {
        let done = self.total_bytes.saturating_sub(left);
        Stage::MergingParts {
            shards: self.files.len(),
            percent: share_of(done, self.total_bytes / 100).min(100),
        }
    }

    fn merge_round<R: Files + Input + Eprint + AllocGlobal>(
        &mut self,
        rt: &R,
        section: Section,
        cursors: &mut [Cursor<'a>],
    ) -> Result<(), Failure<'a>> {
        let alloc = rt.alloc();
        let parts = match next_parts(rt, cursors, self.room) {
            Ok(parts) => parts,
            Err(RoundFault::Failed(failure)) => return Err(failure),
            Err(RoundFault::Unreadable(error)) => return Err(self.read_failure(rt, &[], error)),
        };
        let inputs: Result<Vec<&[u8]>, AllocError> = parts
            .iter()
            .map(|bytes| bytes.as_slice())
            .collect(alloc);
        let inputs = Subject::of_all(self.files.as_slice()).in_memory(inputs)?;
        self.merge_inputs(rt, section, inputs.as_slice())
    }

    // Writes the union of the parts of all shards, unless the merge is known to fail.
    fn merge_inputs<R: Files + Input + AllocGlobal>(
        &mut self,
        rt: &R,
        section: Section,
        inputs: &[&[u8]],
    ) -> Result<(), Failure<'a>> {
        if self.fails() {
            return self.add_findings(rt, inputs);
        }
        match merge_agreeing_bytes(
            rt.alloc(),
            inputs,
            &Selection::ALL,
            self.merge.target.version,
        ) {
            Ok(Agreed::Made(part)) => self.write_part(section, part),
            Ok(Agreed::Disagreements(found)) => {
                self.findings.add_disagreements(found.as_slice());
                self.merge_differing(rt, section, inputs)
            }
            Ok(Agreed::Malformed(_)) => {
                self.add_findings(rt, inputs)?;
                self.merge_differing(rt, section, inputs)
            }
            Err(error) => self.merge_failure(rt, inputs, error),
        }
    }

    // Whether the merge is known to fail, so that only what differs is looked for.
    fn fails(&self) -> bool {
        let strict = matches!(self.merge.strictness, Strictness::Strict);
        !self.has_one_key || (strict && !self.findings.is_empty())
    }

    fn add_findings<R: Files + Input + AllocGlobal>(
        &mut self,
        rt: &R,
        inputs: &[&[u8]],
    ) -> Result<(), Failure<'a>> {
        match self.findings.add(rt.alloc(), inputs) {
            Ok(()) => Ok(()),
            Err(error) => Err(self.read_failure(rt, inputs, error)),
        }
    }

    // The same for parts in which something was found.
    fn merge_differing<R: Files + Input + AllocGlobal>(
        &mut self,
        rt: &R,
        section: Section,
        inputs: &[&[u8]],
    ) -> Result<(), Failure<'a>> {
        if self.fails() {
            return Ok(());
        }
        match merge_bytes(
            rt.alloc(),
            inputs,
            &Selection::ALL,
            self.merge.target.version,
        ) {
            Ok(part) => self.write_part(section, part),
            Err(error) => self.merge_failure(rt, inputs, error),
        }
    }

    // That the version lacks a file is a failure at the end, unless something fails before.
    fn merge_failure<R: Files + Input + AllocGlobal>(
        &mut self,
        rt: &R,
        inputs: &[&[u8]],
        error: CoreError,
    ) -> Result<(), Failure<'a>> {
        let target = self.merge.target;
        if lacks_files(rt.alloc(), inputs, target.version, &error) {
            self.key_failure = Some(Failure::on_target(target.path, Fault::HasAuxRow));
            return Ok(());
        }
        Err(self.read_failure(rt, inputs, error))
    }

    fn write_part(&mut self, section: Section, mut part: Vec<u8>) -> Result<(), Failure<'a>> {
        if self.key_failure.is_some() {
            return Ok(());
        }
        match self.assembly.add(section, part.as_mut_slice()) {
            Ok(()) => Ok(()),
            Err(error) => Err(self.write_failure(error)),
        }
    }

    // The failure of the first file that can't be read, or whose footer is wrong, else of the parts
    // together.
    fn read_failure<R: Files + Input + AllocGlobal>(
        &self,
        rt: &R,
        inputs: &[&[u8]],
        error: CoreError,
    ) -> Failure<'a> {
        let files = self.files.as_slice();
        if error == CoreError::OutOfMemory {
            return failure_on_all(files, Fault::OutOfMemory);
        }
        match failure_in_files(rt, files) {
            Some(failure) => failure,
            None => union_failure(rt.alloc(), files, inputs),
        }
    }

    fn write_failure(&self, error: CoreError) -> Failure<'a> {
        match error {
            CoreError::Io(error) => Failure::on_target(self.merge.target.path, Fault::from(error)),
            CoreError::OutOfMemory => failure_on_all(self.files.as_slice(), Fault::OutOfMemory),
            _ => failure_on_all(self.files.as_slice(), Fault::NoUnion),
        }
    }

    fn finish<R: Eprint>(
        self,
        rt: &R,
        shards: &[ShardFile<'a>],
        memory: u64,
        progress: &mut Progress,
    ) -> Result<F, Failure<'a>> {
        let files = self.files.as_slice();
        let malformed = self.findings.malformed_failure(files);
        let disagreement = self.findings.disagreement_failure(files);
        match (malformed, disagreement, self.merge.strictness) {
            (Some(malformed), _, Strictness::Strict) => return Err(malformed),
            (None, Some(disagreement), Strictness::Strict) => return Err(disagreement),
            (malformed, disagreement, _) => {
                report_findings(rt, &malformed, &disagreement, progress);
            }
        }
        self.write_tables(shards, memory)
    }

    fn write_tables(self, shards: &[ShardFile<'a>], memory: u64) -> Result<F, Failure<'a>> {
        let Rounds {
            files,
            merge,
            key_failure,
            assembly,
            ..
        } = self;
        if let Some(key_failure) = key_failure {
            return Err(key_failure);
        }
        let Some(first) = shards.first() else {
            return Err(Failure::on_words(Fault::NoFiles));
        };
        let expiry = match merge.expiry {
            NewExpiry::Unset => None,
            NewExpiry::At(time) => Some(time),
            NewExpiry::Earliest => earliest_of(shards),
        };
        match assembly.finish(first.key(), expiry, memory) {
            Ok(file) => Ok(file),
            Err(CoreError::OutOfMemory) => Err(failure_on_all(
                files.as_slice(),
                Fault::OutOfMemory,
            )),
            Err(CoreError::Io(error)) => {
                Err(Failure::on_target(merge.target.path, Fault::from(error)))
            }
            Err(error) => Err(Failure::on_target(merge.target.path, Fault::Other(error))),
        }
    }
}

fn earliest_of(shards: &[ShardFile<'_>]) -> Option<u64>
    ensures { IsEarliest (map (λ s. shard_expiry s.info) shards.now) result }
{
    let mut found = None;
    for shard in shards {
        found = earlier_of(found, shard_expiry(&shard.info));
    }
    found
}

// The failure of shards under different keys. Only a strict merge looks for what differs before it
// fails.
fn other_key<'a, R: Files + Input + AllocGlobal>(
    rt: &R,
    files: &[&'a str],
    shards: &[ShardFile<'a>],
    strictness: Strictness,
) -> Result<Option<Failure<'a>>, Failure<'a>> {
    let Some(first) = shards.first() else {
        return Ok(None);
    };
    for shard in shards {
        if shard.key() == first.key() {
            continue;
        }
        let failure = failure_of_two_keys(first.path, shard.path);
        return match strictness {
            Strictness::Strict => Ok(Some(failure)),
            Strictness::Lenient => Err(unreadable_file(rt, files).unwrap_or(failure)),
        };
    }
    Ok(None)
}

fn paths_of<'a>(alloc: Global, shards: &[ShardFile<'a>]) -> Result<Vec<&'a str>, AllocError> {
    let mut paths = Vec::new(alloc);
    for shard in shards {
        paths.push(shard.path)?;
    }
    Ok(paths)
}

fn cursors_of<'a>(
    alloc: Global,
    shards: &[ShardFile<'a>],
    section: Section,
) -> Result<Vec<Cursor<'a>>, AllocError> {
    let mut cursors = Vec::new(alloc);
    for shard in shards {
        cursors.push(Cursor::new(*shard, section))?;
    }
    Ok(cursors)
}

fn bytes_left(cursors: &[Cursor<'_>]) -> u64 {
    let mut left: u64 = 0;
    for cursor in cursors {
        left = left.saturating_add(cursor.bytes_left());
    }
    left
}

fn all_ended(cursors: &[Cursor<'_>]) -> bool {
    for cursor in cursors {
        if !cursor.has_ended() {
            return false;
        }
    }
    true
}

// The next records of each shard up to the least of the last hashes read, in about `room` bytes.
fn next_parts<'a, R: Files + AllocGlobal>(
    rt: &R,
    cursors: &mut [Cursor<'a>],
    room: u64,
) -> Result<Vec<Vec<u8>>, RoundFault<'a>> {
    let mut blocks = Vec::new(rt.alloc());
    // Each shard's share of the room, so that all would end in the same round.
    let rounds = share_of(bytes_left(cursors), room).saturating_add(1);
    // Of many shards some share ends early and would limit all, so each is read up to one hash, in
    // up to as much room again.
    let goal = goal_of(cursors, rounds);
    let mut extra = room;
    let mut limit = None;
    for cursor in cursors.iter() {
        let size = share_of(cursor.bytes_left(), rounds);
        let (block, mark) = cursor.read(
            rt,
            size.saturating_add(1).max(LEAST_READ),
            &goal,
            &mut extra,
        )?;
        limit = lesser_limit(limit, &mark);
        blocks.push(block)?;
    }
    let mut parts = Vec::new(rt.alloc());
    for (cursor, block) in cursors.iter_mut().zip(blocks) {
        parts.push(cursor.take(rt, block, limit)?)?;
    }
    Ok(parts)
}

// The hash that a round would reach if hashes were spread evenly.
fn goal_of(cursors: &[Cursor<'_>], rounds: u64) -> MerkleHash {
    let mut first: u64 = 0;
    for cursor in cursors {
        if let Some(last) = cursor.last() {
            first = first.max(last[0]);
        }
    }
    let word = first.saturating_add(share_of(u64::MAX - first, rounds));
    MerkleHash::from([word, 0, 0, 0])
}

// A block that ends its section sets no limit.
fn lesser_limit(limit: Option<MerkleHash>, mark: &Mark) -> Option<MerkleHash> {
    if mark.ended {
        return limit;
    }
    match (limit, mark.last) {
        (Some(limit), Some(last)) if limit <= last => Some(limit),
        (_, Some(last)) => Some(last),
        (limit, None) => limit,
    }
}
