//! The command that writes an overview of shards.

use crate::inputs::{InputFailure, Inputs};
use crate::sections::{TakesFiles, TakesXorbs, read_files, read_xorbs};
use mdb_base::failure::{Failure, Subject};
use mdb_base::host::Host;
use mdb_base::outputs::put;
use mdb_base::progress::{Progress, Stage};
use mdb_base::request::{OverviewOptions, Sources};
use mdb_base::shard_file::ShardFile;
use mdb_base::status::{Status, report_failure};
use mdb_base::terminals::Terminals;
use mdb_overview::overview::Overview;
use mdb_overview::page::page_of;
use mdb_overview::sharing::ChunkHashes;
use mdb_records::line::Style;
use mdb_report::brief::Brief;
use std::alloc::AllocError;
use std::rt::{Clock, Files};
use xet_core_structures::file_structs::MDBFileInfo;
use xet_core_structures::merklehash::MerkleHash;
use xet_core_structures::rows::ROW_SIZE;
use xet_core_structures::xorb_structs::MDBXorbInfo;

/// About the bytes kept for a chunk.
const ITEM_SIZE: u64 = 192;

#[derive(Drop)]
struct BriefShard<'a> {
    file: ShardFile<'a>,
    brief: Brief<'a>,
}

/// What was read of a shard's xorbs.
#[derive(Drop)]
struct Xorbs {
    part: HashPart,
    xorbs: u64,
    chunks: u64,
    /// The hashes of the part's chunks.
    hashes: Vec<MerkleHash>,
}

/// The hashes whose first words are `rest` modulo `parts`.
#[derive(Clone, Copy)]
struct HashPart {
    rest: u64,
    parts: u64,
}

/// Writes an overview of shards. What can't be read is reported on standard error and in the page.
/// Shows progress if standard error is a terminal.
pub fn report<'a, R: Host>(
    rt: &R,
    inputs: &'a Inputs,
    sources: &Sources<'a>,
    reporting: OverviewOptions<'a>,
    terminals: Terminals,
) -> Status {
    let mut progress = Progress::new(rt, terminals.error && !reporting.quiet);
    let written = write_page(rt, inputs, sources, reporting, &mut progress);
    progress.clear(rt);
    match written {
        Ok(status) => status,
        // Nobody reads the page.
        Err(failure) if failure.is_closed_pipe() => Status::Failed,
        Err(failure) => report_failure(rt, Style::Text, &failure),
    }
}

fn write_page<'a, R: Host>(
    rt: &R,
    inputs: &'a Inputs,
    sources: &Sources<'a>,
    reporting: OverviewOptions<'a>,
    progress: &mut Progress,
) -> Result<Status, Failure<'a>> {
    let alloc = rt.alloc();
    let mut named = Subject::CommandLine.in_memory(Vec::from_slice(
        alloc,
        sources.words.as_slice(),
    ))?;
    if let Some(list) = sources.list {
        Subject::CommandLine.in_memory(named.push(list))?;
    }
    let mut overview = Overview::new(alloc, named, reporting.now);
    for failure in &inputs.failures {
        let InputFailure { path, reason } = failure;
        Subject::CommandLine.in_memory(overview.add_failure(alloc, path, reason))?;
    }
    let opened = open_all(rt, inputs, &mut overview)?;
    let parts = parts_of(opened.as_slice(), reporting.memory);
    let files = read_all(rt, opened, &mut overview, parts, progress)?;
    for rest in 1..parts {
        let part = HashPart { rest, parts };
        read_part(rt, files.as_slice(), &mut overview, part, progress)?;
    }
    Subject::CommandLine.in_memory(overview.sort())?;
    overview.failures.sort_unstable();
    let page = Subject::CommandLine.in_memory(page_of(alloc, &overview))?;
    put(rt, reporting.output, page.as_bytes())?;
    if overview.failures.is_empty() {
        Ok(Status::Done)
    } else {
        Ok(Status::Failed)
    }
}

fn leave_out<'a, R: Eprint + AllocGlobal>(
    rt: &R,
    overview: &mut Overview<'a>,
    failure: Failure<'a>,
) -> Result<(), Failure<'a>> {
    let _ = report_failure(rt, Style::Text, &failure);
    let Failure { subject, fault } = failure;
    Subject::CommandLine.in_memory(overview.add_failure(rt.alloc(), &subject, &fault))
}

fn open_all<'a, R: Files + Eprint + AllocGlobal>(
    rt: &R,
    inputs: &'a Inputs,
    overview: &mut Overview<'a>,
) -> Result<Vec<BriefShard<'a>>, Failure<'a>> {
    let mut opened = Vec::new(rt.alloc());
    for path in &inputs.paths {
        match open_shard(rt, path.as_str()) {
            Ok(shard) => Subject::CommandLine.in_memory(opened.push(shard))?,
            Err(failure) => leave_out(rt, overview, failure)?,
        }
    }
    Ok(opened)
}

fn open_shard<'a, R: Files + AllocGlobal>(
    rt: &R,
    path: &'a str,
) -> Result<BriefShard<'a>, Failure<'a>> {
    let file = ShardFile::open(rt, path)?;
    let brief = Subject::CommandLine.in_memory(Brief::of_info(
        rt.alloc(),
        path,
        &file.info,
        file.size(),
    ))?;
    Ok(BriefShard { file, brief })
}

// How many parts of the hashes there are, so that each takes about `memory` bytes.
fn parts_of(opened: &[BriefShard<'_>], memory: u64) -> u64 {
    let mut bytes: u64 = 0;
    for shard in opened {
        bytes = bytes.saturating_add(shard.brief.bytes);
    }
    let chunks = bytes / ROW_SIZE as u64;
    chunks
        .checked_div(memory / ITEM_SIZE)
        .unwrap_or(chunks)
        .saturating_add(1)
}

// Reads all records, counts the hashes of the first part, and returns the shards that could be
// read.
fn read_all<'a, R: Files + Clock + Eprint + AllocGlobal>(
    rt: &R,
    opened: Vec<BriefShard<'a>>,
    overview: &mut Overview<'a>,
    parts: u64,
    progress: &mut Progress,
) -> Result<Vec<ShardFile<'a>>, Failure<'a>> {
    let alloc = rt.alloc();
    let mut files = Vec::new(alloc);
    let mut hashes = ChunkHashes::new(alloc);
    let all = opened.len();
    for (read, shard) in opened.into_iter().enumerate() {
        progress.show_after_pause(rt, Stage::Reading { read, all });
        let BriefShard { file, mut brief } = shard;
        match read_records(rt, &file, &mut brief, HashPart { rest: 0, parts }) {
            Ok(found) => {
                Subject::CommandLine.in_memory(hashes.add_shard(alloc, found.as_slice()))?;
                Subject::CommandLine.in_memory(overview.shards.push(brief))?;
                Subject::CommandLine.in_memory(files.push(file))?;
            }
            Err(failure) => {
                progress.clear(rt);
                leave_out(rt, overview, failure)?;
            }
        }
    }
    Subject::CommandLine.in_memory(hashes.count(&mut overview.sharing))?;
    Ok(files)
}

// Counts xorbs, chunks and, if the table does not say how many there are, files; returns the part's
// hashes.
fn read_records<'a, R: Files + AllocGlobal>(
    rt: &R,
    file: &ShardFile<'a>,
    brief: &mut Brief<'a>,
    part: HashPart,
) -> Result<Vec<MerkleHash>, Failure<'a>> {
    let found = xorbs_of(rt, file, part)?;
    brief.xorbs = Some(found.xorbs);
    brief.chunks = Some(found.chunks);
    if brief.files.is_none() {
        let mut counted = FileCount(0);
        read_files(rt, file, &mut counted)?;
        brief.files = Some(counted.0);
    }
    Ok(found.hashes)
}

#[derive(Clone, Copy)]
struct FileCount(u64);

impl TakesFiles for FileCount {
    fn take_file(&mut self, _file: &MDBFileInfo) -> Result<(), AllocError> {
        self.0 = self.0.saturating_add(1);
        Ok(())
    }
}

fn read_part<'a, R: Files + Clock + Eprint + AllocGlobal>(
    rt: &R,
    files: &[ShardFile<'a>],
    overview: &mut Overview<'a>,
    part: HashPart,
    progress: &mut Progress,
) -> Result<(), Failure<'a>> {
    let alloc = rt.alloc();
    let mut hashes = ChunkHashes::new(alloc);
    let all = files.len();
    for (read, file) in files.iter().enumerate() {
        progress.show_after_pause(rt, Stage::Reading { read, all });
        let found = xorbs_of(rt, file, part)?;
        Subject::CommandLine.in_memory(hashes.add_shard(alloc, found.hashes.as_slice()))?;
    }
    Subject::CommandLine.in_memory(hashes.count(&mut overview.sharing))
}

fn xorbs_of<'a, R: Files + AllocGlobal>(
    rt: &R,
    file: &ShardFile<'a>,
    part: HashPart,
) -> Result<Xorbs, Failure<'a>> {
    let mut found = Xorbs {
        part,
        xorbs: 0,
        chunks: 0,
        hashes: Vec::new(rt.alloc()),
    };
    read_xorbs(rt, file, &mut found)?;
    Ok(found)
}

impl TakesXorbs for Xorbs {
    fn take_xorb(&mut self, xorb: &MDBXorbInfo) -> Result<(), AllocError> {
        let HashPart { rest, parts } = self.part;
        let chunks = xorb.chunks.as_slice();
        self.xorbs = self.xorbs.saturating_add(1);
        self.chunks = self.chunks.saturating_add(chunks.len() as u64);
        for chunk in chunks {
            if chunk.chunk_hash[0].checked_rem(parts) == Some(rest) {
                self.hashes.push(chunk.chunk_hash)?;
            }
        }
        Ok(())
    }
}
