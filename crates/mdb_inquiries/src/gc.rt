//! Finding what does not fit together in shards, with a part of their records in memory: for one
//! range of xorb hashes after another, all files and then all xorbs are read. A range with too much
//! ends earlier. Then shards are read again, to name the first that has each finding.

use crate::inputs::Inputs;
use crate::origins::Origins;
use crate::sections::{TakesFiles, TakesXorbs, read_files, read_xorbs};
use mdb_base::failure::{Failure, Subject};
use mdb_base::host::Host;
use mdb_base::progress::{Progress, Stage};
use mdb_base::request::Collection;
use mdb_base::shard_file::ShardFile;
use mdb_base::status::{Status, report_failure};
use mdb_base::terminals::Terminals;
use mdb_garbage::finding::GarbageFinding;
use mdb_garbage::garbage::Garbage;
use mdb_garbage::range::HashRange;
use mdb_garbage::segments::Segments;
use mdb_records::line::Style;
use mdb_report::fault::Fault;
use mdb_report::garbage::print_finding;
use std::alloc::AllocError;
use std::io;
use std::io::{BufWriter, Write};
use std::rt::{Clock, Files};
use xet_core_structures::file_structs::MDBFileInfo;
use xet_core_structures::merklehash::MerkleHash;
use xet_core_structures::xorb_structs::MDBXorbInfo;

/// About the bytes kept for a segment, a xorb or a finding.
const ITEM_SIZE: u64 = 256;

/// The fewest of these kept at once.
const LEAST_ITEMS: u64 = 64;

/// How often a range is halved when too much is kept.
const HALVINGS: u32 = 64;

/// Prints what does not fit together in shards, after all have been read. Shows progress if
/// standard error is a terminal.
pub fn collect_garbage<R: Host>(
    rt: &R,
    inputs: &Inputs,
    collection: Collection,
    terminals: Terminals,
) -> Status {
    if inputs.failed {
        return Status::Failed;
    }
    let mut output = match BufWriter::new(rt.alloc(), io::writer(rt)) {
        Ok(output) => output,
        Err(error) => return report_failure(
            rt,
            collection.style,
            &Failure::on_output(Fault::from(error)),
        ),
    };
    let mut progress = Progress::new(rt, terminals.error && !collection.quiet);
    let printed = print_garbage(rt, inputs, collection, &mut progress, &mut output);
    progress.clear(rt);
    let printed = match printed {
        Ok(status) => match output.flush() {
            Ok(()) => Ok(status),
            Err(error) => Err(Failure::on_output(Fault::from(error))),
        },
        Err(failure) => Err(failure),
    };
    match printed {
        Ok(status) => status,
        // Nobody reads what is found.
        Err(failure) if failure.is_closed_pipe() => Status::Found,
        Err(failure) => report_failure(rt, collection.style, &failure),
    }
}

fn print_garbage<'a, R: Files + Clock + Eprint + AllocGlobal, W: Write>(
    rt: &R,
    inputs: &'a Inputs,
    collection: Collection,
    progress: &mut Progress,
    output: &mut W,
) -> Result<Status, Failure<'a>> {
    let shards = open_all(rt, inputs)?;
    let items = (collection.memory / ITEM_SIZE).max(LEAST_ITEMS);
    let most = usize::try_from(items).unwrap_or(usize::MAX);
    let mut status = Status::Done;
    let mut from = None;
    for _ in 0..u64::MAX {
        let (found, to) = garbage_from(rt, shards.as_slice(), from, most, progress)?;
        if !found.is_empty() {
            status = status.and_found();
        }
        let style = collection.style;
        print_with_origins(
            rt,
            shards.as_slice(),
            found.as_slice(),
            style,
            progress,
            output,
        )?;
        if to.is_none() {
            break;
        }
        from = to;
    }
    Ok(status)
}

/// Reads header and footer of each shard.
pub fn open_all<'a, R: Files + AllocGlobal>(
    rt: &R,
    inputs: &'a Inputs,
) -> Result<Vec<ShardFile<'a>>, Failure<'a>> {
    let mut opened = Vec::new(rt.alloc());
    for path in &inputs.paths {
        let path = path.as_str();
        let shard = ShardFile::open(rt, path)?;
        Subject::File(path).in_memory(opened.push(shard))?;
    }
    Ok(opened)
}

// What does not fit together about hashes from one on, and where the range ends that was looked at,
// if it does.
fn garbage_from<'a, R: Files + Clock + Eprint + AllocGlobal>(
    rt: &R,
    shards: &[ShardFile<'a>],
    from: Option<MerkleHash>,
    most: usize,
    progress: &mut Progress,
) -> Result<(Vec<GarbageFinding>, Option<MerkleHash>), Failure<'a>> {
    let alloc = rt.alloc();
    let mut files = LimitedSegments {
        segments: Segments::new(alloc, HashRange { from, to: None }),
        most,
        limit: most,
    };
    let all = shards.len();
    for (read, shard) in shards.iter().enumerate() {
        progress.show_after_pause(rt, Stage::Reading { read, all });
        read_files(rt, shard, &mut files)?;
    }
    let mut xorbs = LimitedGarbage {
        garbage: Garbage::new(alloc, files.segments),
        most,
        limit: most,
    };
    for (read, shard) in shards.iter().enumerate() {
        progress.show_after_pause(rt, Stage::Reading { read, all });
        read_xorbs(rt, shard, &mut xorbs)?;
    }
    let to = xorbs.garbage.range.to;
    let found = Subject::CommandLine.in_memory(xorbs.garbage.finish())?;
    Ok((found, to))
}

fn print_with_origins<'a, R: Files + Clock + Eprint + AllocGlobal, W: Write>(
    rt: &R,
    shards: &[ShardFile<'a>],
    found: &[GarbageFinding],
    style: Style,
    progress: &mut Progress,
    output: &mut W,
) -> Result<(), Failure<'a>> {
    let origins = origins_of(rt, shards, found, progress)?;
    for (index, finding) in found.iter().enumerate() {
        let path = path_of(shards, origins.shard_of(index));
        if let Err(error) = print_finding(rt.alloc(), path, *finding, style, output) {
            return Err(Failure::on_output(Fault::from(error)));
        }
    }
    Ok(())
}

fn path_of<'a>(shards: &[ShardFile<'a>], number: Option<usize>) -> Option<&'a str> {
    Some(shards.get(number?)?.path)
}

// Reads shards until the first with its record is known of each finding.
fn origins_of<'a, 'f, R: Files + Clock + Eprint + AllocGlobal>(
    rt: &R,
    shards: &[ShardFile<'a>],
    found: &'f [GarbageFinding],
    progress: &mut Progress,
) -> Result<Origins<'f>, Failure<'a>> {
    let mut origins = Subject::CommandLine.in_memory(Origins::new(rt.alloc(), found))?;
    let all = shards.len();
    for (read, shard) in shards.iter().enumerate() {
        if origins.left == 0 {
            break;
        }
        progress.show_after_pause(rt, Stage::Reading { read, all });
        origins.shard = read;
        read_files(rt, shard, &mut origins)?;
        read_xorbs(rt, shard, &mut origins)?;
    }
    Ok(origins)
}

// Segments, some of which are given up if they are too many.
#[derive(Drop)]
struct LimitedSegments {
    segments: Segments,
    most: usize,
    limit: usize,
}

impl TakesFiles for LimitedSegments {
    fn take_file(&mut self, file: &MDBFileInfo) -> Result<(), AllocError> {
        self.segments.add_file(file)?;
        if self.segments.items.len() > self.limit {
            self.limit = limit_after(self.most, halve_segments(&mut self.segments, self.most));
        }
        Ok(())
    }
}

// Findings, some of which are given up if they are too many.
#[derive(Drop)]
struct LimitedGarbage {
    garbage: Garbage,
    most: usize,
    limit: usize,
}

impl TakesXorbs for LimitedGarbage {
    fn take_xorb(&mut self, xorb: &MDBXorbInfo) -> Result<(), AllocError> {
        self.garbage.add_xorb(xorb)?;
        if self.garbage.len() > self.limit {
            self.limit = limit_after(self.most, halve_garbage(&mut self.garbage, self.most));
        }
        Ok(())
    }
}

// Gives segments up until at most `most` are left, or all name one xorb. Returns how many are left.
fn halve_segments(segments: &mut Segments, most: usize) -> usize {
    for _ in 0..HALVINGS {
        let before = segments.items.len();
        if before <= most {
            break;
        }
        segments.halve();
        if segments.items.len() == before {
            break;
        }
    }
    segments.items.len()
}

fn halve_garbage(garbage: &mut Garbage, most: usize) -> usize {
    for _ in 0..HALVINGS {
        let before = garbage.len();
        if before <= most {
            break;
        }
        garbage.halve();
        if garbage.len() == before {
            break;
        }
    }
    garbage.len()
}

// Where more than `most` are left, twice as many are waited for, so that not each record tries
// again.
fn limit_after(most: usize, left: usize) -> usize {
    if left <= most {
        most
    } else {
        left.saturating_mul(2)
    }
}
