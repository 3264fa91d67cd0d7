//! Runs of chunks.

ghost use Rattle.std.specs.Prelude.{◌≡◌, MatchResult};
ghost use Rattle.xet_core_structures.specs.Errors.{variant_number};
ghost use Rattle.xet_c.specs.Arguments.{IsRun, AnswersRun, RefusesRun, AnswersRunAt, RefusesRunAt, ShowsRun};

use crate::hash::{XetHash, hashes_of};
use crate::output::error_number;
use crate::segment::{XetSegment, segment_of};
use shard_bytes::query::{query_at, query_chunks};
use std::alloc::Global;
use xet_core_structures::error::{CoreError, Result};
use xet_core_structures::file_structs::FileDataSequenceEntry;

/// Looks for a run of chunks with these hashes: `count` is how many it has, and `run` where they
/// are. If there is none, or after an error, `count` is 0 and `run` stays.
#[unsafe(no_mangle)]
pub extern "C" fn xet_query_chunks(
    alloc: Global,
    shard: &[u8],
    hashes: &[XetHash],
    count: &mut usize,
    run: &mut XetSegment,
) -> u32
    ensures { ShowsRun (AnswersRun shard.now hashes.now) (RefusesRun shard.now hashes.now) run.old
        run.new count.new result }
{
    let found = query(alloc, shard, hashes);
    show_run(&found, count, run)
}

#[tactic(auto, using(crate::proofs::Outcomes::run_said))]
fn query(
    alloc: Global,
    shard: &[u8],
    hashes: &[XetHash],
) -> Result<Option<(usize, FileDataSequenceEntry)>>
    ensures { MatchResult result (AnswersRun shard.now hashes.now)
        (RefusesRun shard.now hashes.now) }
{
    let hashes = hashes_of(alloc, hashes)?;
    query_chunks(alloc, shard, hashes.as_slice())
}

/// As [`xet_query_chunks`] for the run from chunk `index` on of the xorb at `row`. There is none if
/// this chunk has another hash than the first.
#[unsafe(no_mangle)]
pub extern "C" fn xet_query_at(
    alloc: Global,
    shard: &[u8],
    hashes: &[XetHash],
    row: u32,
    index: u32,
    count: &mut usize,
    run: &mut XetSegment,
) -> u32
    ensures { ShowsRun (AnswersRunAt shard.now hashes.now row index)
        (RefusesRunAt shard.now hashes.now row index) run.old run.new count.new result }
{
    let found = run_at(alloc, shard, hashes, row, index);
    show_run(&found, count, run)
}

fn run_at(
    alloc: Global,
    shard: &[u8],
    hashes: &[XetHash],
    row: u32,
    index: u32,
) -> Result<Option<(usize, FileDataSequenceEntry)>>
    ensures { MatchResult result (AnswersRunAt shard.now hashes.now row index)
        (RefusesRunAt shard.now hashes.now row index) }
{
    let hashes = hashes_of(alloc, hashes)?;
    query_at(alloc, shard, hashes.as_slice(), row, index)
}

fn show_run(
    found: &Result<Option<(usize, FileDataSequenceEntry)>>,
    count: &mut usize,
    run: &mut XetSegment,
) -> u32
    ensures { MatchResult found.now (λ answer. IsRun answer run.old run.new count.new × (result ≡ 0))
        (λ e. (run.new ≡ run.old) × (count.new ≡ 0) × (result ≡ variant_number e)) }
{
    *count = 0;
    match found {
        Ok(Some((length, segment))) => {
            *count = *length;
            *run = segment_of(segment);
            0
        }
        Ok(None) => 0,
        Err(error) => error_number(error),
    }
}
