//! Two sections read side by side.

ghost use Rattle.std.specs.Prelude.{◌≤◌, ◌⊎◌, ◌↔◌, IsTrue, IfSome, is_some, Option, MatchResult, IfErr, OnOk};
ghost use Rattle.std.specs.Io.KnownBytes.{Appends};
ghost use Rattle.xet_records.specs.RecordKind.{in_version};
ghost use Rattle.xet_records.specs.Copying.{IsOutputFailure};
ghost use Rattle.xet_core_structures.specs.Steps.RecordPairsSteps.{IsNextPair};
ghost use Rattle.xet_core_structures.specs.Steps.MergeJoin.{Follows, ReadsFollowing, FollowingFails, Advances, AdvanceFails, CombinesSections};
ghost use Rattle.xet_core_structures.specs.TwoShards.Streams.{streams};

use super::record_operation::RecordOperation;
use std::alloc::Global;
use std::cmp::Ordering;
use std::io::Write;
use xet_base::error::{CoreError, Result};
use xet_base::input::OfSource;
use xet_base::source::ShardSource;
use xet_records::record_reader::{FormatVersion, SectionRecord, read_header};
use xet_records::row_copier::{CopyFailure, CopyResult};
use xet_records::rows::ROW_LIMIT;
use xet_shards::shard_writer::WrittenSection;

/// Reads two sections from their sources' positions on, and writes what the operation makes of the
/// records with one hash. `UnexpectedEof` and `InvalidShard` are those that `shard_set_union` has
/// of sections.
pub fn combine_sections<
    Op: RecordOperation<Sec>,
    Sec: WrittenSection + Drop,
    S: ShardSource,
    T: ShardSource,
    W: Write,
>(
    alloc: Global,
    r1: &mut S,
    version_1: FormatVersion,
    r2: &mut T,
    version_2: FormatVersion,
    out: &mut W,
) -> CopyResult<Sec>
    ensures { CombinesSections Sec.Record.kind version_1 version_2 Op.makes
        (streams (S.meaning r1.old) (T.meaning r2.old) (W.contents out.old))
        (streams (S.meaning r1.new) (T.meaning r2.new) (W.contents out.new)) Sec.has_written
        result }
{
    Sec::Record::laws();
    let mut written = Sec::new(alloc);
    let mut left_1 = ROW_LIMIT;
    let mut left_2 = ROW_LIMIT;
    let mut first = next_header::<Sec::Record, S>(alloc, r1, version_1, &mut left_1, None)?;
    let mut second = next_header::<Sec::Record, T>(alloc, r2, version_2, &mut left_2, None)?;
    while goes_on(first, second) {
        let (one, other) = next_pair::<Sec::Record>(first, second);
        Op::write(alloc, one, r1, other, r2, &mut written, out)?;
        first = advance::<Sec::Record, S>(alloc, r1, version_1, &mut left_1, first, one)?;
        second = advance::<Sec::Record, T>(alloc, r2, version_2, &mut left_2, second, other)?;
    }
    write_bookend::<Sec, W>(out)?;
    Ok(written)
}

fn goes_on<H: Copy>(first: Option<H>, second: Option<H>) -> bool
    ensures { IsTrue result ↔ (IsTrue (is_some first) ⊎ IsTrue (is_some second)) }
{
    first.is_some() || second.is_some()
}

// The header with the lesser hash, or both if their hashes are equal.
fn next_pair<R: SectionRecord>(
    first: Option<R::Header>,
    second: Option<R::Header>,
) -> (Option<R::Header>, Option<R::Header>)
    ensures { IsNextPair R.kind.hash_of first second result.0 result.1 }
{
    match (first, second) {
        (Some(x), Some(y)) => match R::hash(&x).cmp(&R::hash(&y)) {
            Ordering::Less => (Some(x), None),
            Ordering::Greater => (None, Some(y)),
            Ordering::Equal => (Some(x), Some(y)),
        },
        _ => (first, second),
    }
}

// The next header: `next`, unless its record was passed.
fn advance<R: SectionRecord, S: ShardSource>(
    alloc: Global,
    source: &mut S,
    version: FormatVersion,
    rows_left: &mut u64,
    next: Option<R::Header>,
    passed: Option<R::Header>,
) -> Result<Option<R::Header>>
    requires { IfSome passed (λ _. rows_left.old ≤ 4294967296) }
    ensures { MatchResult result
        (Advances (in_version R.kind version) next passed (S.meaning source.old)
        (S.meaning source.new) rows_left.old rows_left.new)
        (AdvanceFails (in_version R.kind version) passed rows_left.old (S.meaning source.old)
        (S.meaning source.new)) }
{
    match passed {
        Some(_) => next_header::<R, S>(alloc, source, version, rows_left, passed),
        None => Ok(next),
    }
}

/// Reads the next header, or `None` at the bookend, and counts the record's rows down from
/// `rows_left`. `InvalidShard` if its hash is not greater than `before`'s; then its rows are read,
/// so an input that is cut there is `UnexpectedEof`.
pub fn next_header<R: SectionRecord, S: ShardSource>(
    alloc: Global,
    source: &mut S,
    version: FormatVersion,
    rows_left: &mut u64,
    before: Option<R::Header>,
) -> Result<Option<R::Header>>
    requires { rows_left.old ≤ 4294967296 }
    ensures { MatchResult result
        (ReadsFollowing (in_version R.kind version) before (S.meaning source.old)
        (S.meaning source.new) rows_left.old rows_left.new)
        (FollowingFails (in_version R.kind version) before rows_left.old (S.meaning source.old)
        (S.meaning source.new)) }
{
    R::laws();
    let Some(header) = read_header::<R, OfSource, S>(alloc, source, version, rows_left)? else {
        return Ok(None);
    };
    if !follows::<R>(before, &header) {
        R::skip_rows_after::<OfSource, S>(source, header)?;
        return Err(CoreError::InvalidShard(String::new(alloc)));
    }
    Ok(Some(header))
}

fn follows<R: SectionRecord>(before: Option<R::Header>, header: &R::Header) -> bool
    ensures { IsTrue result ↔ Follows R.kind before header.now }
{
    match before {
        Some(before) => R::hash(&before).cmp(&R::hash(header)) == Ordering::Less,
        None => true,
    }
}

/// Writes the bookend. The failure is the output's.
pub fn write_bookend<Sec: WrittenSection, W: Write>(out: &mut W) -> CopyResult<()>
    ensures appended { OnOk result
        (Appends (W.contents out.old) (W.contents out.new)
        (Sec.Record.kind.header_bytes Sec.Record.kind.bookend)) }
    ensures causes { IfErr result IsOutputFailure }
{
    match Sec::write_bookend(out) {
        Ok(()) => Ok(()),
        Err(error) => Err(CopyFailure::Output(error)),
    }
}
