//! The records in some rows of a section.

ghost use Rattle.std.specs.Prelude.{◌≡◌, ◌↔◌, ℕ, ◌*◌, ◌≤◌, List, map, drop, None, IsTrue, MatchOption, MatchResult};
ghost use Rattle.xet_records.specs.Limits.{MAX_ROWS};
ghost use Rattle.xet_records.specs.Reading.{BeginsWithBookend};
ghost use Rattle.xet_records.specs.RecordKind.{in_version};
ghost use Rattle.placed_shards.specs.ByTables.{HasInRows};
ghost use Rattle.placed_shards.specs.Steps.InRows.{NotRead, TakesInRange, RowsFollow};

use crate::next_record::{NextRecord, next_record};
use crate::placed_record::PlacedRecord;
use crate::range::HashRange;
use crate::section::is_after;
use std::alloc::Global;
use xet_base::error::{CoreError, Result};
use xet_base::fields::all_bytes;
use xet_base::merklehash::MerkleHash;
use xet_records::record_bytes::row;
use xet_records::record_reader::FormatVersion;
use xet_records::rows::ROW_SIZE;
use xet_shards::shard_writer::bytes_from;

/// The records in the rows of a section from `first` on and before `end`; `InvalidArguments` and
/// `OutOfMemory` as in `open_by_tables`.
pub fn read_in_rows<'a, P: PlacedRecord<'a> + Drop>(
    alloc: Global,
    section: &'a [u8],
    version: FormatVersion,
    first: u32,
    end: u32,
    range: &HashRange,
) -> Result<Vec<P>>
    ensures { MatchResult result
        (λ records. HasInRows (in_version P.kind version) range.now section.now first end
        (map P.kind.as_read records.items))
        (NotRead (HasInRows (in_version P.kind version) range.now section.now first end)) }
{
    P::laws();
    if !may_start(first, end, range) {
        return Err(CoreError::InvalidArguments);
    }
    if !may_end::<P>(section, end, range) {
        return Err(CoreError::InvalidArguments);
    }
    let rows = bytes_from(section, offset_of(first));
    let count = u64::from(end - first);
    take_rows::<P>(alloc, rows, version, count, range)
}

// A range without a lower bound starts at row 0.
fn may_start(first: u32, end: u32, range: &HashRange) -> bool
    ensures { IsTrue result ↔ ((first ≤ end) × (range.now.from ≡ None → first ≡ 0)) }
{
    first <= end && (first == 0 || range.from.is_some())
}

// A range without an upper bound ends at the bookend.
fn may_end<'a, P: PlacedRecord<'a>>(section: &[u8], end: u32, range: &HashRange) -> bool
    ensures { IsTrue result ↔ (range.now.to ≡ None
        → BeginsWithBookend P.kind (drop (48 * end) section.now)) }
{
    range.to.is_some() || has_bookend_at::<P>(section, end)
}

fn has_bookend_at<'a, P: PlacedRecord<'a>>(section: &[u8], at: u32) -> bool
    ensures { IsTrue result ↔ BeginsWithBookend P.kind (drop (48 * at) section.now) }
{
    P::laws();
    let bytes = bytes_from(section, offset_of(at));
    if bytes.len() < ROW_SIZE {
        return false;
    }
    all_bytes(bytes);
    let header: P::Header = row(bytes, 0);
    P::is_bookend(&header)
}

fn offset_of(at: u32) -> u64
    ensures { result ≡ 48 * at }
{
    ROW_SIZE as u64 * u64::from(at)
}

// The records in the first `count` rows, with the errors of `read_in_rows`.
fn take_rows<'a, P: PlacedRecord<'a> + Drop>(
    alloc: Global,
    bytes: &'a [u8],
    version: FormatVersion,
    count: u64,
    range: &HashRange,
) -> Result<Vec<P>>
    requires { count ≤ MAX_ROWS }
    ensures { MatchResult result
        (λ records. RowsFollow (in_version P.kind version) range.now None count bytes.now
        records.items)
        (NotRead (RowsFollow (in_version P.kind version) range.now None count bytes.now)) }
{
    P::laws();
    let mut records = Vec::new(alloc);
    let mut rows_left = count;
    let mut before = None;
    let mut rest = bytes;
    while rows_left > 0 {
        let Some(next) = take_in_range::<P>(alloc, rest, version, &mut rows_left, before, range)
        else {
            return Err(CoreError::InvalidArguments);
        };
        let NextRecord {
            record,
            rest: after,
        } = next;
        before = Some(record.hash());
        records.push(record)?;
        rest = after;
    }
    Ok(records)
}

// As `next_record`, but `None` for an error, and for a hash that is not above `before` or not in
// the range.
fn take_in_range<'a, P: PlacedRecord<'a> + Drop>(
    alloc: Global,
    bytes: &'a [u8],
    version: FormatVersion,
    rows_left: &mut u64,
    before: Option<MerkleHash>,
    range: &HashRange,
) -> Option<NextRecord<'a, P>>
    requires { rows_left.old ≤ MAX_ROWS }
    ensures { MatchOption result
        ((after : ℕ) → (r : P) → (rest : List ℕ)
        → ¬ TakesInRange (in_version P.kind version) range.now before rows_left.old after bytes.now
        r rest)
        (λ n. TakesInRange (in_version P.kind version) range.now before rows_left.old rows_left.new
        bytes.now n.record n.rest.now) }
{
    P::laws();
    match next_record::<P>(alloc, bytes, version, rows_left) {
        Ok(Some(next)) => {
            let hash = next.record.hash();
            if !is_after(before, &hash) {
                return None;
            }
            if !range.contains(&hash) {
                return None;
            }
            Some(next)
        }
        Ok(None) => None,
        Err(_) => None,
    }
}
