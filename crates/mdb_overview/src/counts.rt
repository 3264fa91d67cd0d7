//! Counting how often numbers occur.

ghost use Rattle.std.specs.Prelude.{OnOk};
ghost use Rattle.mdb_overview.specs.Counts.{CountsOneMore};

use std::alloc::{AllocError, Global};
use std::collections::BTreeMap;

/// How often each number occurs; counts saturate.
pub type Counts = BTreeMap<u64, u64>;

/// Counts a number once more.
pub fn count_one(counts: &mut Counts, number: u64) -> Result<(), AllocError>
    ensures { OnOk result (CountsOneMore number counts.old counts.new) }
{
    let count = counts.get(&number).copied().unwrap_or(0);
    counts.insert(number, count.saturating_add(1))?;
    Ok(())
}

/// Counts a number `more` times more.
pub(crate) fn add_count(counts: &mut Counts, number: u64, more: u64) -> Result<(), AllocError> {
    let count = counts.get(&number).copied().unwrap_or(0);
    counts.insert(number, count.saturating_add(more))?;
    Ok(())
}

/// The numbers from `first` to `last`, and their counts together.
#[derive(Clone, Copy)]
pub(crate) struct Span {
    pub(crate) first: u64,
    pub(crate) last: u64,
    pub(crate) count: u64,
}

/// The counted numbers, ascending, in at most `most` spans of about as many each.
pub(crate) fn spans_of(
    alloc: Global,
    counts: &Counts,
    most: usize,
) -> Result<Vec<Span>, AllocError> {
    let each = counts
        .len()
        .checked_div(most)
        .unwrap_or(0)
        .saturating_add(1);
    let mut spans: Vec<Span> = Vec::new(alloc);
    let mut room: usize = 0;
    for (number, count) in counts {
        match spans.as_mut_slice().last_mut() {
            Some(span) if room > 0 => {
                span.last = *number;
                span.count = span.count.saturating_add(*count);
                room -= 1;
            }
            _ => {
                spans.push(Span {
                    first: *number,
                    last: *number,
                    count: *count,
                })?;
                room = each - 1;
            }
        }
    }
    Ok(spans)
}
