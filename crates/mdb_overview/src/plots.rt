//! The plots of an overview.

use crate::counts::{Span, spans_of};
use crate::expiries::{day_of, expiries_of};
use crate::numbers::GroupedNumber;
use crate::overview::Overview;
use crate::plot::{Column, PlotRow, print_plot};
use crate::sizes::{classes_in, label_of, sizes_of};
use mdb_records::moment::Moment;
use std::alloc::{AllocError, Global};

/// The most rows of spans of days and of numbers.
const MOST_DAYS: usize = 40;

const MOST_NUMBERS: usize = 16;

const SHARDS: Column = Column {
    name: "Shards",
    is_size: false,
};

/// Plots how many shards have which size, also where none has.
pub(crate) fn print_sizes(
    alloc: Global,
    page: &mut String,
    overview: &Overview<'_>,
) -> Result<(), AllocError> {
    let shards = overview.shards.as_slice();
    let sizes = sizes_of(alloc, shards)?;
    let (least, greatest) = classes_in(shards).unwrap_or((1, 0));
    let mut rows = Vec::new(alloc);
    for class in least..=greatest {
        rows.push(PlotRow {
            label: label_of(alloc, class)?,
            values: [
                Some(sizes.shards.get(&class).copied().unwrap_or(0)),
                Some(sizes.bytes.get(&class).copied().unwrap_or(0)),
            ],
            pale: false,
        })?;
    }
    let columns = [
        SHARDS,
        Column {
            name: "Bytes together",
            is_size: true,
        },
    ];
    let about =
        "Each column has a scale of its own. A row has the sizes from its first number to below its second.";
    print_plot(
        alloc,
        page,
        "Shards by size",
        about,
        &columns,
        rows.as_slice(),
    )
}

/// Plots how many chunk hashes are in how many shards.
pub(crate) fn print_sharing(
    alloc: Global,
    page: &mut String,
    overview: &Overview<'_>,
) -> Result<(), AllocError> {
    let mut rows = Vec::new(alloc);
    for span in &spans_of(alloc, &overview.sharing.by_shards, MOST_NUMBERS)? {
        rows.push(row_of(span, numbers_label(alloc, span)?, span.last < 2))?;
    }
    let hashes = GroupedNumber(Some(overview.sharing.hashes));
    let shared = GroupedNumber(Some(overview.sharing.shared));
    let about = format!(in alloc;
        "Distinct chunk hashes: {hashes}. In more than one shard: {shared}. Under different keys one \
        chunk has different hashes."
    )?;
    let title = "Chunks by the number of shards that have them";
    let column = Column {
        name: "Chunk hashes",
        is_size: false,
    };
    print_plot(
        alloc,
        page,
        title,
        about.as_str(),
        &[column],
        rows.as_slice(),
    )
}

/// Plots how many shards expire on each day.
pub(crate) fn print_expiries(
    alloc: Global,
    page: &mut String,
    overview: &Overview<'_>,
) -> Result<(), AllocError> {
    let expiries = expiries_of(alloc, overview.shards.as_slice(), overview.now)?;
    let today = overview.now.map_or(0, |now| day_of(now));
    let mut rows = Vec::new(alloc);
    for span in &spans_of(alloc, &expiries.by_day, MOST_DAYS)? {
        rows.push(row_of(span, days_label(alloc, span)?, span.last < today))?;
    }
    if expiries.without > 0 {
        rows.push(PlotRow {
            label: String::from_str(alloc, "no expiry")?,
            values: [Some(expiries.without), None],
            pale: false,
        })?;
    }
    let expired = GroupedNumber(Some(expiries.expired));
    let without = GroupedNumber(Some(expiries.without));
    let about = format!(in alloc;
        "Expired by then: {expired}. Without an expiry: {without}. Days are in UTC; those that were \
        over are pale."
    )?;
    print_plot(
        alloc,
        page,
        "Expiries by day",
        about.as_str(),
        &[SHARDS],
        rows.as_slice(),
    )
}

fn row_of(span: &Span, label: String, pale: bool) -> PlotRow {
    PlotRow {
        label,
        values: [Some(span.count), None],
        pale,
    }
}

fn numbers_label(alloc: Global, span: &Span) -> Result<String, AllocError> {
    let first = GroupedNumber(Some(span.first));
    let last = GroupedNumber(Some(span.last));
    match span.last {
        1 => format!(in alloc; "in 1 shard"),
        _ if span.first == span.last => format!(in alloc; "in {last} shards"),
        _ => format!(in alloc; "in {first} to {last} shards"),
    }
}

fn days_label(alloc: Global, span: &Span) -> Result<String, AllocError> {
    let first = date_of(alloc, span.first)?;
    if span.first == span.last {
        return Ok(first);
    }
    let last = date_of(alloc, span.last)?;
    format!(in alloc; "{first} to {last}")
}

// The second after its first is taken, since 0 has no date.
fn date_of(alloc: Global, day: u64) -> Result<String, AllocError> {
    let moment = Moment::of_seconds(alloc, day.saturating_mul(86400).saturating_add(1))?;
    let date = match &moment.utc {
        Some(utc) => utc.as_str().get(..10),
        None => None,
    };
    String::from_str(alloc, date.unwrap_or("after the year 9999"))
}
