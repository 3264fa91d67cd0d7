//! The table of shards.

use crate::escape::escaped_name;
use crate::expiries::has_expired;
use crate::numbers::{GroupedNumber, grouped_length};
use crate::overview::{Overview, total_of};
use mdb_records::size::Size;
use mdb_report::brief::{Brief, Total};
use std::alloc::{AllocError, Global};

/// The most shards with a row each.
const MOST_ROWS: usize = 200;

const HEADS: &str = "<section>\n<h2>Shards</h2>\n<figure><table><thead><tr><th>Shard</th>\
    <th>Version</th><th>Bytes</th><th>Files</th><th>Xorbs</th><th>Chunks</th><th>Stored</th>\
    <th>Materialized</th><th>Expires</th><th>Key</th></tr></thead><tbody>\n";

/// Prints a row for each of the first shards, one for the others and one for all.
pub(crate) fn print_table(
    alloc: Global,
    page: &mut String,
    overview: &Overview<'_>,
) -> Result<(), AllocError> {
    page.push_str(HEADS)?;
    let shards = overview.shards.as_slice();
    let (shown, others) = shards.split_at(shards.len().min(MOST_ROWS));
    for shard in shown {
        print_shard(alloc, page, shard, overview.now)?;
    }
    if !others.is_empty() {
        let number = grouped_length(others);
        write!(
            page,
            "<tr><th scope=\"row\">all {number} smaller ones</th><td></td>"
        )?;
        print_numbers(page, &total_of(others))?;
        page.push_str("<td></td><td></td></tr>\n")?;
    }
    page.push_str("</tbody><tfoot>\n<tr><th scope=\"row\">all</th><td></td>")?;
    print_numbers(page, &total_of(shards))?;
    page.push_str("<td></td><td></td></tr>\n</tfoot></table></figure>\n</section>\n")
}

fn print_shard(
    alloc: Global,
    page: &mut String,
    shard: &Brief<'_>,
    now: Option<u64>,
) -> Result<(), AllocError> {
    let name = escaped_name(alloc, shard.shard)?;
    let version = shard.version;
    write!(page, "<tr><th scope=\"row\">{name}</th><td>{version}</td>")?;
    print_numbers(page, &total_of(std::slice::from_ref(shard)))?;
    print_expiry(page, shard, now)?;
    let Some(key) = shard.key else {
        return page.push_str("<td>none</td></tr>\n");
    };
    let key = format!(in alloc; "{key}")?;
    let first = key.as_str().get(..8).unwrap_or("");
    write!(page, "<td title=\"{key}\">{first}..</td></tr>\n")
}

fn print_expiry(page: &mut String, shard: &Brief<'_>, now: Option<u64>) -> Result<(), AllocError> {
    let Some(utc) = &shard.expires.utc else {
        return write!(page, "<td>{}</td>", shard.expires);
    };
    let day = utc.as_str().get(..10).unwrap_or("");
    if has_expired(shard, now) {
        write!(
            page,
            "<td class=\"expired\" title=\"{utc}\">{day}, expired</td>"
        )
    } else {
        write!(page, "<td title=\"{utc}\">{day}</td>")
    }
}

// Sizes are printed in the units that they reach, with the bytes as title.
fn print_numbers(page: &mut String, total: &Total) -> Result<(), AllocError> {
    print_size(page, total.bytes)?;
    for number in [total.files, total.xorbs, total.chunks] {
        write!(page, "<td>{}</td>", GroupedNumber(number))?;
    }
    print_size(page, total.stored_bytes)?;
    print_size(page, total.materialized_bytes)
}

fn print_size(page: &mut String, bytes: u64) -> Result<(), AllocError> {
    let exact = GroupedNumber(Some(bytes));
    let size = Size::new(bytes, true);
    write!(page, "<td title=\"{exact}\">{size}</td>")
}
