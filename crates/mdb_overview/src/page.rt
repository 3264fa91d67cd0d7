//! The page of an overview.

use crate::escape::escaped_name;
use crate::failures::print_failures;
use crate::numbers::{GroupedNumber, grouped_length};
use crate::overview::{Overview, total_of};
use crate::plots::{print_expiries, print_sharing, print_sizes};
use crate::style::{HEAD, STYLE};
use crate::table::print_table;
use mdb_records::moment::Moment;
use mdb_records::size::Size;
use std::alloc::{AllocError, Global};

/// The most sources that are named.
const MOST_SOURCES: usize = 8;

/// The page of an overview, as HTML that needs nothing else. Shards after the first 200 are shown
/// together; the failures must be sorted.
pub fn page_of(alloc: Global, overview: &Overview<'_>) -> Result<String, AllocError> {
    let mut page = String::from_str(alloc, HEAD)?;
    let title = title_of(alloc, overview)?;
    write!(page, "<title>{title}</title>\n")?;
    page.push_str(STYLE)?;
    print_header(alloc, &mut page, title.as_str(), overview)?;
    print_total(alloc, &mut page, overview)?;
    print_failures(alloc, &mut page, overview)?;
    print_sizes(alloc, &mut page, overview)?;
    print_sharing(alloc, &mut page, overview)?;
    print_expiries(alloc, &mut page, overview)?;
    print_table(alloc, &mut page, overview)?;
    page.push_str("</body>\n</html>\n")?;
    Ok(page)
}

fn title_of(alloc: Global, overview: &Overview<'_>) -> Result<String, AllocError> {
    let mut title = String::from_str(alloc, "Shards of ")?;
    for (before, source) in overview.sources.iter().take(MOST_SOURCES).enumerate() {
        let comma = if before > 0 { ", " } else { "" };
        write!(title, "{comma}{}", escaped_name(alloc, source)?)?;
    }
    if overview.sources.len() > MOST_SOURCES {
        title.push_str(", ..")?;
    }
    Ok(title)
}

fn print_header(
    alloc: Global,
    page: &mut String,
    title: &str,
    overview: &Overview<'_>,
) -> Result<(), AllocError> {
    write!(page, "<h1>{title}</h1>\n")?;
    match overview.now {
        Some(now) => write!(page, "<p>At {}</p>\n", Moment::of_seconds(alloc, now)?),
        None => Ok(()),
    }
}

fn print_total(
    alloc: Global,
    page: &mut String,
    overview: &Overview<'_>,
) -> Result<(), AllocError> {
    let total = total_of(overview.shards.as_slice());
    page.push_str("<section>\n<h2>Total</h2>\n")?;
    if !overview.failures.is_empty() {
        let number = grouped_length(overview.failures.as_slice());
        write!(
            page,
            "<p class=\"partial\">Not counted: {number}, which could not be read.</p>\n"
        )?;
    }
    page.push_str("<dl>\n")?;
    print_number(page, "Shards", Some(total.shards))?;
    print_size(alloc, page, "Bytes of shards", total.bytes)?;
    print_number(page, "Files", total.files)?;
    print_number(page, "Xorbs", total.xorbs)?;
    print_number(page, "Chunks", total.chunks)?;
    print_number(page, "Distinct chunk hashes", Some(overview.sharing.hashes))?;
    print_number(
        page,
        "In more than one shard",
        Some(overview.sharing.shared),
    )?;
    print_size(alloc, page, "Stored: bytes of xorbs", total.stored_bytes)?;
    print_size(
        alloc,
        page,
        "Materialized: bytes of files",
        total.materialized_bytes,
    )?;
    page.push_str("</dl>\n</section>\n")
}

fn print_number(page: &mut String, name: &str, number: Option<u64>) -> Result<(), AllocError> {
    write!(
        page,
        "<div><dt>{name}</dt><dd>{}</dd></div>\n",
        GroupedNumber(number)
    )
}

// In its unit and, if that is not the byte, in bytes.
fn print_size(alloc: Global, page: &mut String, name: &str, bytes: u64) -> Result<(), AllocError> {
    let size = format!(in alloc; "{}", Size::new(bytes, true))?;
    write!(page, "<div><dt>{name}</dt><dd>{size}")?;
    if bytes >= 1024 {
        write!(page, "<small>{}</small>", GroupedNumber(Some(bytes)))?;
    }
    page.push_str("</dd></div>\n")
}
