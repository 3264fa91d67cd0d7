//! The table of what could not be read, by reason.

use crate::escape::escape_text;
use crate::numbers::grouped_length;
use crate::overview::{Overview, Unread};
use std::alloc::{AllocError, Global};

/// The most reasons with a row, and the most paths named of one.
const MOST_REASONS: usize = 20;

const MOST_PATHS: usize = 100;

/// The paths of a reason shown before its list is opened.
const FIRST_PATHS: usize = 3;

#[derive(Drop)]
struct Group<'o> {
    reason: &'o str,
    paths: Vec<&'o str>,
}

/// Prints what could not be read, if anything, the commonest reason first. The failures must be
/// sorted by reason.
pub(crate) fn print_failures(
    alloc: Global,
    page: &mut String,
    overview: &Overview<'_>,
) -> Result<(), AllocError> {
    let failures = overview.failures.as_slice();
    if failures.is_empty() {
        return Ok(());
    }
    let number = grouped_length(failures);
    write!(
        page,
        "<section class=\"failed\">\n<h2>Could not be read: {number}</h2>\n<figure><table>\
        <thead><tr><th>Reason</th><th>Number</th><th>Which</th></tr></thead><tbody>\n"
    )?;
    let groups = groups_of(alloc, failures)?;
    let (shown, others) = groups.as_slice().split_at(groups.len().min(MOST_REASONS));
    for group in shown {
        print_group(alloc, page, group)?;
    }
    if !others.is_empty() {
        let number = grouped_length(others);
        write!(
            page,
            "<tr><th scope=\"row\">{number} other reasons</th></tr>\n"
        )?;
    }
    page.push_str("</tbody></table></figure>\n</section>\n")
}

// The greatest group comes first.
fn groups_of<'o>(alloc: Global, failures: &'o [Unread]) -> Result<Vec<Group<'o>>, AllocError> {
    let mut groups: Vec<Group<'o>> = Vec::new(alloc);
    for failure in failures {
        let reason = failure.reason.as_str();
        let path = failure.path.as_str();
        match groups.as_mut_slice().last_mut() {
            Some(group) if group.reason == reason => group.paths.push(path)?,
            _ => groups.push(new_group(alloc, reason, path)?)?,
        }
    }
    groups.sort_by_key(|group: &Group<'_>| -> usize { usize::MAX - group.paths.len() })?;
    Ok(groups)
}

fn new_group<'o>(alloc: Global, reason: &'o str, path: &'o str) -> Result<Group<'o>, AllocError> {
    let mut paths = Vec::new(alloc);
    paths.push(path)?;
    Ok(Group { reason, paths })
}

fn print_group(alloc: Global, page: &mut String, group: &Group<'_>) -> Result<(), AllocError> {
    let paths = group.paths.as_slice();
    let reason = escape_text(alloc, group.reason)?;
    let number = grouped_length(paths);
    write!(
        page,
        "<tr><th scope=\"row\">{reason}</th><td>{number}</td><td>"
    )?;
    let (first, others) = paths.split_at(paths.len().min(FIRST_PATHS));
    print_paths(alloc, page, first)?;
    if !others.is_empty() {
        let number = grouped_length(others);
        write!(page, "<details><summary>{number} more</summary>")?;
        let (named, left) = others.split_at(others.len().min(MOST_PATHS));
        print_paths(alloc, page, named)?;
        if !left.is_empty() {
            write!(page, "and {} more", grouped_length(left))?;
        }
        page.push_str("</details>")?;
    }
    page.push_str("</td></tr>\n")
}

fn print_paths(alloc: Global, page: &mut String, paths: &[&str]) -> Result<(), AllocError> {
    for path in paths {
        write!(page, "{}<br>", escape_text(alloc, path)?)?;
    }
    Ok(())
}
