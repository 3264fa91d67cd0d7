//! The requests of the commands, each of which has a module for its words.

mod check;
mod chunks;
mod diff;
mod drop;
mod eligible;
mod export;
mod files;
mod find;
mod gc;
mod info;
mod make;
mod merge;
mod minimal;
mod name;
mod query;
mod report;
mod subset;
mod union;
mod xorbs;

use crate::fault::RequestFault;
use crate::output::target_in;
use crate::printing::printing_in;
use crate::sources::sources_in;
use clap::ArgMatches;
use mdb_base::request::{MakeCommand, Request};
use mdb_command_line::id;
use mdb_files::files::STANDARD_STREAM;
use mdb_report::inquiry::Inquiry;
use std::alloc::Global;

/// The request that words make, with their command's name before them.
pub fn request_in<'a>(
    alloc: Global,
    matches: &ArgMatches<'a>,
    now: Option<u64>,
) -> Result<Request<'a>, RequestFault<'a>> {
    let Some((name, matches)) = matches.subcommand() else {
        return Err(RequestFault::Missing("a command"));
    };
    if is_input_named_twice(matches) {
        return Err(RequestFault::InputTwice);
    }
    match name {
        "merge" => merge::request_in(alloc, matches, now),
        "report" => report::request_in(alloc, matches, now),
        "gc" => gc::request_in(alloc, matches),
        "find" => find::request_in(alloc, matches, now),
        "query" => query::request_in(alloc, matches, now),
        _ => match making_in(alloc, name, matches, now)? {
            Some(making) => Ok(Request::Make(making, target_in(matches)?)),
            None => inspection_in(alloc, name, matches, now),
        },
    }
}

// Whether more than one word names standard input, as a shard or as a list.
fn is_input_named_twice(matches: &ArgMatches<'_>) -> bool {
    let mut named = false;
    for id in [id::FILE, id::FIRST, id::SECOND, id::LIST, id::HASH_LIST] {
        for word in matches.get_strs(id).unwrap_or_default() {
            if *word == STANDARD_STREAM {
                if named {
                    return true;
                }
                named = true;
            }
        }
    }
    false
}

// `None` for a command that makes nothing.
fn making_in<'a>(
    alloc: Global,
    name: &str,
    matches: &ArgMatches<'a>,
    now: Option<u64>,
) -> Result<Option<MakeCommand<'a>>, RequestFault<'a>> {
    let making = match name {
        "union" => union::making_in(matches)?,
        "diff" => diff::making_in(matches)?,
        "export" => export::making_in(matches, now)?,
        "minimal" => minimal::making_in(matches, now)?,
        "subset" => subset::making_in(alloc, matches, now)?,
        "drop" => drop::making_in(alloc, matches)?,
        "make" => make::making_in(matches)?,
        _ => return Ok(None),
    };
    Ok(Some(making))
}

fn inspection_in<'a>(
    alloc: Global,
    name: &str,
    matches: &ArgMatches<'a>,
    now: Option<u64>,
) -> Result<Request<'a>, RequestFault<'a>> {
    let printing = printing_in(matches, now)?;
    let inquiry = inquiry_in(name, matches)?;
    Ok(Request::Inspect(sources_in(alloc, matches)?, inquiry, printing))
}

// The inquiry of a command that prints what each shard says.
fn inquiry_in<'a>(name: &str, matches: &ArgMatches<'a>) -> Result<Inquiry, RequestFault<'a>> {
    match name {
        "info" => Ok(info::inquiry_in(matches)),
        "files" => Ok(files::inquiry_in(matches)),
        "xorbs" => Ok(xorbs::inquiry_in(matches)),
        "chunks" => Ok(chunks::inquiry_in(matches)),
        "check" => check::inquiry_in(matches),
        "name" => name::inquiry_in(matches),
        "eligible" => Ok(eligible::inquiry()),
        _ => Err(RequestFault::Missing("a command")),
    }
}
