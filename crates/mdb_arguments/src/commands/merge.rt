//! The words of `merge`.

use crate::fault::RequestFault;
use crate::hashes::hash_key_in;
use crate::output::target_in;
use crate::sources::sources_in;
use crate::values::{expiry_in, size_in, time_in};
use clap::ArgMatches;
use mdb_base::request::{Compaction, Merge, Request, Strictness};
use mdb_command_line::id;
use std::alloc::Global;

/// The request that its words make.
pub fn request_in<'a>(
    alloc: Global,
    matches: &ArgMatches<'a>,
    now: Option<u64>,
) -> Result<Request<'a>, RequestFault<'a>> {
    let mut sources = sources_in(alloc, matches)?;
    // It is one only if none of all has a shard.
    sources.may_be_empty = true;
    Ok(Request::Merge(sources, merge_in(matches, now)?))
}

fn merge_in<'a>(matches: &ArgMatches<'a>, now: Option<u64>) -> Result<Merge<'a>, RequestFault<'a>> {
    let drops_expired = matches.get_flag(id::DROP_EXPIRED);
    let now = time_in(matches, id::NOW)?.or(now);
    if drops_expired && now.is_none() {
        return Err(RequestFault::Missing(id::NOW));
    }
    Ok(Merge {
        target: target_in(matches)?,
        strictness: strictness_in(matches),
        verbose: matches.get_flag(id::VERBOSE),
        quiet: matches.get_flag(id::QUIET),
        by_key: matches.contains_id(id::FOLDER),
        expiry: expiry_in(matches)?,
        memory: size_in(matches, id::MEMORY)?,
        now,
        drops_expired,
        skips_unreadable: matches.get_flag(id::SKIP_UNREADABLE),
        compaction: compaction_in(matches)?,
    })
}

// How shards are merged in groups, if a folder for the merges is given.
fn compaction_in<'a>(matches: &ArgMatches<'a>) -> Result<Option<Compaction>, RequestFault<'a>> {
    if !matches.contains_id(id::GROUPS) {
        return Ok(None);
    }
    match (size_in(matches, id::MAX_SIZE)?, hash_key_in(matches)?) {
        (Some(max_size), Some(hash_key)) => Ok(Some(Compaction {
            max_size,
            hash_key,
            remove_inputs: matches.get_flag(id::REMOVE_INPUTS),
        })),
        (None, _) => Err(RequestFault::Missing(id::MAX_SIZE)),
        (_, None) => Err(RequestFault::Missing(id::HASH_KEY)),
    }
}

// Of two records that do not agree a lenient merge keeps one, so inputs are removed after a strict
// one alone.
fn strictness_in(matches: &ArgMatches<'_>) -> Strictness {
    if matches.get_flag(id::STRICT) || matches.get_flag(id::REMOVE_INPUTS) {
        Strictness::Strict
    } else {
        Strictness::Lenient
    }
}
