//! The words of `subset`.

use crate::fault::RequestFault;
use crate::hashes::hashes_of;
use crate::sources::hash_list_in;
use crate::values::{expiry_in, now_in, text_of, texts_of};
use clap::ArgMatches;
use mdb_base::request::MakeCommand;
use mdb_command_line::id;
use shard_bytes::minimal::{KeptXorbs, Subset};
use std::alloc::Global;

/// What it makes.
pub fn making_in<'a>(
    alloc: Global,
    matches: &ArgMatches<'a>,
    now: Option<u64>,
) -> Result<MakeCommand<'a>, RequestFault<'a>> {
    Ok(MakeCommand::Subset(
        text_of(matches, id::FILE)?,
        subset_in(alloc, matches, now)?,
        hash_list_in(matches),
        expiry_in(matches)?,
    ))
}

fn subset_in<'a>(
    alloc: Global,
    matches: &ArgMatches<'a>,
    now: Option<u64>,
) -> Result<Subset, RequestFault<'a>> {
    let kept = if matches.contains_id(id::XORBS) {
        let texts = texts_of(alloc, matches, id::XORBS)?;
        KeptXorbs::Listed(hashes_of(alloc, texts.as_slice())?)
    } else {
        KeptXorbs::All
    };
    Ok(Subset {
        now: now_in(matches, now)?,
        expiry: None,
        kept,
    })
}
