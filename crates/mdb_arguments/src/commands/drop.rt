//! The words of `drop`.

use crate::fault::RequestFault;
use crate::hashes::given_hashes;
use crate::sources::hash_list_in;
use crate::values::{expiry_in, text_of};
use clap::ArgMatches;
use mdb_base::request::{MakeCommand, Removal};
use mdb_command_line::id;
use std::alloc::Global;

/// What it makes.
pub fn making_in<'a>(
    alloc: Global,
    matches: &ArgMatches<'a>,
) -> Result<MakeCommand<'a>, RequestFault<'a>> {
    Ok(MakeCommand::Drop(removal_in(alloc, matches)?))
}

fn removal_in<'a>(
    alloc: Global,
    matches: &ArgMatches<'a>,
) -> Result<Removal<'a>, RequestFault<'a>> {
    let list = hash_list_in(matches);
    if list.is_none() && !matches.contains_id(id::HASHES) {
        return Err(RequestFault::Missing(id::HASHES));
    }
    Ok(Removal {
        file: text_of(matches, id::FILE)?,
        hashes: given_hashes(alloc, matches, id::HASHES)?,
        list,
        expiry: expiry_in(matches)?,
    })
}
