//! The words of `gc`.

use crate::fault::RequestFault;
use crate::printing::style_in;
use crate::sources::sources_in;
use crate::values::size_in;
use clap::ArgMatches;
use mdb_base::request::{Collection, DEFAULT_MEMORY, Request};
use mdb_command_line::id;
use std::alloc::Global;

/// The request that its words make.
pub fn request_in<'a>(
    alloc: Global,
    matches: &ArgMatches<'a>,
) -> Result<Request<'a>, RequestFault<'a>> {
    let collection = Collection {
        style: style_in(matches),
        memory: size_in(matches, id::MEMORY)?.unwrap_or(DEFAULT_MEMORY),
        quiet: matches.get_flag(id::QUIET),
    };
    Ok(Request::Collect(sources_in(alloc, matches)?, collection))
}
