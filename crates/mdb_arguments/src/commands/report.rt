//! The words of `report`.

use crate::fault::RequestFault;
use crate::sources::sources_in;
use crate::values::{size_in, text_of, time_in};
use clap::ArgMatches;
use mdb_base::request::{DEFAULT_MEMORY, OverviewOptions, Request};
use mdb_command_line::id;
use std::alloc::Global;

/// The request that its words make.
pub fn request_in<'a>(
    alloc: Global,
    matches: &ArgMatches<'a>,
    now: Option<u64>,
) -> Result<Request<'a>, RequestFault<'a>> {
    let sources = sources_in(alloc, matches)?;
    Ok(Request::Report(sources, reporting_in(matches, now)?))
}

fn reporting_in<'a>(
    matches: &ArgMatches<'a>,
    now: Option<u64>,
) -> Result<OverviewOptions<'a>, RequestFault<'a>> {
    Ok(OverviewOptions {
        output: text_of(matches, id::OUTPUT)?,
        memory: size_in(matches, id::MEMORY)?.unwrap_or(DEFAULT_MEMORY),
        now: time_in(matches, id::NOW)?.or(now),
        quiet: matches.get_flag(id::QUIET),
    })
}
