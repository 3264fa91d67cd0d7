//! The words of `query`.

use crate::fault::RequestFault;
use crate::printing::printing_in;
use crate::sources::lookup_in;
use clap::ArgMatches;
use mdb_base::request::Request;
use mdb_report::inquiry::Inquiry;
use std::alloc::Global;

/// The request that its words make.
pub fn request_in<'a>(
    alloc: Global,
    matches: &ArgMatches<'a>,
    now: Option<u64>,
) -> Result<Request<'a>, RequestFault<'a>> {
    let printing = printing_in(matches, now)?;
    let (sources, hashes) = lookup_in(alloc, matches)?;
    Ok(Request::Inspect(sources, Inquiry::Query { hashes }, printing))
}
