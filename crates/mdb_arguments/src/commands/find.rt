//! The words of `find`.

use crate::fault::RequestFault;
use crate::printing::printing_in;
use crate::sources::lookup_in;
use clap::ArgMatches;
use mdb_base::request::Request;
use mdb_command_line::id;
use mdb_report::inquiry::Inquiry;
use std::alloc::Global;

/// The request that its words make.
pub fn request_in<'a>(
    alloc: Global,
    matches: &ArgMatches<'a>,
    now: Option<u64>,
) -> Result<Request<'a>, RequestFault<'a>> {
    let printing = printing_in(matches, now)?;
    let (sources, hashes) = lookup_in(alloc, matches)?;
    let inquiry = if matches.get_flag(id::OF_XORBS) {
        Inquiry::FindXorbs { hashes }
    } else {
        Inquiry::Find {
            hashes,
            costs: matches.get_flag(id::COSTS),
        }
    };
    Ok(Request::Inspect(sources, inquiry, printing))
}
