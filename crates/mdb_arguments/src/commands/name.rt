//! The words of `name`.

use crate::fault::RequestFault;
use crate::hashes::hash_key_in;
use clap::ArgMatches;
use mdb_command_line::id;
use mdb_report::inquiry::Inquiry;

/// What is asked of each shard.
pub fn inquiry_in<'a>(matches: &ArgMatches<'a>) -> Result<Inquiry, RequestFault<'a>> {
    match hash_key_in(matches)? {
        Some(key) => Ok(Inquiry::Name { key }),
        None => Err(RequestFault::Missing(id::HASH_KEY)),
    }
}
