//! The words of `check`.

use crate::fault::RequestFault;
use crate::hashes::hash_key_in;
use clap::ArgMatches;
use mdb_command_line::id;
use mdb_report::inquiry::{Checks, Inquiry};

/// What is asked of each shard.
pub fn inquiry_in<'a>(matches: &ArgMatches<'a>) -> Result<Inquiry, RequestFault<'a>> {
    Ok(Inquiry::Check(Checks {
        named: matches.get_flag(id::NAME),
        key: hash_key_in(matches)?,
        deep: matches.get_flag(id::DEEP),
        strict: matches.get_flag(id::STRICT),
    }))
}
