//! The words of `diff`.

use crate::fault::RequestFault;
use crate::pair::pair_in;
use clap::ArgMatches;
use mdb_base::request::MakeCommand;
use shard_bytes::combine::Operation;

/// What it makes.
pub fn making_in<'a>(matches: &ArgMatches<'a>) -> Result<MakeCommand<'a>, RequestFault<'a>> {
    pair_in(Operation::Difference, matches)
}
