//! The two shards that a command puts together.

use crate::fault::RequestFault;
use crate::values::text_of;
use clap::ArgMatches;
use mdb_base::request::MakeCommand;
use mdb_command_line::id;
use shard_bytes::combine::Operation;

/// What an operation makes of the two shards.
pub fn pair_in<'a>(
    operation: Operation,
    matches: &ArgMatches<'a>,
) -> Result<MakeCommand<'a>, RequestFault<'a>> {
    let first = text_of(matches, id::FIRST)?;
    let second = text_of(matches, id::SECOND)?;
    Ok(MakeCommand::Combine(operation, first, second))
}
