//! The words of `make`.

use crate::fault::RequestFault;
use crate::values::{text_of, time_in};
use clap::ArgMatches;
use mdb_base::request::MakeCommand;
use mdb_command_line::id;

/// What it makes.
pub fn making_in<'a>(matches: &ArgMatches<'a>) -> Result<MakeCommand<'a>, RequestFault<'a>> {
    Ok(MakeCommand::Records(text_of(matches, id::FILE)?, time_in(matches, id::EXPIRY)?))
}
