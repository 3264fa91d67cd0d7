//! Reading a request from the arguments of a command line.

use crate::commands::request_in;
use crate::fault::{RequestFault, message_of};
use clap::error::ErrorKind;
use clap::{ArgMatches, Error};
use mdb_base::request::Request;
use mdb_command_line::{command_line, command_named};
use std::alloc::Global;

/// The request that words make, the first of which is the program's name. Else an error of the
/// command line, which a request for help is too.
/// Times that are left out are `now`, in seconds since the start of 1970.
pub fn request_of<'a>(
    alloc: Global,
    words: &'a [String],
    now: Option<u64>,
) -> Result<Request<'a>, Error> {
    let matches = command_line(alloc)?.try_get_matches_from(words)?;
    match request_in(alloc, &matches, now) {
        Ok(request) => Ok(request),
        Err(fault) => Err(error_of(alloc, &matches, &fault)?),
    }
}

// The error of the command that words name.
fn error_of(
    alloc: Global,
    matches: &ArgMatches<'_>,
    fault: &RequestFault<'_>,
) -> Result<Error, Error> {
    let message = message_of(alloc, fault)?;
    let name = match matches.subcommand() {
        Some((name, _)) => name,
        None => "",
    };
    let mut command = command_named(alloc, name)?;
    Ok(command.error(ErrorKind::ValueValidation, message.as_str())?)
}
