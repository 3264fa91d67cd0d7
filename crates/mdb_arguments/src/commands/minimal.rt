//! The words of `minimal`.

use crate::fault::RequestFault;
use crate::values::{now_in, text_of};
use clap::ArgMatches;
use mdb_base::request::MakeCommand;
use mdb_command_line::id;
use xet_core_structures::file_structs::KeptParts;

/// What it makes.
pub fn making_in<'a>(
    matches: &ArgMatches<'a>,
    now: Option<u64>,
) -> Result<MakeCommand<'a>, RequestFault<'a>> {
    Ok(MakeCommand::Minimal(
        text_of(matches, id::FILE)?,
        now_in(matches, now)?,
        KeptParts {
            verification: matches.get_flag(id::VERIFICATION),
            aux_ext: !matches.get_flag(id::NO_AUX),
        },
    ))
}
