//! Where a shard is written, and in which version of the format.

use crate::fault::RequestFault;
use crate::values::text_of;
use clap::ArgMatches;
use mdb_base::request::Target;
use mdb_command_line::id;
use xet_core_structures::record_reader::FormatVersion;

/// The output, or the folder, and the version.
pub fn target_in<'a>(matches: &ArgMatches<'a>) -> Result<Target<'a>, RequestFault<'a>> {
    let version = match matches.get_str(id::VERSION) {
        Some("2") => FormatVersion::V2,
        _ => FormatVersion::V3,
    };
    Ok(Target {
        path: output_in(matches)?,
        version,
    })
}

// The path to write to: of a merge by keys a folder.
fn output_in<'a>(matches: &ArgMatches<'a>) -> Result<&'a str, RequestFault<'a>> {
    match (matches.get_str(id::FOLDER), matches.get_str(id::GROUPS)) {
        (Some(""), _) | (None, Some("")) => Err(RequestFault::NoFolder),
        (Some(folder), _) | (None, Some(folder)) => Ok(folder),
        (None, None) => text_of(matches, id::OUTPUT),
    }
}
