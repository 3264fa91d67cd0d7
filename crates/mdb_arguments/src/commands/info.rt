//! The words of `info`.

use clap::ArgMatches;
use mdb_command_line::id;
use mdb_report::inquiry::Inquiry;

/// What is asked of each shard.
pub fn inquiry_in(matches: &ArgMatches<'_>) -> Inquiry {
    if matches.get_flag(id::BRIEF) {
        Inquiry::Brief
    } else {
        Inquiry::Summary
    }
}
