//! The words of `xorbs`.

use clap::ArgMatches;
use mdb_command_line::id;
use mdb_report::inquiry::Inquiry;

/// What is asked of each shard.
pub fn inquiry_in(matches: &ArgMatches<'_>) -> Inquiry {
    Inquiry::Xorbs {
        long: matches.get_flag(id::LONG),
    }
}
