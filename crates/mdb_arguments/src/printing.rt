//! How what is found is printed.

use crate::fault::RequestFault;
use crate::values::time_in;
use clap::ArgMatches;
use mdb_base::request::{PrintOptions, Sort};
use mdb_command_line::id;
use mdb_records::line::Style;

/// The options of what is printed, in which a time that is left out is `now`.
pub fn printing_in<'a>(
    matches: &ArgMatches<'a>,
    now: Option<u64>,
) -> Result<PrintOptions, RequestFault<'a>> {
    Ok(PrintOptions {
        style: style_in(matches),
        sort: match matches.get_str(id::SORT) {
            Some("name") => Some(Sort::Name),
            Some("size") => Some(Sort::Size),
            Some(_) => Some(Sort::Expiry),
            None => None,
        },
        now: time_in(matches, id::NOW)?.or(now),
        quiet: matches.get_flag(id::QUIET),
    })
}

/// The style of what is printed.
pub fn style_in(matches: &ArgMatches<'_>) -> Style {
    if matches.get_flag(id::JSON) {
        Style::Json
    } else if matches.get_flag(id::HUMAN) {
        Style::Human
    } else {
        Style::Text
    }
}
