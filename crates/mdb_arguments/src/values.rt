//! The values of arguments: texts, numbers, times and sizes.

use crate::fault::RequestFault;
use clap::ArgMatches;
use mdb_base::request::NewExpiry;
use mdb_command_line::id;
use mdb_records::moment::seconds_of;
use mdb_records::size::parse_size;
use std::alloc::Global;

/// The text of an argument that has to be there.
pub fn text_of<'a>(
    matches: &ArgMatches<'a>,
    id: &'static str,
) -> Result<&'a str, RequestFault<'a>> {
    matches.get_str(id).ok_or(RequestFault::Missing(id))
}

/// The texts of an argument that has to be there.
pub fn texts_of<'a>(
    alloc: Global,
    matches: &ArgMatches<'a>,
    id: &'static str,
) -> Result<Vec<&'a str>, RequestFault<'a>> {
    match matches.get_strs(id) {
        Some(texts) => Ok(Vec::from_slice(alloc, texts)?),
        None => Err(RequestFault::Missing(id)),
    }
}

/// The number of an argument that has to be there.
pub fn number_of<'a>(matches: &ArgMatches<'a>, id: &'static str) -> Result<u64, RequestFault<'a>> {
    matches.get_one::<u64>(id).ok_or(RequestFault::Missing(id))
}

/// The bytes of a size, if one is given.
pub fn size_in<'a>(
    matches: &ArgMatches<'a>,
    id: &'static str,
) -> Result<Option<u64>, RequestFault<'a>> {
    match matches.get_str(id) {
        Some(text) => match parse_size(text) {
            Some(bytes) => Ok(Some(bytes)),
            None => Err(RequestFault::NoSize(text)),
        },
        None => Ok(None),
    }
}

/// A time in seconds since the start of 1970, if one is given.
pub fn time_in<'a>(
    matches: &ArgMatches<'a>,
    id: &'static str,
) -> Result<Option<u64>, RequestFault<'a>> {
    match matches.get_str(id) {
        Some(text) => match seconds_of(text) {
            Some(seconds) => Ok(Some(seconds)),
            None => Err(RequestFault::NoTime(text)),
        },
        None => Ok(None),
    }
}

/// The time of creation, which is now if it is left out.
pub fn now_in<'a>(matches: &ArgMatches<'a>, now: Option<u64>) -> Result<u64, RequestFault<'a>> {
    match time_in(matches, id::NOW)? {
        Some(time) => Ok(time),
        None => now.ok_or(RequestFault::Missing(id::NOW)),
    }
}

// The word of an expiry for the earliest one.
const EARLIEST: &str = "min";

/// The expiry of what is written.
pub fn expiry_in<'a>(matches: &ArgMatches<'a>) -> Result<NewExpiry, RequestFault<'a>> {
    if matches.get_str(id::EXPIRY) == Some(EARLIEST) {
        return Ok(NewExpiry::Earliest);
    }
    match time_in(matches, id::EXPIRY)? {
        Some(time) => Ok(NewExpiry::At(time)),
        None => Ok(NewExpiry::Unset),
    }
}
