//! Lines in short: a list whose items differ in numbers alone is spelled by one of them.

use crate::stop::Stop;
use script_lines::words::parse_u64;
use std::io::Write;
use std::str;

/// The line with its lists written out, which `full` then has. `[N TEXT]` is TEXT N times, and in
/// the i-th of these, from 0, `{A}` is A + i and `{A+S}` is A + S * i. `Unreadable` if a list does
/// not have this form.
pub fn write_out<'a>(line: &str, full: &'a mut Vec<u8>) -> Result<&'a str, Stop> {
    full.clear();
    for (before, part) in line.split('[').enumerate() {
        let rest = if before == 0 {
            part
        } else {
            write_list(part, full)?
        };
        full.extend_from_slice(rest.as_bytes())?;
    }
    match str::from_utf8(full.as_slice()) {
        Ok(line) => Ok(line),
        Err(_) => Err(Stop::Unreadable),
    }
}

// Appends the list that a text begins with, and returns the text behind it.
fn write_list<'a>(text: &'a str, full: &mut Vec<u8>) -> Result<&'a str, Stop> {
    let (list, rest) = text.split_once(']').ok_or(Stop::Unreadable)?;
    let (count, item) = list.split_once(' ').ok_or(Stop::Unreadable)?;
    for index in 0..parse_u64(count)? {
        write_item(item, index, full)?;
    }
    Ok(rest)
}

// Appends an item of a list with its own numbers.
fn write_item(item: &str, index: u64, full: &mut Vec<u8>) -> Result<(), Stop> {
    for part in item.split('{') {
        match part.split_once('}') {
            Some((number, rest)) => {
                let number = number_at(number, index)?;
                write!(full, "{number}{rest}")?;
            }
            None => full.extend_from_slice(part.as_bytes())?,
        }
    }
    Ok(())
}

// The number that `A` or `A+S` gives at an index.
fn number_at(word: &str, index: u64) -> Result<u64, Stop> {
    let (first, step) = word.split_once('+').unwrap_or((word, "1"));
    Ok(parse_u64(first)?.wrapping_add(parse_u64(step)?.wrapping_mul(index)))
}
