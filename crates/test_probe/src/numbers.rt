//! Numbers and hashes that are written and read by themselves.

use crate::stop::Stop;
use script_lines::show::{show_counted, show_line};
use script_lines::words::{parse_hash, parse_u32, parse_u64};
use std::io::{Read, Write};
use xet_core_structures::serialization_utils::{
    read_bytes, read_hash, read_u8, read_u32, read_u32s, read_u64, read_u64s, write_bytes,
    write_hash, write_u8, write_u32, write_u32s, write_u64, write_u64s,
};

/// Writes the number or hash that a word spells, or a list that has the number three times, and
/// returns how many bytes that are. `Unreadable` if there is no such kind of values.
pub fn write_number<W: Write>(kind: &str, word: &str, output: &mut W) -> Result<usize, Stop> {
    match kind {
        "hash" => write_hash(output, &parse_hash(word)?)?,
        "u8" => write_u8(output, parse_u8(word)?)?,
        "u32" => write_u32(output, parse_u32(word)?)?,
        "u64" => write_u64(output, parse_u64(word)?)?,
        "u8s" => write_bytes(output, &[parse_u8(word)?; 3])?,
        "u32s" => write_u32s(output, &[parse_u32(word)?; 3])?,
        "u64s" => write_u64s(output, &[parse_u64(word)?; 3])?,
        _ => return Err(Stop::Unreadable),
    }
    Ok(size_of_kind(kind))
}

fn parse_u8(word: &str) -> Result<u8, Stop> {
    match u8::try_from(parse_u32(word)?) {
        Ok(number) => Ok(number),
        Err(_) => Err(Stop::Unreadable),
    }
}

// The bytes that a value of this kind has.
fn size_of_kind(kind: &str) -> usize {
    match kind {
        "u8" => 1,
        "u8s" => 3,
        "u32" => 4,
        "u64" => 8,
        "u32s" => 12,
        "u64s" => 24,
        _ => 32,
    }
}

/// Reads a number or a hash, or a list of three numbers, and prints it. `Unreadable` if there is no
/// such kind of values.
pub fn show_number<R: Read>(kind: &str, reader: &mut R, out: &mut Vec<u8>) -> Result<(), Stop> {
    match kind {
        "hash" => show_line(&read_hash(reader)?, out)?,
        "u8" => show_line(&u32::from(read_u8(reader)?), out)?,
        "u32" => show_line(&read_u32(reader)?, out)?,
        "u64" => show_line(&read_u64(reader)?, out)?,
        "u8s" => {
            let mut numbers = [0u8; 3];
            read_bytes(reader, &mut numbers)?;
            show_counted(&numbers.map(u32::from), out)?;
        }
        "u32s" => {
            let mut numbers = [0u32; 3];
            read_u32s(reader, &mut numbers)?;
            show_counted(&numbers, out)?;
        }
        "u64s" => {
            let mut numbers = [0u64; 3];
            read_u64s(reader, &mut numbers)?;
            show_counted(&numbers, out)?;
        }
        _ => return Err(Stop::Unreadable),
    }
    Ok(())
}
