//! Commands on buffers.

ghost use Rattle.std.specs.Prelude.{◌<◌, IfOk};

use crate::probe::Probe;
use crate::stop::Stop;
use script_lines::words::parse_u64;
use std::io::Write;

impl Probe {
    /// Runs a command that makes, changes or compares buffers. `false` if the words are no such
    /// command.
    pub fn run_on_buffers(&mut self, words: &[&str], out: &mut Vec<u8>) -> Result<bool, Stop> {
        match words {
            ["to_bytes", shard, name] => self.put_bytes_of(shard, name),
            ["bytes", name, digits @ ..] => self.put_bytes(name, digits),
            ["join", name, parts @ ..] => self.join(name, parts),
            ["table", name, width, rows @ ..] => self.make_table(name, width, rows),
            ["cut", name, len] => self.cut(name, len),
            ["put", name, offset, digits @ ..] => self.overwrite(name, offset, digits),
            ["same", first, second] => self.show_same(first, second, out),
            _ => return Ok(false),
        }?;
        Ok(true)
    }

    fn put_bytes_of(&mut self, shard: &str, name: &str) -> Result<(), Stop> {
        let bytes = self.shard(shard)?.to_bytes(self.alloc)?;
        self.put_buffer(name, bytes)
    }

    fn put_bytes(&mut self, name: &str, digits: &[&str]) -> Result<(), Stop> {
        let bytes = self.parse_bytes(digits)?;
        self.put_buffer(name, bytes)
    }

    /// The bytes that hexadecimal digits spell, in one word or several.
    pub fn parse_bytes(&self, words: &[&str]) -> Result<Vec<u8>, Stop> {
        let mut bytes = Vec::new(self.alloc);
        for word in words {
            push_digits(&mut bytes, word.as_bytes())?;
        }
        Ok(bytes)
    }

    fn join(&mut self, name: &str, parts: &[&str]) -> Result<(), Stop> {
        let mut bytes = Vec::new(self.alloc);
        for part in parts {
            bytes.extend_from_slice(self.buffer(part)?)?;
        }
        self.put_buffer(name, bytes)
    }

    fn cut(&mut self, name: &str, len: &str) -> Result<(), Stop> {
        let len = parse_u64(len)?;
        let bytes = self.buffer_mut(name)?;
        if len > bytes.len() as u64 {
            return Err(Stop::Unreadable);
        }
        bytes.truncate(len as usize);
        Ok(())
    }

    fn overwrite(&mut self, name: &str, offset: &str, digits: &[&str]) -> Result<(), Stop> {
        let new = self.parse_bytes(digits)?;
        let offset = parse_u64(offset)?;
        let bytes = self.buffer_mut(name)?;
        let size = bytes.len() as u64;
        if offset > size || new.len() as u64 > size - offset {
            return Err(Stop::Unreadable);
        }
        let start = offset as usize;
        bytes[start..start + new.len()].copy_from_slice(new.as_slice());
        Ok(())
    }

    fn show_same(&self, first: &str, second: &str, out: &mut Vec<u8>) -> Result<(), Stop> {
        let is_same = self.buffer(first)? == self.buffer(second)?;
        Ok(writeln!(out, "{is_same}")?)
    }
}

fn push_digits(bytes: &mut Vec<u8>, digits: &[u8]) -> Result<(), Stop> {
    for pair in digits.chunks(2) {
        let [high, low] = pair else {
            return Err(Stop::Unreadable);
        };
        bytes.push(16 * digit_value(*high)? + digit_value(*low)?)?;
    }
    Ok(())
}

fn digit_value(digit: u8) -> Result<u8, Stop>
    ensures { IfOk result (λ value. value < 16) }
{
    let value = char::from(digit).to_digit(16).ok_or(Stop::Unreadable)?;
    Ok(value as u8)
}
