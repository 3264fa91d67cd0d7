//! Ranges of bytes, and bytes as hexadecimal digits.

ghost use Rattle.std.specs.Prelude.{Option, OnErr, ◌≡◌, ◌≤◌, ◌+◌, ◌↔◌, length, slice_range, string_bytes, IsOk, IfOk, IfErr};
ghost use Rattle.script_lines.specs.Commands.{texts, SpellRange};
ghost use Rattle.script_lines.specs.Printed.{hex_text};
ghost use Rattle.script_lines.specs.declared.ranges.ByteRange.{ByteRange as AnyRange};

use crate::words::{ParseError, parse_u64};
use std::alloc::{AllocError, Global};

/// A range of `len` bytes, from the index `from` on.
#[derive(Clone, Copy)]
pub struct ByteRange {
    pub from: u64,
    pub len: u64,
}

/// The range of words `FROM LEN`, or none if they are left out. `Unreadable` if there are other
/// words.
pub fn parse_range(words: &[&str]) -> Result<Option<ByteRange>, ParseError>
    ensures found { IfOk result (SpellRange (texts words.now)) }
    ensures none { OnErr result
        ((range : Option AnyRange) → ¬ (SpellRange (texts words.now) range)) }
    ensures causes { IfErr result (λ e. e ≡ ParseError.Unreadable) }
{
    match words {
        [] => Ok(None),
        [from, len] => {
            let from = parse_u64(from)?;
            let len = parse_u64(len)?;
            Ok(Some(ByteRange { from, len }))
        }
        _ => Err(ParseError::Unreadable),
    }
}

/// The bytes of a range. `Unreadable` if the range ends past the end of the bytes.
pub fn bytes_in(bytes: &[u8], range: ByteRange) -> Result<&[u8], ParseError>
    ensures inside { IsOk result ↔ (range.from + range.len ≤ length bytes.now) }
    ensures causes { IfErr result (λ e. e ≡ ParseError.Unreadable) }
    ensures found { IfOk result
        (λ part. part.now ≡ slice_range bytes.now range.from (range.from + range.len)) }
{
    let size = bytes.len() as u64;
    if range.from > size || range.len > size - range.from {
        return Err(ParseError::Unreadable);
    }
    let from = range.from as usize;
    let len = range.len as usize;
    Ok(&bytes[from..from + len])
}

/// The bytes as lower-case hexadecimal digits, two for each.
pub fn hex_digits(alloc: Global, bytes: &[u8]) -> Result<String, AllocError>
    ensures { IfOk result (λ digits. string_bytes digits ≡ hex_text bytes.now) }
{
    let mut digits = String::new(alloc);
    for byte in bytes {
        write!(digits, "{byte:02x}")?;
    }
    Ok(digits)
}
