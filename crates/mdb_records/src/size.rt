//! Reading sizes, as `64M`, and printing them, as `1.5 KiB`.

ghost use Rattle.std.specs.Prelude.{◌≡◌};

use std::fmt;

/// The units and their bytes, the greatest first.
const UNITS: &[(u64, &str)] = &[
    (1 << 60, "EiB"),
    (1 << 50, "PiB"),
    (1 << 40, "TiB"),
    (1 << 30, "GiB"),
    (1 << 20, "MiB"),
    (1 << 10, "KiB"),
];

/// A number of bytes, printed in digits or, for people, in the greatest unit that it reaches,
/// rounded to a tenth.
#[derive(Clone, Copy)]
pub struct Size {
    pub bytes: u64,
    pub human: bool,
}

impl Size {
    /// So many bytes, for people or as digits.
    pub fn new(bytes: u64, human: bool) -> Size
        ensures bytes { result.bytes ≡ bytes }
        ensures human { result.human ≡ human }
    {
        Size { bytes, human }
    }
}

impl fmt::Display for Size {
    fn fmt<W: fmt::Write>(&self, f: &mut fmt::Formatter<W>) -> fmt::Result {
        let bytes = self.bytes;
        if !self.human {
            return write!(f, "{bytes}");
        }
        for (unit, name) in UNITS {
            // What is this close below would be rounded to 1024.0 of the unit before.
            if bytes.saturating_add(*unit / 20480) >= *unit {
                let tenths = tenths_of(bytes, *unit);
                let (whole, tenth) = (tenths / 10, tenths % 10);
                return write!(f, "{whole}.{tenth} {name}");
            }
        }
        write!(f, "{bytes} B")
    }
}

fn tenths_of(bytes: u64, unit: u64) -> u128 {
    u128::from(bytes)
        .saturating_mul(10)
        .saturating_add(u128::from(unit / 2))
        .checked_div(u128::from(unit))
        .unwrap_or(0)
}

/// The bytes in a text of digits, which a K, M, G or T in either case may follow, for powers of
/// 1024. `None` for another text, or for too many for `u64`.
pub fn parse_size(text: &str) -> Option<u64> {
    let Some(last) = text.as_bytes().last() else {
        return None;
    };
    let unit: u64 = match last {
        b'K' | b'k' => 1 << 10,
        b'M' | b'm' => 1 << 20,
        b'G' | b'g' => 1 << 30,
        b'T' | b't' => 1 << 40,
        _ => 1,
    };
    let digits = match unit {
        1 => text.as_bytes(),
        _ => &text.as_bytes()[..text.len() - 1],
    };
    number_of(digits)?.checked_mul(unit)
}

fn number_of(digits: &[u8]) -> Option<u64> {
    if digits.is_empty() {
        return None;
    }
    let mut number: u64 = 0;
    for digit in digits {
        if !digit.is_ascii_digit() {
            return None;
        }
        number = number
            .checked_mul(10)?
            .checked_add(u64::from(*digit - b'0'))?;
    }
    Some(number)
}
