//! Numbers with a comma before each three digits.

use std::fmt;

/// A number, if known, with a comma before each three digits.
#[derive(Clone, Copy)]
pub(crate) struct GroupedNumber(pub(crate) Option<u64>);

/// What the digits between two commas count.
const UNITS: &[u64] = &[
    1_000_000_000_000_000_000,
    1_000_000_000_000_000,
    1_000_000_000_000,
    1_000_000_000,
    1_000_000,
    1_000,
    1,
];

impl fmt::Display for GroupedNumber {
    fn fmt<W: fmt::Write>(&self, f: &mut fmt::Formatter<W>) -> fmt::Result {
        let Some(number) = self.0 else {
            return write!(f, "unknown");
        };
        let mut begun = false;
        for unit in UNITS {
            let digits = number.checked_div(*unit).unwrap_or(0) % 1000;
            if begun {
                write!(f, ",{digits:03}")?;
            } else if digits > 0 || *unit == 1 {
                write!(f, "{digits}")?;
                begun = true;
            }
        }
        Ok(())
    }
}

pub(crate) fn grouped_length<T>(list: &[T]) -> GroupedNumber {
    GroupedNumber(Some(list.len() as u64))
}
