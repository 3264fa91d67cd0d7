//! The selection of an input's records.

use crate::range::HashRange;

/// How the records in a range are found.
#[derive(Clone, Copy, Debug, PartialEq, Eq)]
pub enum Access {
    /// Both sections are read, by [`open`](crate::open::open).
    Scan,
    /// Only the rows are read that tables name for the range, by
    /// [`open_by_tables`](crate::by_tables::open_by_tables).
    Tables,
}

/// The records of an input in a range, files and xorbs each by their own hash.
#[derive(Clone, Copy, Debug, PartialEq, Eq)]
pub struct Selection {
    pub range: HashRange,
    pub access: Access,
}

impl Selection {
    /// All records, found by a scan.
    pub const ALL: Selection = Selection {
        range: HashRange::ALL,
        access: Access::Scan,
    };
}
