//! The command `union`.

use crate::arguments::{FIRST, FORMAT, OUTPUT, SECOND};
use crate::row::Row;

pub const ROW: Row = Row {
    name: "union",
    about: "Writes the union of two shards",
    examples: EXAMPLES,
    usage: None,
    arguments: &[FIRST, SECOND, FORMAT, OUTPUT],
};

const EXAMPLES: &str = "Example:\n  mdb union a.mdb b.mdb -o both.mdb";
