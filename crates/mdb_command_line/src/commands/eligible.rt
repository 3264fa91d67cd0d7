//! The command `eligible`.

use crate::arguments::{FILES, JSON, LIST, NULL, RECURSIVE};
use crate::row::Row;

pub const ROW: Row = Row {
    name: "eligible",
    about: "Lists the hashes of the chunks that the global index keeps, in ascending order",
    examples: EXAMPLES,
    usage: None,
    arguments: &[FILES, RECURSIVE, LIST, NULL, JSON],
};

const EXAMPLES: &str = "Example:\n  mdb eligible a.mdb";
