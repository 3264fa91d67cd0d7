//! The command `xorbs`.

use crate::arguments::{FILES, JSON, LIST, LONG, NULL, RECURSIVE};
use crate::row::Row;

pub const ROW: Row = Row {
    name: "xorbs",
    about: "Lists the xorbs",
    examples: EXAMPLES,
    usage: None,
    arguments: &[FILES, RECURSIVE, LIST, NULL, LONG, JSON],
};

const EXAMPLES: &str = "Example:\n  mdb xorbs --json a.mdb";
