//! The command `files`.

use crate::arguments::{FILES, JSON, LIST, LONG, NULL, RECURSIVE};
use crate::row::Row;

pub const ROW: Row = Row {
    name: "files",
    about: "Lists the files",
    examples: EXAMPLES,
    usage: None,
    arguments: &[FILES, RECURSIVE, LIST, NULL, LONG, JSON],
};

const EXAMPLES: &str = "Example:\n  mdb files --long a.mdb";
