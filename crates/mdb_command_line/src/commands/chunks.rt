//! The command `chunks`.

use crate::arguments::{FILES, JSON, LIST, LONG, NULL, RECURSIVE};
use crate::row::Row;

pub const ROW: Row = Row {
    name: "chunks",
    about: "Lists the chunks of the xorbs",
    examples: EXAMPLES,
    usage: None,
    arguments: &[FILES, RECURSIVE, LIST, NULL, LONG, JSON],
};

const EXAMPLES: &str = "Example:\n  mdb chunks a.mdb";
