//! The command `diff`.

use crate::arguments::{FIRST, FORMAT, OUTPUT, SECOND};
use crate::row::Row;

pub const ROW: Row = Row {
    name: "diff",
    about: "Writes what the second of two shards has and the first has not",
    examples: EXAMPLES,
    usage: None,
    arguments: &[FIRST, SECOND, FORMAT, OUTPUT],
};

const EXAMPLES: &str = "Example:\n  mdb diff old.mdb new.mdb -o added.mdb";
