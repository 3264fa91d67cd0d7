//! The command `gc`.

use crate::arguments::{FILES_ALONE, JSON, LIST, MEMORY, NULL, QUIET, RECURSIVE};
use crate::row::Row;

pub const ROW: Row = Row {
    name: "gc",
    about: "Finds xorbs that no file names, and segments that do not fit; exit status 3 if there are any",
    examples: EXAMPLES,
    usage: None,
    arguments: &[FILES_ALONE, RECURSIVE, LIST, NULL, MEMORY, QUIET, JSON],
};

const EXAMPLES: &str =
    "The shards are read several times if what is kept of them takes more memory than is given.

Examples:
  mdb gc cache
  mdb gc --json --memory 1G cache/*.mdb";
