//! The command `report`.

use crate::arguments::{EXPIRED_BY, FILES_ALONE, LIST, MEMORY, NULL, OUTPUT, QUIET, RECURSIVE};
use crate::row::Row;

pub const ROW: Row = Row {
    name: "report",
    about: "Writes an overview of shards as an HTML page",
    examples: EXAMPLES,
    usage: None,
    arguments: &[
        FILES_ALONE,
        RECURSIVE,
        LIST,
        NULL,
        EXPIRED_BY,
        MEMORY,
        QUIET,
        OUTPUT,
    ],
};

const EXAMPLES: &str =
    "The shards are read several times if what is kept of their chunks takes more memory than is given.

Example:
  mdb report cache -o report.html";
