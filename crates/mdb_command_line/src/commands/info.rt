//! The command `info`.

use crate::arguments::{FILES, JSON, LIST, NULL, RECURSIVE};
use crate::id;
use crate::row::{Argument, Row, Takes, flag, lettered, option};

pub const ROW: Row = Row {
    name: "info",
    about: "Prints what headers and footers say",
    examples: EXAMPLES,
    usage: None,
    arguments: &[
        FILES,
        RECURSIVE,
        LIST,
        NULL,
        flag!(BRIEF, "Prints a line for each, and a total"),
        option!(
            SORT,
            "sort",
            Sort,
            "With --brief: by what the shards are sorted"
        ),
        lettered!(
            'H',
            HUMAN,
            id::HUMAN,
            NothingWithoutJson,
            "Prints sizes in KiB, MiB and so on"
        ),
        JSON,
    ],
};

const EXAMPLES: &str = "Examples:\n  mdb info a.mdb b.mdb\n  mdb info --brief cache";
