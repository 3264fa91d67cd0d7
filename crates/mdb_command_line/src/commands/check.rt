//! The command `check`.

use crate::arguments::{FILES, JSON, LIST, NULL, QUIET, RECURSIVE};
use crate::id;
use crate::row::{Argument, Row, Takes, flag, option};

pub const ROW: Row = Row {
    name: "check",
    about: "Checks that files are as the library would write them; exit status 3 if one is not",
    examples: EXAMPLES,
    usage: None,
    arguments: &[
        FILES,
        RECURSIVE,
        LIST,
        NULL,
        flag!(
            NAME,
            "Checks too that each name is 64 hexadecimal digits and .mdb"
        ),
        option!(
            HASH_KEY,
            "hash-key",
            Value,
            "Checks too that each name has the hash of the bytes under this key, of 64 hexadecimal digits"
        ),
        flag!(
            DEEP,
            "Checks too that a shard's segments and xorbs fit together, as gc does for many"
        ),
        flag!(STRICT, "Counts notes too"),
        QUIET,
        JSON,
    ],
};

const EXAMPLES: &str = "Examples:\n  mdb check -r cache\n  mdb check --deep --strict a.mdb";
