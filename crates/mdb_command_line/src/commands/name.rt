//! The command `name`.

use crate::arguments::{FILES, JSON, LIST, NULL, RECURSIVE};
use crate::id;
use crate::row::{Argument, Row, Takes, option};

pub const ROW: Row = Row {
    name: "name",
    about: "Prints the names that files have by the hashes of their bytes",
    examples: EXAMPLES,
    usage: None,
    arguments: &[
        FILES,
        RECURSIVE,
        LIST,
        NULL,
        option!(
            HASH_KEY,
            "hash-key",
            NeededValue,
            "The key of the hash: 64 hexadecimal digits"
        ),
        JSON,
    ],
};

const EXAMPLES: &str = "Example:\n  mdb name a.mdb \
    --hash-key 0000000000000001000000000000000200000000000000030000000000000004";
