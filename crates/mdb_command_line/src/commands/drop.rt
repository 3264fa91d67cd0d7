//! The command `drop`.

use crate::arguments::{FILE, FORMAT, HASH_LIST, NEW_EXPIRY, NULL, OUTPUT};
use crate::id;
use crate::row::{Argument, Row, Takes, option};

pub const ROW: Row = Row {
    name: "drop",
    about: "Writes a shard without some of its files and xorbs",
    examples: EXAMPLES,
    usage: None,
    arguments: &[
        FILE,
        option!(
            HASHES,
            "hash",
            EachValue,
            "The hash of a file or a xorb to leave out; it may be given again"
        ),
        HASH_LIST,
        NULL,
        NEW_EXPIRY,
        FORMAT,
        OUTPUT,
    ],
};

const EXAMPLES: &str = "Example:\n  mdb drop a.mdb -o rest.mdb \
    --hash 0000000000000064000000000000000100000000000000000000000000000000";
