//! The command `subset`.

use crate::arguments::{FILE, FORMAT, HASH_LIST, NEW_EXPIRY, NOW, NULL, OUTPUT};
use crate::id;
use crate::row::{Argument, Row, Takes, option};

pub const ROW: Row = Row {
    name: "subset",
    about: "Writes some of the xorbs of a shard, without files and tables",
    examples: EXAMPLES,
    usage: None,
    arguments: &[
        FILE,
        NOW,
        NEW_EXPIRY,
        option!(
            XORBS,
            "xorb",
            EachValue,
            "The hash of a xorb to keep; without, all are kept"
        ),
        HASH_LIST,
        NULL,
        FORMAT,
        OUTPUT,
    ],
};

const EXAMPLES: &str = "Example:\n  mdb subset a.mdb --now 1700000000 -o part.mdb \
    --xorb 000000000000000a000000000000000100000000000000000000000000000000";
