//! The command `export`.

use crate::arguments::{FILE, FORMAT, NO_AUX, NOW, OUTPUT};
use crate::id;
use crate::row::{Argument, Row, Takes, flag, option};

pub const ROW: Row = Row {
    name: "export",
    about: "Writes a shard with its chunk hashes under a key",
    examples: EXAMPLES,
    usage: None,
    arguments: &[
        FILE,
        option!(KEY, "key", NeededValue, "The key: 64 hexadecimal digits"),
        NOW,
        option!(VALID, "valid", NeededNumber, "The seconds until the expiry"),
        flag!(NO_FILES, "Leaves the files out"),
        NO_AUX,
        flag!(NO_XORB_TABLE, "Leaves the xorb table out"),
        flag!(NO_CHUNK_TABLE, "Leaves the chunk table out"),
        FORMAT,
        OUTPUT,
    ],
};

const EXAMPLES: &str = "Example:\n  mdb export a.mdb --now 1700000000 --valid 86400 -o keyed.mdb \
    --key 0000000000000001000000000000000200000000000000030000000000000004";
