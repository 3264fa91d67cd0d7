//! The command `query`.

use crate::arguments::{EXPIRED_BY, HASH_LIST, JSON, LIST, LOOKED_IN, NULL, RECURSIVE};
use crate::id;
use crate::row::{Argument, Row, Takes, option};

pub const ROW: Row = Row {
    name: "query",
    about: "Looks for a run of chunks in one xorb",
    examples: EXAMPLES,
    usage: Some(USAGE),
    arguments: &[
        LOOKED_IN,
        RECURSIVE,
        LIST,
        option!(
            HASHES,
            "hash",
            EachValue,
            "The hash of a chunk, of 64 hexadecimal digits; given again, of those that follow it"
        ),
        HASH_LIST,
        NULL,
        EXPIRED_BY,
        JSON,
    ],
};

const USAGE: &str = "mdb query [OPTIONS] <FILE> <HASH>...
       mdb query [OPTIONS] --hash <HASH> <FILE>...";

const EXAMPLES: &str =
    "With more than one shard, or a folder or a list of them, each line begins with the shard's
name. That a shard has no such run is then reported only if no shard has one.

Examples:
  mdb query a.mdb 0000000000000015000000000000000100000000000000000000000000000000
  mdb query --hash 0000000000000015000000000000000100000000000000000000000000000000 cache";
