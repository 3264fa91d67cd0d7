//! The command `find`.

use crate::arguments::{EXPIRED_BY, HASH_LIST, JSON, LIST, LOOKED_IN, NULL, RECURSIVE};
use crate::id;
use crate::row::{Argument, Row, Takes, flag, option};

pub const ROW: Row = Row {
    name: "find",
    about: "Looks files up by their hashes",
    examples: EXAMPLES,
    usage: Some(USAGE),
    arguments: &[
        LOOKED_IN,
        RECURSIVE,
        LIST,
        option!(
            HASHES,
            "hash",
            EachValue,
            "The hash of a file, of 64 hexadecimal digits; it may be given again"
        ),
        HASH_LIST,
        NULL,
        option!(
            OF_XORBS,
            id::OF_XORBS,
            NothingWithoutCosts,
            "Looks xorbs up in place of files"
        ),
        flag!(COSTS, "Prints the seeks and the bytes read of each lookup"),
        EXPIRED_BY,
        JSON,
    ],
};

const USAGE: &str = "mdb find [OPTIONS] <FILE> <HASH>...
       mdb find [OPTIONS] --hash <HASH> <FILE>...";

const EXAMPLES: &str =
    "With more than one shard, or a folder or a list of them, each line begins with the shard's
name. A hash that a shard does not have is then reported only if no shard has it, or with --costs.

Examples:
  mdb find --costs a.mdb 0000000000000064000000000000000100000000000000000000000000000000
  mdb find --hash 0000000000000064000000000000000100000000000000000000000000000000 cache";
