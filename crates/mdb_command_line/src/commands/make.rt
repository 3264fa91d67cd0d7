//! The command `make`.

use crate::arguments::{FORMAT, OUTPUT};
use crate::id;
use crate::row::{Argument, Row, Takes, option, word};

pub const ROW: Row = Row {
    name: "make",
    about: "Writes a shard of records, as files and xorbs print them with --long --json",
    examples: EXAMPLES,
    usage: None,
    arguments: &[
        word!(
            FILE,
            NeededValue,
            "The records, one a line, or - for standard input"
        ),
        option!(
            EXPIRY,
            "expiry",
            Value,
            "The time of expiry; without, there is none"
        ),
        FORMAT,
        OUTPUT,
    ],
};

const EXAMPLES: &str = "Examples:\n  mdb files --long --json a.mdb > records
  mdb xorbs --long --json a.mdb >> records\n  mdb make records -o again.mdb";
