//! The command `minimal`.

use crate::arguments::{FILE, FORMAT, NO_AUX, NOW, OUTPUT};
use crate::id;
use crate::row::{Argument, Row, Takes, flag};

pub const ROW: Row = Row {
    name: "minimal",
    about: "Writes a shard without tables, with marks on the chunks at which files start",
    examples: EXAMPLES,
    usage: None,
    arguments: &[
        FILE,
        NOW,
        flag!(VERIFICATION, "Keeps the files' verification rows"),
        NO_AUX,
        FORMAT,
        OUTPUT,
    ],
};

const EXAMPLES: &str = "Example:\n  mdb minimal a.mdb --now 1700000000 -o minimal.mdb";
