//! The arguments that more than one command has.

use crate::id;
use crate::row::{Argument, Takes, flag, lettered, option, word};

pub const FILE: Argument = word!(FILE, NeededValue, "The shard, or - for standard input");

pub const FIRST: Argument = word!(FIRST, NeededValue, "The first shard");

pub const SECOND: Argument = word!(SECOND, NeededValue, "The second shard");

pub const FILES: Argument = word!(
    FILE,
    ValuesOrList,
    "The shards; a folder stands for its .mdb files, and - for standard input"
);

pub const FILES_ALONE: Argument = word!(
    FILE,
    ValuesOrList,
    "The shards, taken together; a folder stands for its .mdb files"
);

pub const LOOKED_IN: Argument = word!(
    FILE,
    ValuesOrList,
    "The shards to look in, or without --hash a shard and the hashes; \
    a folder stands for its .mdb files, and - for standard input"
);

pub const LIST: Argument = option!(
    LIST,
    "files-from",
    Value,
    "A list of shards and folders, a path a line, or - for standard input"
);

pub const NULL: Argument = flag!(
    NULL,
    "Each path or hash of a list ends with a zero byte, not a line"
);

pub const HASH_LIST: Argument = option!(
    HASH_LIST,
    "hashes-from",
    Value,
    "A list of more hashes, one a line, or - for standard input"
);

pub const NOW: Argument = option!(
    NOW,
    "now",
    Value,
    "The time of creation, in seconds or as 2024-01-31T12:00:00Z; by default that of the clock"
);

pub const EXPIRED_BY: Argument = option!(
    NOW,
    "now",
    Value,
    "The time by which shards have expired; by default that of the clock"
);

pub const NEW_EXPIRY: Argument = option!(
    EXPIRY,
    "expiry",
    Value,
    "The time of expiry of what is written, or min: the earliest of those that are read; without, there is none"
);

pub const MEMORY: Argument = option!(
    MEMORY,
    "memory",
    Value,
    "About how much memory to take, as 1G; 256M by default"
);

pub const RECURSIVE: Argument = lettered!(
    'r',
    RECURSIVE,
    id::RECURSIVE,
    Nothing,
    "Reads the folders in a folder too, but for hidden ones and links"
);

pub const QUIET: Argument = lettered!(
    'q',
    QUIET,
    id::QUIET,
    Nothing,
    "Prints no progress or counts on a terminal"
);

pub const NO_AUX: Argument = flag!(NO_AUX, "Leaves the files' auxiliary rows out");

pub const LONG: Argument = flag!(LONG, "Prints all that is known of each");

pub const JSON: Argument = flag!(JSON, "Prints one JSON value a line");

pub const FORMAT: Argument = option!(
    VERSION,
    "format",
    Version,
    "The version of the format that is written, 3 by default; files with auxiliary rows need it"
);

pub const OUTPUT: Argument = lettered!(
    'o',
    OUTPUT,
    "output",
    NeededValue,
    "The file to write, or - for standard output"
);
