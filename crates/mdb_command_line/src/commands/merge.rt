//! The command `merge`.

use crate::arguments::{EXPIRED_BY, FILES, FORMAT, LIST, NEW_EXPIRY, NULL, QUIET, RECURSIVE};
use crate::id;
use crate::row::{Argument, Row, Takes, flag, lettered, option};

pub const ROW: Row = Row {
    name: "merge",
    about: "Writes the union of any number of shards",
    examples: EXAMPLES,
    usage: None,
    arguments: &[
        FILES,
        RECURSIVE,
        LIST,
        NULL,
        flag!(
            STRICT,
            "Fails with status 3 if shards have different records with one hash, or a record that no shard may have"
        ),
        flag!(VERBOSE, "Reports each file as it is read"),
        QUIET,
        flag!(
            DROP_EXPIRED,
            "Leaves shards out whose expiry has come by --now"
        ),
        flag!(
            SKIP_UNREADABLE,
            "Leaves out and names files that can't be read or are no whole shards; if there are any, the status is 4"
        ),
        EXPIRED_BY,
        option!(
            MEMORY,
            "memory",
            ValueWithoutGroups,
            "About how much memory to take, as 256M; the shards are then read and merged in parts"
        ),
        NEW_EXPIRY,
        FORMAT,
        option!(
            FOLDER,
            "by-key",
            Folder,
            "The folder to write to, a shard for each key, by the key's name"
        ),
        option!(
            GROUPS,
            "to",
            Groups,
            "The folder to write to, a shard for each group of files, by the hash of its bytes"
        ),
        option!(
            MAX_SIZE,
            "max-size",
            ValueWithGroups,
            "With --to: the most bytes that the files of a group have together, as 64M"
        ),
        option!(
            HASH_KEY,
            "hash-key",
            ValueWithGroups,
            "With --to: the key of the hashes, of 64 hexadecimal digits"
        ),
        option!(
            REMOVE_INPUTS,
            id::REMOVE_INPUTS,
            NothingWithGroups,
            "With --to: removes the files once the device has their merges, which are strict"
        ),
        lettered!(
            'o',
            OUTPUT,
            "output",
            OutputOrFolder,
            "The file to write, or - for standard output"
        ),
    ],
};

const EXAMPLES: &str =
    "If no file is left to merge, the exit status is 1. With --to there is then nothing to do, and it is 0.

Examples:\n  mdb merge cache -o all.mdb\n  mdb merge --files-from list -o all.mdb
  mdb merge cache -o all.mdb --memory 256M
  mdb merge -r cache -o all.mdb --skip-unreadable
  mdb merge session --to store --max-size 64M --hash-key \
0000000000000001000000000000000200000000000000030000000000000004";
