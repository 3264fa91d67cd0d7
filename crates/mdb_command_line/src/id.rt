//! The ids of arguments. Usage shows them as the names of values, as `<HEX>`.

pub const FILE: &str = "FILE";

pub const FIRST: &str = "A";

pub const SECOND: &str = "B";

pub const LIST: &str = "LIST";

pub const HASHES: &str = "HASH";

pub const OUTPUT: &str = "OUT";

pub const KEY: &str = "HEX";

pub const HASH_KEY: &str = "KEY";

pub const NOW: &str = "NOW";

pub const VALID: &str = "VALID";

pub const EXPIRY: &str = "EXPIRY";

pub const XORBS: &str = "XORB";

pub const JSON: &str = "json";

pub const HUMAN: &str = "human";

pub const LONG: &str = "long";

pub const COSTS: &str = "costs";

pub const BRIEF: &str = "brief";

pub const NAME: &str = "name";

pub const DEEP: &str = "deep";

pub const FOLDER: &str = "FOLDER";

pub const VERSION: &str = "VERSION";

pub const VERBOSE: &str = "verbose";

pub const QUIET: &str = "quiet";

pub const RECURSIVE: &str = "recursive";

pub const SORT: &str = "BY";

pub const REMOVE_INPUTS: &str = "remove-inputs";

pub const STRICT: &str = "strict";

pub const MEMORY: &str = "SIZE";

pub const GROUPS: &str = "TO";

pub const MAX_SIZE: &str = "BYTES";

pub const DROP_EXPIRED: &str = "drop-expired";

pub const SKIP_UNREADABLE: &str = "skip-unreadable";

pub const HASH_LIST: &str = "HASHES";

pub const NULL: &str = "null";

pub const OF_XORBS: &str = "xorbs";

pub const VERIFICATION: &str = "verification";

pub const NO_FILES: &str = "no-files";

pub const NO_AUX: &str = "no-aux";

pub const NO_XORB_TABLE: &str = "no-xorb-table";

pub const NO_CHUNK_TABLE: &str = "no-chunk-table";
