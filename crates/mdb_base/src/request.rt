//! Commands as values.

use mdb_files::files::STANDARD_STREAM;
use mdb_records::line::Style;
use mdb_report::inquiry::Inquiry;
use shard_bytes::combine::Operation;
use shard_bytes::export::Export;
use shard_bytes::minimal::Subset;
use xet_core_structures::file_structs::KeptParts;
use xet_core_structures::merklehash::{HMACKey, MerkleHash};
use xet_core_structures::record_reader::FormatVersion;

/// The bytes of memory that are taken if none are given.
pub const DEFAULT_MEMORY: u64 = 256 << 20;

/// What is asked for.
#[derive(Drop)]
pub enum Request<'a> {
    /// Print answers about shards.
    Inspect(Sources<'a>, Inquiry, PrintOptions),
    /// Print what does not fit together in shards.
    Collect(Sources<'a>, Collection),
    /// Write an overview of shards as a page.
    Report(Sources<'a>, OverviewOptions<'a>),
    /// Write a shard.
    Make(MakeCommand<'a>, Target<'a>),
    /// Write a merge of shards.
    Merge(Sources<'a>, Merge<'a>),
}

impl Request<'_> {
    /// How failures are printed.
    pub fn style(&self) -> Style {
        match self {
            Request::Inspect(_, _, printing) => printing.style,
            Request::Collect(_, collection) => collection.style,
            _ => Style::Text,
        }
    }
}

/// How answers are printed.
#[derive(Clone, Copy)]
pub struct PrintOptions {
    pub style: Style,
    /// The order of the shards; `None` as they are named.
    pub sort: Option<Sort>,
    /// The time by which shards have expired, in seconds, if known.
    pub now: Option<u64>,
    /// Whether no progress is shown.
    pub quiet: bool,
}

/// What shards are sorted by, in ascending order.
#[derive(Clone, Copy)]
pub enum Sort {
    Name,
    /// The number of bytes.
    Size,
    /// The expiry, those without one last.
    Expiry,
}

/// How what does not fit together in shards is found and printed.
#[derive(Clone, Copy)]
pub struct Collection {
    pub style: Style,
    /// About how many bytes of memory are taken.
    pub memory: u64,
    /// Whether no progress is shown.
    pub quiet: bool,
}

/// How an overview of shards is made.
#[derive(Clone, Copy)]
pub struct OverviewOptions<'a> {
    /// The path, or `-` for standard output.
    pub output: &'a str,
    /// About how many bytes of memory are taken.
    pub memory: u64,
    /// The time by which shards have expired, in seconds, if known.
    pub now: Option<u64>,
    /// Whether no progress is shown.
    pub quiet: bool,
}

/// Where a shard is written, and in which version.
#[derive(Clone, Copy)]
pub struct Target<'a> {
    /// A path, or `-` for standard output; of a merge by keys or in groups a folder.
    pub path: &'a str,
    pub version: FormatVersion,
}

/// The words that name the shards to read.
#[derive(Drop)]
pub struct Sources<'a> {
    /// Paths of shards and of folders.
    pub words: Vec<&'a str>,
    /// A file that lists more of them.
    pub list: Option<&'a str>,
    /// A list of more hashes.
    pub hashes: Option<HashList<'a>>,
    /// The byte that ends a path in the list.
    pub end: u8,
    /// How failures are printed.
    pub style: Style,
    /// Whether folders in a folder are read.
    pub recursive: bool,
    /// Whether a folder without shards is no failure.
    pub may_be_empty: bool,
}

impl Sources<'_> {
    /// Whether a list is read from standard input.
    pub fn reads_input_as_list(&self) -> bool {
        if let Some(hashes) = self.hashes
            && hashes.path == STANDARD_STREAM
        {
            return true;
        }
        self.list == Some(STANDARD_STREAM)
    }
}

/// A file that lists hashes.
#[derive(Clone, Copy)]
pub struct HashList<'a> {
    pub path: &'a str,
    /// The byte that ends each hash.
    pub end: u8,
}

/// A command that writes a shard.
#[derive(Drop)]
pub enum MakeCommand<'a> {
    Combine(Operation, &'a str, &'a str),
    Export(&'a str, Export),
    Minimal(&'a str, u64, KeptParts),
    /// The list has more xorbs to keep.
    Subset(&'a str, Subset, Option<HashList<'a>>, NewExpiry),
    Drop(Removal<'a>),
    /// The records in a file, one a line, with an expiry in seconds or none.
    Records(&'a str, Option<u64>),
}

/// Which records are taken out of a shard.
#[derive(Drop)]
pub struct Removal<'a> {
    pub file: &'a str,
    pub hashes: Vec<MerkleHash>,
    /// A list of more hashes.
    pub list: Option<HashList<'a>>,
    pub expiry: NewExpiry,
}

/// The expiry of what is written.
#[derive(Clone, Copy)]
pub enum NewExpiry {
    /// There is none.
    Unset,
    /// This time, in seconds.
    At(u64),
    /// The earliest of the inputs' expiries.
    Earliest,
}

/// How shards are merged.
#[derive(Clone, Copy)]
pub struct Merge<'a> {
    pub target: Target<'a>,
    pub strictness: Strictness,
    /// Whether each file is reported as it is read.
    pub verbose: bool,
    /// Whether no progress is shown.
    pub quiet: bool,
    /// Whether shards are merged by key, into a folder.
    pub by_key: bool,
    pub expiry: NewExpiry,
    /// About how many bytes a merge in rounds takes; `None` if all shards are in memory.
    pub memory: Option<u64>,
    /// The time by which shards have expired, in seconds, if known.
    pub now: Option<u64>,
    /// Whether expired shards are left out.
    pub drops_expired: bool,
    /// Whether what can't be read is left out.
    pub skips_unreadable: bool,
    /// How shards are merged in groups, into a folder; `None` if as one.
    pub compaction: Option<Compaction>,
}

impl Merge<'_> {
    /// Whether merged shards are removed.
    pub fn removes_inputs(&self) -> bool {
        match self.compaction {
            Some(compaction) => compaction.remove_inputs,
            None => false,
        }
    }
}

/// How shards are merged in groups.
#[derive(Clone, Copy)]
pub struct Compaction {
    /// The most bytes of a group's shards together.
    pub max_size: u64,
    /// The key of the hashes by which merges are named.
    pub hash_key: HMACKey,
    /// Whether the shards are removed once the device has their merges.
    pub remove_inputs: bool,
}

/// What is done if merged shards differ.
#[derive(Clone, Copy)]
pub enum Strictness {
    /// One record is kept, and the difference is reported.
    Lenient,
    /// They are not merged.
    Strict,
}
