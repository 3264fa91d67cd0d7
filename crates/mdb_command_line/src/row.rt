//! The row of a command: what it is about, and its arguments.

/// The versions of the format that can be written.
pub const VERSIONS: &[&str] = &["2", "3"];

/// What shards can be sorted by.
pub const SORTS: &[&str] = &["name", "size", "expiry"];

/// An argument.
#[derive(Clone, Copy)]
pub struct Argument {
    pub id: &'static str,
    /// Its name behind `--`; without, it is a word.
    pub long: Option<&'static str>,
    /// The letter that stands for the name, behind `-`.
    pub letter: Option<char>,
    pub help: &'static str,
    pub takes: Takes,
}

/// What an argument takes.
#[derive(Clone, Copy)]
pub enum Takes {
    /// Nothing: it is a flag.
    Nothing,
    /// A value that may be left out.
    Value,
    /// A value that has to be there.
    NeededValue,
    /// A number that has to be there.
    NeededNumber,
    /// Values that have to be there, if no list is.
    ValuesOrList,
    /// A value, each time that it is given.
    EachValue,
    /// A version of the format.
    Version,
    /// Where to write, if no folder is given.
    OutputOrFolder,
    /// The folder to write to, in place of an output.
    Folder,
    /// The folder to write groups to, in place of an output or a folder.
    Groups,
    /// Nothing: it is a flag that does not go with costs.
    NothingWithoutCosts,
    /// Nothing: it is a flag that does not go with JSON.
    NothingWithoutJson,
    /// A value that does not go with groups.
    ValueWithoutGroups,
    /// A value that goes with groups alone.
    ValueWithGroups,
    /// Nothing: it is a flag that goes with groups alone.
    NothingWithGroups,
    /// What shards are sorted by, which goes with brief answers alone.
    Sort,
}

/// A command.
#[derive(Clone, Copy)]
pub struct Row {
    pub name: &'static str,
    pub about: &'static str,
    pub examples: &'static str,
    /// Its usage; without, it is made of the arguments.
    pub usage: Option<&'static str>,
    pub arguments: &'static [Argument],
}

// The macros of arguments name `id`, `Argument` and `Takes`, which their callers import.

// A word without a name.
macro_rules! word {
    ($id:ident, $takes:ident, $help:expr) => {
        Argument { id: id::$id, long: None, letter: None, help: $help, takes: Takes::$takes }
    };
}

macro_rules! option {
    ($id:ident, $long:expr, $takes:ident, $help:expr) => {
        Argument {
            id: id::$id,
            long: Some($long),
            letter: None,
            help: $help,
            takes: Takes::$takes,
        }
    };
}

// An option that also has a letter.
macro_rules! lettered {
    ($letter:expr, $id:ident, $long:expr, $takes:ident, $help:expr) => {
        Argument {
            id: id::$id,
            long: Some($long),
            letter: Some($letter),
            help: $help,
            takes: Takes::$takes,
        }
    };
}

// A flag, whose name is its id.
macro_rules! flag {
    ($id:ident, $help:expr) => {
        Argument {
            id: id::$id,
            long: Some(id::$id),
            letter: None,
            help: $help,
            takes: Takes::Nothing,
        }
    };
}

pub(crate) use flag;
pub(crate) use lettered;
pub(crate) use option;
pub(crate) use word;
