//! Stamps, by which changed or replaced files are noticed.

use std::fs::Metadata;
use std::os::unix::fs::MetadataExt;

/// A file's device and number, which all its names lead to.
#[derive(Clone, Copy, PartialEq, Eq)]
pub struct FileId {
    device: u64,
    node: u64,
}

impl FileId {
    /// The id in a file's metadata.
    pub fn of(there: &Metadata) -> FileId {
        FileId {
            device: there.dev(),
            node: there.ino(),
        }
    }
}

/// A file's id, size and time of last change: another file, or a changed one, has another stamp.
#[derive(Clone, Copy, PartialEq, Eq)]
pub struct Stamp {
    pub id: FileId,
    pub size: u64,
    seconds: i64,
    nanoseconds: i64,
}

impl Stamp {
    /// The stamp in a file's metadata.
    pub fn of(there: &Metadata) -> Stamp {
        Stamp {
            id: FileId::of(there),
            size: there.len(),
            seconds: there.mtime(),
            nanoseconds: there.mtime_nsec(),
        }
    }
}
