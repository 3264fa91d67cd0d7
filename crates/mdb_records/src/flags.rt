//! Flags of records, in digits and letters.

use std::fmt;
use xet_records::file_structs::{
    MDB_FILE_FLAG_WITH_AUX_EXT, MDB_FILE_FLAG_WITH_METADATA_EXT, MDB_FILE_FLAG_WITH_VERIFICATION,
};
use xet_records::xorb_structs::MDB_CHUNK_WITH_GLOBAL_DEDUP_FLAG;

/// A file's flags, with `v` for verification rows, `s` for a SHA-256 and `a` for an auxiliary row,
/// each `-` if there is none.
#[derive(Clone, Copy)]
pub struct FileFlags(pub u32);

/// A chunk's flags, with `g` if they mark it for the global index, else `-`.
#[derive(Clone, Copy)]
pub struct ChunkFlags(pub u32);

impl fmt::Display for FileFlags {
    fn fmt<W: fmt::Write>(&self, f: &mut fmt::Formatter<W>) -> fmt::Result {
        let flags = self.0;
        let verification = letter(flags, MDB_FILE_FLAG_WITH_VERIFICATION, 'v');
        let sha256 = letter(flags, MDB_FILE_FLAG_WITH_METADATA_EXT, 's');
        let aux = letter(flags, MDB_FILE_FLAG_WITH_AUX_EXT, 'a');
        write!(f, "{flags:08x} {verification}{sha256}{aux}")
    }
}

impl fmt::Display for ChunkFlags {
    fn fmt<W: fmt::Write>(&self, f: &mut fmt::Formatter<W>) -> fmt::Result {
        let flags = self.0;
        let global = letter(flags, MDB_CHUNK_WITH_GLOBAL_DEDUP_FLAG, 'g');
        write!(f, "{flags:08x} {global}")
    }
}

fn letter(flags: u32, flag: u32, letter: char) -> char {
    if flags & flag == 0 { '-' } else { letter }
}
