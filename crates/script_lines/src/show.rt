//! How values are printed: short, and in the form in which commands take them.

use crate::ranges::hex_digits;
use placed_shards::findings::{Disagreement, MalformedRecord, RecordHash};
use shard_bytes::check::Finding;
use std::alloc::Global;
use std::io::{self, Write};
use std::rc::Rc;
use xet_core_structures::file_structs::{
    FileAuxExt, FileDataSequenceEntry, FileDataSequenceHeader, FileMetadataExt,
    FileVerificationEntry, MDBFileInfo,
};
use xet_core_structures::merklehash::{HMACKey, MerkleHash};
use xet_core_structures::xorb_structs::{
    MDBXorbInfo, XorbChunkSequenceEntry, XorbChunkSequenceHeader,
};

/// What is printed as a word, or as words of a line.
pub trait Show {
    /// Appends the words, and no end of line. The error is that of an allocation.
    fn show(&self, out: &mut Vec<u8>) -> io::Result<()>;
}

/// Prints a value on a line.
pub fn show_line<T: Show>(value: &T, out: &mut Vec<u8>) -> io::Result<()> {
    value.show(out)?;
    writeln!(out)
}

/// Prints values one after another, with `front` before the first and `between` before each other.
pub fn show_joined<T: Show>(
    front: &str,
    values: &[T],
    between: &str,
    out: &mut Vec<u8>,
) -> io::Result<()> {
    let mut before = front;
    for value in values {
        write!(out, "{before}")?;
        value.show(out)?;
        before = between;
    }
    Ok(())
}

/// Prints how many values there are, and then these, on a line.
pub fn show_counted<T: Show>(values: &[T], out: &mut Vec<u8>) -> io::Result<()> {
    let count = values.len();
    write!(out, "{count}")?;
    show_joined(": ", values, " ", out)?;
    writeln!(out)
}

/// Prints bytes as hexadecimal digits on a line.
pub fn show_bytes(alloc: Global, bytes: &[u8], out: &mut Vec<u8>) -> io::Result<()> {
    let digits = hex_digits(alloc, bytes)?;
    writeln!(out, "{digits}")
}

// Prints a field of a header unless it has its usual value.
fn show_unless(usual: u64, name: &str, value: u64, out: &mut Vec<u8>) -> io::Result<()> {
    if value == usual {
        return Ok(());
    }
    write!(out, " {name}={value}")
}

// One a line, or `none`.
impl<T: Show> Show for Vec<T> {
    fn show(&self, out: &mut Vec<u8>) -> io::Result<()> {
        if self.is_empty() {
            return write!(out, "none");
        }
        show_joined("", self.as_slice(), "\n", out)
    }
}

impl<T: Show> Show for Option<T> {
    fn show(&self, out: &mut Vec<u8>) -> io::Result<()> {
        match self {
            Some(value) => value.show(out),
            None => write!(out, "none"),
        }
    }
}

impl<T: Show> Show for Rc<T> {
    fn show(&self, out: &mut Vec<u8>) -> io::Result<()> {
        self.as_ref().show(out)
    }
}

impl Show for u32 {
    fn show(&self, out: &mut Vec<u8>) -> io::Result<()> {
        write!(out, "{self}")
    }
}

impl Show for u64 {
    fn show(&self, out: &mut Vec<u8>) -> io::Result<()> {
        write!(out, "{self}")
    }
}

// A range of bytes.
impl Show for (u64, u64) {
    fn show(&self, out: &mut Vec<u8>) -> io::Result<()> {
        write!(out, "{}-{}", self.0, self.1)
    }
}

// The row of a xorb, and the index of a chunk.
impl Show for (u32, u32) {
    fn show(&self, out: &mut Vec<u8>) -> io::Result<()> {
        write!(out, "{}:{}", self.0, self.1)
    }
}

// A row of the table of xorbs.
impl Show for (u64, u32) {
    fn show(&self, out: &mut Vec<u8>) -> io::Result<()> {
        write!(out, "{} {}", self.0, self.1)
    }
}

// A row of the table of chunks.
impl Show for (u64, (u32, u32)) {
    fn show(&self, out: &mut Vec<u8>) -> io::Result<()> {
        let (word, (row, index)) = *self;
        write!(out, "{word} {row} {index}")
    }
}

// n for the small hash n, with the words n, 1, 0, 0, else 64 digits.
impl Show for MerkleHash {
    fn show(&self, out: &mut Vec<u8>) -> io::Result<()> {
        let word = self[0];
        if *self == MerkleHash::from([word, 1, 0, 0]) {
            write!(out, "{word}")
        } else {
            write!(out, "{self}")
        }
    }
}

/// Prints a key as a word: `0` for the key that is all zero, else as a hash.
pub fn show_key(key: HMACKey, out: &mut Vec<u8>) -> io::Result<()> {
    if key == HMACKey::default() {
        return write!(out, "0");
    }
    key.show(out)
}

// A chunk's hash, and where the chunk ends.
impl Show for (MerkleHash, u32) {
    fn show(&self, out: &mut Vec<u8>) -> io::Result<()> {
        self.0.show(out)?;
        write!(out, ":{}", self.1)
    }
}

impl Show for FileDataSequenceEntry {
    fn show(&self, out: &mut Vec<u8>) -> io::Result<()> {
        self.xorb_hash.show(out)?;
        let start = self.chunk_index_start;
        let end = self.chunk_index_end;
        let bytes = self.unpacked_segment_bytes;
        write!(out, ":{start}:{end}:{bytes}")?;
        let flags = self.xorb_flags;
        if flags != 0 {
            write!(out, ":{flags}")?;
        }
        Ok(())
    }
}

// A run of chunks: their number, and their segment.
impl Show for (usize, FileDataSequenceEntry) {
    fn show(&self, out: &mut Vec<u8>) -> io::Result<()> {
        write!(out, "run {} ", self.0)?;
        self.1.show(out)
    }
}

impl Show for FileVerificationEntry {
    fn show(&self, out: &mut Vec<u8>) -> io::Result<()> {
        show_row(self.range_hash, self._unused, out)
    }
}

impl Show for FileMetadataExt {
    fn show(&self, out: &mut Vec<u8>) -> io::Result<()> {
        show_row(self.sha256, self._unused, out)
    }
}

impl Show for FileAuxExt {
    fn show(&self, out: &mut Vec<u8>) -> io::Result<()> {
        show_row(self.aux_hash, self._unused, out)
    }
}

// Prints a hash, and the two reserved words behind it, if they are not both zero.
fn show_row(hash: MerkleHash, reserved: [u64; 2], out: &mut Vec<u8>) -> io::Result<()> {
    hash.show(out)?;
    let [first, second] = reserved;
    if first != 0 || second != 0 {
        write!(out, "/{first}/{second}")?;
    }
    Ok(())
}

impl Show for XorbChunkSequenceEntry {
    fn show(&self, out: &mut Vec<u8>) -> io::Result<()> {
        self.chunk_hash.show(out)?;
        let size = self.unpacked_segment_bytes;
        let start = self.chunk_byte_range_start;
        write!(out, ":{size}:{start}")?;
        let flags = self.flags;
        let unused = self._unused;
        if flags != 0 || unused != 0 {
            write!(out, ":{flags}:{unused}")?;
        }
        Ok(())
    }
}

impl Show for FileDataSequenceHeader {
    fn show(&self, out: &mut Vec<u8>) -> io::Result<()> {
        show_file_header(self, 0, out)
    }
}

// Prints the words of a file's header, of which so many segments follow.
fn show_file_header(
    header: &FileDataSequenceHeader,
    segments: usize,
    out: &mut Vec<u8>,
) -> io::Result<()> {
    header.file_hash.show(out)?;
    show_unless(0, "flags", u64::from(header.file_flags), out)?;
    show_unless(segments as u64, "count", u64::from(header.num_entries), out)?;
    show_unless(0, "unused", header._unused, out)
}

impl Show for MDBFileInfo {
    fn show(&self, out: &mut Vec<u8>) -> io::Result<()> {
        show_file_header(&self.metadata, self.segments.len(), out)?;
        show_joined(" v=", self.verification.as_slice(), ",", out)?;
        if let Some(row) = &self.metadata_ext {
            write!(out, " s=")?;
            row.show(out)?;
        }
        if let Some(row) = &self.aux_ext {
            write!(out, " x=")?;
            row.show(out)?;
        }
        show_joined(" ", self.segments.as_slice(), " ", out)
    }
}

impl Show for XorbChunkSequenceHeader {
    fn show(&self, out: &mut Vec<u8>) -> io::Result<()> {
        show_xorb_header(self, 0, out)
    }
}

// Prints the words of a xorb's header, of which so many chunks follow.
fn show_xorb_header(
    header: &XorbChunkSequenceHeader,
    chunks: usize,
    out: &mut Vec<u8>,
) -> io::Result<()> {
    header.xorb_hash.show(out)?;
    show_unless(0, "flags", u64::from(header.xorb_flags), out)?;
    show_unless(chunks as u64, "count", u64::from(header.num_entries), out)?;
    let bytes = header.num_bytes_in_xorb;
    let disk = header.num_bytes_on_disk;
    write!(out, " bytes={bytes} disk={disk}")
}

// The offset of a header, and the header.
impl Show for (XorbChunkSequenceHeader, u64) {
    fn show(&self, out: &mut Vec<u8>) -> io::Result<()> {
        write!(out, "{} ", self.1)?;
        self.0.show(out)
    }
}

impl Show for MDBXorbInfo {
    fn show(&self, out: &mut Vec<u8>) -> io::Result<()> {
        show_xorb_header(&self.metadata, self.chunks.len(), out)?;
        show_joined(" ", self.chunks.as_slice(), " ", out)
    }
}

// A file's hash, the bytes of its segments and of its verification rows, and its SHA-256.
impl Show
    for (
        MerkleHash,
        (u64, u64),
        Option<(u64, u64)>,
        Option<MerkleHash>,
    ) {
    fn show(&self, out: &mut Vec<u8>) -> io::Result<()> {
        let (hash, segments, verification, sha256) = self;
        hash.show(out)?;
        show_joined(" ", &[Some(*segments), *verification], " ", out)?;
        show_joined(" ", &[*sha256], "", out)
    }
}

// `file` or `xorb`, and the hash.
impl Show for RecordHash {
    fn show(&self, out: &mut Vec<u8>) -> io::Result<()> {
        let (kind, hash) = match self {
            RecordHash::File(hash) => ("file ", *hash),
            RecordHash::Xorb(hash) => ("xorb ", *hash),
        };
        out.write_all(kind.as_bytes())?;
        hash.show(out)
    }
}

// `file` or `xorb`, the hash, and the numbers of the two buffers.
impl Show for Disagreement {
    fn show(&self, out: &mut Vec<u8>) -> io::Result<()> {
        self.record_hash.show(out)?;
        write!(out, " {} {}", self.first, self.second)
    }
}

impl Show for Finding {
    fn show(&self, out: &mut Vec<u8>) -> io::Result<()> {
        write!(out, "{self:?}")
    }
}

// The word `malformed`, whose the hash is, the hash, and the number of the buffer.
impl Show for MalformedRecord {
    fn show(&self, out: &mut Vec<u8>) -> io::Result<()> {
        out.write_all(b"malformed ")?;
        self.record_hash.show(out)?;
        write!(out, " {}", self.input)
    }
}
