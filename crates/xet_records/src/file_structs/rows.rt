//! The rows of a file record after its header.

ghost use Rattle.std.specs.Prelude.{◌≡◌, ◌^◌, ◌<◌, [], ◌∷◌, length, IfOk, MatchResult, IfErr};
ghost use Rattle.xet_base.specs.Errors.{IsNoEnd};
ghost use Rattle.xet_records.specs.FileRow.{segment_row, hash_row, FitsSegment, FitsHashRow, clear};
ghost use Rattle.xet_records.specs.Decoding.{segment_at, hash_row_at};
ghost use Rattle.xet_records.specs.DecodingLaws.{segment_spelled, hash_row_spelled};
ghost use Rattle.xet_records.specs.XorbRecord.{total_bytes, segment_of};
ghost use Rattle.xet_records.specs.Rows.{WritesRow, ReadsWhole, ReadsCleared, LacksRow};

use super::{MDB_DEFAULT_FILE_FLAG, MDB_FILE_INFO_ENTRY_SIZE};
use crate::rows::{ROW_SIZE, Row, read_row, write_row};
use crate::xorb_structs::{XorbChunkSequenceEntry, XorbChunkSequenceHeader};
use std::io;
use std::io::{Read, Write};
use std::marker::Model;
use xet_base::fields::{put_hash, put_u32, put_u64, split_hash, split_u32, split_u64};
use xet_base::merklehash::{MerkleHash, Sha256};

/// A run of chunks of one xorb that a file consists of, in order.
#[derive(Clone, Copy, Default, Debug, PartialEq, Eq)]
pub struct FileDataSequenceEntry {
    pub xorb_hash: MerkleHash,
    pub xorb_flags: u32,
    /// The size of the segment in bytes, unpacked.
    pub unpacked_segment_bytes: u32,
    /// The index of the first chunk in the xorb.
    pub chunk_index_start: u32,
    /// The index after the last chunk in the xorb.
    pub chunk_index_end: u32,
}

impl FileDataSequenceEntry {
    /// A segment of the chunks from `chunk_index_start` up to `chunk_index_end`, with no flags.
    pub fn new(
        xorb_hash: MerkleHash,
        unpacked_segment_bytes: u32,
        chunk_index_start: u32,
        chunk_index_end: u32,
    ) -> Self
        ensures { result ≡ record {
          xorb_hash = xorb_hash;
          xorb_flags = 0;
          unpacked_segment_bytes = unpacked_segment_bytes;
          chunk_index_start = chunk_index_start;
          chunk_index_end = chunk_index_end;
        } }
    {
        FileDataSequenceEntry {
            xorb_hash,
            xorb_flags: MDB_DEFAULT_FILE_FLAG,
            unpacked_segment_bytes,
            chunk_index_start,
            chunk_index_end,
        }
    }

    /// The segment of these chunks of the xorb with this header, at the indices from
    /// `chunk_index_start` up to `chunk_index_end`; the default if there are no chunks. Requires
    /// that their total size fits `u32`.
    pub fn from_xorb_entries(
        metadata: &XorbChunkSequenceHeader,
        chunks: &[XorbChunkSequenceEntry],
        chunk_index_start: u32,
        chunk_index_end: u32,
    ) -> Self
        requires { total_bytes chunks.now < 2 ^ 32 }
        ensures { result ≡ segment_of metadata.now chunks.now chunk_index_start chunk_index_end }
    {
        if chunks.is_empty() {
            return Self::default();
        }
        let mut unpacked_segment_bytes = 0;
        for chunk in chunks {
            unpacked_segment_bytes += chunk.unpacked_segment_bytes;
        }
        FileDataSequenceEntry {
            xorb_hash: metadata.xorb_hash,
            xorb_flags: metadata.xorb_flags,
            unpacked_segment_bytes,
            chunk_index_start,
            chunk_index_end,
        }
    }

    /// Appends the row and returns 48, the number of bytes. The error is the writer's.
    pub fn serialize<W: Write>(&self, writer: &mut W) -> io::Result<usize>
        ensures bytes { IfOk result
            (WritesRow (W.contents writer.old) (W.contents writer.new) (segment_row self.now)) }
        ensures causes { IfErr result IsNoEnd }
    {
        write_row(self, writer)?;
        Ok(MDB_FILE_INFO_ENTRY_SIZE)
    }

    /// Reads the row with all its fields. `UnexpectedEof` if fewer than 48 bytes are left.
    pub fn deserialize<R: Read>(reader: &mut R) -> io::Result<Self>
        ensures { MatchResult result
            (ReadsWhole segment_row FitsSegment (R.remaining reader.old) (R.remaining reader.new))
            (LacksRow (R.remaining reader.old)) }
    {
        read_row(reader)
    }
}

impl Row for FileDataSequenceEntry {
    ghost row_bytes = { segment_row };

    ghost Fits = { FitsSegment };

    ghost as_read = { λ s. s };

    ghost row_at = { segment_at };

    ghost spelled = { segment_spelled };

    #[tactic(auto, unfolding(crate::specs::FileRow::segment_row))]
    #[inline(always)]
    fn to_bytes(&self) -> [u8; ROW_SIZE] {
        let mut row = [0u8; ROW_SIZE];
        let at = put_hash(&mut row, 0, &self.xorb_hash);
        let at = put_u32(&mut row, at, self.xorb_flags);
        let at = put_u32(&mut row, at, self.unpacked_segment_bytes);
        let at = put_u32(&mut row, at, self.chunk_index_start);
        put_u32(&mut row, at, self.chunk_index_end);
        row
    }

    #[tactic(auto, unfolding(crate::specs::FileRow::segment_row))]
    #[inline(always)]
    fn from_bytes(bytes: &[u8; ROW_SIZE]) -> Self {
        let (xorb_hash, rest) = split_hash(bytes);
        let (xorb_flags, rest) = split_u32(rest);
        let (unpacked_segment_bytes, rest) = split_u32(rest);
        let (chunk_index_start, rest) = split_u32(rest);
        let (chunk_index_end, _) = split_u32(rest);
        FileDataSequenceEntry {
            xorb_hash,
            xorb_flags,
            unpacked_segment_bytes,
            chunk_index_start,
            chunk_index_end,
        }
    }

    fn widths(self) {}
}

/// What each row of an optional part is: a hash, and sixteen bytes that are read as zero.
#[derive(Clone, Copy, Default, Debug, PartialEq, Eq)]
pub struct HashRow {
    pub hash: MerkleHash,
    pub _unused: [u64; 2],
}

impl Row for HashRow {
    ghost row_bytes = { hash_row };

    ghost Fits = { FitsHashRow };

    ghost as_read = { clear };

    ghost row_at = { hash_row_at };

    ghost spelled = { hash_row_spelled };

    #[tactic(auto, unfolding(crate::specs::FileRow::hash_row))]
    #[inline(always)]
    fn to_bytes(&self) -> [u8; ROW_SIZE] {
        let mut row = [0u8; ROW_SIZE];
        let at = put_hash(&mut row, 0, &self.hash);
        let at = put_u64(&mut row, at, self._unused[0]);
        put_u64(&mut row, at, self._unused[1]);
        row
    }

    #[inline(always)]
    fn from_bytes(bytes: &[u8; ROW_SIZE]) -> Self {
        let (hash, rest) = split_hash(bytes);
        let (_first, rest) = split_u64(rest);
        let (_second, _) = split_u64(rest);
        HashRow {
            hash,
            _unused: [0; 2],
        }
    }

    fn widths(self) {
        two_words(&self._unused);
    }
}

// The two words of a slice. Called for its contract alone, by which the slice is two numbers that
// fit `u64`.
fn two_words(words: &[u64]) -> (u64, u64)
    requires { length words.now ≡ 2 }
    ensures { words.now ≡ result.0 ∷ result.1 ∷ [] }
{
    (words[0], words[1])
}

/// The hash over a segment's chunks, for verifying them. Contracts see it as a `HashRow`.
#[derive(Clone, Copy, Default, Debug, PartialEq, Eq)]
pub struct FileVerificationEntry {
    pub range_hash: MerkleHash,
    pub _unused: [u64; 2],
}

impl Model for FileVerificationEntry {
    ghost use Rattle.xet_records.specs.declared.file_structs.rows.HashRow.{HashRow};

    ghost Value = { HashRow };

    ghost view = { λ row. record { hash = row.range_hash; _unused = row._unused } };

    ghost inverse = { λ row. record { range_hash = row.hash; _unused = row._unused } };
}

impl FileVerificationEntry {
    /// A row of this hash, with zero reserved words.
    pub fn new(range_hash: MerkleHash) -> Self
        ensures { result ≡ record { hash = range_hash; _unused = 0 ∷ 0 ∷ [] } }
    {
        FileVerificationEntry {
            range_hash,
            _unused: [0; 2],
        }
    }

    #[inline(always)]
    fn row(&self) -> HashRow
        ensures { result ≡ self.now }
    {
        HashRow {
            hash: self.range_hash,
            _unused: self._unused,
        }
    }

    /// Appends the row and returns 48, the number of bytes. The error is the writer's.
    pub fn serialize<W: Write>(&self, writer: &mut W) -> io::Result<usize>
        ensures bytes { IfOk result
            (WritesRow (W.contents writer.old) (W.contents writer.new) (hash_row self.now)) }
        ensures causes { IfErr result IsNoEnd }
    {
        write_row(self, writer)?;
        Ok(MDB_FILE_INFO_ENTRY_SIZE)
    }

    /// Reads the row, and sets its reserved words to zero. `UnexpectedEof` if fewer than 48 bytes
    /// are left.
    pub fn deserialize<R: Read>(reader: &mut R) -> io::Result<Self>
        ensures { MatchResult result
            (ReadsCleared hash_row FitsHashRow clear (R.remaining reader.old)
            (R.remaining reader.new))
            (LacksRow (R.remaining reader.old)) }
    {
        read_row(reader)
    }
}

impl Row for FileVerificationEntry {
    ghost row_bytes = { hash_row };

    ghost Fits = { FitsHashRow };

    ghost as_read = { clear };

    ghost row_at = { hash_row_at };

    ghost spelled = { hash_row_spelled };

    #[inline(always)]
    fn to_bytes(&self) -> [u8; ROW_SIZE] {
        self.row().to_bytes()
    }

    #[inline(always)]
    fn from_bytes(bytes: &[u8; ROW_SIZE]) -> Self {
        FileVerificationEntry::new(HashRow::from_bytes(bytes).hash)
    }

    fn widths(self) {
        self.row().widths();
    }
}

/// The file's SHA-256. Contracts see it as a `HashRow`.
#[derive(Clone, Copy, Default, Debug, PartialEq, Eq)]
pub struct FileMetadataExt {
    pub sha256: Sha256,
    pub _unused: [u64; 2],
}

impl Model for FileMetadataExt {
    ghost use Rattle.xet_records.specs.declared.file_structs.rows.HashRow.{HashRow};

    ghost Value = { HashRow };

    ghost view = { λ row. record { hash = row.sha256; _unused = row._unused } };

    ghost inverse = { λ row. record { sha256 = row.hash; _unused = row._unused } };
}

impl FileMetadataExt {
    /// A row of this SHA-256, with zero reserved words.
    pub fn new(sha256: Sha256) -> Self
        ensures { result ≡ record { hash = sha256; _unused = 0 ∷ 0 ∷ [] } }
    {
        FileMetadataExt {
            sha256,
            _unused: [0; 2],
        }
    }

    #[inline(always)]
    fn row(&self) -> HashRow
        ensures { result ≡ self.now }
    {
        HashRow {
            hash: self.sha256,
            _unused: self._unused,
        }
    }

    /// Appends the row and returns 48, the number of bytes. The error is the writer's.
    pub fn serialize<W: Write>(&self, writer: &mut W) -> io::Result<usize>
        ensures bytes { IfOk result
            (WritesRow (W.contents writer.old) (W.contents writer.new) (hash_row self.now)) }
        ensures causes { IfErr result IsNoEnd }
    {
        write_row(self, writer)?;
        Ok(MDB_FILE_INFO_ENTRY_SIZE)
    }

    /// Reads the row, and sets its reserved words to zero. `UnexpectedEof` if fewer than 48 bytes
    /// are left.
    pub fn deserialize<R: Read>(reader: &mut R) -> io::Result<Self>
        ensures { MatchResult result
            (ReadsCleared hash_row FitsHashRow clear (R.remaining reader.old)
            (R.remaining reader.new))
            (LacksRow (R.remaining reader.old)) }
    {
        read_row(reader)
    }
}

impl Row for FileMetadataExt {
    ghost row_bytes = { hash_row };

    ghost Fits = { FitsHashRow };

    ghost as_read = { clear };

    ghost row_at = { hash_row_at };

    ghost spelled = { hash_row_spelled };

    #[inline(always)]
    fn to_bytes(&self) -> [u8; ROW_SIZE] {
        self.row().to_bytes()
    }

    #[inline(always)]
    fn from_bytes(bytes: &[u8; ROW_SIZE]) -> Self {
        FileMetadataExt::new(HashRow::from_bytes(bytes).hash)
    }

    fn widths(self) {
        self.row().widths();
    }
}

/// The auxiliary row: a further hash of the file. Version 2 of the format does not have it.
/// Contracts see it as a `HashRow`.
#[derive(Clone, Copy, Default, Debug, PartialEq, Eq)]
pub struct FileAuxExt {
    pub aux_hash: MerkleHash,
    pub _unused: [u64; 2],
}

impl Model for FileAuxExt {
    ghost use Rattle.xet_records.specs.declared.file_structs.rows.HashRow.{HashRow};

    ghost Value = { HashRow };

    ghost view = { λ row. record { hash = row.aux_hash; _unused = row._unused } };

    ghost inverse = { λ row. record { aux_hash = row.hash; _unused = row._unused } };
}

impl FileAuxExt {
    /// A row of this hash, with zero reserved words.
    pub fn new(aux_hash: MerkleHash) -> Self
        ensures { result ≡ record { hash = aux_hash; _unused = 0 ∷ 0 ∷ [] } }
    {
        FileAuxExt {
            aux_hash,
            _unused: [0; 2],
        }
    }

    #[inline(always)]
    fn row(&self) -> HashRow
        ensures { result ≡ self.now }
    {
        HashRow {
            hash: self.aux_hash,
            _unused: self._unused,
        }
    }

    /// Appends the row and returns 48, the number of bytes. The error is the writer's.
    pub fn serialize<W: Write>(&self, writer: &mut W) -> io::Result<usize>
        ensures bytes { IfOk result
            (WritesRow (W.contents writer.old) (W.contents writer.new) (hash_row self.now)) }
        ensures causes { IfErr result IsNoEnd }
    {
        write_row(self, writer)?;
        Ok(MDB_FILE_INFO_ENTRY_SIZE)
    }

    /// Reads the row, and sets its reserved words to zero. `UnexpectedEof` if fewer than 48 bytes
    /// are left.
    pub fn deserialize<R: Read>(reader: &mut R) -> io::Result<Self>
        ensures { MatchResult result
            (ReadsCleared hash_row FitsHashRow clear (R.remaining reader.old)
            (R.remaining reader.new))
            (LacksRow (R.remaining reader.old)) }
    {
        read_row(reader)
    }
}

impl Row for FileAuxExt {
    ghost row_bytes = { hash_row };

    ghost Fits = { FitsHashRow };

    ghost as_read = { clear };

    ghost row_at = { hash_row_at };

    ghost spelled = { hash_row_spelled };

    #[inline(always)]
    fn to_bytes(&self) -> [u8; ROW_SIZE] {
        self.row().to_bytes()
    }

    #[inline(always)]
    fn from_bytes(bytes: &[u8; ROW_SIZE]) -> Self {
        FileAuxExt::new(HashRow::from_bytes(bytes).hash)
    }

    fn widths(self) {
        self.row().widths();
    }
}
