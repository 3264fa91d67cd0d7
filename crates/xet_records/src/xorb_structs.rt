//! The rows and records of the xorb section.

mod view;

ghost use Rattle.std.specs.Prelude.{◌≡◌, ◌+◌, ◌*◌, ◌^◌, ◌<◌, ℕ, List, Some, ◌++◌, All, MatchResult, IfSome, OnOk, IfOk, IfErr, IsTrue, ◌↔◌};
ghost use Rattle.std.specs.Io.KnownBytes.{Appends, Consumes};
ghost use Rattle.xet_base.specs.Hash.{all_ones};
ghost use Rattle.xet_base.specs.Errors.{IsEndOfInput, IsDeviceError, IsWriteError, IsNoEnd};
ghost use Rattle.xet_records.specs.XorbRow.{xorb_header_row, chunk_row, FitsXorbHeader, FitsChunk, with_mark, IsEligibleChunk};
ghost use Rattle.xet_records.specs.Decoding.{xorb_header_at, chunk_at};
ghost use Rattle.xet_records.specs.DecodingLaws.{xorb_header_spelled, chunk_spelled};
ghost use Rattle.xet_records.specs.XorbRecord.{xorb_bookend, xorb_row_count, xorb_record_bytes, end_of_chunk, boundaries, HasItsChunks, IsStoredXorb, xorb_records};
ghost use Rattle.xet_records.specs.Rows.{WritesRow, ReadsWhole, LacksRow};
ghost use Rattle.xet_records.specs.Reading.{ReadsOrEnds, IsTruncatedRecord};

use crate::record_reader::{FormatVersion, MAX_ROWS_OF_RECORD, SectionRecord, read_record};
use crate::row_reader;
use crate::rows::{ROW_SIZE, Row, Rows, read_row, write_row, write_rows};
use std::alloc::Global;
use std::io;
use std::io::{Read, Write};
pub use view::MDBXorbInfoView;
use xet_base::error::{CoreError, Result};
use xet_base::fields::{put_hash, put_u32, split_hash, split_u32};
use xet_base::input::{ByteInput, OfReader};
use xet_base::merklehash::{MerkleHash, hash_is_global_dedup_eligible};

/// The flags of a xorb.
pub const MDB_DEFAULT_XORB_FLAG: u32 = 0;
/// The flag of a chunk that the global index keeps whatever its hash.
pub const MDB_CHUNK_WITH_GLOBAL_DEDUP_FLAG: u32 = 1 << 31;

/// The most bytes that the chunks of a xorb may have together, since its header has 32 bits for them.
pub const MAX_XORB_BYTES: u64 = u32::MAX as u64;

/// The first row of a xorb record: which xorb it is, how many chunks follow and how many bytes they
/// have.
#[derive(Clone, Copy, Default, Debug, PartialEq, Eq)]
pub struct XorbChunkSequenceHeader {
    pub xorb_hash: MerkleHash,
    pub xorb_flags: u32,
    pub num_entries: u32,
    pub num_bytes_in_xorb: u32,
    pub num_bytes_on_disk: u32,
}

impl XorbChunkSequenceHeader {
    /// The header of a xorb with `num_entries` chunks and `num_bytes_in_xorb` bytes, no flags and
    /// no bytes on disk.
    pub fn new(xorb_hash: MerkleHash, num_entries: u32, num_bytes_in_xorb: u32) -> Self
        ensures { result ≡ record {
          xorb_hash = xorb_hash;
          xorb_flags = 0;
          num_entries = num_entries;
          num_bytes_in_xorb = num_bytes_in_xorb;
          num_bytes_on_disk = 0;
        } }
    {
        XorbChunkSequenceHeader {
            xorb_hash,
            xorb_flags: MDB_DEFAULT_XORB_FLAG,
            num_entries,
            num_bytes_in_xorb,
            num_bytes_on_disk: 0,
        }
    }

    /// The header that ends a section: the all-ones hash, all else zero.
    pub fn bookend() -> Self
        ensures { result ≡ xorb_bookend }
    {
        XorbChunkSequenceHeader::new(MerkleHash::from([u64::MAX; 4]), 0, 0)
    }

    /// Whether the hash is the all-ones hash, whatever the other fields.
    pub fn is_bookend(&self) -> bool
        ensures { IsTrue result ↔ (self.now.xorb_hash ≡ all_ones) }
    {
        self.xorb_hash == MerkleHash::from([u64::MAX; 4])
    }

    /// Appends the row and returns 48, the number of bytes. The error is the writer's.
    pub fn serialize<W: Write>(&self, writer: &mut W) -> io::Result<usize>
        ensures bytes { IfOk result
            (WritesRow (W.contents writer.old) (W.contents writer.new) (xorb_header_row self.now)) }
        ensures causes { IfErr result IsNoEnd }
    {
        write_row(self, writer)?;
        Ok(ROW_SIZE)
    }

    /// Reads the row. `UnexpectedEof` if fewer than 48 bytes are left.
    pub fn deserialize<R: Read>(reader: &mut R) -> io::Result<Self>
        ensures { MatchResult result
            (ReadsWhole xorb_header_row FitsXorbHeader (R.remaining reader.old)
            (R.remaining reader.new))
            (LacksRow (R.remaining reader.old)) }
    {
        read_row(reader)
    }
}

impl Row for XorbChunkSequenceHeader {
    ghost row_bytes = { xorb_header_row };

    ghost Fits = { FitsXorbHeader };

    ghost as_read = { λ h. h };

    ghost row_at = { xorb_header_at };

    ghost spelled = { xorb_header_spelled };

    #[tactic(auto, unfolding(crate::specs::XorbRow::xorb_header_row))]
    #[inline(always)]
    fn to_bytes(&self) -> [u8; ROW_SIZE] {
        let mut row = [0u8; ROW_SIZE];
        let at = put_hash(&mut row, 0, &self.xorb_hash);
        let at = put_u32(&mut row, at, self.xorb_flags);
        let at = put_u32(&mut row, at, self.num_entries);
        let at = put_u32(&mut row, at, self.num_bytes_in_xorb);
        put_u32(&mut row, at, self.num_bytes_on_disk);
        row
    }

    #[tactic(auto, unfolding(crate::specs::XorbRow::xorb_header_row))]
    #[inline(always)]
    fn from_bytes(bytes: &[u8; ROW_SIZE]) -> Self {
        let (xorb_hash, rest) = split_hash(bytes);
        let (xorb_flags, rest) = split_u32(rest);
        let (num_entries, rest) = split_u32(rest);
        let (num_bytes_in_xorb, rest) = split_u32(rest);
        let (num_bytes_on_disk, _) = split_u32(rest);
        XorbChunkSequenceHeader {
            xorb_hash,
            xorb_flags,
            num_entries,
            num_bytes_in_xorb,
            num_bytes_on_disk,
        }
    }

    fn widths(self) {}
}

/// A chunk of a xorb.
#[derive(Clone, Copy, Default, Debug, PartialEq, Eq)]
pub struct XorbChunkSequenceEntry {
    pub chunk_hash: MerkleHash,
    /// The offset of the chunk in the xorb's unpacked bytes.
    pub chunk_byte_range_start: u32,
    /// The bytes of the chunk, unpacked.
    pub unpacked_segment_bytes: u32,
    pub flags: u32,
    pub _unused: u32,
}

impl XorbChunkSequenceEntry {
    /// A chunk of `unpacked_segment_bytes` bytes at offset `chunk_byte_range_start`, with no flags.
    pub fn new(
        chunk_hash: MerkleHash,
        unpacked_segment_bytes: u32,
        chunk_byte_range_start: u32,
    ) -> Self
        ensures { result ≡ record {
          chunk_hash = chunk_hash;
          chunk_byte_range_start = chunk_byte_range_start;
          unpacked_segment_bytes = unpacked_segment_bytes;
          flags = 0;
          _unused = 0;
        } }
    {
        XorbChunkSequenceEntry {
            chunk_hash,
            chunk_byte_range_start,
            unpacked_segment_bytes,
            flags: 0,
            _unused: 0,
        }
    }

    /// The chunk, marked for the global index or not.
    #[tactic(auto, using(crate::proofs::Flags::bit_and_mod, crate::proofs::Flags::bit_or_add))]
    pub fn with_global_dedup_flag(self, is_global_dedup_chunk: bool) -> Self
        ensures { result ≡ record self { flags = with_mark is_global_dedup_chunk self.flags } }
    {
        let unmarked = self.flags & !MDB_CHUNK_WITH_GLOBAL_DEDUP_FLAG;
        let flags = if is_global_dedup_chunk {
            unmarked | MDB_CHUNK_WITH_GLOBAL_DEDUP_FLAG
        } else {
            unmarked
        };
        XorbChunkSequenceEntry { flags, ..self }
    }

    /// Whether the global index keeps the chunk by what its row says: it is marked, or its hash is
    /// eligible.
    #[tactic(auto, using(crate::proofs::Flags::mark_masked))]
    pub fn is_global_dedup_eligible(&self) -> bool
        ensures { IsTrue result ↔ IsEligibleChunk self.now }
    {
        self.flags & MDB_CHUNK_WITH_GLOBAL_DEDUP_FLAG != 0
            || hash_is_global_dedup_eligible(&self.chunk_hash)
    }

    /// Appends the row and returns 48, the number of bytes. The error is the writer's.
    pub fn serialize<W: Write>(&self, writer: &mut W) -> io::Result<usize>
        ensures bytes { IfOk result
            (WritesRow (W.contents writer.old) (W.contents writer.new) (chunk_row self.now)) }
        ensures causes { IfErr result IsNoEnd }
    {
        write_row(self, writer)?;
        Ok(ROW_SIZE)
    }

    /// Reads the row. `UnexpectedEof` if fewer than 48 bytes are left.
    pub fn deserialize<R: Read>(reader: &mut R) -> io::Result<Self>
        ensures { MatchResult result
            (ReadsWhole chunk_row FitsChunk (R.remaining reader.old) (R.remaining reader.new))
            (LacksRow (R.remaining reader.old)) }
    {
        read_row(reader)
    }
}

impl Row for XorbChunkSequenceEntry {
    ghost row_bytes = { chunk_row };

    ghost Fits = { FitsChunk };

    ghost as_read = { λ c. c };

    ghost row_at = { chunk_at };

    ghost spelled = { chunk_spelled };

    #[tactic(auto, unfolding(crate::specs::XorbRow::chunk_row))]
    #[inline(always)]
    fn to_bytes(&self) -> [u8; ROW_SIZE] {
        let mut row = [0u8; ROW_SIZE];
        let at = put_hash(&mut row, 0, &self.chunk_hash);
        let at = put_u32(&mut row, at, self.chunk_byte_range_start);
        let at = put_u32(&mut row, at, self.unpacked_segment_bytes);
        let at = put_u32(&mut row, at, self.flags);
        put_u32(&mut row, at, self._unused);
        row
    }

    #[tactic(auto, unfolding(crate::specs::XorbRow::chunk_row))]
    #[inline(always)]
    fn from_bytes(bytes: &[u8; ROW_SIZE]) -> Self {
        let (chunk_hash, rest) = split_hash(bytes);
        let (chunk_byte_range_start, rest) = split_u32(rest);
        let (unpacked_segment_bytes, rest) = split_u32(rest);
        let (flags, rest) = split_u32(rest);
        let (_unused, _) = split_u32(rest);
        XorbChunkSequenceEntry {
            chunk_hash,
            chunk_byte_range_start,
            unpacked_segment_bytes,
            flags,
            _unused,
        }
    }

    fn widths(self) {}
}

/// The record of a xorb. It has to have as many chunks as its header announces before it is
/// measured or written.
#[derive(Debug, PartialEq, Drop)]
pub struct MDBXorbInfo {
    pub metadata: XorbChunkSequenceHeader,
    pub chunks: Rows<XorbChunkSequenceEntry>,
}

impl MDBXorbInfo {
    /// The size of the record in bytes. Requires that it has as many chunks as its header
    /// announces.
    pub fn num_bytes(&self) -> u64
        requires { HasItsChunks self.now }
        ensures { result ≡ 48 * xorb_row_count self.now }
    {
        (1 + u64::from(self.metadata.num_entries)) * ROW_SIZE as u64
    }

    /// Appends the rows of the record and returns their size in bytes. The error is the writer's.
    /// Requires that the record has as many chunks as its header announces.
    #[tactic(auto, unfolding(crate::specs::XorbRecord::xorb_record_bytes))]
    pub fn serialize<W: Write>(&self, writer: &mut W) -> Result<usize>
        requires { HasItsChunks self.now }
        ensures bytes { OnOk result
            (Appends (W.contents writer.old) (W.contents writer.new) (xorb_record_bytes self.now)) }
        ensures count { IfOk result (λ n. n ≡ 48 * xorb_row_count self.now) }
        ensures causes { IfErr result IsWriteError }
    {
        write_row(&self.metadata, writer)?;
        write_rows(&self.chunks, writer)?;
        Ok(self.num_bytes() as usize)
    }

    /// Reads a record, or `None` at the header that ends a section, which has the all-ones hash,
    /// whatever its other fields.
    ///
    /// `UnexpectedEof` if the bytes end before the header or the chunks that it announces. May fail
    /// with `OutOfMemory`. Any other error is the reader's.
    pub fn deserialize<R: Read>(alloc: Global, reader: &mut R) -> Result<Option<Self>>
        ensures found { IfOk result
            (ReadsOrEnds xorb_records
            (Consumes (R.remaining reader.old) (R.remaining reader.new))) }
        ensures end { IfErr result
            (λ e. IsEndOfInput e → IfSome (R.remaining reader.old) (IsTruncatedRecord xorb_records)) }
        ensures causes { IfErr result IsDeviceError }
        ensures whole { OnOk result
            (IfSome (R.remaining reader.old) (λ bytes. ¬ IsTruncatedRecord xorb_records bytes)) }
        ensures again { (r : MDBXorbInfo) → (rest : List ℕ) → IsStoredXorb r
            → R.remaining reader.old ≡ Some (xorb_record_bytes r ++ rest)
            → IfOk result (λ found. (found ≡ Some r) × (R.remaining reader.new ≡ Some rest)) }
    {
        let mut rows_left = MAX_ROWS_OF_RECORD;
        read_record::<MDBXorbInfo, OfReader, R>(alloc, reader, FormatVersion::V3, &mut rows_left)
    }

    /// Each chunk's hash with the offset of its end in the xorb's unpacked bytes. Requires that
    /// these offsets fit `u32`. May fail with `OutOfMemory`.
    pub fn chunks_and_boundaries(&self, alloc: Global) -> Result<Vec<(MerkleHash, u32)>>
        requires { All (λ c. end_of_chunk c < 2 ^ 32) self.now.chunks }
        ensures ok { IfOk result (λ list. list.items ≡ boundaries self.now.chunks) }
        ensures causes { IfErr result (λ e. e ≡ CoreError.OutOfMemory) }
    {
        let mut list = Vec::with_capacity(alloc, self.chunks.len())?;
        for chunk in self.chunks.as_slice() {
            let end = chunk.chunk_byte_range_start + chunk.unpacked_segment_bytes;
            list.push((chunk.chunk_hash, end))?;
        }
        Ok(list)
    }

    /// A copy of the record, or `OutOfMemory`.
    pub fn try_clone(&self, alloc: Global) -> Result<Self>
        ensures ok { IfOk result (λ copy. copy ≡ self.now) }
        ensures causes { IfErr result (λ e. e ≡ CoreError.OutOfMemory) }
    {
        Ok(MDBXorbInfo {
            metadata: self.metadata,
            chunks: self.chunks.try_clone(alloc)?,
        })
    }
}

impl SectionRecord for MDBXorbInfo {
    ghost use Rattle.std.specs.Prelude.{refl};

    type Header = XorbChunkSequenceHeader;

    type SkipValue = ();

    ghost kind = { xorb_records };

    ghost kept = { λ r. tt };

    ghost header_row = { record { bytes = λ h. refl; widths = λ h fits. fits; same = λ h. refl } };

    fn hash(header: &XorbChunkSequenceHeader) -> MerkleHash {
        header.xorb_hash
    }

    fn is_bookend(header: &XorbChunkSequenceHeader) -> bool {
        header.is_bookend()
    }

    fn rows_after(header: &XorbChunkSequenceHeader) -> u64 {
        u64::from(header.num_entries)
    }

    fn is_new(_header: &XorbChunkSequenceHeader) -> bool {
        false
    }

    fn read_rows_after<M, I: ByteInput<M>>(
        alloc: Global,
        input: &mut I,
        header: XorbChunkSequenceHeader,
        before: u64,
    ) -> Result<MDBXorbInfo> {
        let chunks = row_reader::read_rows(alloc, input, header.num_entries, before)?;
        Ok(MDBXorbInfo {
            metadata: header,
            chunks,
        })
    }

    fn skip_rows_after<M, I: ByteInput<M>>(
        input: &mut I,
        header: XorbChunkSequenceHeader,
    ) -> Result<()> {
        row_reader::skip_rows::<XorbChunkSequenceEntry, M, I>(input, header.num_entries)
    }

    fn laws() {}
}
