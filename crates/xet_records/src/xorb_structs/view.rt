//! A xorb record as a view of its bytes.

ghost use Rattle.std.specs.Prelude.{◌≡◌, ◌≢◌, ◌⊎◌, ◌+◌, ◌-◌, ◌*◌, ◌^◌, ◌<◌, ◌≤◌, ◌++◌, ℕ, List, flat_map, nat_eq, slice_get, Some, length, take, drop, MatchResult, MatchOption, OnOk, IfOk, IfErr, IsOkAnd, IsErrAnd};
ghost use Rattle.std.specs.Cmp.{partial_equiv_from_equiv};
ghost use Rattle.std.specs.Cmp.Lexicographic.{pointwise, on_texts_equal};
ghost use Rattle.std.specs.Ordering.{on};
ghost use Rattle.std.specs.Io.KnownBytes.{Appends};
ghost use Rattle.xet_base.specs.Errors.{IsWriteError, IsBareInvalidShard};
ghost use Rattle.xet_records.specs.declared.xorb_structs.XorbChunkSequenceEntry.{XorbChunkSequenceEntry as chunk_type};
ghost use Rattle.xet_records.specs.XorbRow.{xorb_header_row, chunk_row};
ghost use Rattle.xet_records.specs.XorbRecord.{xorb_row_count, xorb_record_bytes, IsStoredXorb, xorb_records};
ghost use Rattle.xet_records.specs.View.{BeginsWithHeaderRow, BeginsWithXorb, NoView, end_of_chunks, under_own_header, Rewrites, TakesEach};

use super::{MDBXorbInfo, XorbChunkSequenceEntry, XorbChunkSequenceHeader};
use crate::record_bytes;
use crate::rows::{ROW_SIZE, Row, write_row};
use crate::view_reader::RecordView;
use bytes::Bytes;
use std::alloc::Global;
use std::io::Write;
use std::marker::Model;
use xet_base::error::{CoreError, Result};
use xet_base::fields::all_bytes;
use xet_base::merklehash::MerkleHash;
use xet_base::serialization_utils::write_bytes;

/// A xorb record as its bytes. Contracts see the record that the bytes are.
#[derive(Debug, Drop)]
pub struct MDBXorbInfoView {
    header: XorbChunkSequenceHeader,
    bytes: Bytes,
}

impl Model for MDBXorbInfoView {
    ghost use Rattle.xet_records.specs.declared.xorb_structs.MDBXorbInfo.{MDBXorbInfo};
    ghost use Rattle.xet_records.specs.XorbRecord.{xorb_records};
    ghost use Rattle.xet_records.specs.Decoding.{xorb_at};
    ghost use Rattle.xet_records.specs.View.{IsWholeXorb, Shows};

    ghost Value = { MDBXorbInfo };

    ghost view = { λ v. xorb_at v.header v.bytes };

    ghost invariant = { λ v. Shows xorb_records IsWholeXorb v.header v.bytes
        (xorb_at v.header v.bytes) };
}

impl MDBXorbInfoView {
    /// The view of the record that the bytes begin with; the bytes after the record are cut off.
    /// The record may have the all-ones hash.
    ///
    /// `UnexpectedEof` if the bytes end before the header or the chunks that it announces.
    pub fn new(bytes: Bytes) -> Result<Self>
        ensures shows { MatchResult result (BeginsWithXorb bytes) (NoView xorb_records bytes) }
        ensures again { (r : MDBXorbInfo) → (rest : List ℕ) → IsStoredXorb r
            → bytes ≡ xorb_record_bytes r ++ rest → IsOkAnd result (λ view. view ≡ r) }
    {
        MDBXorbInfoView::of_front(bytes)
    }

    // The view of the record that the bytes begin with.
    fn of_front(bytes: Bytes) -> Result<Self>
        ensures { MatchResult result (BeginsWithXorb bytes) (NoView xorb_records bytes) }
    {
        let header = record_bytes::first_row(bytes.as_slice())?;
        MDBXorbInfoView::cut(header, bytes)
    }

    /// The same as `new`, but `InvalidArguments` if the first 48 bytes are not those of this
    /// header.
    pub fn from_data_and_header(header: XorbChunkSequenceHeader, bytes: Bytes) -> Result<Self>
        ensures shows { MatchResult result
            (λ view. BeginsWithXorb bytes view × (view.metadata ≡ header))
            (λ e. NoView xorb_records bytes e
            ⊎ ((e ≡ CoreError.InvalidArguments) × (48 ≤ length bytes)
            × (take 48 bytes ≢ xorb_header_row header))) }
        ensures other { 48 ≤ length bytes → take 48 bytes ≢ xorb_header_row header
            → IsErrAnd result (λ e. e ≡ CoreError.InvalidArguments) }
    {
        header.widths();
        if !record_bytes::begins_with(bytes.as_slice(), &header)? {
            return Err(CoreError::InvalidArguments);
        }
        MDBXorbInfoView::cut(header, bytes)
    }

    // Cuts bytes that begin with this header to the record.
    fn cut(header: XorbChunkSequenceHeader, bytes: Bytes) -> Result<Self>
        requires { BeginsWithHeaderRow xorb_records bytes header }
        ensures { MatchResult result
            (λ view. BeginsWithXorb bytes view × (view.metadata ≡ header))
            (NoView xorb_records bytes) }
    {
        all_bytes(bytes.as_slice());
        let bytes = record_bytes::cut(bytes, header.num_entries)?;
        Ok(MDBXorbInfoView { header, bytes })
    }

    /// The record's header.
    pub fn header(&self) -> &XorbChunkSequenceHeader
        ensures { result.now ≡ self.now.metadata }
    {
        &self.header
    }

    /// The hash of the xorb.
    pub fn xorb_hash(&self) -> MerkleHash
        ensures { result ≡ self.now.metadata.xorb_hash }
    {
        self.header.xorb_hash
    }

    /// The number of chunks.
    pub fn num_entries(&self) -> usize
        ensures { result ≡ length self.now.chunks }
    {
        self.header.num_entries as usize
    }

    /// The chunk at an index. Requires that there is one.
    pub fn chunk(&self, index: usize) -> XorbChunkSequenceEntry
        requires { index < length self.now.chunks }
        ensures { slice_get self.now.chunks index ≡ Some result }
    {
        record_bytes::row(self.bytes.as_slice(), 1 + index)
    }

    /// The size of the record in bytes.
    pub fn byte_size(&self) -> usize
        ensures { result ≡ 48 * xorb_row_count self.now }
    {
        (1 + self.header.num_entries as usize) * ROW_SIZE
    }

    /// Appends the record and returns its size in bytes. The error is the writer's.
    pub fn serialize<W: Write>(&self, writer: &mut W) -> Result<usize>
        ensures bytes { OnOk result
            (Appends (W.contents writer.old) (W.contents writer.new) (xorb_record_bytes self.now)) }
        ensures count { IfOk result (λ n. n ≡ 48 * xorb_row_count self.now) }
        ensures causes { IfErr result IsWriteError }
    {
        write_bytes(writer, self.bytes.as_slice())?;
        Ok(self.byte_size())
    }

    /// Appends the chunks from one index up to another, without the header, as they are. The error
    /// is the writer's.
    pub fn serialize_chunks<W: Write>(&self, writer: &mut W, from: usize, to: usize) -> Result<()>
        requires { from ≤ to × to ≤ length self.now.chunks }
        ensures bytes { OnOk result
            (Appends (W.contents writer.old) (W.contents writer.new)
            (flat_map chunk_row (take (to - from) (drop from self.now.chunks)))) }
        ensures causes { IfErr result IsWriteError }
    {
        let rows = record_bytes::part(self.bytes.as_slice(), 1 + from, to - from);
        write_bytes(writer, rows)?;
        Ok(())
    }

    /// Appends the record with the chunk at each index replaced by what `rewrite` returns for the
    /// index and the chunk, and returns its size in bytes. `rewrite` is called with these alone.
    /// The error is the writer's.
    #[tactic(auto, unfolding(crate::specs::XorbRecord::xorb_record_bytes))]
    pub fn serialize_with_chunk_rewrite<
        W: Write,
        F: Fn(usize, XorbChunkSequenceEntry) -> XorbChunkSequenceEntry,
    >(&self, writer: &mut W, rewrite: F) -> Result<usize>
        requires { TakesEach (F.pre rewrite) self.now.chunks }
        ensures bytes { OnOk result
            ((rewritten : List chunk_type) × Rewrites (F.post rewrite) self.now.chunks rewritten
            × Appends (W.contents writer.old) (W.contents writer.new)
            (xorb_header_row self.now.metadata ++ flat_map chunk_row rewritten)) }
        ensures count { IfOk result (λ n. n ≡ 48 * xorb_row_count self.now) }
        ensures causes { IfErr result IsWriteError }
    {
        write_row(&self.header, writer)?;
        for index in 0..self.num_entries() {
            let chunk = rewrite(index, self.chunk(index));
            write_row(&chunk, writer)?;
        }
        Ok(self.byte_size())
    }

    /// The record under a header of its own, without flags and bytes on disk, whose size is the end
    /// of the last chunk. `InvalidShard` if this end passes 32 bits. May fail with `OutOfMemory`.
    pub fn to_info(&self, alloc: Global) -> Result<MDBXorbInfo>
        ensures { MatchResult result
            (λ info. (info ≡ under_own_header self.now) × (end_of_chunks self.now.chunks < 2 ^ 32))
            (λ e. (IsBareInvalidShard e × (2 ^ 32 ≤ end_of_chunks self.now.chunks))
            ⊎ ((e ≡ CoreError.OutOfMemory) × (end_of_chunks self.now.chunks < 2 ^ 32))) }
    {
        let Some(size) = self.end_of_chunks() else {
            return Err(CoreError::InvalidShard(String::new(alloc)));
        };
        let chunks = record_bytes::rows(alloc, self.bytes.as_slice(), 1, self.num_entries())?;
        let metadata = XorbChunkSequenceHeader::new(
            self.header.xorb_hash,
            self.header.num_entries,
            size,
        );
        Ok(MDBXorbInfo { metadata, chunks })
    }

    // The end of the last chunk, or 0 if there is none; `None` if it passes 32 bits.
    fn end_of_chunks(&self) -> Option<u32>
        ensures { MatchOption result
            (2 ^ 32 ≤ end_of_chunks self.now.chunks)
            (λ end. (end ≡ end_of_chunks self.now.chunks) × (end < 2 ^ 32)) }
    {
        let count = self.num_entries();
        if count == 0 {
            return Some(0);
        }
        let last = self.chunk(count - 1);
        last.chunk_byte_range_start
            .checked_add(last.unpacked_segment_bytes)
    }

    /// A copy of the view, or `OutOfMemory`.
    pub fn try_clone(&self) -> Result<Self>
        ensures ok { IfOk result (λ copy. copy ≡ self.now) }
        ensures causes { IfErr result (λ e. e ≡ CoreError.OutOfMemory) }
    {
        Ok(MDBXorbInfoView {
            header: self.header,
            bytes: self.bytes.clone()?,
        })
    }
}

impl RecordView<MDBXorbInfo> for MDBXorbInfoView {
    ghost shown = { λ view. view };

    fn of_bytes(header: XorbChunkSequenceHeader, bytes: Bytes) -> MDBXorbInfoView {
        all_bytes(bytes.as_slice());
        MDBXorbInfoView { header, bytes }
    }
}

// Two views are equal if their bytes are, which determine the header.
impl PartialEq for MDBXorbInfoView {
    ghost eq = { on xorb_record_bytes (pointwise nat_eq) };

    ghost laws = { partial_equiv_from_equiv (on_texts_equal xorb_record_bytes) };

    fn eq(&self, other: &Self) -> bool {
        self.bytes == other.bytes
    }
}
