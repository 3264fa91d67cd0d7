//! A file record as a view of its bytes, which may be written without verification rows or without
//! the auxiliary row.

ghost use Rattle.std.specs.Prelude.{◌≡◌, ◌≢◌, ◌⊎◌, ◌+◌, ◌*◌, ◌^◌, ◌<◌, ◌≤◌, nat_eq, slice_get, flat_map, option_map, Some, IsTrue, length, take, MatchResult, OnOk, IfOk, IfErr, IsErrAnd, ℕ, List, ◌++◌, IsOkAnd};
ghost use Rattle.std.specs.Cmp.{partial_equiv_from_equiv};
ghost use Rattle.std.specs.Cmp.Lexicographic.{pointwise, on_texts_equal};
ghost use Rattle.std.specs.Ordering.{on};
ghost use Rattle.std.specs.Io.KnownBytes.{Appends};
ghost use Rattle.xet_base.specs.Errors.{IsWriteError, IsNoEnd};
ghost use Rattle.xet_records.specs.FileRow.{header_row, hash_row, clear};
ghost use Rattle.xet_records.specs.Part.{flags_of, rows_of, rows_before};
ghost use Rattle.xet_records.specs.FileRecord.{has_verification, has_metadata_ext, has_aux_ext, row_count, file_record_bytes, as_read, file_records, rows_after, FitsItsHeader, IsStored};
ghost use Rattle.xet_records.specs.View.{BeginsWithHeaderRow, BeginsWithFile, NoView, without_verification, with_verification_if, as_kept, LacksVerification, IsIoOther};
ghost use Rattle.xet_records.specs.Steps.ViewSteps.{keeps};
ghost use Rattle.xet_records.specs.Limits.{MAX_ROWS};

use super::part::Parts;
use super::{
    FileAuxExt, FileDataSequenceEntry, FileDataSequenceHeader, FileMetadataExt,
    FileVerificationEntry, MDB_FILE_INFO_ENTRY_SIZE, MDBFileInfo, OptionalPart,
};
use crate::record_bytes;
use crate::rows::{ROW_LIMIT, Row, write_row};
use crate::view_reader::RecordView;
use bytes::Bytes;
use std::alloc::Global;
use std::io;
use std::io::{ErrorKind, Write};
use std::marker::Model;
use xet_base::error::{CoreError, Result};
use xet_base::fields::all_bytes;
use xet_base::merklehash::MerkleHash;
use xet_base::serialization_utils::write_bytes;

/// Which of a record's verification rows and auxiliary row are written; all else always is.
#[derive(Clone, Copy, Debug, PartialEq, Eq)]
pub struct KeptParts {
    pub verification: bool,
    pub aux_ext: bool,
}

impl KeptParts {
    /// All parts.
    pub const ALL: KeptParts = KeptParts {
        verification: true,
        aux_ext: true,
    };

    // The parts that are written.
    fn parts(self) -> Parts
        ensures { result ≡ flags_of (keeps self) }
    {
        Parts::all()
            .without(OptionalPart::Verification.when(!self.verification))
            .without(OptionalPart::AuxExt.when(!self.aux_ext))
    }
}

/// A file record as its bytes. Contracts see the record that the bytes are, its reserved words as
/// they are stored.
#[derive(Debug, Drop)]
pub struct MDBFileInfoView {
    header: FileDataSequenceHeader,
    bytes: Bytes,
}

impl Model for MDBFileInfoView {
    ghost use Rattle.xet_records.specs.declared.file_structs.MDBFileInfo.{MDBFileInfo};
    ghost use Rattle.xet_records.specs.FileRecord.{file_records};
    ghost use Rattle.xet_records.specs.Decoding.{file_at};
    ghost use Rattle.xet_records.specs.View.{IsWholeFile, Shows};

    ghost Value = { MDBFileInfo };

    ghost view = { λ v. file_at v.header v.bytes };

    ghost invariant = { λ v. Shows file_records IsWholeFile v.header v.bytes
        (file_at v.header v.bytes) };
}

impl MDBFileInfoView {
    /// The view of the record that the bytes begin with; the bytes after the record are cut off.
    /// The record may have the all-ones hash.
    ///
    /// `UnexpectedEof` if the bytes end before the header or the rows that it announces,
    /// `InvalidShard` if these rows pass 4294967295.
    pub fn new(alloc: Global, bytes: Bytes) -> Result<Self>
        ensures shows { MatchResult result (BeginsWithFile bytes) (NoView file_records bytes) }
        ensures again { (r : MDBFileInfo) → (rest : List ℕ) → IsStored r
            → rows_after r.metadata ≤ MAX_ROWS → bytes ≡ file_record_bytes r ++ rest
            → IsOkAnd result (λ view. view ≡ r) }
    {
        MDBFileInfoView::of_front(alloc, bytes)
    }

    // The view of the record that the bytes begin with.
    fn of_front(alloc: Global, bytes: Bytes) -> Result<Self>
        ensures { MatchResult result (BeginsWithFile bytes) (NoView file_records bytes) }
    {
        let header = record_bytes::first_row(bytes.as_slice())?;
        MDBFileInfoView::cut(alloc, header, bytes)
    }

    /// The same as `new`, but `InvalidArguments` if the first 48 bytes are not those of this
    /// header.
    pub fn from_data_and_header(
        alloc: Global,
        header: FileDataSequenceHeader,
        bytes: Bytes,
    ) -> Result<Self>
        ensures shows { MatchResult result
            (λ view. BeginsWithFile bytes view × (view.metadata ≡ header))
            (λ e. NoView file_records bytes e
            ⊎ ((e ≡ CoreError.InvalidArguments) × (48 ≤ length bytes)
            × (take 48 bytes ≢ header_row header))) }
        ensures other { 48 ≤ length bytes → take 48 bytes ≢ header_row header
            → IsErrAnd result (λ e. e ≡ CoreError.InvalidArguments) }
    {
        header.widths();
        if !record_bytes::begins_with(bytes.as_slice(), &header)? {
            return Err(CoreError::InvalidArguments);
        }
        MDBFileInfoView::cut(alloc, header, bytes)
    }

    // Cuts bytes that begin with this header to the record.
    fn cut(alloc: Global, header: FileDataSequenceHeader, bytes: Bytes) -> Result<Self>
        requires { BeginsWithHeaderRow file_records bytes header }
        ensures { MatchResult result
            (λ view. BeginsWithFile bytes view × (view.metadata ≡ header))
            (NoView file_records bytes) }
    {
        all_bytes(bytes.as_slice());
        if header.rows_after() > ROW_LIMIT {
            return Err(CoreError::InvalidShard(String::new(alloc)));
        }
        let bytes = record_bytes::cut(bytes, header.num_info_entry_following())?;
        Ok(MDBFileInfoView { header, bytes })
    }

    /// The record's header.
    pub fn header(&self) -> &FileDataSequenceHeader
        ensures { result.now ≡ self.now.metadata }
    {
        &self.header
    }

    /// The number of segments.
    pub fn num_entries(&self) -> usize
        ensures { result ≡ length self.now.segments }
    {
        self.header.num_entries as usize
    }

    /// The hash of the file.
    pub fn file_hash(&self) -> MerkleHash
        ensures { result ≡ self.now.metadata.file_hash }
    {
        self.header.file_hash
    }

    /// The flags of the header.
    pub fn file_flags(&self) -> u32
        ensures { result ≡ self.now.metadata.file_flags }
    {
        self.header.file_flags
    }

    /// Whether each segment has a verification row.
    pub fn contains_verification(&self) -> bool
        ensures { result ≡ has_verification self.now.metadata.file_flags }
    {
        self.header.contains_verification()
    }

    /// Whether the record has a metadata row.
    pub fn contains_metadata_ext(&self) -> bool
        ensures { result ≡ has_metadata_ext self.now.metadata.file_flags }
    {
        self.header.contains_metadata_ext()
    }

    /// Whether the record ends in an auxiliary row.
    pub fn contains_aux_ext(&self) -> bool
        ensures { result ≡ has_aux_ext self.now.metadata.file_flags }
    {
        self.header.contains_aux_ext()
    }

    /// The segment at an index. Requires that there is one.
    pub fn entry(&self, index: usize) -> FileDataSequenceEntry
        requires { index < length self.now.segments }
        ensures { slice_get self.now.segments index ≡ Some result }
    {
        record_bytes::row(self.bytes.as_slice(), 1 + index)
    }

    /// The verification row of the segment at an index, with zero reserved words. Requires that
    /// there is one.
    pub fn verification(&self, index: usize) -> FileVerificationEntry
        requires { index < length self.now.verification }
        ensures { option_map clear (slice_get self.now.verification index)
            ≡ Some result }
    {
        let start = self.start_of(OptionalPart::Verification);
        record_bytes::row(self.bytes.as_slice(), start + index)
    }

    /// The metadata row, if there is one, with zero reserved words.
    pub fn metadata_ext(&self) -> Option<FileMetadataExt>
        ensures { result ≡ option_map clear self.now.metadata_ext }
    {
        let bytes = self.bytes.as_slice();
        if !self.header.contains_metadata_ext() {
            return None;
        }
        Some(record_bytes::row(bytes, self.start_of(OptionalPart::MetadataExt)))
    }

    /// The auxiliary row, if there is one, with zero reserved words.
    pub fn aux_ext(&self) -> Option<FileAuxExt>
        ensures { result ≡ option_map clear self.now.aux_ext }
    {
        let bytes = self.bytes.as_slice();
        if !self.header.contains_aux_ext() {
            return None;
        }
        Some(record_bytes::row(bytes, self.start_of(OptionalPart::AuxExt)))
    }

    // The index of a part's first row, or where it would be.
    fn start_of(&self, part: OptionalPart) -> usize
        ensures rows { result ≡ 1 + length self.now.segments + rows_before part self.now.metadata }
        ensures bound { result ≤ 2 ^ 34 }
    {
        1 + self.header.num_entries as usize + self.header.rows_before(part)
    }

    /// The size in bytes of the record as `serialize` writes it.
    pub fn byte_size(&self, with_verification: bool) -> usize
        ensures { result ≡ 48 * row_count (with_verification_if with_verification self.now) }
    {
        self.byte_size_of_kept(KeptParts {
            verification: with_verification,
            ..KeptParts::ALL
        })
    }

    /// The size in bytes of the record as `serialize_kept` writes it.
    pub fn byte_size_of_kept(&self, kept: KeptParts) -> usize
        ensures { result ≡ 48 * row_count (as_kept kept self.now) }
    {
        let rows = 1 + self.kept_header(kept).rows_after();
        rows as usize * MDB_FILE_INFO_ENTRY_SIZE
    }

    // The number of rows of a part that are written.
    fn kept_rows(&self, kept: KeptParts, part: OptionalPart) -> usize
        ensures rows { result ≡ length (rows_of part (as_kept kept self.now)) }
        ensures bound { result < 2 ^ 32 }
    {
        if kept.parts().contains(part) {
            self.header.part_rows(part) as usize
        } else {
            0
        }
    }

    /// Appends the record and returns its size in bytes. If verification rows are not wanted, a
    /// record that has them is written without them, under a header with the flags of a metadata
    /// row and of an auxiliary row alone.
    ///
    /// `Io` of kind `Other` if they are wanted and missing, and then nothing is written. Any other
    /// error is the writer's.
    pub fn serialize<W: Write>(&self, writer: &mut W, with_verification: bool) -> Result<usize>
        ensures bytes { OnOk result
            (Appends (W.contents writer.old) (W.contents writer.new)
            (file_record_bytes (with_verification_if with_verification self.now))) }
        ensures count { IfOk result
            (λ n. n ≡ 48 * row_count (with_verification_if with_verification self.now)) }
        ensures missing { LacksVerification with_verification self.now
            → IsErrAnd result IsIoOther × (writer.new ≡ writer.old) }
        ensures causes { IfErr result IsWriteError }
    {
        let kept = KeptParts {
            verification: with_verification,
            ..KeptParts::ALL
        };
        self.serialize_kept(writer, kept)
    }

    /// Appends these parts of the record and returns their size in bytes. Verification rows are
    /// kept or left out as by `serialize`, with the same errors; without its auxiliary row, a
    /// record that has one is written under a header with bit 29 cleared and all else as it is.
    pub fn serialize_kept<W: Write>(&self, writer: &mut W, kept: KeptParts) -> Result<usize>
        ensures bytes { OnOk result
            (Appends (W.contents writer.old) (W.contents writer.new)
            (file_record_bytes (as_kept kept self.now))) }
        ensures count { IfOk result (λ n. n ≡ 48 * row_count (as_kept kept self.now)) }
        ensures missing { LacksVerification kept.verification self.now
            → IsErrAnd result IsIoOther × (writer.new ≡ writer.old) }
        ensures causes { IfErr result IsWriteError }
    {
        if kept.verification && !self.contains_verification() {
            return Err(CoreError::Io(io::Error::from(ErrorKind::Other)));
        }
        if self.is_all(kept) {
            write_bytes(writer, self.bytes.as_slice())?;
        } else {
            self.write_kept(writer, kept)?;
        }
        Ok(self.byte_size_of_kept(kept))
    }

    // Whether the record has no other parts.
    fn is_all(&self, kept: KeptParts) -> bool
        ensures { IsTrue result → as_kept kept self.now ≡ self.now }
    {
        kept.parts().is_superset(self.header.parts())
    }

    // Appends the parts of the record that are kept.
    fn write_kept<W: Write>(&self, writer: &mut W, kept: KeptParts) -> io::Result<()>
        ensures bytes { OnOk result
            (Appends (W.contents writer.old) (W.contents writer.new)
            (file_record_bytes (as_kept kept self.now))) }
        ensures causes { IfErr result IsNoEnd }
    {
        let header = self.kept_header(kept);
        write_row(&header, writer)?;
        let segments = record_bytes::part(self.bytes.as_slice(), 1, self.num_entries());
        write_bytes(writer, segments)?;
        for part in OptionalPart::ALL {
            self.write_part(writer, kept, part)?;
        }
        Ok(())
    }

    // Appends the rows of a part if they are kept.
    fn write_part<W: Write>(
        &self,
        writer: &mut W,
        kept: KeptParts,
        part: OptionalPart,
    ) -> io::Result<()>
        ensures bytes { OnOk result
            (Appends (W.contents writer.old) (W.contents writer.new)
            (flat_map hash_row (rows_of part (as_kept kept self.now)))) }
        ensures causes { IfErr result IsNoEnd }
    {
        let rows = self.kept_rows(kept, part);
        if rows == 0 {
            return Ok(());
        }
        let bytes = self.bytes.as_slice();
        write_bytes(writer, record_bytes::part(bytes, self.start_of(part), rows))?;
        Ok(())
    }

    // The header of the record that is written.
    fn kept_header(&self, kept: KeptParts) -> FileDataSequenceHeader
        ensures header { result ≡ (as_kept kept self.now).metadata }
        ensures fits { FitsItsHeader (as_kept kept self.now) }
    {
        let header = if self.contains_verification() & !kept.verification {
            self.header_without_verification()
        } else {
            self.header
        };
        if kept.aux_ext {
            header
        } else {
            header.with_aux_ext(false)
        }
    }

    // The header with the flags of the other parts alone.
    fn header_without_verification(&self) -> FileDataSequenceHeader
        ensures { result ≡ (without_verification self.now).metadata }
    {
        let header = &self.header;
        let others = header
            .parts()
            .without(OptionalPart::Verification.when(true));
        FileDataSequenceHeader::with_parts(header.file_hash, header.num_entries, others)
    }

    /// The bytes of the record. `OutOfMemory` is the only error.
    pub fn bytes(&self) -> Result<Bytes>
        ensures ok { IfOk result (λ bytes. bytes ≡ file_record_bytes self.now) }
        ensures causes { IfErr result (λ e. e ≡ CoreError.OutOfMemory) }
    {
        Ok(self.bytes.clone()?)
    }

    /// The record, with zero reserved words in the rows of its optional parts. `OutOfMemory` is the
    /// only error.
    pub fn to_info(&self, alloc: Global) -> Result<MDBFileInfo>
        ensures ok { IfOk result (λ info. info ≡ as_read self.now) }
        ensures causes { IfErr result (λ e. e ≡ CoreError.OutOfMemory) }
    {
        let bytes = self.bytes.as_slice();
        let segments = self.num_entries();
        let start = self.start_of(OptionalPart::Verification);
        let count = self.header.part_rows(OptionalPart::Verification) as usize;
        Ok(MDBFileInfo {
            metadata: self.header,
            segments: record_bytes::rows(alloc, bytes, 1, segments)?,
            verification: record_bytes::rows(alloc, bytes, start, count)?,
            metadata_ext: self.metadata_ext(),
            aux_ext: self.aux_ext(),
        })
    }

    /// A copy of the view, or `OutOfMemory`.
    pub fn try_clone(&self) -> Result<Self>
        ensures ok { IfOk result (λ copy. copy ≡ self.now) }
        ensures causes { IfErr result (λ e. e ≡ CoreError.OutOfMemory) }
    {
        Ok(MDBFileInfoView {
            header: self.header,
            bytes: self.bytes.clone()?,
        })
    }
}

impl RecordView<MDBFileInfo> for MDBFileInfoView {
    ghost shown = { λ view. view };

    fn of_bytes(header: FileDataSequenceHeader, bytes: Bytes) -> MDBFileInfoView {
        all_bytes(bytes.as_slice());
        MDBFileInfoView { header, bytes }
    }
}

// Two views are equal if their bytes are, which determine the header.
impl PartialEq for MDBFileInfoView {
    ghost eq = { on file_record_bytes (pointwise nat_eq) };

    ghost laws = { partial_equiv_from_equiv (on_texts_equal file_record_bytes) };

    fn eq(&self, other: &Self) -> bool {
        self.bytes == other.bytes
    }
}
