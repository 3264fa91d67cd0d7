//! The records of the file section, and their rows.

mod header;
mod part;
mod rows;
mod view;

ghost use Rattle.std.specs.Prelude.{◌≡◌, ℕ, List, Some, ◌++◌, ◌*◌, ◌≤◌, ◌⊎◌, length, MatchResult, IfSome, OnOk, OnErr, IfOk, IfErr, IsTrue, not, ◌&&◌, ◌↔◌, if◌then◌else◌};
ghost use Rattle.std.specs.Io.KnownBytes.{Appends, Consumes};
ghost use Rattle.xet_records.specs.FileRecord.{has_verification, has_metadata_ext, has_aux_ext, rows_after, row_count, file_record_bytes, size_of_file, FitsItsHeader, IsStored, as_read, file_records};
ghost use Rattle.xet_records.specs.Part.{rows_of};
ghost use Rattle.xet_records.specs.Steps.FileRecordSteps.{HasAnnounced};
ghost use Rattle.xet_records.specs.Merging.{IsSameFile, has_part, merged_file};
ghost use Rattle.xet_records.specs.Reading.{ReadsOrEnds, ReadsRowsAfter, IsTruncatedRecord, HasRefusedHeader};
ghost use Rattle.xet_base.specs.Errors.{IsBareInvalidShard, IsEndOfInput, IsDeviceError, IsWriteError, IsInvalidShard};

use crate::record_reader::{FormatVersion, MAX_ROWS_OF_RECORD, SectionRecord, read_record};
use crate::row_reader;
use crate::rows::{ROW_SIZE, Rows, write_optional, write_row, write_rows};
pub use header::{FileDataSequenceHeader, SupersetResult};
pub use part::OptionalPart;
pub use rows::{
    FileAuxExt, FileDataSequenceEntry, FileMetadataExt, FileVerificationEntry, HashRow,
};
use std::alloc::{AllocError, Global};
use std::io::{Read, Write};
pub use view::{KeptParts, MDBFileInfoView};
use xet_base::error::{CoreError, Result};
use xet_base::input::{ByteInput, OfReader};
use xet_base::merklehash::MerkleHash;

/// The flags of a file without optional parts.
pub const MDB_DEFAULT_FILE_FLAG: u32 = 0;
/// The flag of a file with one verification row a segment.
pub const MDB_FILE_FLAG_WITH_VERIFICATION: u32 = 1 << 31;
/// The bit that says whether a file has verification rows.
pub const MDB_FILE_FLAG_VERIFICATION_MASK: u32 = 1 << 31;
/// The flag of a file with a metadata row.
pub const MDB_FILE_FLAG_WITH_METADATA_EXT: u32 = 1 << 30;
/// The bit that says whether a file has a metadata row.
pub const MDB_FILE_FLAG_METADATA_EXT_MASK: u32 = 1 << 30;
/// The flag of a file with an auxiliary row, which version 2 does not have.
pub const MDB_FILE_FLAG_WITH_AUX_EXT: u32 = 1 << 29;
/// The bit that says whether a file has an auxiliary row.
pub const MDB_FILE_FLAG_AUX_EXT_MASK: u32 = 1 << 29;
/// The bytes of each row of the file section.
pub const MDB_FILE_INFO_ENTRY_SIZE: usize = ROW_SIZE;

/// The record of a file. Its lists and optional parts have to fit its header before it is measured
/// or written.
#[derive(Debug, PartialEq, Drop)]
pub struct MDBFileInfo {
    pub metadata: FileDataSequenceHeader,
    pub segments: Rows<FileDataSequenceEntry>,
    pub verification: Rows<FileVerificationEntry>,
    pub metadata_ext: Option<FileMetadataExt>,
    pub aux_ext: Option<FileAuxExt>,
}

impl MDBFileInfo {
    /// The size of the record in bytes. Requires that its parts fit its header.
    pub fn num_bytes(&self) -> u64
        requires { FitsItsHeader self.now }
        ensures { result ≡ 48 * row_count self.now }
    {
        (1 + self.metadata.rows_after()) * MDB_FILE_INFO_ENTRY_SIZE as u64
    }

    /// The size of the file in bytes, summed over its segments. Requires that the record's parts
    /// fit its header.
    pub fn file_size(&self) -> u64
        requires { FitsItsHeader self.now }
        ensures size { result ≡ size_of_file self.now }
        ensures bound { result ≤ 4294967295 * length self.now.segments }
    {
        prove!(self.segments.len() as u64 == u64::from(self.metadata.num_entries));
        let mut size = 0;
        for segment in self.segments.as_slice() {
            size += u64::from(segment.unpacked_segment_bytes);
        }
        size
    }

    /// Whether each segment has a verification row.
    pub fn contains_verification(&self) -> bool
        ensures { result ≡ has_verification self.now.metadata.file_flags }
    {
        self.metadata.contains_verification()
    }

    /// Whether the record has a metadata row.
    pub fn contains_metadata_ext(&self) -> bool
        ensures { result ≡ has_metadata_ext self.now.metadata.file_flags }
    {
        self.metadata.contains_metadata_ext()
    }

    /// Whether the record ends in an auxiliary row.
    pub fn contains_aux_ext(&self) -> bool
        ensures { result ≡ has_aux_ext self.now.metadata.file_flags }
    {
        self.metadata.contains_aux_ext()
    }

    /// Appends the rows of the record and returns their size in bytes. The error is the writer's.
    /// Requires that the record's parts fit its header.
    #[tactic(auto, unfolding(crate::specs::FileRecord::file_record_bytes, crate::specs::FileRecord::file_rows_bytes))]
    pub fn serialize<W: Write>(&self, writer: &mut W) -> Result<usize>
        requires { FitsItsHeader self.now }
        ensures bytes { OnOk result
            (Appends (W.contents writer.old) (W.contents writer.new) (file_record_bytes self.now)) }
        ensures count { IfOk result (λ n. n ≡ 48 * row_count self.now) }
        ensures causes { IfErr result IsWriteError }
    {
        write_row(&self.metadata, writer)?;
        write_rows(&self.segments, writer)?;
        write_rows(&self.verification, writer)?;
        write_optional(&self.metadata_ext, writer)?;
        write_optional(&self.aux_ext, writer)?;
        Ok(self.num_bytes() as usize)
    }

    /// Reads a record, or `None` at the header that ends a section, which has the all-ones hash,
    /// whatever its other fields. The rows of optional parts get zero reserved words.
    ///
    /// `UnexpectedEof` if the bytes end before the header or the rows that it announces,
    /// `InvalidShard` if these rows pass 4294967295. May fail with `OutOfMemory`. Any other error
    /// is the reader's.
    pub fn deserialize<R: Read>(alloc: Global, reader: &mut R) -> Result<Option<Self>>
        ensures found { IfOk result
            (ReadsOrEnds file_records
            (Consumes (R.remaining reader.old) (R.remaining reader.new))) }
        ensures end { IfErr result
            (λ e. IsEndOfInput e → IfSome (R.remaining reader.old) (IsTruncatedRecord file_records)) }
        ensures invalid { IfErr result
            (λ e. IsInvalidShard e
            → IfSome (R.remaining reader.old) (HasRefusedHeader file_records)) }
        ensures causes { IfErr result (λ e. IsDeviceError e ⊎ IsBareInvalidShard e) }
        ensures whole { OnOk result
            (IfSome (R.remaining reader.old) (λ bytes. ¬ IsTruncatedRecord file_records bytes)) }
        ensures fits { OnOk result
            (IfSome (R.remaining reader.old) (λ bytes. ¬ HasRefusedHeader file_records bytes)) }
        ensures again { (r : MDBFileInfo) → (rest : List ℕ) → IsStored r
            → R.remaining reader.old ≡ Some (file_record_bytes r ++ rest)
            → IfOk result
            (λ found. (found ≡ Some (as_read r)) × (R.remaining reader.new ≡ Some rest)) }
    {
        let mut rows_left = MAX_ROWS_OF_RECORD;
        read_record::<MDBFileInfo, OfReader, R>(alloc, reader, FormatVersion::V3, &mut rows_left)
    }

    /// Takes over each optional part that only `other` has, and nothing else. Requires that both
    /// records are of one file. On `OutOfMemory`, the only error, nothing changes; it comes only if
    /// verification rows are taken over.
    #[tactic(auto, using(crate::proofs::Parts::either_row))]
    pub fn merge_from(&mut self, alloc: Global, other: &Self) -> Result<()>
        requires { IsSameFile self.old.metadata other.now.metadata }
        ensures ok { OnOk result (self.new ≡ merged_file self.old other.now) }
        ensures err { OnErr result (self.new ≡ self.old) }
        ensures causes { IfErr result (λ e. (e ≡ CoreError.OutOfMemory)
            × IsTrue (has_verification other.now.metadata.file_flags)
            × (¬ IsTrue (has_verification self.old.metadata.file_flags))) }
    {
        let takes_verification = self.takes(other, OptionalPart::Verification);
        let takes_metadata_ext = self.takes(other, OptionalPart::MetadataExt);
        let takes_aux_ext = self.takes(other, OptionalPart::AuxExt);
        if takes_verification {
            self.verification = other.verification.try_clone(alloc)?;
        }
        self.metadata_ext = either(takes_metadata_ext, other.metadata_ext, self.metadata_ext);
        self.aux_ext = either(takes_aux_ext, other.aux_ext, self.aux_ext);
        self.metadata.file_flags = self.metadata.merged_flags(&other.metadata);
        Ok(())
    }

    // The number of rows of a part that the record has, whatever its header announces.
    fn part_len(&self, part: OptionalPart) -> usize
        ensures { result ≡ length (rows_of part self.now) }
    {
        match part {
            OptionalPart::Verification => self.verification.len(),
            OptionalPart::MetadataExt => usize::from(self.metadata_ext.is_some()),
            OptionalPart::AuxExt => usize::from(self.aux_ext.is_some()),
        }
    }

    /// Whether the record has the segments and the parts that its header announces.
    pub fn fits_its_header(&self) -> bool
        ensures { IsTrue result ↔ FitsItsHeader self.now }
    {
        self.segments.len() as u64 == u64::from(self.metadata.num_entries)
            && self.has_announced_parts()
    }

    fn has_announced_parts(&self) -> bool
        ensures { IsTrue result ↔ ((part : OptionalPart) → HasAnnounced part self.now) }
    {
        OptionalPart::ALL
            .iter()
            .all(|part| self.has_announced(*part))
    }

    fn has_announced(&self, part: OptionalPart) -> bool
        ensures { IsTrue result ↔ HasAnnounced part self.now }
    {
        self.part_len(part) as u64 == u64::from(self.metadata.part_rows(part))
    }

    // Whether only `other` has a part.
    fn takes(&self, other: &Self, part: OptionalPart) -> bool
        ensures { result ≡ (has_part other.now part && not (has_part self.now part)) }
    {
        other.metadata.contains(part) && !self.metadata.contains(part)
    }

    /// Whether the header announces each optional part that the header of `other` announces.
    pub fn contains_parts_of(&self, other: &Self) -> bool
        ensures { IsTrue result ↔ ((part : OptionalPart) → IsTrue (has_part other.now part)
            → IsTrue (has_part self.now part)) }
    {
        let own = self.metadata.parts();
        let others = other.metadata.parts();
        own.is_superset(others)
    }

    /// A copy of the record, or `OutOfMemory`.
    pub fn try_clone(&self, alloc: Global) -> Result<Self>
        ensures ok { IfOk result (λ copy. copy ≡ self.now) }
        ensures causes { IfErr result (λ e. e ≡ CoreError.OutOfMemory) }
    {
        Ok(MDBFileInfo {
            metadata: self.metadata,
            segments: self.segments.try_clone(alloc)?,
            verification: self.verification.try_clone(alloc)?,
            metadata_ext: self.metadata_ext,
            aux_ext: self.aux_ext,
        })
    }
}

impl Clone for MDBFileInfo {
    ghost is_clone = { λ file_info copy. copy ≡ file_info };

    fn clone(&self) -> std::result::Result<MDBFileInfo, AllocError> {
        Ok(MDBFileInfo {
            metadata: self.metadata,
            segments: self.segments.clone()?,
            verification: self.verification.clone()?,
            metadata_ext: self.metadata_ext,
            aux_ext: self.aux_ext,
        })
    }
}

// The first value if `is_first`, else the second.
fn either<T: Copy>(is_first: bool, first: T, second: T) -> T
    ensures { result ≡ (if is_first then first else second) }
{
    if is_first { first } else { second }
}

impl SectionRecord for MDBFileInfo {
    ghost use Rattle.std.specs.Prelude.{refl};

    type Header = FileDataSequenceHeader;

    type SkipValue = Option<FileMetadataExt>;

    ghost kind = { file_records };

    ghost kept = { λ r. r.metadata_ext };

    ghost header_row = { record { bytes = λ h. refl; widths = λ h fits. fits; same = λ h. refl } };

    fn hash(header: &FileDataSequenceHeader) -> MerkleHash {
        header.file_hash
    }

    fn is_bookend(header: &FileDataSequenceHeader) -> bool {
        header.is_bookend()
    }

    fn rows_after(header: &FileDataSequenceHeader) -> u64 {
        header.rows_after()
    }

    fn is_new(header: &FileDataSequenceHeader) -> bool {
        header.contains_aux_ext()
    }

    #[tactic(auto, unfolding(crate::specs::FileRecord::file_rows_bytes))]
    #[inline(always)]
    fn read_rows_after<M, I: ByteInput<M>>(
        alloc: Global,
        input: &mut I,
        header: FileDataSequenceHeader,
        before: u64,
    ) -> Result<MDBFileInfo> {
        let segments = row_reader::read_rows(alloc, input, header.num_entries, before)?;
        let verification = row_reader::read_rows(
            alloc,
            input,
            header.part_rows(OptionalPart::Verification),
            before.saturating_add(u64::from(header.num_entries)),
        )?;
        let metadata_ext = row_reader::read_optional(input, header.contains_metadata_ext())?;
        let aux_ext = row_reader::read_optional(input, header.contains_aux_ext())?;
        Ok(MDBFileInfo {
            metadata: header,
            segments,
            verification,
            metadata_ext,
            aux_ext,
        })
    }

    #[tactic(auto, unfolding(crate::specs::FileRecord::file_rows_bytes))]
    fn skip_rows_after<M, I: ByteInput<M>>(
        input: &mut I,
        header: FileDataSequenceHeader,
    ) -> Result<Option<FileMetadataExt>> {
        row_reader::skip_rows::<FileDataSequenceEntry, M, I>(input, header.num_entries)?;
        row_reader::skip_rows::<FileVerificationEntry, M, I>(
            input,
            header.part_rows(OptionalPart::Verification),
        )?;
        let metadata_ext = row_reader::read_optional(input, header.contains_metadata_ext())?;
        let _aux_ext: Option<FileAuxExt> = row_reader::read_optional(
            input,
            header.contains_aux_ext(),
        )?;
        Ok(metadata_ext)
    }

    fn laws() {}
}
