//! The header row of a file record.

ghost use Rattle.std.specs.Prelude.{◌≡◌, ◌+◌, ◌*◌, ◌^◌, ◌<◌, ◌≤◌, ◌&&◌, not, ◌↔◌, if◌then◌else◌, length, sum_by, IsTrue, IfOk, MatchResult, IfErr};
ghost use Rattle.xet_base.specs.Errors.{IsNoEnd};
ghost use Rattle.xet_base.specs.Hash.{all_ones};
ghost use Rattle.xet_records.specs.FileRow.{header_row, FitsHeader};
ghost use Rattle.xet_records.specs.Decoding.{header_at};
ghost use Rattle.xet_records.specs.DecodingLaws.{header_spelled};
ghost use Rattle.xet_records.specs.Part.{announces, flags_of, these_parts, with_flag, part_rows, rows_before, optional_rows_after};
ghost use Rattle.xet_records.specs.FileRecord.{has_verification, has_metadata_ext, has_aux_ext, file_bookend, rows_after, IsPlainHeader};
ghost use Rattle.xet_records.specs.Rows.{WritesRow, ReadsWhole, LacksRow};
ghost use Rattle.xet_records.specs.Merging.{Compares, IsSameFile, mixed_header};

use super::part::{OptionalPart, Parts};
use super::{MDB_DEFAULT_FILE_FLAG, MDB_FILE_FLAG_WITH_AUX_EXT, MDB_FILE_INFO_ENTRY_SIZE};
use crate::rows::{ROW_SIZE, Row, read_row, write_row};
use std::io;
use std::io::{Read, Write};
use xet_base::fields::{put_hash, put_u32, put_u64, split_hash, split_u32, split_u64};
use xet_base::merklehash::MerkleHash;

/// The first row of a file record: which file it is, which parts follow and how many segments.
#[derive(Clone, Copy, Default, Debug, PartialEq, Eq)]
pub struct FileDataSequenceHeader {
    pub file_hash: MerkleHash,
    pub file_flags: u32,
    pub num_entries: u32,
    pub _unused: u64,
}

impl FileDataSequenceHeader {
    /// The header of a file with `num_entries` segments and these optional parts.
    pub fn new(
        file_hash: MerkleHash,
        num_entries: u32,
        contains_verification: bool,
        contains_metadata_ext: bool,
    ) -> Self
        ensures { result ≡ record {
          file_hash = file_hash;
          file_flags = flags_of (these_parts contains_verification contains_metadata_ext);
          num_entries = num_entries;
          _unused = 0;
        } }
    {
        let parts = OptionalPart::Verification
            .when(contains_verification)
            .union(OptionalPart::MetadataExt.when(contains_metadata_ext));
        FileDataSequenceHeader::with_parts(file_hash, num_entries, parts)
    }

    // The same with any set of optional parts.
    pub(super) fn with_parts(file_hash: MerkleHash, num_entries: u32, parts: Parts) -> Self
        ensures { result ≡ record {
          file_hash = file_hash;
          file_flags = parts;
          num_entries = num_entries;
          _unused = 0;
        } }
    {
        FileDataSequenceHeader {
            file_hash,
            file_flags: parts.flags(),
            num_entries,
            _unused: 0,
        }
    }

    /// The header with the flag of an auxiliary row set or cleared, and all else as it is.
    pub fn with_aux_ext(self, contains_aux_ext: bool) -> Self
        ensures { result ≡ record self {
          file_flags = with_flag OptionalPart.AuxExt contains_aux_ext self.file_flags;
        } }
    {
        let others = if self.contains_aux_ext() {
            self.file_flags - MDB_FILE_FLAG_WITH_AUX_EXT
        } else {
            self.file_flags
        };
        FileDataSequenceHeader {
            file_flags: others + OptionalPart::AuxExt.when(contains_aux_ext).flags(),
            ..self
        }
    }

    /// The header that ends a section: the all-ones hash, all else zero.
    pub fn bookend() -> Self
        ensures { result ≡ file_bookend }
    {
        FileDataSequenceHeader {
            file_hash: MerkleHash::from([u64::MAX; 4]),
            file_flags: MDB_DEFAULT_FILE_FLAG,
            num_entries: 0,
            _unused: 0,
        }
    }

    /// Whether the hash is the all-ones hash, whatever the other fields.
    pub fn is_bookend(&self) -> bool
        ensures { IsTrue result ↔ (self.now.file_hash ≡ all_ones) }
    {
        self.file_hash == MerkleHash::from([u64::MAX; 4])
    }

    // The optional parts that the header announces.
    #[inline(always)]
    pub(super) fn parts(&self) -> Parts
        ensures { result ≡ flags_of (announces self.now.file_flags) }
    {
        Parts::of_flags(self.file_flags)
    }

    /// Whether the header announces a part.
    #[inline(always)]
    pub fn contains(&self, part: OptionalPart) -> bool
        ensures { result ≡ announces self.now.file_flags part }
    {
        self.parts().contains(part)
    }

    // The flags of the optional parts that the header announces, and no others.
    fn known_flags(&self) -> u32
        ensures { result ≡ flags_of (announces self.now.file_flags) }
    {
        self.parts().flags()
    }

    /// Whether the flags announce optional parts and nothing else, and the reserved word is zero.
    pub fn is_plain(&self) -> bool
        ensures { IsTrue result ↔ IsPlainHeader self.now }
    {
        self.file_flags == self.known_flags() && self._unused == 0
    }

    /// Whether each segment has a verification row.
    pub fn contains_verification(&self) -> bool
        ensures { result ≡ has_verification self.now.file_flags }
    {
        self.contains(OptionalPart::Verification)
    }

    /// Whether the record has a metadata row.
    pub fn contains_metadata_ext(&self) -> bool
        ensures { result ≡ has_metadata_ext self.now.file_flags }
    {
        self.contains(OptionalPart::MetadataExt)
    }

    /// Whether the record ends in an auxiliary row.
    pub fn contains_aux_ext(&self) -> bool
        ensures { result ≡ has_aux_ext self.now.file_flags }
    {
        self.contains(OptionalPart::AuxExt)
    }

    /// Appends the row and returns 48, the number of bytes. The error is the writer's.
    pub fn serialize<W: Write>(&self, writer: &mut W) -> io::Result<usize>
        ensures bytes { IfOk result
            (WritesRow (W.contents writer.old) (W.contents writer.new) (header_row self.now)) }
        ensures causes { IfErr result IsNoEnd }
    {
        write_row(self, writer)?;
        Ok(MDB_FILE_INFO_ENTRY_SIZE)
    }

    /// Reads the row with all its fields. `UnexpectedEof` if fewer than 48 bytes are left.
    pub fn deserialize<R: Read>(reader: &mut R) -> io::Result<Self>
        ensures { MatchResult result
            (ReadsWhole header_row FitsHeader (R.remaining reader.old) (R.remaining reader.new))
            (LacksRow (R.remaining reader.old)) }
    {
        read_row(reader)
    }

    /// The number of rows after the header. Requires that it fits `u32`.
    pub fn num_info_entry_following(&self) -> u32
        requires { rows_after self.now < 2 ^ 32 }
        ensures { result ≡ rows_after self.now }
    {
        self.rows_after() as u32
    }

    /// The number of rows after the header, which may not fit `u32`.
    pub fn rows_after(&self) -> u64
        ensures rows { result ≡ rows_after self.now }
        ensures bound { result ≤ 2 ^ 33 }
    {
        u64::from(self.num_entries) + self.optional_rows()
    }

    /// The number of rows of a part that the header announces.
    #[inline(always)]
    pub fn part_rows(&self, part: OptionalPart) -> u32
        ensures { result ≡ part_rows part self.now }
    {
        if self.contains(part) {
            part.size(self.num_entries)
        } else {
            0
        }
    }

    /// The number of rows of all optional parts.
    pub fn optional_rows(&self) -> u64
        ensures rows { result ≡ optional_rows_after self.now }
        ensures bound { result ≤ self.now.num_entries + 2 }
    {
        self.rows_of_parts(&OptionalPart::ALL)
    }

    // The number of rows of the optional parts before one of them.
    pub(super) fn rows_before(&self, part: OptionalPart) -> usize
        ensures rows { result ≡ rows_before part self.now }
        ensures bound { result < 2 ^ 33 }
    {
        self.rows_of_parts(part.before()) as usize
    }

    // The number of rows of some parts.
    fn rows_of_parts(&self, parts: &[OptionalPart]) -> u64
        requires { length parts.now ≤ 3 }
        ensures rows { result ≡ sum_by (λ part. part_rows part self.now) parts.now }
        ensures bound { result ≤ 4294967295 * length parts.now }
    {
        let mut rows = 0;
        for part in parts {
            rows += u64::from(self.part_rows(*part));
        }
        rows
    }

    // The flags with those of each part that only `other` announces.
    pub(super) fn merged_flags(&self, other: &Self) -> u32
        ensures { result ≡ self.now.file_flags + flags_of
            (λ part. announces other.now.file_flags part
            && not (announces self.now.file_flags part)) }
    {
        self.file_flags + self.gained_parts(other).flags()
    }

    // The parts that only `other` announces.
    fn gained_parts(&self, other: &Self) -> Parts
        ensures { result ≡ flags_of
            (λ part. announces other.now.file_flags part
            && not (announces self.now.file_flags part)) }
    {
        other.parts().without(self.parts())
    }

    /// The number of auxiliary rows that the header announces, 1 or 0.
    pub fn aux_rows(&self) -> u32
        ensures { result ≡ (if has_aux_ext self.now.file_flags then 1 else 0) }
    {
        self.part_rows(OptionalPart::AuxExt)
    }

    /// The header of a mix of two records of one file: the flags of the parts that either
    /// announces, no others, and a zero reserved word.
    pub fn mix_with(&self, other: &Self) -> Self
        ensures { result ≡ mixed_header self.now other.now }
    {
        let parts = self.parts().union(other.parts());
        FileDataSequenceHeader::with_parts(self.file_hash, self.num_entries, parts)
    }

    /// Whether both headers have the same hash and the same number of segments.
    pub fn verify_same_file(header_1: &Self, header_2: &Self) -> bool
        ensures { IsTrue result ↔ IsSameFile header_1.now header_2.now }
    {
        header_1.file_hash == header_2.file_hash && header_1.num_entries == header_2.num_entries
    }

    /// Compares the 32 flag bits of two headers as sets.
    pub fn compare_flag_superset(header_a: &Self, header_b: &Self) -> SupersetResult
        ensures { Compares header_a.now.file_flags header_b.now.file_flags result }
    {
        let a = header_a.file_flags;
        let b = header_b.file_flags;
        let common = a & b;
        match (common == b, common == a) {
            (true, true) => SupersetResult::Equal,
            (true, false) => SupersetResult::SuperA,
            (false, true) => SupersetResult::SuperB,
            (false, false) => SupersetResult::Neither,
        }
    }
}

/// How the flags of two headers `a` and `b` compare.
#[derive(Clone, Copy, Debug, PartialEq, Eq)]
pub enum SupersetResult {
    /// `a` has each flag that `b` has, and at least one more.
    SuperA,
    /// `b` has each flag that `a` has, and at least one more.
    SuperB,
    /// Each has a flag that the other has not.
    Neither,
    /// Both have the same flags.
    Equal,
}

impl Row for FileDataSequenceHeader {
    ghost row_bytes = { header_row };

    ghost Fits = { FitsHeader };

    ghost as_read = { λ h. h };

    ghost row_at = { header_at };

    ghost spelled = { header_spelled };

    #[tactic(auto, unfolding(crate::specs::FileRow::header_row))]
    #[inline(always)]
    fn to_bytes(&self) -> [u8; ROW_SIZE] {
        let mut row = [0u8; ROW_SIZE];
        let at = put_hash(&mut row, 0, &self.file_hash);
        let at = put_u32(&mut row, at, self.file_flags);
        let at = put_u32(&mut row, at, self.num_entries);
        put_u64(&mut row, at, self._unused);
        row
    }

    #[tactic(auto, unfolding(crate::specs::FileRow::header_row))]
    #[inline(always)]
    fn from_bytes(bytes: &[u8; ROW_SIZE]) -> Self {
        let (file_hash, rest) = split_hash(bytes);
        let (file_flags, rest) = split_u32(rest);
        let (num_entries, rest) = split_u32(rest);
        let (_unused, _) = split_u64(rest);
        FileDataSequenceHeader {
            file_hash,
            file_flags,
            num_entries,
            _unused,
        }
    }

    fn widths(self) {}
}
