//! The optional parts of a file's record, and sets of them, so that what merges, joins, drops or
//! copies parts is said once for all three.

ghost use Rattle.std.specs.Prelude.{◌≡◌, ◌^◌, not, true, ◌&&◌, ◌||◌, IsTrue, ◌↔◌};
ghost use Rattle.xet_records.specs.Part.{bit_of, is_part, announces, flags_of, parts_before, size_of_part};

use super::{
    MDB_FILE_FLAG_WITH_AUX_EXT, MDB_FILE_FLAG_WITH_METADATA_EXT, MDB_FILE_FLAG_WITH_VERIFICATION,
};
use std::marker::Model;

/// An optional part of a file's record, in the order of their rows.
#[derive(Clone, Copy, Debug, PartialEq, Eq)]
pub enum OptionalPart {
    /// A verification row for each segment.
    Verification,
    /// The metadata row.
    MetadataExt,
    /// The auxiliary row.
    AuxExt,
}

impl OptionalPart {
    /// All parts, in the order of their rows.
    pub const ALL: [OptionalPart; 3] = [
        OptionalPart::Verification,
        OptionalPart::MetadataExt,
        OptionalPart::AuxExt,
    ];

    // The flag that announces the part.
    #[inline(always)]
    fn flag(self) -> u32
        ensures { result ≡ 2 ^ bit_of self }
    {
        match self {
            OptionalPart::Verification => MDB_FILE_FLAG_WITH_VERIFICATION,
            OptionalPart::MetadataExt => MDB_FILE_FLAG_WITH_METADATA_EXT,
            OptionalPart::AuxExt => MDB_FILE_FLAG_WITH_AUX_EXT,
        }
    }

    // The set of this part if it is wanted, else the empty set.
    #[tactic(auto, using(crate::proofs::PartSets::one_part))]
    #[inline(always)]
    pub(super) fn when(self, wanted: bool) -> Parts
        ensures { result ≡ flags_of (λ part. wanted && is_part self part) }
    {
        Parts {
            flags: if wanted { self.flag() } else { 0 },
        }
    }

    // The parts whose rows come before those of this part.
    pub(super) fn before(self) -> &'static [OptionalPart]
        ensures { result.now ≡ parts_before self }
    {
        &OptionalPart::ALL[..self as usize]
    }

    // The number of its rows in a file with so many segments.
    #[inline(always)]
    pub(super) fn size(self, segments: u32) -> u32
        ensures { result ≡ size_of_part self segments }
    {
        match self {
            OptionalPart::Verification => segments,
            _ => 1,
        }
    }
}

// The flags of all parts.
const ALL_FLAGS: u32 = MDB_FILE_FLAG_WITH_VERIFICATION
    + MDB_FILE_FLAG_WITH_METADATA_EXT
    + MDB_FILE_FLAG_WITH_AUX_EXT;

/// A set of optional parts. Contracts see the flags that announce its parts, and no others.
#[derive(Clone, Copy, Debug)]
pub struct Parts {
    flags: u32,
}

impl Model for Parts {
    ghost use Rattle.std.specs.Prelude.{◌≡◌, ℕ};
    ghost use Rattle.xet_records.specs.Part.{announces, flags_of};

    ghost Value = { ℕ };

    ghost view = { λ parts. parts.flags };

    ghost inverse = { λ flags. record { flags = flags } };

    ghost invariant = { λ parts. parts.flags ≡ flags_of (announces parts.flags) };
}

impl Parts {
    /// The set of all parts.
    #[inline(always)]
    pub fn all() -> Self
        ensures { result ≡ flags_of (λ part. true) }
    {
        Parts { flags: ALL_FLAGS }
    }

    /// The parts that the flags announce.
    #[inline(always)]
    pub fn of_flags(flags: u32) -> Self
        ensures { result ≡ flags_of (announces flags) }
    {
        Parts {
            flags: flags & ALL_FLAGS,
        }
    }

    /// The flags that announce these parts, and no others.
    #[inline(always)]
    pub fn flags(self) -> u32
        ensures { result ≡ self }
    {
        self.flags
    }

    /// Whether a part is in the set.
    #[tactic(auto, using(crate::proofs::Flags::bit_and_announces))]
    #[inline(always)]
    pub fn contains(self, part: OptionalPart) -> bool
        ensures { result ≡ announces self part }
    {
        self.flags & part.flag() != 0
    }

    /// The parts that are in either set.
    #[inline(always)]
    pub fn union(self, other: Parts) -> Self
        ensures { result ≡ flags_of (λ part. announces self part || announces other part) }
    {
        Parts {
            flags: self.flags | other.flags,
        }
    }

    /// The parts of this set that are not in the other.
    #[inline(always)]
    pub fn without(self, other: Parts) -> Self
        ensures { result ≡ flags_of (λ part. announces self part && not (announces other part)) }
    {
        Parts {
            flags: self.flags & !other.flags,
        }
    }

    /// Whether each part of the other set is in this one.
    #[inline(always)]
    pub fn is_superset(self, other: Parts) -> bool
        ensures { IsTrue result
            ↔ ((part : OptionalPart) → IsTrue (announces other part) → IsTrue (announces self part)) }
    {
        self.flags & other.flags == other.flags
    }
}
