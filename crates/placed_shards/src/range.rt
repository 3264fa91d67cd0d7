//! Ranges of hashes.

ghost use Rattle.std.specs.Prelude.{◌≡◌};
ghost use Rattle.placed_shards.specs.Ranges.{is_from, is_before, is_within};

use std::cmp::Ordering;
use xet_base::merklehash::MerkleHash;

/// The hashes from `from` on and below `to`: none if `to` is not above `from`.
#[derive(Clone, Copy, Debug, PartialEq, Eq)]
pub struct HashRange {
    /// The least hash, or `None` for no lower bound.
    pub from: Option<MerkleHash>,
    /// The hash that ends the range, or `None` for no upper bound.
    pub to: Option<MerkleHash>,
}

impl HashRange {
    /// The range of all hashes.
    pub const ALL: HashRange = HashRange {
        from: None,
        to: None,
    };

    /// Whether a hash is in the range.
    pub fn contains(&self, hash: &MerkleHash) -> bool
        ensures { result ≡ is_within self.now hash.now }
    {
        is_from(&self.from, hash) && is_before(&self.to, hash)
    }
}

fn is_from(from: &Option<MerkleHash>, hash: &MerkleHash) -> bool
    ensures { result ≡ is_from from.now hash.now }
{
    match from {
        Some(first) => hash.cmp(first) != Ordering::Less,
        None => true,
    }
}

fn is_before(to: &Option<MerkleHash>, hash: &MerkleHash) -> bool
    ensures { result ≡ is_before to.now hash.now }
{
    match to {
        Some(end) => hash.cmp(end) == Ordering::Less,
        None => true,
    }
}
