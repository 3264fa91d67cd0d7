//! A range of hashes.

ghost use Rattle.std.specs.Prelude.{◌≡◌, None, Some};
ghost use Rattle.xet_base.specs.declared.merklehash.DataHash.{DataHash};
ghost use Rattle.mdb_garbage.specs.CollectedRanges.{in_range, InRange};

use xet_base::merklehash::MerkleHash;

/// The hashes from `from` on and below `to`. A limit that is `None` does not apply.
#[derive(Clone, Copy)]
pub struct HashRange {
    pub from: Option<MerkleHash>,
    pub to: Option<MerkleHash>,
}

impl HashRange {
    /// All hashes.
    pub fn all() -> HashRange
        ensures { result ≡ record { from = None; to = None } }
    {
        HashRange {
            from: None,
            to: None,
        }
    }

    /// Whether a hash is in the range.
    pub fn has(&self, hash: &MerkleHash) -> bool
        ensures { result ≡ in_range self.now hash.now }
    {
        let above = match &self.from {
            Some(from) => *from <= *hash,
            None => true,
        };
        let below = match &self.to {
            Some(to) => *hash < *to,
            None => true,
        };
        above && below
    }

    /// The part of the range below a hash.
    pub fn below(self, to: MerkleHash) -> HashRange
        ensures from { result.from ≡ self.from }
        ensures within { (hash : DataHash) → InRange result hash → InRange self hash }
    {
        match self.to {
            Some(limit) => { if to < limit { self.up_to(to) } else { self } }
            None => self.up_to(to),
        }
    }

    // The same range with another limit at its end.
    fn up_to(self, to: MerkleHash) -> HashRange
        ensures { result ≡ record self { to = Some to } }
    {
        HashRange {
            from: self.from,
            to: Some(to),
        }
    }
}
