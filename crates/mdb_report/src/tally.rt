//! Tallies of commands that go through shards.

ghost use Rattle.std.specs.Prelude.{◌≡◌, ◌↔◌, [], ◌∷◌, ◌++◌, Contains, IsTrue, OnOk};

use crate::brief::Total;
use std::alloc::{AllocError, Global};
use xet_core_structures::merklehash::MerkleHash;

/// What was found in the shards so far.
#[derive(Drop)]
pub struct Tally {
    /// The sums over the shards printed in a line.
    pub total: Total,
    /// The hashes of the files or xorbs found.
    pub found: Vec<MerkleHash>,
    /// Whether a run of chunks was found.
    pub has_run: bool,
    /// How many shards a check found something in.
    pub with_findings: u64,
    /// How many shards could not be read.
    pub unreadable: u64,
}

impl Tally {
    /// A tally of no shards.
    pub fn new(alloc: Global) -> Tally
        ensures { result.found.items ≡ [] }
    {
        Tally {
            total: Total::NONE,
            found: Vec::new(alloc),
            has_run: false,
            with_findings: 0,
            unreadable: 0,
        }
    }

    /// Adds the hash of a file or xorb that was found.
    pub fn add_found(&mut self, hash: MerkleHash) -> Result<(), AllocError>
        ensures { OnOk result (self.new.found.items ≡ self.old.found.items ++ hash ∷ []) }
    {
        self.found.push(hash)?;
        Ok(())
    }

    /// Whether this hash was found.
    pub fn has_found(&self, hash: &MerkleHash) -> bool
        ensures { IsTrue result ↔ Contains self.now.found.items hash.now }
    {
        self.found.as_slice().contains(hash)
    }
}
