//! Agreement of records with one hash.

ghost use Rattle.std.specs.Prelude.{◌≡◌, ◌≢◌, ◌↔◌, IsTrue, List, MatchResult};
ghost use Rattle.xet_base.specs.declared.error.CoreError.TheVariants.{OutOfMemory};
ghost use Rattle.xet_base.specs.declared.merklehash.DataHash.{DataHash};
ghost use Rattle.xet_records.specs.declared.file_structs.MDBFileInfo.{MDBFileInfo};
ghost use Rattle.xet_records.specs.declared.xorb_structs.MDBXorbInfo.{MDBXorbInfo};
ghost use Rattle.xet_records.specs.Merging.{Agree};
ghost use Rattle.placed_shards.specs.declared.findings.RecordHash.{RecordHash};
ghost use Rattle.placed_shards.specs.declared.findings.RecordHash.TheVariants.{File, Xorb};
ghost use Rattle.placed_shards.specs.declared.placed_shard.PlacedShard.{PlacedShard};
ghost use Rattle.placed_shards.specs.Agreement.{AreEqual};
ghost use Rattle.placed_shards.specs.Steps.Differing.{AgreeAsRead};

use crate::findings::RecordHash;
use crate::of_agreeing::files_agree;
use crate::placed_file::PlacedFile;
use crate::placed_record::PlacedRecord;
use crate::placed_shard::PlacedShard;
use crate::placed_xorb::PlacedXorb;
use std::alloc::Global;
use xet_base::error::Result;
use xet_base::merklehash::MerkleHash;

/// Records with one hash, which agree as `merge_agreeing` says.
pub trait Agreement<'a>: PlacedRecord<'a> {
    ghost agree: { Self → Self → Type 0 };

    ghost named: { DataHash → RecordHash };

    ghost listed: { PlacedShard → List Self };

    fn records<'s>(shard: &'s PlacedShard<'a>) -> &'s [Self]
        ensures { result.now ≡ listed shard.now };

    /// A hash, and whose it is.
    fn name(hash: MerkleHash) -> RecordHash
        ensures { result ≡ named hash };

    /// Whether two records that are not copies agree, as reading returns them, or `OutOfMemory`.
    fn agree_apart(alloc: Global, first: &Self, second: &Self) -> Result<bool>
        requires { first.now ≢ second.now }
        ensures { MatchResult result
            (λ agreed. IsTrue agreed ↔ AgreeAsRead Self.kind agree first.now second.now)
            (λ e. e ≡ OutOfMemory) };

    /// Does nothing: agreement is reflexive and symmetric.
    fn agreement_laws()
        ensures itself { (r : Self) → agree r r }
        ensures either_way { (r s : Self) → agree r s → agree s r };
}

impl<'a> Agreement<'a> for PlacedFile<'a> {
    ghost agree = { Agree };

    ghost named = { File };

    ghost listed = { λ s. s.files.items };

    fn records<'s>(shard: &'s PlacedShard<'a>) -> &'s [PlacedFile<'a>] {
        shard.files.as_slice()
    }

    fn name(hash: MerkleHash) -> RecordHash
        ensures { result ≡ File hash }
    {
        RecordHash::File(hash)
    }

    fn agree_apart(alloc: Global, first: &PlacedFile<'a>, second: &PlacedFile<'a>) -> Result<bool> {
        files_agree(alloc, first, second)
    }

    fn agreement_laws()
        ensures itself { (r : MDBFileInfo) → Agree r r }
        ensures either_way { (r s : MDBFileInfo) → Agree r s → Agree s r }
    {}
}

impl<'a> Agreement<'a> for PlacedXorb<'a> {
    ghost agree = { AreEqual };

    ghost named = { Xorb };

    ghost listed = { λ s. s.xorbs.items };

    fn records<'s>(shard: &'s PlacedShard<'a>) -> &'s [PlacedXorb<'a>] {
        shard.xorbs.as_slice()
    }

    fn name(hash: MerkleHash) -> RecordHash
        ensures { result ≡ Xorb hash }
    {
        RecordHash::Xorb(hash)
    }

    fn agree_apart(
        _alloc: Global,
        _first: &PlacedXorb<'a>,
        _second: &PlacedXorb<'a>,
    ) -> Result<bool> {
        Ok(false)
    }

    fn agreement_laws()
        ensures itself { (r : MDBXorbInfo) → AreEqual r r }
        ensures either_way { (r s : MDBXorbInfo) → AreEqual r s → AreEqual s r }
    {}
}
