//! Header and footer of a shard.

ghost use Rattle.std.specs.Prelude.{◌↔◌, ◌≤◌, ℕ, List, length, MatchResult};
ghost use Rattle.xet_core_structures.specs.declared.shard_format.MDBShardInfo.{MDBShardInfo};
ghost use Rattle.xet_core_structures.specs.Ends.{HasHeaderAndFooter};
ghost use Rattle.xet_core_structures.specs.TwoShards.ByteResults.{LoadRefusal};
ghost use Rattle.shard_bytes.specs.PartLookups.{ends_of};

use std::alloc::Global;
use xet_core_structures::error::Result;
use xet_core_structures::shard_format::MDBShardInfo;
use xet_core_structures::source::MemorySource;

/// The header with which bytes begin and the footer with which they end. Fails as
/// [`MDBShardInfo::load_from_reader`] does.
pub fn load_bytes(alloc: Global, bytes: &[u8]) -> Result<MDBShardInfo>
    ensures { MatchResult result (HasHeaderAndFooter bytes.now) (LoadRefusal bytes.now) }
{
    let mut source = MemorySource::new(bytes);
    MDBShardInfo::load_from_reader(alloc, &mut source)
}

/// Does nothing: [`load_bytes`] reads the same from the first 48 and the last 200 bytes, put
/// together.
pub fn ends_are_enough()
    ensures { (bytes : List ℕ) → 200 ≤ length bytes → (info : MDBShardInfo)
        → HasHeaderAndFooter (ends_of bytes) info ↔ HasHeaderAndFooter bytes info }
{}
