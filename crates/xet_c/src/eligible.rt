//! The chunks that the global index keeps.

ghost use Rattle.std.specs.Prelude.{◌≡◌, List, map, MatchResult};
ghost use Rattle.xet_core_structures.specs.declared.merklehash.DataHash.{DataHash};
ghost use Rattle.shard_bytes.specs.Minimal.{EligibleIn, RefusesMinimal};
ghost use Rattle.shard_bytes.specs.Outcomes.{InMemory};
ghost use Rattle.xet_c.specs.Arguments.{c_hash};
ghost use Rattle.xet_c.specs.Output.{Outcome};

use crate::hash::{XetHash, words_of};
use crate::output::deliver;
use shard_bytes::minimal::eligible_chunks;
use std::alloc::Global;
use xet_core_structures::error::{CoreError, Result};

/// Puts the hashes of these chunks, in ascending order, to the front of `out`.
#[unsafe(no_mangle)]
pub extern "C" fn xet_eligible(
    alloc: Global,
    shard: &[u8],
    out: &mut [XetHash],
    written: &mut usize,
) -> u32
    ensures { Outcome
        (λ words. (hashes : List DataHash) × EligibleIn shard.now hashes
        × (words ≡ map c_hash hashes))
        (InMemory (RefusesMinimal shard.now)) out.old out.new written.new result }
{
    let words = eligible_hashes(alloc, shard);
    deliver(words, out, written)
}

fn eligible_hashes(alloc: Global, shard: &[u8]) -> Result<Vec<XetHash>>
    ensures { MatchResult result
        (λ words. (hashes : List DataHash) × EligibleIn shard.now hashes
        × (words.items ≡ map c_hash hashes))
        (InMemory (RefusesMinimal shard.now)) }
{
    let hashes = eligible_chunks(alloc, shard)?;
    words_of(alloc, hashes.as_slice())
}
