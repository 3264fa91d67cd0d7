//! What keeps shards from being merged.

ghost use Rattle.std.specs.Prelude.{◌≡◌, ⊤, ◌++◌, List, map, All, true, MatchOption, MatchResult, OnOk, IfErr};
ghost use Rattle.std.specs.List.{AllZip};
ghost use Rattle.xet_base.specs.declared.error.CoreError.TheVariants.{OutOfMemory};
ghost use Rattle.placed_shards.specs.Content.{Content, content, AscendBoth};
ghost use Rattle.placed_shards.specs.Findings.{AreOpened, FirstRefusal, HasAllDisagreements, HasFormedRecords, HasMalformed, IsFirstMalformed};
ghost use Rattle.placed_shards.specs.Steps.Differing.{disagreement_of, IsReadInOrder};
ghost use Rattle.placed_shards.specs.Steps.MergingSteps.{IsOpenedAlone};

use crate::agreement::Agreement;
use crate::differing::{Differing, find_differing};
use crate::malformed::find_malformed_record;
use crate::merge::open_selected;
use crate::placed_file::PlacedFile;
use crate::placed_shard::PlacedShard;
use crate::placed_xorb::PlacedXorb;
use crate::selection::Selection;
use std::alloc::Global;
use xet_base::error::Result;
use xet_base::merklehash::MerkleHash;

/// The hash of a file or of a xorb.
#[derive(Clone, Copy)]
pub enum RecordHash {
    File(MerkleHash),
    Xorb(MerkleHash),
}

/// Two inputs whose records with one hash do not agree.
#[derive(Clone, Copy)]
pub struct Disagreement {
    /// The hash, and whose it is.
    pub record_hash: RecordHash,
    /// The number of the one input.
    pub first: usize,
    /// The number of the other.
    pub second: usize,
}

/// A malformed record: a file whose header has an unknown flag or a reserved word that is not zero,
/// or a xorb whose chunks have more than 4294967295 bytes together.
#[derive(Clone, Copy)]
pub struct MalformedRecord {
    /// The hash, and whose it is.
    pub record_hash: RecordHash,
    /// The number of the input that holds it.
    pub input: usize,
}

/// The hashes under which selected records of two inputs do not agree, each with two such inputs:
/// files first, then xorbs, each in ascending order.
///
/// The error is that of the first input that cannot be opened by the selection's `Access`; or
/// `OutOfMemory`.
pub fn find_disagreements(
    alloc: Global,
    inputs: &[&[u8]],
    selection: &Selection,
) -> Result<Vec<Disagreement>>
    ensures { MatchResult result
        (λ found. (cs : List Content) × AreOpened selection.now (map (λ x. x.now) inputs.now) cs
        × HasAllDisagreements cs found.items)
        (FirstRefusal selection.now (λ c. ⊤) (map (λ x. x.now) inputs.now)) }
{
    let shards = open_all(alloc, inputs, *selection)?;
    disagreements_of(alloc, shards.as_slice())
}

fn open_all<'a>(
    alloc: Global,
    inputs: &[&'a [u8]],
    selection: Selection,
) -> Result<Vec<PlacedShard<'a>>>
    ensures { MatchResult result
        (λ opened. AllZip (IsOpenedAlone selection) (map (λ x. x.now) inputs.now) opened.items)
        (FirstRefusal selection (λ c. ⊤) (map (λ x. x.now) inputs.now)) }
{
    let mut opened = Vec::with_capacity(alloc, inputs.len())?;
    for input in inputs {
        opened.push(open_selected(alloc, input, selection)?)?;
    }
    Ok(opened)
}

fn disagreements_of(alloc: Global, shards: &[PlacedShard<'_>]) -> Result<Vec<Disagreement>>
    requires { All IsReadInOrder shards.now }
    ensures { MatchResult result (λ found. HasAllDisagreements (map content shards.now) found.items)
        (λ e. e ≡ OutOfMemory) }
{
    let files = find_differing::<PlacedFile<'_>>(alloc, shards)?;
    let xorbs = find_differing::<PlacedXorb<'_>>(alloc, shards)?;
    let mut found = Vec::new(alloc);
    add_all::<PlacedFile<'_>>(&mut found, files.as_slice())?;
    add_all::<PlacedXorb<'_>>(&mut found, xorbs.as_slice())?;
    Ok(found)
}

fn add_all<'a, P: Agreement<'a>>(
    found: &mut Vec<Disagreement>,
    differing: &[Differing],
) -> Result<()>
    ensures ok { OnOk result
        (found.new.items ≡ found.old.items ++ map (disagreement_of P.named) differing.now) }
    ensures causes { IfErr result (λ e. e ≡ OutOfMemory) }
{
    for one in differing {
        found.push(Disagreement {
            record_hash: P::name(one.hash),
            first: one.first,
            second: one.second,
        })?;
    }
    Ok(())
}

/// A malformed selected record of the first input that holds one, if any.
///
/// Inputs are opened in turn up to that one, and the error is that of the first that cannot be
/// opened by the selection's `Access`; or `OutOfMemory`.
pub fn find_malformed(
    alloc: Global,
    inputs: &[&[u8]],
    selection: &Selection,
) -> Result<Option<MalformedRecord>>
    ensures { MatchResult result
        (λ found. MatchOption found
        ((cs : List Content) × AreOpened selection.now (map (λ x. x.now) inputs.now) cs
        × All HasFormedRecords cs)
        (IsFirstMalformed selection.now (map (λ x. x.now) inputs.now)))
        (FirstRefusal selection.now HasFormedRecords (map (λ x. x.now) inputs.now)) }
{
    for input in 0..inputs.len() {
        let shard = open_selected(alloc, inputs[input], *selection)?;
        if let Some(record_hash) = malformed_in(&shard) {
            return Ok(Some(MalformedRecord { record_hash, input }));
        }
    }
    Ok(None)
}

/// The hash of a malformed record, first of files.
pub(crate) fn malformed_in(shard: &PlacedShard<'_>) -> Option<RecordHash>
    requires read { shard.now.as_read ≡ true }
    requires ascend { AscendBoth (content shard.now) }
    ensures { MatchOption result (HasFormedRecords (content shard.now))
        (HasMalformed (content shard.now)) }
{
    let file = find_malformed_record::<PlacedFile<'_>>(shard.files.as_slice());
    if let Some(hash) = file {
        return Some(RecordHash::File(hash));
    }
    let xorb = find_malformed_record::<PlacedXorb<'_>>(shard.xorbs.as_slice());
    match xorb {
        Some(hash) => Some(RecordHash::Xorb(hash)),
        None => None,
    }
}
