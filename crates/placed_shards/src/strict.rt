//! The union of shards that have to be well-formed, and to agree.

ghost use Rattle.std.specs.Prelude.{◌≡◌, List, map, true, MatchResult};
ghost use Rattle.placed_shards.specs.Content.{content};
ghost use Rattle.placed_shards.specs.MergedLists.{MergeRefusal};
ghost use Rattle.placed_shards.specs.Strict.{AreAgreeing, IsAgreedOr, AgreedRefusal, IsJoinedMerge};

use crate::findings::{Disagreement, MalformedRecord, find_disagreements, find_malformed};
use crate::merge::merge_halves;
use crate::placed_shard::PlacedShard;
use crate::selection::Selection;
use bumpalo::Bump;
use std::alloc::Global;
use xet_base::error::{CoreError, Result};

/// What is made of shards that have to agree, or why it is not.
#[derive(Drop)]
pub enum Agreed<T> {
    /// The shards are well-formed, and agree pairwise.
    Made(T),
    /// The hashes under which records of two inputs do not agree, at least one.
    Disagreements(Vec<Disagreement>),
    /// A record that no shard may have, of the first input with one.
    Malformed(MalformedRecord),
}

/// The [`merge`](crate::merge::merge) of inputs whose selected records are well-formed and agree
/// pairwise, their join. Xorbs with one hash agree if they are equal; files if their segments are,
/// and each optional part that both have.
///
/// Inputs that agree are read once. Others are read again, up to the first that holds a malformed
/// record or cannot be opened by the selection's `Access`, whose error it is; then all that
/// disagree are listed. The errors of `merge` come last.
pub fn merge_agreeing<'a>(
    alloc: Global,
    arena: &'a Bump,
    inputs: &[&'a [u8]],
    selection: &Selection,
) -> Result<Agreed<PlacedShard<'a>>>
    ensures { MatchResult result
        (IsAgreedOr selection.now (map (λ x. x.now) inputs.now)
        (λ made. (made.as_read ≡ true)
        × IsJoinedMerge selection.now (map (λ x. x.now) inputs.now) (content made)))
        (AgreedRefusal selection.now (map (λ x. x.now) inputs.now)
        (MergeRefusal selection.now (map (λ x. x.now) inputs.now))) }
{
    match merge_halves(alloc, arena, inputs, *selection, true) {
        Ok(made) => Ok(Agreed::Made(made)),
        Err(CoreError::OutOfMemory) => Err(CoreError::OutOfMemory),
        Err(error) => why_not(alloc, inputs, selection, error),
    }
}

fn why_not<'a>(
    alloc: Global,
    inputs: &[&'a [u8]],
    selection: &Selection,
    error: CoreError,
) -> Result<Agreed<PlacedShard<'a>>>
    requires { AreAgreeing selection.now (map (λ x. x.now) inputs.now)
        → MergeRefusal selection.now (map (λ x. x.now) inputs.now) error }
    ensures { MatchResult result
        (IsAgreedOr selection.now (map (λ x. x.now) inputs.now)
        (λ made. (made.as_read ≡ true)
        × IsJoinedMerge selection.now (map (λ x. x.now) inputs.now) (content made)))
        (AgreedRefusal selection.now (map (λ x. x.now) inputs.now)
        (MergeRefusal selection.now (map (λ x. x.now) inputs.now))) }
{
    if let Some(record) = find_malformed(alloc, inputs, selection)? {
        return Ok(Agreed::Malformed(record));
    }
    let found = find_disagreements(alloc, inputs, selection)?;
    if found.is_empty() {
        return Err(error);
    }
    Ok(Agreed::Disagreements(found))
}
