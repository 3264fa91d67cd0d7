//! The union of a list of shards, by a balanced tree of unions. Inputs are opened at its leaves, so
//! that small ones stay in the cache.

ghost use Rattle.std.specs.Prelude.{◌≡◌, List, map, length, true, IsTrue, IfOk, MatchResult};
ghost use Rattle.xet_base.specs.declared.merklehash.DataHash.{DataHash};
ghost use Rattle.xet_records.specs.declared.record_reader.FormatVersion.{FormatVersion};
ghost use Rattle.xet_shards.specs.Content.Shard.{Shard};
ghost use Rattle.xet_core_structures.specs.Trees.MergeTrees.{MergeRefused};
ghost use Rattle.placed_shards.specs.Content.{Content, content, content_layout};
ghost use Rattle.placed_shards.specs.Findings.{HasFormedRecords};
ghost use Rattle.placed_shards.specs.MergedLists.{IsMergeOf, MergeRefusal, IsMergeOfList, shard_content};
ghost use Rattle.placed_shards.specs.Selections.{OpensSelected, SelectedRefusal};
ghost use Rattle.placed_shards.specs.MergeSizes.{IsResultSize};
ghost use Rattle.placed_shards.specs.Steps.MergingSteps.{IsMerged, IsOpenedAlone, NotMerged};

use crate::by_tables::open_by_tables;
use crate::findings::malformed_in;
use crate::of_agreeing::OfAgreeing;
use crate::open::open;
use crate::placed_shard::PlacedShard;
use crate::selection::{Access, Selection};
use crate::unions::{union, unite_shards};
use bumpalo::Bump;
use std::alloc::Global;
use xet_base::error::{CoreError, Result};
use xet_shards::shard_writer::LayoutOptions;

/// The union of the selected records of one shard or more under one key, with all tables, this key,
/// creation 0 and no expiry: their join, if they are well-formed and agree pairwise. In any version
/// it has at most 344 bytes more than 8/3 of the inputs' bytes.
///
/// `InvalidArguments` if the list is empty; else the error of the first input or union that fails
/// in the order of the list, a union after both its halves: those of [`open`] or
/// [`open_by_tables`], and of [`union`].
pub fn merge<'a>(
    alloc: Global,
    arena: &'a Bump,
    inputs: &[&'a [u8]],
    selection: &Selection,
) -> Result<PlacedShard<'a>>
    ensures any_bytes { MatchResult result
        (λ made. (made.as_read ≡ true)
        × IsMergeOf selection.now (map (λ x. x.now) inputs.now) (content made))
        (MergeRefusal selection.now (map (λ x. x.now) inputs.now)) }
    ensures one_byte_string { (key : DataHash) → (parts : List Shard) → (join : Shard)
        → IsMergeOfList selection.now key (map (λ x. x.now) inputs.now) parts join
        → MatchResult result (λ made. content made ≡ shard_content key join) (MergeRefused join) }
    ensures size { IfOk result (λ made. (version : FormatVersion)
        → IsResultSize (map (λ x. x.now) inputs.now) (length (content_layout version (content made)))) }
{
    merge_halves(alloc, arena, inputs, *selection, false)
}

/// As [`merge`]. With `strict`, inputs have to be well-formed and agree; if they don't, the error
/// says no more.
pub(crate) fn merge_halves<'a>(
    alloc: Global,
    arena: &'a Bump,
    inputs: &[&'a [u8]],
    selection: Selection,
    strict: bool,
) -> Result<PlacedShard<'a>>
    ensures { MatchResult result (IsMerged strict selection (map (λ x. x.now) inputs.now))
        (NotMerged strict selection (map (λ x. x.now) inputs.now)) }
{
    if inputs.is_empty() {
        return Err(CoreError::InvalidArguments);
    }
    if inputs.len() == 1 {
        return open_alone(alloc, inputs[0], selection, strict);
    }
    let (first, second) = inputs.split_at(inputs.len() / 2);
    let one = merge_halves(alloc, arena, first, selection, strict)?;
    let other = merge_halves(alloc, arena, second, selection, strict)?;
    if strict {
        return unite_shards::<OfAgreeing, OfAgreeing>(alloc, arena, &one, &other);
    }
    union(alloc, arena, &one, &other)
}

// With `strict`, the records have to be well-formed.
fn open_alone<'a>(
    alloc: Global,
    bytes: &'a [u8],
    selection: Selection,
    strict: bool,
) -> Result<PlacedShard<'a>>
    ensures { MatchResult result
        (λ opened. IsOpenedAlone selection bytes.now opened
        × (IsTrue strict → HasFormedRecords (content opened)))
        (λ e. (IsTrue strict → (c : Content) → OpensSelected selection bytes.now c → HasFormedRecords c)
        → SelectedRefusal selection bytes.now e) }
{
    let opened = open_selected(alloc, bytes, selection)?;
    if strict && malformed_in(&opened).is_some() {
        return Err(CoreError::InvalidShard(String::new(alloc)));
    }
    Ok(opened)
}

/// The selected records of an input, with the options that `merge` gives.
pub(crate) fn open_selected<'a>(
    alloc: Global,
    bytes: &'a [u8],
    selection: Selection,
) -> Result<PlacedShard<'a>>
    ensures { MatchResult result (IsOpenedAlone selection bytes.now)
        (SelectedRefusal selection bytes.now) }
{
    if selection.access == Access::Tables {
        return open_by_tables(alloc, bytes, &selection.range);
    }
    let shard = open(alloc, bytes)?;
    let options = LayoutOptions {
        key: shard.options.key,
        ..LayoutOptions::plain(None)
    };
    Ok(shard.within(&selection.range).with_options(options))
}
