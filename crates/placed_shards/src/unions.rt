//! The union and the difference of two shards.

ghost use Rattle.std.specs.Prelude.{◌≡◌, true, MatchResult};
ghost use Rattle.xet_core_structures.specs.Records.ByteUnion.{IsEitherFile, IsEitherXorb};
ghost use Rattle.placed_shards.specs.Content.{content, AscendBoth};
ghost use Rattle.placed_shards.specs.Unions.{IsUnionOf, UnionRefusal, IsDifferenceOf, DifferenceRefusal, Unites, Refuses};

use crate::of_union::OfUnion;
use crate::placed_file::PlacedFile;
use crate::placed_shard::PlacedShard;
use crate::placed_xorb::PlacedXorb;
use crate::sets::{Union, subtract, unite};
use bumpalo::Bump;
use std::alloc::Global;
use xet_base::error::{CoreError, Result};
use xet_shards::shard_writer::LayoutOptions;

/// The union of two shards under one key, with all tables, this key, creation 0 and no expiry.
/// [`OfUnion`] says what is made of records with one hash; new ones are placed in the arena.
///
/// `InvalidArguments` if the keys differ; `InvalidShard` if files that have to be mixed differ in
/// their count of segments, or the rows of a section pass 4294967295; or `OutOfMemory`.
pub fn union<'a>(
    alloc: Global,
    arena: &'a Bump,
    first: &PlacedShard<'a>,
    second: &PlacedShard<'a>,
) -> Result<PlacedShard<'a>>
    requires read { (first.now.as_read ≡ true) × (second.now.as_read ≡ true) }
    requires ascend { AscendBoth (content first.now) × AscendBoth (content second.now) }
    ensures { MatchResult result
        (λ made. (made.as_read ≡ true)
        × IsUnionOf (content first.now) (content second.now) (content made))
        (UnionRefusal (content first.now) (content second.now)) }
{
    unite_shards::<OfUnion, OfUnion>(alloc, arena, first, second)
}

/// As [`union`], by these unions of records; `InvalidShard` if they make nothing of two.
pub fn unite_shards<'a, F: Union<'a, PlacedFile<'a>>, X: Union<'a, PlacedXorb<'a>>>(
    alloc: Global,
    arena: &'a Bump,
    first: &PlacedShard<'a>,
    second: &PlacedShard<'a>,
) -> Result<PlacedShard<'a>>
    requires read { (first.now.as_read ≡ true) × (second.now.as_read ≡ true) }
    requires ascend { AscendBoth (content first.now) × AscendBoth (content second.now) }
    ensures { MatchResult result
        (λ made. (made.as_read ≡ true)
        × Unites F.makes X.makes (content first.now) (content second.now) (content made))
        (Refuses F.makes X.makes (content first.now) (content second.now)) }
{
    let key = first.options.key;
    if key != second.options.key {
        return Err(CoreError::InvalidArguments);
    }
    let files = unite::<PlacedFile<'a>, F>(
        alloc,
        arena,
        first.files.as_slice(),
        second.files.as_slice(),
    )?;
    let xorbs = unite::<PlacedXorb<'a>, X>(
        alloc,
        arena,
        first.xorbs.as_slice(),
        second.xorbs.as_slice(),
    )?;
    let options = LayoutOptions {
        key,
        ..LayoutOptions::plain(None)
    };
    Ok(PlacedShard {
        options,
        as_read: true,
        files,
        xorbs,
    })
}

/// The records of the second shard whose hashes the first does not have, with the options of
/// [`union`].
///
/// `InvalidArguments` if the keys differ; or `OutOfMemory`.
pub fn difference<'a>(
    alloc: Global,
    first: &PlacedShard<'a>,
    second: &PlacedShard<'a>,
) -> Result<PlacedShard<'a>>
    requires read { (first.now.as_read ≡ true) × (second.now.as_read ≡ true) }
    requires ascend { AscendBoth (content first.now) × AscendBoth (content second.now) }
    ensures { MatchResult result
        (λ made. (made.as_read ≡ true)
        × IsDifferenceOf (content first.now) (content second.now) (content made))
        (DifferenceRefusal (content first.now) (content second.now)) }
{
    let key = first.options.key;
    if key != second.options.key {
        return Err(CoreError::InvalidArguments);
    }
    let files = subtract::<PlacedFile<'a>>(alloc, first.files.as_slice(), second.files.as_slice())?;
    let xorbs = subtract::<PlacedXorb<'a>>(alloc, first.xorbs.as_slice(), second.xorbs.as_slice())?;
    let options = LayoutOptions {
        key,
        ..LayoutOptions::plain(None)
    };
    Ok(PlacedShard {
        options,
        as_read: true,
        files,
        xorbs,
    })
}
