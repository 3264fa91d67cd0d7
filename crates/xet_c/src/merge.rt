//! The union of a list of shards.

ghost use Rattle.std.specs.Prelude.{◌≡◌, true, false, List, map, IfOk};
ghost use Rattle.xet_core_structures.specs.declared.merklehash.DataHash.{DataHash};
ghost use Rattle.xet_core_structures.specs.Shard.{Shard};
ghost use Rattle.xet_core_structures.specs.Trees.MergeTrees.{MergeRefused};
ghost use Rattle.placed_shards.specs.declared.selection.Access.{Access};
ghost use Rattle.placed_shards.specs.declared.selection.Selection.{Selection};
ghost use Rattle.placed_shards.specs.Filling.{FillsWith};
ghost use Rattle.placed_shards.specs.MergedLists.{IsMergeOf, MergeRefusal, IsMergeOfList, shard_content};
ghost use Rattle.placed_shards.specs.MergeSizes.{IsResultSize};
ghost use Rattle.shard_bytes.specs.Versions.{IsWrittenIn, NotWrittenIn};
ghost use Rattle.xet_c.specs.Agreeing.{MergesIfAgreeing};
ghost use Rattle.xet_c.specs.Arguments.{IsBound, IsAccess, AsksForRecords};
ghost use Rattle.xet_c.specs.Output.{Outcome};
ghost use Rattle.xet_c.specs.Steps.ShownMerges.{FillsIfAgreeing, HasFillSize, ShowsFill};
ghost use Rattle.xet_c.specs.NumberedVersions.{InNumber, NotInNumber};

use crate::agree::{XetDisagreement, malformed_of, show_first};
use crate::output::{XET_DISAGREE, XET_MALFORMED, answer, error_number};
use crate::version::version_of;
use bumpalo::Bump;
use placed_shards::merge::merge;
use placed_shards::range::HashRange;
use placed_shards::selection::{Access, Selection};
use placed_shards::strict::{Agreed, merge_agreeing};
use std::alloc::Global;
use xet_core_structures::error::{CoreError, Result};
use xet_core_structures::merklehash::MerkleHash;

/// The records to merge have hashes not below `from`, if `has_from` is set, and below `to`, if
/// `has_to` is. If `strict`, they have to be well-formed and to agree; if `by_tables`, they are
/// looked for where the tables say.
#[repr(C)]
#[derive(Clone, Copy, Drop)]
pub struct XetMergeOptions {
    pub from: [u64; 4],
    pub to: [u64; 4],
    pub has_from: bool,
    pub has_to: bool,
    pub strict: bool,
    pub by_tables: bool,
}

/// Puts the union of one shard or more to the front of `out`. Errors of `version` are as in
/// `xet_convert`, others as in [`merge`] and [`merge_agreeing`].
///
/// If `strict` is set, the result is 21 if a record is one that no shard may have, and `found` is
/// its hash and, twice, its shard's number; or 20 if two records do not agree, `differing` is how
/// many hashes have such, and `found` the first. `written` is 0 then, and `out` stays. With another
/// result `found` stays. `differing` is 0 but with 20.
#[unsafe(no_mangle)]
pub extern "C" fn xet_merge(
    alloc: Global,
    shards: &[&[u8]],
    options: &XetMergeOptions,
    version: u64,
    out: &mut [u8],
    written: &mut usize,
    differing: &mut usize,
    found: &mut XetDisagreement,
) -> u32
    ensures merged { options.now.strict ≡ false → (asked : Selection)
        × AsksForRecords options.now asked
        × Outcome
        (InNumber version (λ v. IsWrittenIn v (IsMergeOf asked (map (λ x. x.now) shards.now))))
        (NotInNumber version
        (λ v. NotWrittenIn v (IsMergeOf asked (map (λ x. x.now) shards.now))
        (MergeRefusal asked (map (λ x. x.now) shards.now)))) out.old out.new written.new result }
    ensures one_byte_string { options.now.strict ≡ false → (asked : Selection)
        × AsksForRecords options.now asked
        × ((key : DataHash) → (parts : List Shard) → (join : Shard)
        → IsMergeOfList asked key (map (λ x. x.now) shards.now) parts join
        → Outcome (InNumber version (λ v. IsWrittenIn v (λ made. made ≡ shard_content key join)))
        (NotInNumber version
        (λ v. NotWrittenIn v (λ made. made ≡ shard_content key join) (MergeRefused join))) out.old
        out.new written.new result) }
    ensures none_found { options.now.strict ≡ false
        → (differing.new ≡ 0) × (found.new ≡ found.old) }
    ensures agreed { options.now.strict ≡ true → (asked : Selection)
        × AsksForRecords options.now asked
        × MergesIfAgreeing asked version (map (λ x. x.now) shards.now) out.old out.new written.new
        found.old found.new differing.new result }
    ensures size { IsResultSize (map (λ x. x.now) shards.now) written.new }
{
    let asked = selection_of(options);
    if options.strict {
        let filled = fill_if_agreeing(alloc, shards, &asked, version, out);
        return show(filled, out.len(), written, differing, found);
    }
    *differing = 0;
    let filled = fill(alloc, shards, &asked, version, out);
    answer(filled, out.len(), written)
}

fn fill<'a>(
    alloc: Global,
    shards: &[&'a [u8]],
    asked: &Selection,
    version: u64,
    out: &mut [u8],
) -> Result<usize>
    ensures merged { FillsWith
        (InNumber version
        (λ v. IsWrittenIn v (IsMergeOf asked.now (map (λ x. x.now) shards.now))))
        (NotInNumber version
        (λ v. NotWrittenIn v (IsMergeOf asked.now (map (λ x. x.now) shards.now))
        (MergeRefusal asked.now (map (λ x. x.now) shards.now)))) out.old out.new result }
    ensures one_byte_string { (key : DataHash) → (parts : List Shard) → (join : Shard)
        → IsMergeOfList asked.now key (map (λ x. x.now) shards.now) parts join
        → FillsWith (InNumber version (λ v. IsWrittenIn v (λ made. made ≡ shard_content key join)))
        (NotInNumber version
        (λ v. NotWrittenIn v (λ made. made ≡ shard_content key join) (MergeRefused join))) out.old
        out.new result }
    ensures size { IfOk result (IsResultSize (map (λ x. x.now) shards.now)) }
{
    let version = version_of(version)?;
    let arena = Bump::new(alloc);
    merge(alloc, &arena, shards, asked)?.write_into(alloc, version, out)
}

fn fill_if_agreeing<'a>(
    alloc: Global,
    shards: &[&'a [u8]],
    asked: &Selection,
    version: u64,
    out: &mut [u8],
) -> Result<Agreed<usize>>
    ensures merged { FillsIfAgreeing asked.now version (map (λ x. x.now) shards.now) out.old out.new
        result }
    ensures size { IfOk result (HasFillSize (map (λ x. x.now) shards.now)) }
{
    let version = version_of(version)?;
    let arena = Bump::new(alloc);
    match merge_agreeing(alloc, &arena, shards, asked)? {
        Agreed::Made(made) => Ok(Agreed::Made(made.write_into(alloc, version, out)?)),
        Agreed::Disagreements(all) => Ok(Agreed::Disagreements(all)),
        Agreed::Malformed(one) => Ok(Agreed::Malformed(one)),
    }
}

// `room` is the length of the output.
fn show(
    filled: Result<Agreed<usize>>,
    room: usize,
    written: &mut usize,
    differing: &mut usize,
    found: &mut XetDisagreement,
) -> u32
    ensures { ShowsFill filled room written.new found.old found.new differing.new result }
{
    *written = 0;
    *differing = 0;
    match filled {
        Ok(Agreed::Made(size)) => answer(Ok(size), room, written),
        Ok(Agreed::Disagreements(all)) => {
            show_first(all.as_slice(), differing, found);
            XET_DISAGREE
        }
        Ok(Agreed::Malformed(one)) => {
            *found = malformed_of(&one);
            XET_MALFORMED
        }
        Err(error) => error_number(&error),
    }
}

fn selection_of(options: &XetMergeOptions) -> Selection
    ensures { AsksForRecords options.now result }
{
    Selection {
        range: HashRange {
            from: bound(options.has_from, options.from),
            to: bound(options.has_to, options.to),
        },
        access: access(options.by_tables),
    }
}

fn bound(has: bool, words: [u64; 4]) -> Option<MerkleHash>
    ensures { IsBound has words result }
{
    if has {
        return Some(MerkleHash::from(words));
    }
    None
}

fn access(by_tables: bool) -> Access
    ensures { IsAccess by_tables result }
{
    if by_tables {
        return Access::Tables;
    }
    Access::Scan
}
