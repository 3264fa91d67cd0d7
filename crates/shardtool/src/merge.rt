//! Trees of unions over named buffers.

ghost use Rattle.std.specs.Prelude.{map, MatchResult, IsErrAnd};
ghost use Rattle.shardtool.specs.NamedTrees.{bytes_under, HasUnknown, StopsAtUnknown, MergesTo, MergeStops, AddsInputs, IsPlanOf, PlanStops};

use crate::stop::Stop;
use script_lines::tree::NameTree;
use std::alloc::Global;
use std::collections::BTreeMap;
use xet_core_structures::set_operations::{MergePlan, shard_union_tree};

/// The bytes that a tree of unions over buffers gives: a name its buffer's, and a pair the union of
/// both.
///
/// `Unreadable` if a name has no buffer. The other errors are those of [`shard_union_tree`].
pub fn merge_buffers(
    alloc: Global,
    tree: &NameTree<'_>,
    buffers: &BTreeMap<String, Vec<u8>>,
) -> Result<Vec<u8>, Stop>
    ensures written { MatchResult result
        (λ bytes. MergesTo (bytes_under buffers.now) tree.now bytes.items)
        (MergeStops (bytes_under buffers.now) tree.now) }
    ensures unknown { HasUnknown (bytes_under buffers.now) tree.now
        → IsErrAnd result StopsAtUnknown }
{
    let mut inputs = Vec::new(alloc);
    let plan = plan_of(alloc, tree, buffers, &mut inputs)?;
    Ok(shard_union_tree(alloc, &plan, inputs.as_slice())?)
}

// The plan of a tree. The buffers at its leaves are added to the inputs, in order.
fn plan_of<'b>(
    alloc: Global,
    tree: &NameTree<'_>,
    buffers: &'b BTreeMap<String, Vec<u8>>,
    inputs: &mut Vec<&'b [u8]>,
) -> Result<MergePlan, Stop>
    ensures { MatchResult result
        (λ plan. AddsInputs inputs.old inputs.new
        × IsPlanOf (bytes_under buffers.now) (map (λ x. x.now) inputs.new.items) tree.now plan)
        (PlanStops (bytes_under buffers.now) tree.now) }
{
    match tree {
        NameTree::Name(name) => {
            let Some(bytes) = buffers.get(*name) else {
                return Err(Stop::Unreadable);
            };
            let index = inputs.len();
            inputs.push(bytes.as_slice())?;
            Ok(MergePlan::Leaf(index))
        }
        NameTree::Both(left, right) => {
            let left = plan_of(alloc, left, buffers, inputs)?;
            let right = plan_of(alloc, right, buffers, inputs)?;
            Ok(MergePlan::Both(Box::new(alloc, left)?, Box::new(alloc, right)?))
        }
    }
}
