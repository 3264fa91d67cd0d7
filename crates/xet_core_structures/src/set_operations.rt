//! Union and difference of shards as bytes, and trees of unions.

ghost use Rattle.std.specs.Prelude.{◌≡◌, ◌≢◌, ◌⊎◌, ◌<◌, ◌≤◌, Some, length, map, slice_get, IfOk, IsErrAnd, MatchResult, List};
ghost use Rattle.std.specs.Cow.{cow_slice_items, IsOwnedSlice};
ghost use Rattle.xet_shards.specs.Content.Shard.{Shard};
ghost use Rattle.xet_shards.specs.Write.WrittenShard.{IsBytesWithoutExpiry};
ghost use Rattle.xet_core_structures.specs.TwoShards.ByteResults.{key_of, UnitesBytes, BytesRefusal};
ghost use Rattle.xet_core_structures.specs.TwoShards.SetOutcomes.{Unites, Subtracts};
ghost use Rattle.xet_core_structures.specs.TwoShards.Streams.{streams};
ghost use Rattle.xet_core_structures.specs.Trees.MergeTrees.{HasUnion, LeafWrites, LeafRefusal, TreeWrites, TreeRefusal, IsMerge, MergeRefused};

mod two_shards;

use std::alloc::Global;
use std::borrow::CowSlice;
use std::io::Write;
pub use two_shards::mix::mix_rows;
use two_shards::record_operation::{OfDifference, OfUnion};
use two_shards::results::operate;
pub use two_shards::sections::next_header;
use xet_base::error::{CoreError, Result};
use xet_base::source::{MemorySource, ShardSource};
use xet_records::row_copier::CopyFailure;
use xet_shards::shard_format::MDBShardInfo;

/// Writes the union of two shards of either version in version 3, with all lookup tables, their
/// key, creation 0 and no expiry, and returns its header and footer. Each section is read once, and
/// only rows of lookup tables are held. On failure the output may be begun.
///
/// Of two files with one hash it takes the one whose flags include the other's, the first if they
/// are equal; if neither does, the first's segments, and each optional part of the first, else of
/// the second. Of two xorbs it takes the first's.
///
/// `InvalidArguments` if the keys differ, before anything is read or written; `UnexpectedEof` if a
/// section ends before its bookend; `InvalidShard` if its version does not have the header of a
/// file, its rows pass 4294967295 or its hashes do not strictly ascend, or if files that are
/// combined differ in their count of segments or a section of the union passes 4294967295 rows;
/// `OutOfMemory`; or a device's error. Of several faults of an input, the first that is read.
pub fn shard_set_union<S: ShardSource, T: ShardSource, W: Write>(
    alloc: Global,
    s1: &MDBShardInfo,
    r1: &mut S,
    s2: &MDBShardInfo,
    r2: &mut T,
    out: &mut W,
) -> Result<MDBShardInfo>
    ensures outcome { Unites s1.now s2.now
        (streams (S.meaning r1.old) (T.meaning r2.old) (W.contents out.old))
        (streams (S.meaning r1.new) (T.meaning r2.new) (W.contents out.new)) result }
    ensures untouched { key_of s1.now ≢ key_of s2.now
        → IsErrAnd result (λ e. e ≡ CoreError.InvalidArguments) × (r1.new ≡ r1.old)
        × (r2.new ≡ r2.old) × (out.new ≡ out.old) }
{
    Ok(operate::<OfUnion, S, T, W>(alloc, s1, r1, s2, r2, out)?)
}

/// Writes the second's records whose hashes the first does not have, in the form of
/// [`shard_set_union`], and with its errors but for those of combined files and the union's rows.
pub fn shard_set_difference<S: ShardSource, T: ShardSource, W: Write>(
    alloc: Global,
    s1: &MDBShardInfo,
    r1: &mut S,
    s2: &MDBShardInfo,
    r2: &mut T,
    out: &mut W,
) -> Result<MDBShardInfo>
    ensures outcome { Subtracts s1.now s2.now
        (streams (S.meaning r1.old) (T.meaning r2.old) (W.contents out.old))
        (streams (S.meaning r1.new) (T.meaning r2.new) (W.contents out.new)) result }
    ensures untouched { key_of s1.now ≢ key_of s2.now
        → IsErrAnd result (λ e. e ≡ CoreError.InvalidArguments) × (r1.new ≡ r1.old)
        × (r2.new ≡ r2.old) × (out.new ≡ out.old) }
{
    Ok(operate::<OfDifference, S, T, W>(alloc, s1, r1, s2, r2, out)?)
}

/// A tree of unions. A leaf is the index of an input.
#[derive(Drop)]
pub enum MergePlan {
    /// The input at this index.
    Leaf(usize),
    /// The union of both sides, the left one first.
    Both(Box<MergePlan>, Box<MergePlan>),
}

/// Unites the inputs at the leaves of a tree; a tree of one leaf copies its input, whatever it is.
/// Inputs that agree and have no key give one string of bytes by any tree of unions over them.
///
/// The error of the first leaf or union that fails, left sides first: `InvalidArguments` if a leaf
/// has no input; `ShardVersion` or `UnexpectedEof` if the header or the footer of a side of a union
/// is unsupported or truncated; one of [`shard_set_union`]; `OutOfMemory`.
pub fn shard_union_tree(alloc: Global, plan: &MergePlan, inputs: &[&[u8]]) -> Result<Vec<u8>>
    ensures any_bytes { MatchResult result
        (λ bytes. TreeWrites (map (λ x. x.now) inputs.now) plan.now bytes.items)
        (TreeRefusal (map (λ x. x.now) inputs.now) plan.now) }
    ensures one_byte_string { (shards : List Shard) → (join : Shard)
        → IsMerge (map (λ x. x.now) inputs.now) plan.now shards join
        → MatchResult result (λ bytes. IsBytesWithoutExpiry join bytes.items) (MergeRefused join) }
{
    merge(alloc, plan, inputs)
}

// As [`shard_union_tree`], without its second clause.
fn merge(alloc: Global, plan: &MergePlan, inputs: &[&[u8]]) -> Result<Vec<u8>>
    ensures { MatchResult result
        (λ bytes. TreeWrites (map (λ x. x.now) inputs.now) plan.now bytes.items)
        (TreeRefusal (map (λ x. x.now) inputs.now) plan.now) }
{
    match merge_or_lend(alloc, plan, inputs)? {
        CowSlice::Borrowed(input) => Ok(Vec::from_slice(alloc, input)?),
        CowSlice::Owned(bytes) => Ok(bytes),
    }
}

// A leaf is lent: a union reads its inputs where they lie.
fn merge_or_lend<'a>(
    alloc: Global,
    plan: &MergePlan,
    inputs: &[&'a [u8]],
) -> Result<CowSlice<'a, u8>>
    ensures bytes { MatchResult result
        (λ bytes. TreeWrites (map (λ x. x.now) inputs.now) plan.now (cow_slice_items bytes))
        (TreeRefusal (map (λ x. x.now) inputs.now) plan.now) }
    ensures lent { HasUnion plan.now → IfOk result IsOwnedSlice }
{
    match plan {
        MergePlan::Leaf(index) => Ok(CowSlice::Borrowed(input_at(inputs, *index)?)),
        MergePlan::Both(left, right) => {
            let left = merge_or_lend(alloc, left, inputs)?;
            let right = merge_or_lend(alloc, right, inputs)?;
            Ok(CowSlice::Owned(unite_bytes(alloc, &left, &right)?))
        }
    }
}

fn input_at<'a>(inputs: &[&'a [u8]], index: usize) -> Result<&'a [u8]>
    ensures { MatchResult result
        (λ input. LeafWrites (map (λ x. x.now) inputs.now) index input.now)
        (LeafRefusal (map (λ x. x.now) inputs.now) index) }
{
    if index >= inputs.len() {
        return Err(CoreError::InvalidArguments);
    }
    Ok(inputs[index])
}

// Writing to a vector fails only if it is out of memory.
fn unite_bytes(alloc: Global, first: &[u8], second: &[u8]) -> Result<Vec<u8>>
    ensures { MatchResult result (λ bytes. UnitesBytes first.now second.now bytes.items)
        (BytesRefusal first.now second.now) }
{
    let mut r1 = MemorySource::new(first);
    let mut r2 = MemorySource::new(second);
    let s1 = MDBShardInfo::load_from_reader(alloc, &mut r1)?;
    let s2 = MDBShardInfo::load_from_reader(alloc, &mut r2)?;
    let mut bytes = Vec::new(alloc);
    match operate::<OfUnion, MemorySource<'_>, MemorySource<'_>, Vec<u8>>(
        alloc, &s1, &mut r1, &s2, &mut r2, &mut bytes,
    ) {
        Ok(_) => Ok(bytes),
        Err(CopyFailure::Input(error)) => Err(error),
        Err(CopyFailure::Output(_)) => Err(CoreError::OutOfMemory),
    }
}
