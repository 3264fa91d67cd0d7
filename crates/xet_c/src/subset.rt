//! Subsets of xorbs.

ghost use Rattle.std.specs.Prelude.{◌≡◌, IfOk, IfErr};
ghost use Rattle.placed_shards.specs.Filling.{FillsWith};
ghost use Rattle.xet_core_structures.specs.KeyedExport.{ExportCase};
ghost use Rattle.shard_bytes.specs.Outcomes.{InMemory};
ghost use Rattle.shard_bytes.specs.ResultSizes.{IsMinimalSize};
ghost use Rattle.shard_bytes.specs.Versions.{LaidOutIn};
ghost use Rattle.xet_c.specs.Arguments.{KeepsXorbs, AsksForSubset, WritesSubset};
ghost use Rattle.xet_c.specs.Output.{Outcome};
ghost use Rattle.xet_c.specs.NumberedVersions.{InNumber, NotInNumber};

use crate::hash::{XetHash, hashes_of};
use crate::output::answer;
use crate::version::version_of;
use bumpalo::Bump;
use shard_bytes::minimal::{KeptXorbs, Subset, subset_of};
use std::alloc::Global;
use xet_core_structures::error::{CoreError, Result};

/// The times in seconds, where an expiry of 0 means none, and whether all xorbs are kept or those
/// listed.
#[repr(C)]
#[derive(Clone, Copy, Drop)]
pub struct XetSubsetOptions {
    pub now: u64,
    pub expiry: u64,
    pub all: bool,
}

/// Puts a shard of some xorbs of a shard, and no files, to the front of `out`. `InvalidArguments`
/// if the number is that of no version; else the errors are those of [`subset_of`].
#[unsafe(no_mangle)]
pub extern "C" fn xet_subset(
    alloc: Global,
    shard: &[u8],
    options: &XetSubsetOptions,
    xorbs: &[XetHash],
    version: u64,
    out: &mut [u8],
    written: &mut usize,
) -> u32
    ensures subset { Outcome
        (InNumber version
        (λ v. LaidOutIn v (WritesSubset options.entry.now xorbs.now shard.now)))
        (NotInNumber version (λ v. InMemory (ExportCase shard.now))) out.old out.new
        written.new result }
    ensures size { IsMinimalSize shard.now written.new }
{
    let filled = fill(alloc, shard, options, xorbs, version, out);
    answer(filled, out.len(), written)
}

fn fill(
    alloc: Global,
    shard: &[u8],
    options: &XetSubsetOptions,
    xorbs: &[XetHash],
    version: u64,
    out: &mut [u8],
) -> Result<usize>
    ensures subset { FillsWith
        (InNumber version
        (λ v. LaidOutIn v (WritesSubset options.entry.now xorbs.now shard.now)))
        (NotInNumber version (λ v. InMemory (ExportCase shard.now))) out.old out.new result }
    ensures size { IfOk result (IsMinimalSize shard.now) }
{
    let version = version_of(version)?;
    let arena = Bump::new(alloc);
    let asked = asked_for(alloc, options, xorbs)?;
    subset_of(alloc, &arena, shard, &asked)?.write_into(alloc, version, out)
}

fn asked_for(alloc: Global, options: &XetSubsetOptions, xorbs: &[XetHash]) -> Result<Subset>
    ensures ok { IfOk result (AsksForSubset options.entry.now xorbs.now) }
    ensures causes { IfErr result (λ e. e ≡ CoreError.OutOfMemory) }
{
    Ok(Subset {
        now: options.now,
        expiry: Some(options.expiry),
        kept: kept_xorbs(alloc, options.all, xorbs)?,
    })
}

fn kept_xorbs(alloc: Global, all: bool, listed: &[XetHash]) -> Result<KeptXorbs>
    ensures ok { IfOk result (KeepsXorbs all listed.now) }
    ensures causes { IfErr result (λ e. e ≡ CoreError.OutOfMemory) }
{
    if all {
        return Ok(KeptXorbs::All);
    }
    Ok(KeptXorbs::Listed(hashes_of(alloc, listed)?))
}
