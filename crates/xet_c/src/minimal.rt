//! Minimal shards.

ghost use Rattle.std.specs.Prelude.{◌≡◌, IfOk};
ghost use Rattle.placed_shards.specs.Filling.{FillsWith};
ghost use Rattle.shard_bytes.specs.Minimal.{MinimalBytes, RefusesMinimalBytes};
ghost use Rattle.shard_bytes.specs.ResultSizes.{IsMinimalSize};
ghost use Rattle.shard_bytes.specs.Versions.{LaidOutIn, NotLaidOutIn};
ghost use Rattle.xet_c.specs.Arguments.{kept_parts};
ghost use Rattle.xet_c.specs.Output.{Outcome};
ghost use Rattle.xet_c.specs.NumberedVersions.{InNumber, NotInNumber};

use crate::output::answer;
use crate::version::version_of;
use bumpalo::Bump;
use shard_bytes::minimal::minimal;
use std::alloc::Global;
use xet_core_structures::error::{CoreError, Result};
use xet_core_structures::file_structs::KeptParts;

/// The creation in seconds, and which parts files have.
#[repr(C)]
#[derive(Clone, Copy, Drop)]
pub struct XetMinimalOptions {
    pub now: u64,
    pub verification: bool,
    pub without_aux_rows: bool,
}

/// Puts the records of a shard, without tables, to the front of `out`. Errors of `version` are as
/// in `xet_convert`, others as in [`minimal`].
#[unsafe(no_mangle)]
pub extern "C" fn xet_minimal(
    alloc: Global,
    shard: &[u8],
    options: &XetMinimalOptions,
    version: u64,
    out: &mut [u8],
    written: &mut usize,
) -> u32
    ensures minimal { Outcome
        (InNumber version
        (λ v. LaidOutIn v
        (MinimalBytes (kept_parts options.entry.now) options.entry.now.now shard.now)))
        (NotInNumber version
        (λ v. NotLaidOutIn v
        (MinimalBytes (kept_parts options.entry.now) options.entry.now.now shard.now)
        (RefusesMinimalBytes (kept_parts options.entry.now) shard.now))) out.old out.new
        written.new result }
    ensures size { IsMinimalSize shard.now written.new }
{
    let filled = fill(alloc, shard, options, version, out);
    answer(filled, out.len(), written)
}

fn fill(
    alloc: Global,
    shard: &[u8],
    options: &XetMinimalOptions,
    version: u64,
    out: &mut [u8],
) -> Result<usize>
    ensures minimal { FillsWith
        (InNumber version
        (λ v. LaidOutIn v
        (MinimalBytes (kept_parts options.entry.now) options.entry.now.now shard.now)))
        (NotInNumber version
        (λ v. NotLaidOutIn v
        (MinimalBytes (kept_parts options.entry.now) options.entry.now.now shard.now)
        (RefusesMinimalBytes (kept_parts options.entry.now) shard.now))) out.old out.new result }
    ensures size { IfOk result (IsMinimalSize shard.now) }
{
    let version = version_of(version)?;
    let arena = Bump::new(alloc);
    let kept = kept_of(options);
    minimal(alloc, &arena, shard, options.now, kept)?.write_into(alloc, version, out)
}

fn kept_of(options: &XetMinimalOptions) -> KeptParts
    ensures { result ≡ kept_parts options.entry.now }
{
    KeptParts {
        verification: options.verification,
        aux_ext: !options.without_aux_rows,
    }
}
