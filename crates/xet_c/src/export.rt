//! Keyed exports.

ghost use Rattle.std.specs.Prelude.{IfOk};
ghost use Rattle.placed_shards.specs.Filling.{FillsWith};
ghost use Rattle.shard_bytes.specs.declared.export.Export.{Export};
ghost use Rattle.shard_bytes.specs.Exporting.{ExportsBytes, RefusesExport};
ghost use Rattle.shard_bytes.specs.ResultSizes.{IsRewriteSize};
ghost use Rattle.shard_bytes.specs.Versions.{LaidOutIn, NotLaidOutIn};
ghost use Rattle.xet_c.specs.Arguments.{AsksFor};
ghost use Rattle.xet_c.specs.Output.{Outcome};
ghost use Rattle.xet_c.specs.NumberedVersions.{InNumber, NotInNumber};

use crate::output::answer;
use crate::version::version_of;
use bumpalo::Bump;
use shard_bytes::export::{Export, ExportParts, exported};
use std::alloc::Global;
use xet_core_structures::error::{CoreError, Result};
use xet_core_structures::merklehash::HMACKey;

/// The key of an export, its times in seconds, and which parts it is without.
#[repr(C)]
#[derive(Clone, Copy, Drop)]
pub struct XetExportOptions {
    pub key: [u64; 4],
    pub now: u64,
    pub valid_seconds: u64,
    pub without_files: bool,
    pub without_aux_rows: bool,
    pub without_xorb_table: bool,
    pub without_chunk_table: bool,
}

/// Puts the shard with its chunk hashes under a key to the front of `out`. Errors of `version` are
/// as in `xet_convert`, others as in [`exported`].
#[unsafe(no_mangle)]
pub extern "C" fn xet_export(
    alloc: Global,
    shard: &[u8],
    options: &XetExportOptions,
    version: u64,
    out: &mut [u8],
    written: &mut usize,
) -> u32
    ensures exported { (x : Export) × AsksFor options.entry.now x
        × Outcome (InNumber version (λ v. LaidOutIn v (ExportsBytes x shard.now)))
        (NotInNumber version
        (λ v. NotLaidOutIn v (ExportsBytes x shard.now) (RefusesExport x shard.now))) out.old
        out.new written.new result }
    ensures size { IsRewriteSize shard.now written.new }
{
    let filled = fill(alloc, shard, &asked_for(options), version, out);
    answer(filled, out.len(), written)
}

fn fill(alloc: Global, shard: &[u8], export: &Export, version: u64, out: &mut [u8]) -> Result<usize>
    ensures exported { FillsWith
        (InNumber version (λ v. LaidOutIn v (ExportsBytes export.entry.now shard.now)))
        (NotInNumber version
        (λ v. NotLaidOutIn v (ExportsBytes export.entry.now shard.now)
        (RefusesExport export.entry.now shard.now))) out.old out.new result }
    ensures size { IfOk result (IsRewriteSize shard.now) }
{
    let version = version_of(version)?;
    let arena = Bump::new(alloc);
    exported(alloc, &arena, shard, export)?.write_into(alloc, version, out)
}

fn asked_for(options: &XetExportOptions) -> Export
    ensures { AsksFor options.entry.now result }
{
    Export {
        key: HMACKey::from(options.key),
        now: options.now,
        valid_seconds: options.valid_seconds,
        parts: ExportParts {
            files: !options.without_files,
            aux_ext: !options.without_aux_rows,
            xorb_table: !options.without_xorb_table,
            chunk_table: !options.without_chunk_table,
        },
    }
}
