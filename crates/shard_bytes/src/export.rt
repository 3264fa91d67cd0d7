//! Exporting a shard under a key.

ghost use Rattle.std.specs.Prelude.{◌≡◌, ◌+◌, ◌^◌, ◌<◌, ℕ, List, length, IfOk, IfErr, MatchResult};
ghost use Rattle.std.specs.FinMap as finite;
ghost use Rattle.xet_core_structures.specs.declared.error.CoreError.{CoreError};
ghost use Rattle.xet_core_structures.specs.declared.merklehash.DataHash.{DataHash};
ghost use Rattle.xet_core_structures.specs.KeyedExport.{CannotExport, xorbs_after};
ghost use Rattle.xet_core_structures.specs.Hash.{IsHash};
ghost use Rattle.xet_core_structures.specs.Layout.{if_included};
ghost use Rattle.xet_core_structures.specs.KeyedHash.{no_key};
ghost use Rattle.xet_core_structures.specs.Records.ShardContents.{HasShard, HoldsShard};
ghost use Rattle.xet_core_structures.specs.Shard.{Shard, IsShard};
ghost use Rattle.shard_bytes.specs.Checking.{IsIntact};
ghost use Rattle.placed_shards.specs.Content.{content};
ghost use Rattle.shard_bytes.specs.Exporting.{ExportsBytes, IsExportOf, RefusesExport, FollowsHeader, HoldsExport, options_of_export};
ghost use Rattle.shard_bytes.specs.ResultSizes.{IsRewriteSize};
ghost use Rattle.shard_bytes.specs.Versions.{LaidOutIn, NotLaidOutIn};

use crate::load::load_bytes;
use bumpalo::Bump;
use placed_shards::open::open_behind_header;
use placed_shards::placed_shard::PlacedShard;
use std::alloc::Global;
use xet_core_structures::error::{CoreError, Result};
use xet_core_structures::file_structs::KeptParts;
use xet_core_structures::merklehash::HMACKey;
use xet_core_structures::record_reader::FormatVersion;
use xet_core_structures::shard_format::MDBShardInfo;
use xet_core_structures::shard_writer::LayoutOptions;

/// The key of an export, its times in seconds, and its parts.
#[derive(Clone, Copy)]
pub struct Export {
    pub key: HMACKey,
    pub now: u64,
    pub valid_seconds: u64,
    pub parts: ExportParts,
}

/// Whether an export has files, with their auxiliary rows or without, and the other tables.
#[derive(Clone, Copy)]
pub struct ExportParts {
    pub files: bool,
    pub aux_ext: bool,
    pub xorb_table: bool,
    pub chunk_table: bool,
}

/// The bytes of [`exported`]: at most 344 and 4/3 of the given ones.
///
/// Fails as it does; `InvalidArguments` for an auxiliary row of the export in version 2.
pub fn export_bytes(
    alloc: Global,
    bytes: &[u8],
    export: &Export,
    version: FormatVersion,
) -> Result<Vec<u8>>
    ensures exported { MatchResult result
        (λ exported. LaidOutIn version (ExportsBytes export.entry.now bytes.now) exported.items)
        (NotLaidOutIn version (ExportsBytes export.entry.now bytes.now)
        (RefusesExport export.entry.now bytes.now)) }
    ensures of_shard { (s : Shard) → IsShard s → FollowsHeader s bytes.now
        → IfOk result (λ exported. LaidOutIn version (HoldsExport export.entry.now s)
        exported.items) }
    ensures succeeds { (s : Shard) → HoldsShard no_key s bytes.now → FollowsHeader s bytes.now
        → export.entry.now.now + export.entry.now.valid_seconds < 2 ^ 64
        → IfErr result (NotLaidOutIn version (HoldsExport export.entry.now s)
        (λ e. e ≡ CoreError.OutOfMemory)) }
    ensures size { IfOk result (λ exported. IsRewriteSize bytes.now (length exported.items)) }
{
    words_fit(export.key, export.now);
    let arena = Bump::new(alloc);
    exported(alloc, &arena, bytes, export)?.to_bytes(alloc, version)
}

// They have 64 bits.
fn words_fit(key: HMACKey, now: u64)
    ensures key { IsHash key }
    ensures now { now < 2 ^ 64 }
{}

/// A shard with its chunk hashes under a key, and with the files, tables and times that are asked
/// for.
///
/// `InvalidArguments` if the shard has a key already, or the expiry does not fit 64 bits. Else
/// fails as [`load_bytes`] and [`open_behind_header`] do.
pub fn exported<'a>(
    alloc: Global,
    arena: &'a Bump,
    bytes: &'a [u8],
    export: &Export,
) -> Result<PlacedShard<'a>>
    ensures { MatchResult result
        (λ shard. IsExportOf export.entry.now bytes.now (content shard))
        (RefusesExport export.entry.now bytes.now) }
{
    let info = load_bytes(alloc, bytes)?;
    let options = export_options(&info, export)?;
    let shard = open_behind_header(alloc, bytes)?.with_options(options);
    let kept = KeptParts {
        aux_ext: export.parts.aux_ext,
        ..KeptParts::ALL
    };
    let shard = with_files_if(shard, export.parts.files).with_parts(arena, kept)?;
    shard.with_keyed_hashes(alloc, arena, export.key)
}

fn with_files_if<'a>(shard: PlacedShard<'a>, wanted: bool) -> PlacedShard<'a>
    ensures content { content result ≡ record (content shard.entry) {
      files = if_included wanted (content shard.entry).files;
    } }
    ensures as_read { result.as_read ≡ shard.entry.as_read }
{
    if wanted { shard } else { shard.without_files() }
}

fn export_options(info: &MDBShardInfo, export: &Export) -> Result<LayoutOptions>
    ensures { MatchResult result
        (λ options. (options ≡ options_of_export export.entry.now)
        × (¬ CannotExport info.now export.entry.now.now export.entry.now.valid_seconds))
        (λ e. (e ≡ CoreError.InvalidArguments)
        × CannotExport info.now export.entry.now.now export.entry.now.valid_seconds) }
{
    if info.chunk_hashes_protected() {
        return Err(CoreError::InvalidArguments);
    }
    let Some(expiry) = export.now.checked_add(export.valid_seconds) else {
        return Err(CoreError::InvalidArguments);
    };
    let parts = export.parts;
    Ok(LayoutOptions {
        version: FormatVersion::V3,
        file_table: parts.files,
        xorb_table: parts.xorb_table,
        chunk_table: parts.chunk_table,
        key: export.key,
        creation: export.now,
        expiry,
    })
}

/// Does nothing: the export of a shard that follows the header holds it, and fails only with
/// `OutOfMemory` if it has no key and the expiry fits 64 bits. Where
/// [`check_bytes`](crate::check::check_bytes) finds only notes, a shard follows the header.
pub fn exports_hold_the_shard()
    ensures held { (x : Export) → (s : Shard) → (bytes out : List ℕ) → IsHash x.key
        → x.now < 2 ^ 64 → IsShard s → FollowsHeader s bytes → ExportsBytes x bytes out
        → HoldsExport x s out }
    ensures refused { (x : Export) → (s : Shard) → (bytes : List ℕ) → (e : CoreError)
        → x.now + x.valid_seconds < 2 ^ 64 → HoldsShard no_key s bytes → FollowsHeader s bytes
        → RefusesExport x bytes e → e ≡ CoreError.OutOfMemory }
    ensures by_footer { (s : Shard) → (bytes : List ℕ) → (has : HasShard s bytes)
        → has.info.metadata.file_info_offset ≡ 48
        → has.info.metadata.xorb_info_offset ≡ xorbs_after (finite.values s.files)
        → FollowsHeader s bytes }
    ensures intact { (bytes : List ℕ) → IsIntact bytes
        → (key : DataHash) × (s : Shard) × HoldsShard key s bytes × FollowsHeader s bytes }
{}
