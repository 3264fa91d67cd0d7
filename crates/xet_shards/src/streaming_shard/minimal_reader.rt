//! Reading the sections of a minimal shard from any input.

ghost use Rattle.std.specs.Prelude.{◌≡◌, List, [], ◌∷◌, ◌++◌, MatchResult, OnOk, IfErr, if◌then◌else◌};
ghost use Rattle.xet_records.specs.RecordKind.{in_version};
ghost use Rattle.xet_shards.specs.Write.Layout.{if_included};
ghost use Rattle.xet_shards.specs.StreamingShard.MinimalReading.{ReadsViews, StopsAfterViews, ReadsSections, SectionsNotRead};

use super::minimal_shard::MDBMinimalShard;
use bytes::BytesMut;
use std::alloc::Global;
use xet_base::error::{CoreError, Result};
use xet_base::input::ByteInput;
use xet_records::file_structs::{MDBFileInfo, MDBFileInfoView};
use xet_records::record_reader::{FormatVersion, SectionRecord};
use xet_records::rows::ROW_LIMIT;
use xet_records::view_reader::{RecordView, read_view};
use xet_records::xorb_structs::{MDBXorbInfo, MDBXorbInfoView};

// Views share blocks of this many bytes, or more where a record is larger.
const BLOCK_SIZE: usize = 16 * 1024;

/// Reads the file section, kept if it is wanted, and the xorb section if it is wanted.
pub(super) fn read_sections<M, I: ByteInput<M>>(
    alloc: Global,
    input: &mut I,
    version: FormatVersion,
    with_files: bool,
    with_xorbs: bool,
) -> Result<MDBMinimalShard>
    ensures { MatchResult result
        (ReadsSections I.reads version with_files with_xorbs input.old input.new)
        (SectionsNotRead I.reads I.fails version with_xorbs input.old input.new) }
{
    let files = read_views::<MDBFileInfo, MDBFileInfoView, M, I>(
        alloc, input, version, with_files,
    )?;
    if !with_xorbs {
        return Ok(MDBMinimalShard::of_views(files, Vec::new(alloc)));
    }
    let newest = FormatVersion::V3;
    let xorbs = read_views::<MDBXorbInfo, MDBXorbInfoView, M, I>(alloc, input, newest, true)?;
    Ok(MDBMinimalShard::of_views(files, xorbs))
}

// Reads a section up to its bookend.
fn read_views<R: SectionRecord, V: RecordView<R> + Drop, M, I: ByteInput<M>>(
    alloc: Global,
    input: &mut I,
    version: FormatVersion,
    is_kept: bool,
) -> Result<Vec<V>>
    ensures { MatchResult result
        (λ kept. (views : List V)
        × ReadsViews (in_version R.kind version) V.shown I.reads input.old input.new views
        × (kept.items ≡ if_included is_kept views))
        (StopsAfterViews (in_version R.kind version) V.shown I.reads I.fails input.old input.new) }
{
    R::laws();
    let mut views = Vec::new(alloc);
    // The next view is read over one that is dropped.
    let mut buffer = BytesMut::with_capacity(alloc, if is_kept { BLOCK_SIZE } else { 0 })?;
    let mut rows_left = ROW_LIMIT;
    while let Some(view) = read_view::<R, V, M, I>(
        alloc,
        &mut buffer,
        input,
        version,
        &mut rows_left,
    )? {
        push_if(is_kept, &mut views, view)?;
    }
    Ok(views)
}

fn push_if<V: Drop>(wanted: bool, views: &mut Vec<V>, view: V) -> Result<()>
    ensures ok { OnOk result
        (views.new.items ≡ (if wanted then views.old.items ++ view ∷ [] else views.old.items)) }
    ensures causes { IfErr result (λ e. e ≡ CoreError.OutOfMemory) }
{
    if wanted {
        views.push(view)?;
    }
    Ok(())
}
