//! Writing files from views.

ghost use Rattle.std.specs.Prelude.{◌≡◌, ◌+◌, ◌*◌, ◌≤◌, ◌++◌, [], ◌∷◌, List, length, OnOk, IfErr};
ghost use Rattle.std.specs.Io.KnownBytes.{Appends};
ghost use Rattle.xet_base.specs.Errors.{IsWriteError};
ghost use Rattle.xet_records.specs.declared.file_structs.MDBFileInfo.{MDBFileInfo};
ghost use Rattle.xet_records.specs.FileRecord.{file_record_bytes, row_count, size_of_file};
ghost use Rattle.xet_records.specs.View.{as_kept};
ghost use Rattle.xet_shards.specs.Write.Written.{HasWritten};
ghost use Rattle.xet_records.specs.Limits.{MAX_ROWS};

use super::written::WrittenFiles;
use std::io::Write;
use xet_base::error::Result;
use xet_records::file_structs::{KeptParts, MDBFileInfoView};
use xet_records::rows::ROW_SIZE;

/// Adds and writes these parts of the next file, as stored. Missing verification rows are no error.
/// The error is the writer's, or `OutOfMemory`.
pub fn write_file_view<W: Write>(
    writer: &mut W,
    written: &mut WrittenFiles,
    view: &MDBFileInfoView,
    kept: KeptParts,
) -> Result<()>
    requires rows { written.old.table.rows + row_count (as_kept kept view.now)
        ≤ MAX_ROWS }
    ensures appended { OnOk result
        (Appends (W.contents writer.old) (W.contents writer.new)
        (file_record_bytes (as_kept kept view.now))) }
    ensures written { OnOk result
        ((before : List MDBFileInfo) → HasWritten written.old before
        → HasWritten written.new (before ++ as_kept kept view.now ∷ [])) }
    ensures causes { IfErr result IsWriteError }
{
    let kept = KeptParts {
        verification: kept.verification && view.contains_verification(),
        ..kept
    };
    let rows = (view.byte_size_of_kept(kept) / ROW_SIZE) as u64;
    let bytes = file_size(view);
    written.add(view.file_hash().word0, rows, bytes)?;
    view.serialize_kept(writer, kept)?;
    Ok(())
}

fn file_size(view: &MDBFileInfoView) -> u64
    requires { length view.now.segments ≤ MAX_ROWS }
    ensures size { result ≡ size_of_file view.now }
    ensures bound { result ≤ 4294967295 * length view.now.segments }
{
    let mut size = 0;
    for index in 0..view.num_entries() {
        size += u64::from(view.entry(index).unpacked_segment_bytes);
    }
    size
}
