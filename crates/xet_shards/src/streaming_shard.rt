//! Reading sections in one pass.

ghost use Rattle.std.specs.Prelude.{◌≡◌, IsErrAnd};
ghost use Rattle.xet_base.specs.Errors.{IsBareShardVersion};
ghost use Rattle.xet_records.specs.FileRecord.{file_records, file_records_in};
ghost use Rattle.xet_records.specs.Version.{IsVersion, version_of};
ghost use Rattle.xet_records.specs.Processing.{Processes};
ghost use Rattle.xet_records.specs.XorbRecord.{xorb_records};

mod eligible;
pub(crate) mod file_start;
mod minimal_reader;
mod minimal_shard;
mod minimal_writer;

pub use minimal_shard::MDBMinimalShard;
use std::alloc::Global;
use std::io::Read;
use xet_base::error::{CoreError, Result};
use xet_base::input::OfReader;
use xet_records::file_structs::{MDBFileInfo, MDBFileInfoView};
use xet_records::record_reader::FormatVersion;
use xet_records::view_reader::process_section;
use xet_records::xorb_structs::{MDBXorbInfo, MDBXorbInfoView};

/// Calls `callback` with a view of each record of a file section of version 3, in order, up to the
/// bookend or the first call that fails, whose error it returns.
///
/// Else, after a call with each record before: `UnexpectedEof` if the reader ends before the
/// bookend; `InvalidShard` if the rows pass 4294967295; the device's error; `OutOfMemory`.
pub fn process_shard_file_info_section<R: Read, F: FnMut(MDBFileInfoView) -> Result<()>>(
    alloc: Global,
    reader: &mut R,
    callback: &mut F,
) -> Result<()>
    requires { F.IsAlwaysCallable callback.old }
    ensures calls { Processes file_records F.step (R.remaining reader.old) (R.remaining reader.new)
        callback.old callback.new result }
    ensures callable { F.IsAlwaysCallable callback.new }
{
    let newest = FormatVersion::V3;
    process_section::<MDBFileInfo, MDBFileInfoView, OfReader, R, F>(alloc, reader, newest, callback)
}

/// As [`process_shard_file_info_section`], of version 2 or 3; in version 2 also `InvalidShard` if a
/// header announces an auxiliary row. `ShardVersion` for another version, and then nothing is read.
pub fn process_shard_file_info_section_versioned<R: Read, F: FnMut(MDBFileInfoView) -> Result<()>>(
    alloc: Global,
    reader: &mut R,
    version: u64,
    callback: &mut F,
) -> Result<()>
    requires { F.IsAlwaysCallable callback.old }
    ensures calls { IsVersion version
        → Processes (file_records_in (version_of version)) F.step (R.remaining reader.old)
        (R.remaining reader.new) callback.old callback.new result }
    ensures unknown { (¬ IsVersion version)
        → IsErrAnd result IsBareShardVersion × (reader.new ≡ reader.old)
        × (callback.new ≡ callback.old) }
    ensures callable { F.IsAlwaysCallable callback.new }
{
    match FormatVersion::of_number(version) {
        Some(known) => {
            process_section::<MDBFileInfo, MDBFileInfoView, OfReader, R, F>(
                alloc, reader, known, callback,
            )
        }
        None => Err(CoreError::ShardVersion(String::new(alloc))),
    }
}

/// As [`process_shard_file_info_section`], of a xorb section, which is alike in both versions.
pub fn process_shard_xorb_info_section<R: Read, F: FnMut(MDBXorbInfoView) -> Result<()>>(
    alloc: Global,
    reader: &mut R,
    callback: &mut F,
) -> Result<()>
    requires { F.IsAlwaysCallable callback.old }
    ensures callable { F.IsAlwaysCallable callback.new }
    ensures calls { Processes xorb_records F.step (R.remaining reader.old) (R.remaining reader.new)
        callback.old callback.new result }
{
    process_section::<MDBXorbInfo, MDBXorbInfoView, OfReader, R, F>(
        alloc,
        reader,
        FormatVersion::V3,
        callback,
    )
}
