//! Reading a shard's records, one in memory at a time.

ghost use Rattle.xet_core_structures.specs.XorbRecord.{HasItsChunks};

use mdb_base::failure::{Failure, Subject};
use mdb_base::shard_file::ShardFile;
use mdb_report::fault::{Fault, section_fault};
use mdb_report::section::SectionReader;
use shard_bytes::check::Section;
use std::alloc::AllocError;
use std::io::BufReader;
use std::rt::Files;
use xet_core_structures::file_structs::MDBFileInfo;
use xet_core_structures::record_reader::FormatVersion;
use xet_core_structures::xorb_structs::MDBXorbInfo;

/// What files are added to.
pub trait TakesFiles {
    /// Adds a file.
    fn take_file(&mut self, file: &MDBFileInfo) -> Result<(), AllocError>;
}

/// What xorbs are added to.
pub trait TakesXorbs {
    /// Adds a xorb.
    fn take_xorb(&mut self, xorb: &MDBXorbInfo) -> Result<(), AllocError>
        requires { HasItsChunks xorb.now };
}

/// Adds each file of a shard. Fails if the shard can't be read, or if memory is lacking.
pub fn read_files<'a, R: Files + AllocGlobal, T: TakesFiles>(
    rt: &R,
    shard: &ShardFile<'a>,
    taker: &mut T,
) -> Result<(), Failure<'a>> {
    let version = FormatVersion::of_header(shard.info.header.version);
    let mut section = section_at(rt, shard, shard.info.metadata.file_info_offset, version)?;
    for _ in 0..u64::MAX {
        match section.next_file(rt.alloc()) {
            Ok(Some(file)) => Subject::File(shard.path).in_memory(taker.take_file(&file))?,
            Ok(None) => break,
            Err(error) => {
                return Err(Failure::on_file(shard.path, section_fault(Section::Files, error)));
            }
        }
    }
    Ok(())
}

/// As [`read_files`], of xorbs.
pub fn read_xorbs<'a, R: Files + AllocGlobal, T: TakesXorbs>(
    rt: &R,
    shard: &ShardFile<'a>,
    taker: &mut T,
) -> Result<(), Failure<'a>> {
    let offset = shard.info.metadata.xorb_info_offset;
    let mut section = section_at(rt, shard, offset, FormatVersion::V3)?;
    for _ in 0..u64::MAX {
        match section.next_xorb(rt.alloc()) {
            Ok(Some(xorb)) => Subject::File(shard.path).in_memory(taker.take_xorb(&xorb))?,
            Ok(None) => break,
            Err(error) => {
                return Err(Failure::on_file(shard.path, section_fault(Section::Xorbs, error)));
            }
        }
    }
    Ok(())
}

fn section_at<'a, R: Files + AllocGlobal>(
    rt: &R,
    shard: &ShardFile<'a>,
    offset: u64,
    version: FormatVersion,
) -> Result<SectionReader<BufReader<R::File>>, Failure<'a>> {
    let file = shard.open_at(rt, offset)?;
    match BufReader::new(rt.alloc(), file) {
        Ok(reader) => Ok(SectionReader::new(reader, version)),
        Err(error) => Err(Failure::on_file(shard.path, Fault::from(error))),
    }
}
