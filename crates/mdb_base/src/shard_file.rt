//! Shards in regular files, of which parts are read.

ghost use Rattle.std.specs.Prelude.{◌≡◌};

use crate::failure::Failure;
use mdb_assembly::block::{Block, Mark};
use mdb_files::files::{STANDARD_STREAM, read_ends};
use mdb_files::stamp::Stamp;
use mdb_report::fault::{Fault, fault_of};
use shard_bytes::check::Section;
use shard_bytes::load::load_bytes;
use std::alloc::{AllocError, AllocFailed};
use std::fs::OpenFile;
use std::io::{ErrorKind, Read, Seek, SeekFrom};
use std::rt::Files;
use std::{fs, io};
use xet_core_structures::error::CoreError;
use xet_core_structures::merklehash::{HMACKey, MerkleHash};
use xet_core_structures::record_reader::FormatVersion;
use xet_core_structures::shard_format::MDBShardInfo;

/// How often a block is doubled for a longer record.
const DOUBLINGS: u32 = 40;

/// The bytes read first behind a share that ends before the goal.
const FIRST_STEP: u64 = 4096;

/// Why a round ends without a part of the merge.
#[derive(Drop)]
pub enum RoundFault<'a> {
    Failed(Failure<'a>),
    /// A section can't be read to its end, or memory is lacking.
    Unreadable(CoreError),
}

impl<'a> From<Failure<'a>> for RoundFault<'a> {
    fn from(failure: Failure<'a>) -> Self {
        RoundFault::Failed(failure)
    }
}

impl From<CoreError> for RoundFault<'_> {
    fn from(error: CoreError) -> Self {
        RoundFault::Unreadable(error)
    }
}

impl From<AllocError> for RoundFault<'_> {
    fn from(_error: AllocError) -> Self {
        RoundFault::Unreadable(CoreError::OutOfMemory)
    }
}

impl<T: Drop> From<AllocFailed<T>> for RoundFault<'_> {
    fn from(_error: AllocFailed<T>) -> Self {
        RoundFault::Unreadable(CoreError::OutOfMemory)
    }
}

/// A shard in a regular file.
#[derive(Clone, Copy)]
pub struct ShardFile<'a> {
    pub path: &'a str,
    pub info: MDBShardInfo,
    stamp: Stamp,
}

/// A regular file's stamp, and the bytes of its header and footer. `NoParts` for anything else.
pub fn ends_of<'a, R: Files + AllocGlobal>(
    rt: &R,
    path: &'a str,
) -> Result<(Stamp, Vec<u8>), Failure<'a>> {
    if path == STANDARD_STREAM {
        return Err(Failure::on_file(path, Fault::NoParts));
    }
    match regular_ends_of(rt, path) {
        Ok(Some(ends)) => Ok(ends),
        Ok(None) => Err(Failure::on_file(path, Fault::NoParts)),
        Err(error) => Err(Failure::on_file(path, Fault::from(error))),
    }
}

// `None` if there is no regular file.
fn regular_ends_of<R: Files + AllocGlobal>(
    rt: &R,
    path: &str,
) -> io::Result<Option<(Stamp, Vec<u8>)>> {
    let there = fs::metadata(rt, path)?;
    if !there.is_file() {
        return Ok(None);
    }
    let ends = read_ends(rt, path)?;
    Ok(Some((Stamp::of(&there), ends)))
}

impl<'a> ShardFile<'a> {
    /// The shard in a file with this header, footer and stamp.
    pub fn new(path: &'a str, info: MDBShardInfo, stamp: Stamp) -> ShardFile<'a> {
        ShardFile { path, info, stamp }
    }

    /// The shard in a regular file, of which header and footer are read.
    pub fn open<R: Files + AllocGlobal>(
        rt: &R,
        path: &'a str,
    ) -> Result<ShardFile<'a>, Failure<'a>> {
        let (stamp, ends) = ends_of(rt, path)?;
        let ends = ends.as_slice();
        match load_bytes(rt.alloc(), ends) {
            Ok(info) => Ok(ShardFile { path, info, stamp }),
            Err(error) => Err(Failure::on_file(path, fault_of(rt.alloc(), ends, error))),
        }
    }

    /// How many bytes the file has.
    pub fn size(&self) -> u64 {
        self.stamp.size
    }

    /// The key of its chunk hashes.
    pub fn key(&self) -> HMACKey
        ensures { result ≡ self.now.info.metadata.chunk_hash_hmac_key }
    {
        self.info.metadata.chunk_hash_hmac_key
    }

    /// Opens the file at an offset, at most its end; `Changed` if the file is another or was
    /// changed.
    pub fn open_at<R: Files>(&self, rt: &R, offset: u64) -> Result<R::File, Failure<'a>> {
        match open_stamped(rt, self.path, offset.min(self.stamp.size)) {
            Ok((file, stamp)) if stamp == self.stamp => Ok(file),
            Ok(_) => Err(Failure::on_file(self.path, Fault::Changed)),
            Err(error) => Err(Failure::on_file(self.path, Fault::from(error))),
        }
    }
}

fn open_stamped<R: Files>(rt: &R, path: &str, offset: u64) -> io::Result<(R::File, Stamp)> {
    let mut file = fs::open(rt, path)?;
    let stamp = Stamp::of(&file.metadata()?);
    file.seek(SeekFrom::Start(offset))?;
    Ok((file, stamp))
}

/// A place between two records of a section.
#[derive(Clone, Copy)]
pub struct Cursor<'a> {
    shard: ShardFile<'a>,
    section: Section,
    offset: u64,
    mark: Mark,
}

impl<'a> Cursor<'a> {
    /// The start of a section.
    pub fn new(shard: ShardFile<'a>, section: Section) -> Cursor<'a> {
        let footer = &shard.info.metadata;
        let offset = match section {
            Section::Files => footer.file_info_offset,
            Section::Xorbs => footer.xorb_info_offset,
        };
        Cursor {
            shard,
            section,
            offset,
            mark: Mark::start(),
        }
    }

    /// Whether no record is left.
    pub fn has_ended(&self) -> bool {
        self.mark.ended
    }

    /// How many bytes of the section are left, if the footer is right.
    pub fn bytes_left(&self) -> u64 {
        let footer = &self.shard.info.metadata;
        let end = match self.section {
            Section::Files => footer.xorb_info_offset,
            Section::Xorbs => footer.file_lookup_offset,
        };
        if self.mark.ended {
            return 0;
        }
        end.min(self.shard.stamp.size).saturating_sub(self.offset)
    }

    /// The next records in `size` bytes, or one longer, and the mark behind the last whole one.
    /// While that is before `goal`, up to `extra` bytes more are read, and taken off `extra`.
    pub fn read<R: Files + AllocGlobal>(
        &self,
        rt: &R,
        size: u64,
        goal: &MerkleHash,
        extra: &mut u64,
    ) -> Result<(Block, Mark), RoundFault<'a>> {
        let alloc = rt.alloc();
        let version = FormatVersion::of_header(self.shard.info.header.version);
        if self.mark.ended {
            let empty = Block::new(alloc, self.section, version, 0)?;
            return Ok((
                empty,
                Mark {
                    bytes: 0,
                    ..self.mark
                },
            ));
        }
        let room = usize::try_from(size).unwrap_or(usize::MAX);
        let mut block = Block::new(alloc, self.section, version, room)?;
        let mut file = self.shard.open_at(rt, self.offset)?;
        let mut more = size;
        let mut step = FIRST_STEP;
        for _ in 0..DOUBLINGS {
            let read = match read_more(&mut file, more, &mut block.bytes) {
                Ok(read) => read,
                Err(error) => {
                    return Err(RoundFault::Failed(Failure::on_file(
                        self.shard.path,
                        Fault::from(error),
                    )));
                }
            };
            let mark = block.read(alloc, self.mark, None)?;
            if mark.bytes > 0 {
                // A cut section is an error of the next round, which reads nothing.
                if mark.reaches(goal) || read < more || step > *extra {
                    return Ok((block, mark));
                }
                *extra = extra.saturating_sub(step);
                more = step;
                step = step.saturating_mul(2);
                continue;
            }
            if mark.ended {
                return Ok((block, mark));
            }
            if read < more {
                return Err(RoundFault::Unreadable(CoreError::Io(io::Error::from(
                    ErrorKind::UnexpectedEof,
                ))));
            }
            more = more.saturating_mul(2);
        }
        Err(RoundFault::Unreadable(CoreError::OutOfMemory))
    }

    /// The last hash that the cursor has passed.
    pub fn last(&self) -> Option<MerkleHash> {
        self.mark.last
    }

    /// Passes the records of a block up to a hash, or all whole ones, and returns them as a shard.
    pub fn take<R: AllocGlobal>(
        &mut self,
        rt: &R,
        block: Block,
        limit: Option<MerkleHash>,
    ) -> Result<Vec<u8>, RoundFault<'a>> {
        let alloc = rt.alloc();
        if self.mark.ended {
            return Ok(block.shard_of(alloc, 0, self.shard.key())?);
        }
        self.mark = block.read(alloc, self.mark, limit)?;
        self.offset = self.offset.saturating_add(self.mark.bytes as u64);
        Ok(block.shard_of(alloc, self.mark.bytes, self.shard.key())?)
    }
}

fn read_more<F: Read>(file: &mut F, size: u64, bytes: &mut Vec<u8>) -> io::Result<u64> {
    let read = file.by_ref().take(size).read_to_end(bytes)?;
    Ok(read as u64)
}
