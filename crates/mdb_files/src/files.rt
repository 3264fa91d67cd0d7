//! Reading shards, and writing outputs so that the old file stays if anything fails.

use crate::new_file::{folder_and_name, write_beside};
use crate::stamp::Stamp;
use shard_bytes::load::load_bytes;
use std::alloc::Global;
use std::fs::{Metadata, OpenFile, OpenOptions};
use std::io::{ErrorKind, Read, Seek, SeekFrom, Write};
use std::random::RandomSource;
use std::rt::Files;
use std::{fs, io};
use xet_core_structures::error::CoreError;
use xet_core_structures::shard_format::{self, MDBShardFileHeader};

/// The path that stands for standard input or output.
pub const STANDARD_STREAM: &str = "-";

const HEADER_SIZE: usize = shard_format::HEADER_SIZE as usize;

// Header and footer, in bytes.
const ENDS_SIZE: usize = HEADER_SIZE + shard_format::FOOTER_SIZE as usize;

/// All bytes of a file, or the rest of standard input for `-`.
pub fn read<R: Files + Input + AllocGlobal>(rt: &R, path: &str) -> io::Result<Vec<u8>> {
    if path != STANDARD_STREAM {
        return read_to_end(rt.alloc(), &mut fs::open(rt, path)?);
    }
    let mut bytes = Vec::new(rt.alloc());
    rt.reader().read_to_end(&mut bytes)?;
    Ok(bytes)
}

/// All bytes of a file just opened.
pub fn read_to_end<F: Read + OpenFile>(alloc: Global, file: &mut F) -> io::Result<Vec<u8>> {
    let size = file.metadata()?.len();
    let mut bytes = Vec::with_capacity(alloc, usize::try_from(size).unwrap_or(usize::MAX))?;
    file.read_to_end(&mut bytes)?;
    Ok(bytes)
}

/// What was read of a shard.
#[derive(Drop)]
pub struct Contents {
    pub bytes: Vec<u8>,
    /// Whether these are all bytes.
    pub whole: bool,
    /// The stamp of a regular file before it was read.
    pub stamp: Option<Stamp>,
}

/// The bytes of the shard in a file, or in the rest of standard input for `-`. Of a regular file
/// without header and footer, and of anything else without a header, only as many are read as these
/// have.
pub fn read_shard<R: Files + Input + AllocGlobal>(rt: &R, path: &str) -> io::Result<Contents> {
    let alloc = rt.alloc();
    if path == STANDARD_STREAM {
        return stream_contents(alloc, &mut rt.reader());
    }
    let mut file = fs::open(rt, path)?;
    let there = file.metadata()?;
    if there.is_file() && there.len() >= ENDS_SIZE as u64 {
        return file_contents(alloc, &mut file, Stamp::of(&there));
    }
    stream_contents(alloc, &mut file)
}

/// As [`read_shard`], but all that begins with a header is read, and no footer is needed.
pub fn read_sections<R: Files + Input + AllocGlobal>(rt: &R, path: &str) -> io::Result<Contents> {
    if path == STANDARD_STREAM {
        stream_contents(rt.alloc(), &mut rt.reader())
    } else {
        stream_contents(rt.alloc(), &mut fs::open(rt, path)?)
    }
}

fn file_contents<F: Read + Seek>(
    alloc: Global,
    file: &mut F,
    stamp: Stamp,
) -> io::Result<Contents> {
    let ends = ends_in(alloc, file, stamp.size)?;
    let whole = is_worth_reading(alloc, ends.as_slice());
    let bytes = if whole {
        let room = usize::try_from(stamp.size).unwrap_or(usize::MAX);
        let mut bytes = Vec::with_capacity(alloc, room)?;
        file.seek(SeekFrom::Start(0))?;
        file.read_to_end(&mut bytes)?;
        bytes
    } else {
        ends
    };
    Ok(Contents {
        bytes,
        whole,
        stamp: Some(stamp),
    })
}

fn stream_contents<F: Read>(alloc: Global, stream: &mut F) -> io::Result<Contents> {
    let mut bytes = Vec::new(alloc);
    stream
        .by_ref()
        .take(ENDS_SIZE as u64)
        .read_to_end(&mut bytes)?;
    let whole = bytes.len() < ENDS_SIZE || begins_with_header(alloc, bytes.as_slice());
    if whole {
        stream.read_to_end(&mut bytes)?;
    }
    Ok(Contents {
        bytes,
        whole,
        stamp: None,
    })
}

fn begins_with_header(alloc: Global, bytes: &[u8]) -> bool {
    let mut header = bytes;
    MDBShardFileHeader::deserialize(alloc, &mut header).is_ok()
}

/// Whether a regular file with these bytes at its ends is read whole: they are a header and a
/// footer, or memory is lacking to tell.
pub fn is_worth_reading(alloc: Global, ends: &[u8]) -> bool {
    match load_bytes(alloc, ends) {
        Ok(_) | Err(CoreError::OutOfMemory) => true,
        Err(_) => false,
    }
}

/// Opens a regular file, and gives its size. `None` for anything else, or if its size is 0, as in
/// /proc.
pub fn open_sized<R: Files>(rt: &R, path: &str) -> io::Result<Option<(R::File, u64)>> {
    if path == STANDARD_STREAM || !fs::metadata(rt, path)?.is_file() {
        return Ok(None);
    }
    let file = fs::open(rt, path)?;
    match file.metadata()?.len() {
        0 => Ok(None),
        size => Ok(Some((file, size))),
    }
}

/// The bytes of the header and the footer of a file.
pub fn read_ends<R: Files + AllocGlobal>(rt: &R, path: &str) -> io::Result<Vec<u8>> {
    let mut file = fs::open(rt, path)?;
    let size = file.metadata()?.len();
    ends_in(rt.alloc(), &mut file, size)
}

fn ends_in<F: Read + Seek>(alloc: Global, file: &mut F, size: u64) -> io::Result<Vec<u8>> {
    let ends = size.min(ENDS_SIZE as u64) as usize;
    let mut bytes = vec![in alloc; 0u8; ends]?;
    let (header, footer) = bytes.as_mut_slice().split_at_mut(ends.min(HEADER_SIZE));
    file.read_exact(header)?;
    file.seek(SeekFrom::Start(size - footer.len() as u64))?;
    file.read_exact(footer)?;
    Ok(bytes)
}

/// Writes bytes to a path, or to standard output for `-`.
///
/// A new name, or a regular file, also behind links, is replaced by a new file beside it: if
/// anything fails, the target stays and the new file is removed. Anything else, as a device, is
/// written to; a link that leads nowhere is refused.
pub fn write<R: Files + Print + RandomSource + AllocGlobal>(
    rt: &R,
    alloc: Global,
    path: &str,
    bytes: &[u8],
) -> io::Result<()> {
    if path == STANDARD_STREAM {
        let mut output = io::writer(rt);
        output.write_all(bytes)?;
        return output.flush();
    }
    match place_at(rt, alloc, path)? {
        Place::File { target, replaced } => {
            let target = target.as_str();
            let beside = write_beside(rt, alloc, target, replaced.as_ref(), bytes)?;
            rename_over(rt, beside.as_str(), target)
        }
        Place::Other => write_into(rt, path, bytes),
    }
}

/// What a path names for writing.
#[derive(Drop)]
pub enum Place {
    /// A new file, to be renamed over the target: the path, or the regular file that it leads to.
    File {
        target: String,
        replaced: Option<Metadata>,
    },
    /// What is there is no regular file.
    Other,
}

/// What a path names for writing. A link that leads nowhere is refused.
pub fn place_at<R: Files + AllocGlobal>(rt: &R, alloc: Global, path: &str) -> io::Result<Place> {
    match fs::metadata(rt, path) {
        Ok(there) if there.is_file() => Ok(Place::File {
            target: file_at(rt, alloc, path)?,
            replaced: Some(there),
        }),
        Ok(_) => Ok(Place::Other),
        Err(error) if error.kind() == ErrorKind::NotFound && !is_link(rt, path) => {
            Ok(Place::File {
                target: String::from_str(alloc, path)?,
                replaced: None,
            })
        }
        Err(error) => Err(error),
    }
}

fn file_at<R: Files + AllocGlobal>(rt: &R, alloc: Global, path: &str) -> io::Result<String> {
    if !is_link(rt, path) {
        return Ok(String::from_str(alloc, path)?);
    }
    let file = fs::canonicalize(rt, path)?;
    Ok(String::from_str(alloc, file.as_str())?)
}

fn is_link<R: Files>(rt: &R, path: &str) -> bool {
    match fs::symlink_metadata(rt, path) {
        Ok(there) => there.is_symlink(),
        Err(_) => false,
    }
}

fn write_into<R: Files>(rt: &R, path: &str, bytes: &[u8]) -> io::Result<()> {
    let mut options = OpenOptions::new();
    options.write(true);
    let mut there = options.open(rt, path)?;
    there.write_all(bytes)
}

/// Renames a new file over a target, and waits until the device has the name. A file that can't be
/// renamed is removed.
pub fn rename_over<R: Files>(rt: &R, beside: &str, target: &str) -> io::Result<()> {
    if let Err(error) = fs::rename(rt, beside, target) {
        let _ = fs::remove_file(rt, beside);
        return Err(error);
    }
    let (folder, _) = folder_and_name(target);
    match sync_folder(rt, folder) {
        // Some folders may not be read, and some systems can't wait for one.
        Err(error)
            if error.kind() == ErrorKind::PermissionDenied
                || error.kind() == ErrorKind::InvalidInput => { Ok(()) }
        synced => synced,
    }
}

/// Waits until the device has the names in a folder.
pub fn sync_folder<R: Files>(rt: &R, folder: &str) -> io::Result<()> {
    fs::open(rt, folder)?.sync_all()
}
