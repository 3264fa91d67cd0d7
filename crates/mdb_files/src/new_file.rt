//! New files beside a target, renamed over it once they are whole.

use std::alloc::{AllocError, Global};
use std::fs::{Metadata, OpenFile, OpenOptions};
use std::io::{ErrorKind, Write};
use std::os::unix::fs::{MetadataExt, OpenOptionsExt, chown};
use std::random::RandomSource;
use std::rt::Files;
use std::{fs, io};
use xet_core_structures::utils::parse_shard_filename;

/// The ending of a new file's name.
const ENDING: &str = ".new";

/// The digits before the ending.
const DIGITS: usize = 16;

/// How many names are tried.
const TRIES: u32 = 100;

/// A new file beside a target.
#[derive(Drop)]
pub struct NewFile<F: Drop> {
    pub file: F,
    pub path: String,
}

/// Writes bytes to a new file as [`create_beside`] makes it, and returns its path.
pub fn write_beside<R: Files + RandomSource>(
    rt: &R,
    alloc: Global,
    target: &str,
    replaced: Option<&Metadata>,
    bytes: &[u8],
) -> io::Result<String> {
    let NewFile { mut file, path } = create_beside(rt, alloc, target, replaced)?;
    match fill(&mut file, bytes) {
        Ok(()) => Ok(path),
        Err(error) => {
            let _ = fs::remove_file(rt, path.as_str());
            Err(error)
        }
    }
}

fn fill<F: Write + OpenFile>(file: &mut F, bytes: &[u8]) -> io::Result<()> {
    file.write_all(bytes)?;
    file.sync_all()
}

/// A new file beside a target, with the mode of the file that it is to replace, and its owner and
/// group where the system lets them be given. Random digits keep its name apart from others.
pub fn create_beside<R: Files + RandomSource>(
    rt: &R,
    alloc: Global,
    target: &str,
    replaced: Option<&Metadata>,
) -> io::Result<NewFile<R::File>> {
    let NewFile { mut file, path } = create(rt, alloc, target, replaced.is_some())?;
    let given = match replaced {
        Some(replaced) => take_place(rt, &mut file, path.as_str(), replaced),
        None => Ok(()),
    };
    match given {
        Ok(()) => Ok(NewFile { file, path }),
        Err(error) => {
            let _ = fs::remove_file(rt, path.as_str());
            Err(error)
        }
    }
}

/// A new file beside a target that nobody else may read.
pub fn create_private<R: Files + RandomSource>(
    rt: &R,
    alloc: Global,
    target: &str,
) -> io::Result<NewFile<R::File>> {
    create(rt, alloc, target, true)
}

// Nobody else may read what replaces a file before it has that file's mode.
fn create<R: Files + RandomSource>(
    rt: &R,
    alloc: Global,
    target: &str,
    private: bool,
) -> io::Result<NewFile<R::File>> {
    for _ in 0..TRIES {
        let path = new_name(rt, alloc, target)?;
        let mut options = OpenOptions::new();
        options.read(true).write(true).create_new(true);
        if private {
            options.mode(0o600);
        }
        match options.open(rt, path.as_str()) {
            Ok(file) => return Ok(NewFile { file, path }),
            Err(error) if error.kind() == ErrorKind::AlreadyExists => continue,
            Err(error) => return Err(error),
        }
    }
    Err(io::Error::from(ErrorKind::AlreadyExists))
}

fn new_name<R: RandomSource>(rt: &R, alloc: Global, target: &str) -> io::Result<String> {
    let mut random = [0u8; 8];
    rt.fill_bytes(&mut random)?;
    let number = u64::from_le_bytes(random);
    Ok(format!(in alloc; "{target}.{number:016x}{ENDING}")?)
}

fn take_place<R: Files, F: OpenFile>(
    rt: &R,
    file: &mut F,
    path: &str,
    replaced: &Metadata,
) -> io::Result<()> {
    let new = file.metadata()?;
    if new.uid() != replaced.uid() || new.gid() != replaced.gid() {
        // The owner may be another user's to keep.
        let _ = chown(rt, path, Some(replaced.uid()), Some(replaced.gid()));
    }
    file.set_permissions(replaced.permissions())
}

/// The names of new files beside a target, of runs that were ended or still write.
pub fn leftovers<R: Files + AllocGlobal + Clone + Drop>(
    rt: &R,
    target: &str,
) -> Result<Vec<String>, AllocError> {
    let alloc = rt.alloc();
    let mut found = Vec::new(alloc);
    let (folder, name) = folder_and_name(target);
    let Ok(entries) = fs::read_dir(rt, folder) else {
        return Ok(found);
    };
    for entry in entries {
        if let Ok(entry) = entry {
            if is_new_name(entry.file_name(), name) {
                found.push(String::from_str(alloc, entry.file_name())?)?;
            }
        }
    }
    found.as_mut_slice().sort_unstable();
    Ok(found)
}

/// The folder of a file, and its name there.
pub fn folder_and_name(file: &str) -> (&str, &str) {
    match file.rsplit_once('/') {
        Some(("", name)) => ("/", name),
        Some((folder, name)) => (folder, name),
        None => (".", file),
    }
}

/// Removes the new files for shards named by hashes that ended runs left in a folder. No other run
/// may write there.
pub fn remove_leftovers<R: Files + AllocGlobal + Clone + Drop>(rt: &R, folder: &str) {
    let Ok(entries) = fs::read_dir(rt, folder) else {
        return;
    };
    for entry in entries {
        if let Ok(entry) = entry
            && let Some(target) = target_of(entry.file_name())
            && parse_shard_filename(target).is_some()
        {
            let _ = fs::remove_file(rt, entry.path());
        }
    }
}

fn is_new_name(name: &str, target: &str) -> bool {
    match target_of(name) {
        Some(its) => its == target,
        None => false,
    }
}

// The target's name, if this is a new file's.
fn target_of(name: &str) -> Option<&str> {
    let (target, digits) = name.strip_suffix(ENDING)?.rsplit_once('.')?;
    if digits.len() == DIGITS && digits.bytes().all(|digit| digit.is_ascii_hexdigit()) {
        Some(target)
    } else {
        None
    }
}
