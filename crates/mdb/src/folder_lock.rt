//! The lock of a folder, which keeps a second run out of it.
//!
//! A run locks a file in the folder. The system releases the lock when the run ends, however it
//! ends, so the file that a killed run left keeps nobody out. What others may have put there under
//! that name is not written to: a link, or a file that has another name or more than a number.

use mdb_base::outputs::path_in;
use mdb_files::new_file::folder_and_name;
use mdb_files::stamp::FileId;
use mdb_records::shown::ShownText;
use std::alloc::{AllocError, AllocFailed};
use std::fs::{File, Metadata, OpenFile, OpenOptions, TryLockError};
use std::io::{ErrorKind, Read, Write};
use std::os::unix::fs::MetadataExt;
use std::rt::Files;
use std::{fmt, fs, io};

/// Files that a run can lock.
pub trait Locks: Files {
    /// Locks a file until it is closed; `false` if another run has locked it.
    fn try_lock(&self, file: &Self::File) -> io::Result<bool>;
}

impl Locks for HostRuntime {
    fn try_lock(&self, file: &File) -> io::Result<bool> {
        match file.try_lock() {
            Ok(()) => Ok(true),
            Err(TryLockError::WouldBlock) => Ok(false),
            Err(TryLockError::Error(error)) => Err(error),
        }
    }
}

/// The name of the lock in its folder.
const NAME: &str = ".mdb.lock";

/// A link of Linux that leads to the number of the process that reads it.
const PROCESS: &str = "/proc/self";

/// The most bytes that are read of the number in a lock.
const NUMBER_SIZE: u64 = 20;

/// How often a lock is opened again because another run has removed it.
const TRIES: u32 = 1000;

/// The lock of a folder, which this run has.
#[derive(Drop)]
pub struct FolderLock<F: Drop> {
    file: F,
    path: String,
}

/// Why a run does not get the lock of a folder.
#[derive(Drop)]
pub enum LockFault {
    /// Another run has it, whose process has this number.
    Held(String),
    /// What has the lock's name is no lock.
    Foreign,
    Device(io::Error),
}

/// A folder whose lock a run does not get.
#[derive(Drop)]
pub struct LockFailure<'a> {
    pub folder: &'a str,
    pub fault: LockFault,
}

impl fmt::Display for LockFailure<'_> {
    fn fmt<W: fmt::Write>(&self, f: &mut fmt::Formatter<W>) -> fmt::Result {
        let folder = ShownText(self.folder);
        let fault = &self.fault;
        write!(f, "{folder}: {fault}")
    }
}

impl From<io::Error> for LockFault {
    fn from(error: io::Error) -> LockFault {
        LockFault::Device(error)
    }
}

impl From<AllocError> for LockFault {
    fn from(error: AllocError) -> LockFault {
        LockFault::Device(io::Error::from(error))
    }
}

impl<T: Drop> From<AllocFailed<T>> for LockFault {
    fn from(error: AllocFailed<T>) -> LockFault {
        LockFault::Device(io::Error::from(error))
    }
}

impl fmt::Display for LockFault {
    fn fmt<W: fmt::Write>(&self, f: &mut fmt::Formatter<W>) -> fmt::Result {
        match self {
            LockFault::Held(process) => {
                let process = process.as_str().trim();
                write!(
                    f,
                    "another run works there, process {process}: it has locked {NAME}"
                )
            }
            LockFault::Foreign => write!(f, "{NAME} there is not the lock of a run"),
            LockFault::Device(error) => write!(f, "{error}"),
        }
    }
}

impl<F: Read + Write + OpenFile + Drop> FolderLock<F> {
    /// Takes the lock of a folder.
    pub fn take<R: Locks<File = F> + AllocGlobal>(
        rt: &R,
        folder: &str,
    ) -> Result<FolderLock<F>, LockFault> {
        let path = path_in(rt.alloc(), folder, NAME)?;
        for _ in 0..TRIES {
            let (mut file, writable) = open_lock(rt, path.as_str())?;
            if !rt.try_lock(&file)? {
                let mut holder = String::new(rt.alloc());
                Read::by_ref(&mut file)
                    .take(NUMBER_SIZE)
                    .read_to_string(&mut holder)?;
                return Err(LockFault::Held(holder));
            }
            // The run that had it may have removed it since it was opened.
            if !is_at(rt, &file, path.as_str())? {
                continue;
            }
            if writable {
                sign(rt, &mut file)?;
                return Ok(FolderLock { file, path });
            }
            // A run of another user was killed.
            fs::remove_file(rt, path.as_str())?;
        }
        Err(LockFault::Device(io::Error::from(ErrorKind::WouldBlock)))
    }

    /// Gives the lock back, and removes its file.
    pub fn release<R: Files>(self, rt: &R) {
        let _ = fs::remove_file(rt, self.path.as_str());
    }
}

/// Takes the locks of the folders of some files, except that of `locked`, which this run has. Locks
/// that were taken are added to `locks`, also if a later one fails.
pub fn lock_folders<'a, R: Locks + AllocGlobal>(
    rt: &R,
    files: &'a [String],
    locked: &'a str,
    locks: &mut Vec<FolderLock<R::File>>,
) -> Result<(), LockFailure<'a>> {
    let mut ids = Vec::new(rt.alloc());
    if let Err(fault) = add_id(rt, locked, &mut ids) {
        return Err(LockFailure {
            folder: locked,
            fault,
        });
    }
    for file in files {
        let (folder, _) = folder_and_name(file.as_str());
        if let Err(fault) = lock_folder(rt, folder, &mut ids, locks) {
            return Err(LockFailure { folder, fault });
        }
    }
    Ok(())
}

// Takes the lock of a folder, unless it is one of those that are locked.
fn lock_folder<R: Locks + AllocGlobal>(
    rt: &R,
    folder: &str,
    ids: &mut Vec<FileId>,
    locks: &mut Vec<FolderLock<R::File>>,
) -> Result<(), LockFault> {
    if add_id(rt, folder, ids)? {
        let lock = FolderLock::take(rt, folder)?;
        locks.push(lock)?;
    }
    Ok(())
}

// Adds which folder a path leads to; `false` if it is there already.
fn add_id<R: Files>(rt: &R, folder: &str, ids: &mut Vec<FileId>) -> Result<bool, LockFault> {
    let id = FileId::of(&fs::metadata(rt, folder)?);
    if ids.as_slice().contains(&id) {
        return Ok(false);
    }
    ids.push(id)?;
    Ok(true)
}

// Opens the file of a lock, or makes it, and says whether it can be written to.
fn open_lock<R: Files>(rt: &R, path: &str) -> Result<(R::File, bool), LockFault> {
    if let Ok(there) = fs::symlink_metadata(rt, path)
        && !is_lock(&there)
    {
        return Err(LockFault::Foreign);
    }
    let mut options = OpenOptions::new();
    options.read(true).write(true).create(true);
    match options.open(rt, path) {
        Ok(file) => Ok((file, true)),
        // The lock of another user's run can be read, and so be taken if that run was killed.
        Err(error) if error.kind() == ErrorKind::PermissionDenied => Ok((
            fs::open(rt, path)?,
            false,
        )),
        Err(error) => Err(LockFault::Device(error)),
    }
}

// Whether a file may be that of a lock: it has one name, or none if another run has just removed it,
// and no more than a number.
fn is_lock(there: &Metadata) -> bool {
    there.is_file() && there.nlink() <= 1 && there.len() <= NUMBER_SIZE
}

// Writes this run's number into the file of a lock.
fn sign<R: Files + AllocGlobal, F: Write + OpenFile>(rt: &R, file: &mut F) -> io::Result<()> {
    file.set_len(0)?;
    let process = match fs::read_link(rt, PROCESS) {
        Ok(number) => number,
        Err(_) => return Ok(()),
    };
    writeln!(file, "{}", process.as_str())
}

// Whether a file is at a path, and not behind a link there.
fn is_at<R: Files, F: OpenFile>(rt: &R, file: &F, path: &str) -> io::Result<bool> {
    match fs::symlink_metadata(rt, path) {
        Ok(there) => Ok(FileId::of(&there) == FileId::of(&file.metadata()?)),
        Err(error) if error.kind() == ErrorKind::NotFound => Ok(false),
        Err(error) => Err(error),
    }
}
