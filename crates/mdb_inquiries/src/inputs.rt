//! The shards that a command reads, of words, folders and lists.

use mdb_base::failure::Failure;
use mdb_base::outputs::path_in;
use mdb_base::request::Sources;
use mdb_base::status::report_failure;
use mdb_base::words::{escape_word, is_among};
use mdb_files::files::{STANDARD_STREAM, read};
use mdb_records::line::Style;
use mdb_report::fault::Fault;
use std::alloc::{AllocError, Global};
use std::io::Read;
use std::rt::Files;
use std::{fs, io};

/// The end of a shard's name.
const ENDING: &str = ".mdb";

/// The bytes of names in a folder read at once; 4096 have room for any.
const NAMES_SIZE: usize = 8192;

/// The shards that a command reads.
#[derive(Drop)]
pub struct Inputs {
    pub paths: Vec<String>,
    /// Whether answers have shards' names, as there may be more than one.
    pub named: bool,
    /// Whether a path that can't be read was left out, and reported.
    pub failed: bool,
    /// What was reported of such paths.
    pub failures: Vec<InputFailure>,
    /// Whether standard input is read.
    pub reads_input: bool,
}

/// A path that was left out, and why.
#[derive(Drop)]
pub struct InputFailure {
    pub path: String,
    pub reason: String,
}

/// The shards that sources name; a folder stands for those in it. Words among `unreadable` are not
/// UTF-8, and are reported.
pub fn inputs_of<R: Files + Input + Eprint + AllocGlobal>(
    rt: &R,
    sources: &Sources<'_>,
    unreadable: &[String],
) -> Result<Inputs, AllocError> {
    let mut inputs = Inputs {
        paths: Vec::new(rt.alloc()),
        named: sources.list.is_some() || sources.words.len() > 1,
        failed: false,
        failures: Vec::new(rt.alloc()),
        reads_input: sources.reads_input_as_list(),
    };
    for word in &sources.words {
        if is_among(unreadable, word) {
            inputs.report(rt, sources.style, word, Fault::NoText)?;
        } else {
            inputs.add(rt, sources, word)?;
        }
    }
    match sources.list {
        Some(list) if is_among(unreadable, list) => inputs.report(
            rt,
            sources.style,
            list,
            Fault::NoText,
        )?,
        Some(list) => inputs.add_list(rt, sources, list)?,
        None => {}
    }
    Ok(inputs)
}

impl Inputs {
    // Standard input can be read only once.
    fn add<R: Files + Eprint + AllocGlobal>(
        &mut self,
        rt: &R,
        sources: &Sources<'_>,
        path: &str,
    ) -> Result<(), AllocError> {
        if path == STANDARD_STREAM {
            if self.reads_input {
                return self.report(rt, sources.style, path, Fault::InputTwice);
            }
            self.reads_input = true;
        }
        if is_folder(rt, path) {
            self.named = true;
            return self.add_folder(rt, sources, path);
        }
        self.paths.push(String::from_str(rt.alloc(), path)?)?;
        Ok(())
    }

    // Adds shards in the order of their paths. Reports names that are not UTF-8, and that there is
    // no shard.
    fn add_folder<R: Files + Eprint + AllocGlobal>(
        &mut self,
        rt: &R,
        sources: &Sources<'_>,
        folder: &str,
    ) -> Result<(), AllocError> {
        let reported = self.failures.len();
        let mut found = Found::new(rt.alloc());
        found.folders.push(String::from_str(rt.alloc(), folder)?)?;
        for _ in 0..u64::MAX {
            let Some(next) = found.folders.pop() else {
                break;
            };
            let mut names = Vec::new(rt.alloc());
            if let Err(error) = read_names(rt, next.as_str(), &mut names) {
                self.report(rt, sources.style, next.as_str(), Fault::from(error))?;
            }
            found.add_names(rt, next.as_str(), names.as_slice(), sources.recursive)?;
        }
        self.report_unreadable(rt, sources, &mut found)?;
        if found.shards.is_empty() && self.failures.len() == reported && !sources.may_be_empty {
            let fault = match sources.recursive {
                true => Fault::NoShardsWithin,
                false => Fault::NoShards,
            };
            self.report(rt, sources.style, folder, fault)?;
        }
        let Found { shards, .. } = found;
        self.add_shards(shards)
    }

    fn report_unreadable<R: Eprint + AllocGlobal>(
        &mut self,
        rt: &R,
        sources: &Sources<'_>,
        found: &mut Found,
    ) -> Result<(), AllocError> {
        found.unreadable.as_mut_slice().sort_unstable();
        for path in &found.unreadable {
            self.report(rt, sources.style, path.as_str(), Fault::NoText)?;
        }
        Ok(())
    }

    fn add_shards(&mut self, mut shards: Vec<String>) -> Result<(), AllocError> {
        shards.as_mut_slice().sort_unstable();
        for path in shards {
            self.paths.push(path)?;
        }
        Ok(())
    }

    fn add_list<R: Files + Input + Eprint + AllocGlobal>(
        &mut self,
        rt: &R,
        sources: &Sources<'_>,
        list: &str,
    ) -> Result<(), AllocError> {
        let bytes = match read(rt, list) {
            Ok(bytes) => bytes,
            Err(error) => {
                return self.report(rt, sources.style, list, Fault::from(error));
            }
        };
        let end = sources.end;
        for line in bytes.as_slice().split(|byte| *byte == end) {
            match str::from_utf8(line) {
                Ok("") => {}
                Ok(path) => self.add(rt, sources, path)?,
                Err(_) => self.report(
                    rt,
                    sources.style,
                    escape_word(rt.alloc(), line)?.as_str(),
                    Fault::NoText,
                )?,
            }
        }
        Ok(())
    }

    fn report<R: Eprint + AllocGlobal>(
        &mut self,
        rt: &R,
        style: Style,
        path: &str,
        fault: Fault,
    ) -> Result<(), AllocError> {
        let failure = Failure::on_file(path, fault);
        let _ = report_failure(rt, style, &failure);
        self.failed = true;
        let Failure { subject, fault } = failure;
        self.failures.push(InputFailure {
            path: format!(in rt.alloc(); "{subject}")?,
            reason: format!(in rt.alloc(); "{fault}")?,
        })?;
        Ok(())
    }
}

#[derive(Drop)]
struct Found {
    /// Regular files, also behind links, with the names of shards.
    shards: Vec<String>,
    /// Shards and what may be folders to read, with names that are not UTF-8.
    unreadable: Vec<String>,
    /// Folders still to be read.
    folders: Vec<String>,
}

impl Found {
    fn new(alloc: Global) -> Found {
        Found {
            shards: Vec::new(alloc),
            unreadable: Vec::new(alloc),
            folders: Vec::new(alloc),
        }
    }

    // Each name is ended by a zero; hidden ones are passed over.
    fn add_names<R: Files + AllocGlobal>(
        &mut self,
        rt: &R,
        folder: &str,
        names: &[u8],
        recursive: bool,
    ) -> Result<(), AllocError> {
        for name in names.split(|byte| *byte == 0) {
            let is_named = name.ends_with(ENDING.as_bytes());
            if name.is_empty() || name.starts_with(b".") || !(is_named || recursive) {
                continue;
            }
            match str::from_utf8(name) {
                Ok(name) => {
                    let path = path_in(rt.alloc(), folder, name)?;
                    self.add_path(rt, path, is_named, recursive)?;
                }
                Err(_) => {
                    let name = escape_word(rt.alloc(), name)?;
                    self.unreadable
                        .push(path_in(rt.alloc(), folder, name.as_str())?)?;
                }
            }
        }
        Ok(())
    }

    fn add_path<R: Files>(
        &mut self,
        rt: &R,
        path: String,
        is_named: bool,
        recursive: bool,
    ) -> Result<(), AllocError> {
        if recursive && is_folder_itself(rt, path.as_str()) {
            self.folders.push(path)?;
        } else if is_named && !is_no_file(rt, path.as_str()) {
            self.shards.push(path)?;
        }
        Ok(())
    }
}

// Links are not followed, as they may lead in a circle.
fn is_folder_itself<R: Files>(rt: &R, path: &str) -> bool {
    match fs::symlink_metadata(rt, path) {
        Ok(there) => there.is_dir(),
        Err(_) => false,
    }
}

fn is_folder<R: Files>(rt: &R, path: &str) -> bool {
    if path == STANDARD_STREAM {
        return false;
    }
    match fs::metadata(rt, path) {
        Ok(there) => there.is_dir(),
        Err(_) => false,
    }
}

// A link that leads nowhere is none, so that it is reported.
fn is_no_file<R: Files>(rt: &R, path: &str) -> bool {
    match fs::metadata(rt, path) {
        Ok(there) => !there.is_file(),
        Err(_) => false,
    }
}

// `fs::read_dir` does not give names that are not UTF-8.
fn read_names<R: Files + AllocGlobal>(rt: &R, folder: &str, names: &mut Vec<u8>) -> io::Result<()> {
    // The slash leads to the folder behind a link.
    let path = path_in(rt.alloc(), folder, "")?;
    let mut dir = rt.open_dir(path.as_str())?;
    let mut block = [0u8; NAMES_SIZE];
    for _ in 0..u64::MAX {
        let n = dir.read(&mut block)?;
        if n == 0 {
            break;
        }
        names.extend_from_slice(&block[..n])?;
    }
    Ok(())
}
