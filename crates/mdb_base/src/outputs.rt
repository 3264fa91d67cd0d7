//! Files read whole, and what is written to paths.

use crate::failure::Failure;
use crate::host::Host;
use mdb_files::files::{Contents, STANDARD_STREAM, read_sections, read_shard, write};
use mdb_files::new_file::leftovers;
use mdb_records::shown::ShownText;
use mdb_report::fault::Fault;
use std::alloc::{AllocError, Global};
use std::fs;
use std::rt::Files;

/// Writes bytes to a path, or to standard output for `-`, and reports leftovers.
pub fn put<'a, R: Host>(rt: &R, output: &'a str, bytes: &[u8]) -> Result<(), Failure<'a>> {
    let written = write(rt, rt.alloc(), output, bytes);
    if output != STANDARD_STREAM {
        report_leftovers(rt, output);
    }
    match written {
        Ok(()) => Ok(()),
        Err(error) => Err(Failure::on_target(output, Fault::from(error))),
    }
}

/// Reports the new files that ended runs left beside a target, or beside the file that it leads to.
pub fn report_leftovers<R: Host>(rt: &R, target: &str) {
    let found = match fs::canonicalize(rt, target) {
        Ok(file) => leftovers(rt, file.as_str()),
        Err(_) => leftovers(rt, target),
    };
    let Ok(names) = found else {
        return;
    };
    for name in &names {
        report_leftover(rt, name.as_str(), target);
    }
}

fn report_leftover<R: Eprint>(rt: &R, name: &str, target: &str) {
    let name = ShownText(name);
    let target = ShownText(target);
    let _ = rt.eprintln(format_args!(
        "{name}: left beside {target} by a run that was ended, or that still writes"
    ));
}

/// What is read of the shard in a file, or in standard input for `-`.
pub fn contents_of<'a, R: Files + Input + AllocGlobal>(
    rt: &R,
    file: &'a str,
) -> Result<Contents, Failure<'a>> {
    match read_shard(rt, file) {
        Ok(contents) => Ok(contents),
        Err(error) => Err(Failure::on_file(file, Fault::from(error))),
    }
}

/// As [`contents_of`], of a shard that needs no footer.
pub fn sections_of<'a, R: Files + Input + AllocGlobal>(
    rt: &R,
    file: &'a str,
) -> Result<Contents, Failure<'a>> {
    match read_sections(rt, file) {
        Ok(contents) => Ok(contents),
        Err(error) => Err(Failure::on_file(file, Fault::from(error))),
    }
}

/// The bytes of the shard in a file.
pub fn bytes_in_file<'a, R: Files + Input + AllocGlobal>(
    rt: &R,
    file: &'a str,
) -> Result<Vec<u8>, Failure<'a>> {
    Ok(contents_of(rt, file)?.bytes)
}

/// The path of a name in a folder.
pub fn path_in(alloc: Global, folder: &str, name: &str) -> Result<String, AllocError> {
    if folder.ends_with('/') {
        format!(in alloc; "{folder}{name}")
    } else {
        format!(in alloc; "{folder}/{name}")
    }
}
