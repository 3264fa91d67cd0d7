//! Files that a merge leaves out.

use mdb_base::failure::{Failure, Subject};
use mdb_base::host::Host;
use mdb_base::input_failure::combine_failure;
use mdb_base::outputs::contents_of;
use mdb_base::progress::{Progress, Stage};
use mdb_files::files::STANDARD_STREAM;
use mdb_report::fault::Fault;
use placed_shards::selection::Selection;
use shard_bytes::merge::merge_bytes;
use std::alloc::Global;
use std::fs;
use std::rt::Files;
use xet_core_structures::record_reader::FormatVersion;

/// The files that can be merged, each by itself; others are reported. What is no regular file can
/// be read only once, so it is not tried. One file is in memory at a time. Fails only with
/// `OutOfMemory`.
pub fn without_unreadable<'a, R: Host>(
    rt: &R,
    files: &[&'a str],
    progress: &mut Progress,
) -> Result<Vec<&'a str>, Failure<'a>> {
    let mut readable = Vec::new(rt.alloc());
    for (read, file) in files.iter().enumerate() {
        let all = files.len();
        progress.show_after_pause(rt, Stage::Reading { read, all });
        match failure_of_file(rt, file) {
            None => Subject::of_all(files).in_memory(readable.push(*file))?,
            Some(failure) if matches!(failure.fault, Fault::OutOfMemory) => return Err(failure),
            Some(failure) => {
                progress.clear(rt);
                let _ = rt.eprintln(format_args!("{failure}; it is left out"));
            }
        }
    }
    Ok(readable)
}

// `None` if it can be merged, or is not tried.
fn failure_of_file<'a, R: Files + Input + AllocGlobal>(
    rt: &R,
    file: &'a str,
) -> Option<Failure<'a>> {
    if file == STANDARD_STREAM {
        return None;
    }
    match fs::metadata(rt, file) {
        Ok(there) if !there.is_file() => return None,
        Ok(_) => {}
        Err(error) => return Some(Failure::on_file(file, Fault::from(error))),
    }
    match contents_of(rt, file) {
        Ok(contents) => failure_of_bytes(rt.alloc(), file, contents.bytes.as_slice()),
        Err(failure) => Some(failure),
    }
}

fn failure_of_bytes<'a>(alloc: Global, file: &'a str, bytes: &[u8]) -> Option<Failure<'a>> {
    match merge_bytes(alloc, &[bytes], &Selection::ALL, FormatVersion::V3) {
        Ok(_) => None,
        Err(error) => Some(combine_failure(alloc, &[file], &[bytes], error)),
    }
}
