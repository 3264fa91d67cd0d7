//! A run of the program: its words, its command, its exit status.

ghost use Rattle.std.specs.Prelude.{◌≤◌};

use crate::folder_lock::{FolderLock, LockFailure, Locks, lock_folders};
use mdb_arguments::arguments::request_of;
use mdb_base::failure::Failure;
use mdb_base::host::Host;
use mdb_base::request::{Merge, Request, Sources};
use mdb_base::status::{Status, report_failure};
use mdb_base::terminals::Terminals;
use mdb_base::words::{Words, is_among, read_words};
use mdb_inquiries::gc::collect_garbage;
use mdb_inquiries::hash_list::add_listed;
use mdb_inquiries::inputs::inputs_of;
use mdb_inquiries::inspect::inspect;
use mdb_inquiries::ordering::inputs_in_order;
use mdb_inquiries::report::report;
use mdb_making::make::make;
use mdb_merging::merge::merge_files;
use mdb_records::line::Style;
use mdb_records::moment::seconds_now;
use mdb_report::fault::Fault;
use std::alloc::AllocError;
use std::rt::Env;

/// Runs the program on its words; which streams are terminals is given.
pub fn run<R: Env + Locks + Host>(rt: &R, terminals: Terminals) -> u8
    ensures { result ≤ 4 }
{
    match read_words(rt) {
        Ok(words) => status_of_words(rt, &words, terminals).number(),
        Err(error) => report_text(rt, &Failure::on_words(Fault::from(error))).number(),
    }
}

fn status_of_words<R: Locks + Host>(rt: &R, words: &Words, terminals: Terminals) -> Status {
    match request_of(rt.alloc(), words.texts.as_slice(), seconds_now(rt)) {
        Ok(mut request) => {
            status_of_request(rt, &mut request, words.unreadable.as_slice(), terminals)
        }
        Err(error) => status_of_error(rt, &error),
    }
}

// Reports an error of the command line, or prints the help that was asked for.
fn status_of_error<R: Print + Eprint>(rt: &R, error: &clap::Error) -> Status {
    if error.print(rt).is_err() {
        Status::Failed
    } else if error.use_stderr() {
        Status::Misused
    } else {
        Status::Done
    }
}

// The status of a request, to which the hashes in the list that it names are added.
fn status_of_request<R: Locks + Host>(
    rt: &R,
    request: &mut Request<'_>,
    unreadable: &[String],
    terminals: Terminals,
) -> Status {
    match add_listed(rt, request, unreadable) {
        Ok(()) => status_of(rt, request, unreadable, terminals),
        Err(failure) => report_failure(rt, request.style(), &failure),
    }
}

fn status_of<R: Locks + Host>(
    rt: &R,
    request: &Request<'_>,
    unreadable: &[String],
    terminals: Terminals,
) -> Status {
    match request {
        Request::Inspect(sources, inquiry, printing) => {
            let inputs = match inputs_of(rt, sources, unreadable) {
                Ok(inputs) => inputs_in_order(rt, inputs, printing.sort),
                Err(error) => Err(error),
            };
            match inputs {
                Ok(inputs) => inspect(rt, &inputs, inquiry, *printing, terminals),
                Err(_) => report_no_memory(rt, printing.style),
            }
        }
        Request::Collect(sources, collection) => match inputs_of(rt, sources, unreadable) {
            Ok(inputs) => collect_garbage(rt, &inputs, *collection, terminals),
            Err(_) => report_no_memory(rt, collection.style),
        },
        Request::Report(_, reporting) if is_among(unreadable, reporting.output) => {
            report_text(rt, &Failure::on_file(reporting.output, Fault::NoText))
        }
        Request::Report(sources, reporting) => match inputs_of(rt, sources, unreadable) {
            Ok(inputs) => report(rt, &inputs, sources, *reporting, terminals),
            Err(_) => report_no_memory(rt, Style::Text),
        },
        Request::Make(making, target) => {
            if let Some(word) = unreadable.first() {
                return report_text(rt, &Failure::on_file(word.as_str(), Fault::NoText));
            }
            match make(rt, making, *target, terminals.output) {
                Ok(()) => Status::Done,
                Err(failure) => status_of_failure(rt, &failure),
            }
        }
        Request::Merge(_, merge) if is_among(unreadable, merge.target.path) => {
            report_text(rt, &Failure::on_file(merge.target.path, Fault::NoText))
        }
        Request::Merge(sources, merge) => {
            status_of_merge(rt, sources, unreadable, *merge, terminals)
        }
    }
}

// Merges shards; where it is in groups, under the lock of the folder to which they are written.
fn status_of_merge<R: Locks + Host>(
    rt: &R,
    sources: &Sources<'_>,
    unreadable: &[String],
    merge: Merge<'_>,
    terminals: Terminals,
) -> Status {
    if merge.compaction.is_none() {
        return status_of_sources(rt, sources, unreadable, merge, terminals);
    }
    let folder = merge.target.path;
    match FolderLock::take(rt, folder) {
        Ok(lock) => {
            let status = status_of_sources(rt, sources, unreadable, merge, terminals);
            lock.release(rt);
            status
        }
        Err(fault) => report_lock(rt, &LockFailure { folder, fault }),
    }
}

fn report_lock<R: Eprint>(rt: &R, failure: &LockFailure<'_>) -> Status {
    let _ = rt.eprintln(failure);
    Status::Failed
}

// Merges shards, if none of what names them failed, or what did is left out.
fn status_of_sources<R: Locks + Host>(
    rt: &R,
    sources: &Sources<'_>,
    unreadable: &[String],
    merge: Merge<'_>,
    terminals: Terminals,
) -> Status {
    match inputs_of(rt, sources, unreadable) {
        Ok(inputs) if inputs.failed && !merge.skips_unreadable => Status::Failed,
        Ok(inputs) => {
            let status = status_of_inputs(rt, inputs.paths.as_slice(), merge, terminals);
            match inputs.failed {
                true => status.and_left_out(),
                false => status,
            }
        }
        Err(_) => report_no_memory(rt, Style::Text),
    }
}

// Merges shards; where they are removed then, under the locks of their folders.
fn status_of_inputs<R: Locks + Host>(
    rt: &R,
    paths: &[String],
    merge: Merge<'_>,
    terminals: Terminals,
) -> Status {
    if merge.removes_inputs() {
        status_under_locks(rt, paths, merge, terminals)
    } else {
        status_of_files(rt, paths, merge, terminals)
    }
}

// Merges shards, and removes them, under the locks of their folders. Two runs, each of which writes
// to the folder that the other one reads, would else remove each other's results.
fn status_under_locks<R: Locks + Host>(
    rt: &R,
    paths: &[String],
    merge: Merge<'_>,
    terminals: Terminals,
) -> Status {
    let mut locks = Vec::new(rt.alloc());
    let status = match lock_folders(rt, paths, merge.target.path, &mut locks) {
        Ok(()) => status_of_files(rt, paths, merge, terminals),
        Err(failure) => report_lock(rt, &failure),
    };
    for lock in locks {
        lock.release(rt);
    }
    status
}

fn status_of_files<'a, R: Host>(
    rt: &R,
    paths: &'a [String],
    merge: Merge<'a>,
    terminals: Terminals,
) -> Status {
    let files: Result<Vec<&'a str>, AllocError> = paths
        .iter()
        .map(|path| path.as_str())
        .collect(rt.alloc());
    match files {
        Ok(files) => match merge_files(rt, files.as_slice(), merge, terminals) {
            Ok(status) => status,
            Err(failure) => status_of_failure(rt, &failure),
        },
        Err(_) => report_no_memory(rt, Style::Text),
    }
}

// Reports a failure of a command that prints no JSON.
fn report_text<R: Eprint + AllocGlobal>(rt: &R, failure: &Failure<'_>) -> Status {
    report_failure(rt, Style::Text, failure)
}

// Reports that there is no memory for what the words name.
fn report_no_memory<R: Eprint + AllocGlobal>(rt: &R, style: Style) -> Status {
    report_failure(rt, style, &Failure::on_words(Fault::OutOfMemory))
}

// The status of a command that made nothing, or only a part.
fn status_of_failure<R: Eprint + AllocGlobal>(rt: &R, failure: &Failure<'_>) -> Status {
    if failure.is_closed_pipe() {
        // Nobody reads what was made.
        Status::Failed
    } else if failure.is_disagreement() {
        let _ = rt.eprintln(failure);
        Status::Found
    } else {
        report_text(rt, failure)
    }
}
