//! The commands that print what shards answer.

use crate::inputs::Inputs;
use mdb_base::expiry::report_expired_in;
use mdb_base::failure::Failure;
use mdb_base::host::Host;
use mdb_base::outputs::{contents_of, sections_of};
use mdb_base::progress::{Progress, Stage};
use mdb_base::request::PrintOptions;
use mdb_base::status::{Status, report_failure};
use mdb_base::terminals::Terminals;
use mdb_files::files::{Contents, open_sized, read_ends, read_shard};
use mdb_records::line::{Layout, Origin, Style};
use mdb_report::fault::{Fault, fault_of, fault_of_record, section_fault};
use mdb_report::inquiry::{Answer, Checks, Inquiry, InquiryFault, print_answer, print_end};
use mdb_report::paged_inquiry::print_paged_answer;
use mdb_report::tally::Tally;
use shard_bytes::load::load_bytes;
use std::alloc::Global;
use std::io;
use std::io::{BufWriter, ErrorKind, Write};
use std::rt::Files;
use xet_core_structures::error::CoreError;

/// Prints what each shard answers; failures, and progress on a terminal, go to standard error.
pub fn inspect<R: Host>(
    rt: &R,
    inputs: &Inputs,
    inquiry: &Inquiry,
    printing: PrintOptions,
    terminals: Terminals,
) -> Status {
    let mut output = match BufWriter::new(rt.alloc(), io::writer(rt)) {
        Ok(output) => output,
        Err(error) => return report_failure(
            rt,
            printing.style,
            &Failure::on_output(Fault::from(error)),
        ),
    };
    let mut tally = Tally::new(rt.alloc());
    let mut progress = Progress::new(rt, terminals.error && !printing.quiet);
    let asked = inspect_all(
        rt,
        inputs,
        inquiry,
        printing,
        &mut tally,
        &mut progress,
        &mut output,
    );
    progress.clear(rt);
    let status = match asked {
        Ok(status) => status,
        Err(status) => return status,
    };
    let end = print_end(
        rt.alloc(),
        inquiry,
        printing.style,
        inputs.named,
        &tally,
        &mut output,
    );
    match end.and_then(|()| output.flush()) {
        Ok(()) => {
            if terminals.error && !printing.quiet {
                report_checked(rt, inquiry, printing.style, inputs.paths.len(), &tally);
            }
            status
        }
        Err(error) if error.kind() == ErrorKind::BrokenPipe => status,
        Err(error) => report_failure(rt, printing.style, &Failure::on_output(Fault::from(error))),
    }
}

fn report_checked<R: Eprint>(
    rt: &R,
    inquiry: &Inquiry,
    style: Style,
    shards: usize,
    tally: &Tally,
) {
    let (Inquiry::Check(_), Style::Text | Style::Human) = (inquiry, style) else {
        return;
    };
    let Tally {
        with_findings,
        unreadable,
        ..
    } = tally;
    let noun = if shards == 1 { "shard" } else { "shards" };
    let _ = rt.eprint(format_args!("{shards} {noun}, {with_findings} with findings"));
    if *unreadable > 0 {
        let _ = rt.eprint(format_args!(", {unreadable} not read"));
    }
    let _ = rt.eprintln("");
}

// The status after which totals are printed, or, as an error, the run ends at once.
fn inspect_all<R: Host, W: Write>(
    rt: &R,
    inputs: &Inputs,
    inquiry: &Inquiry,
    printing: PrintOptions,
    tally: &mut Tally,
    progress: &mut Progress,
    output: &mut W,
) -> Result<Status, Status> {
    let mut status = match inputs.failed {
        true => Status::Failed,
        false => Status::Done,
    };
    // Whether all lookups so far found nothing.
    let mut nothing = !inputs.failed && inquiry.looks_up();
    for (asked, file) in inputs.paths.iter().enumerate() {
        let all = inputs.paths.len();
        progress.show_after_pause(rt, Stage::Asking { asked, all });
        let file = file.as_str();
        let layout = Layout {
            style: printing.style,
            origin: match inputs.named {
                true => Origin::OneOf(file),
                false => Origin::Only(file),
            },
        };
        let now = match inquiry.looks_up() {
            true => printing.now,
            false => None,
        };
        match inspect_file(rt, file, inquiry, layout, now, tally, progress, output) {
            Ok(Answer::FoundNothing) => continue,
            Ok(Answer::Printed) => {}
            Ok(Answer::HasFindings) => {
                status = status.and_found();
                tally.with_findings = tally.with_findings.saturating_add(1);
            }
            // The reader has closed the output.
            Err(failure) if failure.is_closed_pipe() => return Err(status),
            Err(failure) if failure.is_on_output() => {
                return Err(report_failure(rt, printing.style, &failure));
            }
            Err(failure) => {
                status = report_failure(rt, printing.style, &failure);
                tally.unreadable = tally.unreadable.saturating_add(1);
            }
        }
        nothing = false;
    }
    match nothing {
        true => Ok(Status::Nothing),
        false => Ok(status),
    }
}

// Reads only what the answer needs, if the file can be sought.
fn inspect_file<'a, R: Files + Input + Eprint + AllocGlobal, W: Write>(
    rt: &R,
    file: &'a str,
    inquiry: &Inquiry,
    layout: Layout<'_>,
    now: Option<u64>,
    tally: &mut Tally,
    progress: &mut Progress,
    output: &mut W,
) -> Result<Answer, Failure<'a>> {
    let alloc = rt.alloc();
    let (opened, size) = match open_sized(rt, file) {
        Ok(Some(opened)) => opened,
        Ok(None) => {
            let contents = contents_for(rt, file, inquiry)?;
            report_expired_in(
                rt,
                layout.style,
                file,
                contents.bytes.as_slice(),
                now,
                progress,
            );
            return inspect_contents(alloc, file, &contents, inquiry, layout, tally, output);
        }
        Err(error) => return Err(Failure::on_file(file, Fault::from(error))),
    };
    if now.is_some()
        && let Ok(ends) = read_ends(rt, file)
    {
        report_expired_in(rt, layout.style, file, ends.as_slice(), now, progress);
    }
    match print_paged_answer(alloc, inquiry, file, opened, size, layout, tally, output) {
        Ok(Some(answer)) => Ok(answer),
        Ok(None) => {
            let contents = contents_for(rt, file, inquiry)?;
            inspect_contents(alloc, file, &contents, inquiry, layout, tally, output)
        }
        Err(InquiryFault::Ends(error)) => Err(failure_of_error(
            alloc,
            file,
            read_ends(rt, file),
            error,
        )),
        Err(InquiryFault::Shard(error)) => {
            let bytes = read_shard(rt, file).map(|contents| contents.bytes);
            Err(failure_of_error(alloc, file, bytes, error))
        }
        Err(inquiry_fault) => Err(failure_of(alloc, file, &[], inquiry_fault)),
    }
}

// The chunks of the global index are in the sections.
fn contents_for<'a, R: Files + Input + AllocGlobal>(
    rt: &R,
    file: &'a str,
    inquiry: &Inquiry,
) -> Result<Contents, Failure<'a>> {
    match inquiry {
        Inquiry::Eligible => sections_of(rt, file),
        _ => contents_of(rt, file),
    }
}

// What is no shard has no name by its hash, and its bytes are not hashed.
fn inspect_contents<'a, W: Write>(
    alloc: Global,
    file: &'a str,
    contents: &Contents,
    inquiry: &Inquiry,
    layout: Layout<'_>,
    tally: &mut Tally,
    output: &mut W,
) -> Result<Answer, Failure<'a>> {
    let bytes = contents.bytes.as_slice();
    if let Inquiry::Name { .. } = inquiry
        && let Err(error) = load_bytes(alloc, bytes)
    {
        return Err(Failure::on_file(file, fault_of(alloc, bytes, error)));
    }
    let unhashed = match inquiry {
        Inquiry::Check(checks) if !contents.whole => {
            Some(Inquiry::Check(Checks {
                key: None,
                ..*checks
            }))
        }
        _ => None,
    };
    let inquiry = unhashed.as_ref().unwrap_or(inquiry);
    match print_answer(alloc, inquiry, file, bytes, layout, tally, output) {
        Ok(answer) => Ok(answer),
        Err(inquiry_fault) => Err(failure_of(alloc, file, bytes, inquiry_fault)),
    }
}

fn failure_of_error<'a>(
    alloc: Global,
    file: &'a str,
    bytes: io::Result<Vec<u8>>,
    error: CoreError,
) -> Failure<'a> {
    match bytes {
        Ok(bytes) => Failure::on_file(file, fault_of_record(alloc, bytes.as_slice(), error)),
        Err(error) => Failure::on_file(file, Fault::from(error)),
    }
}

fn failure_of<'a>(
    alloc: Global,
    file: &'a str,
    bytes: &[u8],
    inquiry_fault: InquiryFault,
) -> Failure<'a> {
    let fault = match inquiry_fault {
        InquiryFault::Shard(error) | InquiryFault::Ends(error) => {
            fault_of_record(alloc, bytes, error)
        }
        InquiryFault::Section(section, error) => section_fault(section, error),
        InquiryFault::NoTable(table) => Fault::NoTable(table),
        InquiryFault::Input(error) => Fault::from(error),
        InquiryFault::TooManyRounds => Fault::TooManyRounds,
        InquiryFault::Output(error) => return Failure::on_output(Fault::from(error)),
    };
    Failure::on_file(file, fault)
}
