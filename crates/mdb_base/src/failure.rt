//! Why a command failed, and on what.

ghost use Rattle.std.specs.Prelude.{◌≡◌};

use mdb_files::files::STANDARD_STREAM;
use mdb_records::shown::ShownText;
use mdb_report::fault::Fault;
use serde::{Described, Serialize, Serializer};
use std::fmt;
use std::io::ErrorKind;

/// What a failure is about.
#[derive(Clone, Copy)]
pub enum Subject<'a> {
    File(&'a str),
    Pair(&'a str, &'a str),
    /// The first of so many files.
    Files(&'a str, usize),
    StandardOutput,
    CommandLine,
}

impl<'a> Subject<'a> {
    /// All of some files; standard output if none.
    pub fn of_all(files: &[&'a str]) -> Subject<'a> {
        match files {
            [only] => Subject::File(only),
            [first, second] => Subject::Pair(first, second),
            [first, ..] => Subject::Files(first, files.len()),
            [] => Subject::StandardOutput,
        }
    }

    /// A path written to; standard output for `-`.
    pub fn of_target(path: &'a str) -> Subject<'a> {
        if path == STANDARD_STREAM {
            Subject::StandardOutput
        } else {
            Subject::File(path)
        }
    }

    /// What was made; any error is `OutOfMemory` on the subject.
    pub fn in_memory<T, E: Drop>(self, made: Result<T, E>) -> Result<T, Failure<'a>> {
        match made {
            Ok(made) => Ok(made),
            Err(_) => Err(Failure {
                subject: self,
                fault: Fault::OutOfMemory,
            }),
        }
    }
}

/// A failure, printed as its subject and what is wrong.
#[derive(Drop)]
pub struct Failure<'a> {
    pub subject: Subject<'a>,
    pub fault: Fault,
}

impl<'a> Failure<'a> {
    /// A failure on a file.
    pub fn on_file(file: &'a str, fault: Fault) -> Failure<'a>
        ensures subject { result.subject ≡ Subject.File file.entry }
        ensures fault { result.fault ≡ fault }
    {
        Failure {
            subject: Subject::File(file),
            fault,
        }
    }

    /// Whether shards that must be well-formed and agree are not, or do not.
    pub fn is_disagreement(&self) -> bool {
        matches!(self.fault, Fault::Disagree(..) | Fault::Malformed(_))
    }

    /// Whether it is on standard output.
    pub fn is_on_output(&self) -> bool {
        matches!(self.subject, Subject::StandardOutput)
    }

    /// Whether nobody reads standard output any more.
    pub fn is_closed_pipe(&self) -> bool {
        match &self.fault {
            Fault::Device(error) => self.is_on_output() && error.kind() == ErrorKind::BrokenPipe,
            _ => false,
        }
    }

    /// A failure on the command line.
    pub fn on_words(fault: Fault) -> Failure<'a> {
        Failure {
            subject: Subject::CommandLine,
            fault,
        }
    }

    /// A failure on a path written to, or on standard output for `-`.
    pub fn on_target(path: &'a str, fault: Fault) -> Failure<'a>
        ensures { result.fault ≡ fault }
    {
        Failure {
            subject: Subject::of_target(path),
            fault,
        }
    }

    /// A failure on standard output.
    pub fn on_output(fault: Fault) -> Failure<'a>
        ensures subject { result.subject ≡ Subject.StandardOutput }
        ensures fault { result.fault ≡ fault }
    {
        Failure {
            subject: Subject::StandardOutput,
            fault,
        }
    }
}

impl fmt::Display for Subject<'_> {
    fn fmt<W: fmt::Write>(&self, f: &mut fmt::Formatter<W>) -> fmt::Result {
        match self {
            Subject::File(file) => write!(f, "{}", ShownText(file)),
            Subject::Pair(first, second) => write!(
                f,
                "{} and {}",
                ShownText(first),
                ShownText(second)
            ),
            Subject::Files(first, count) => write!(
                f,
                "{count} files, {} the first",
                ShownText(first)
            ),
            Subject::StandardOutput => write!(f, "standard output"),
            Subject::CommandLine => write!(f, "the command line"),
        }
    }
}

impl Described for Failure<'_> {}

impl Serialize for Failure<'_> {
    fn serialize<S: Serializer>(&self, out: &mut S) -> Result<(), S::Error> {
        let shard = match self.subject {
            Subject::File(file) => Some(file),
            _ => None,
        };
        let problem = Problem(self);
        FailureLine { shard, problem }.serialize(out)
    }
}

// The problem of a failure on a file does not name the file again.
#[derive(Clone, Copy, Serialize)]
struct FailureLine<'f, 'a> {
    shard: Option<&'a str>,
    problem: Problem<'f, 'a>,
}

#[derive(Clone, Copy)]
struct Problem<'f, 'a>(&'f Failure<'a>);

impl Described for Problem<'_, '_> {}

impl Serialize for Problem<'_, '_> {
    fn serialize<S: Serializer>(&self, out: &mut S) -> Result<(), S::Error> {
        out.collect_str(self)
    }
}

impl fmt::Display for Problem<'_, '_> {
    fn fmt<W: fmt::Write>(&self, f: &mut fmt::Formatter<W>) -> fmt::Result {
        let Problem(failure) = *self;
        match failure.subject {
            Subject::File(_) => write!(f, "{}", failure.fault),
            _ => write!(f, "{failure}"),
        }
    }
}

impl fmt::Display for Failure<'_> {
    fn fmt<W: fmt::Write>(&self, f: &mut fmt::Formatter<W>) -> fmt::Result {
        let subject = self.subject;
        let fault = &self.fault;
        write!(f, "{subject}: {fault}")
    }
}
