//! Exit statuses.

ghost use Rattle.std.specs.Prelude.{◌≡◌};
ghost use Rattle.mdb_base.specs.Status.{number_of, after_finding, after_leaving_out};

use crate::failure::Failure;
use crate::messages::say;
use mdb_records::line::Style;

/// The exit status of a run.
#[derive(Clone, Copy)]
pub enum Status {
    /// All was done, and a check found nothing.
    Done,
    /// A file or an output failed.
    Failed,
    /// Lookups found nothing, and nothing failed.
    Nothing,
    /// The words are no command.
    Misused,
    /// A check found something, or shards that have to agree do not.
    Found,
    /// A merge left out what can't be read, and did all else.
    Partial,
}

impl Status {
    /// The status after a check also found something.
    pub fn and_found(self) -> Status
        ensures { result ≡ after_finding self }
    {
        match self {
            Status::Done => Status::Found,
            status => status,
        }
    }

    /// The status after files were also left out.
    pub fn and_left_out(self) -> Status
        ensures { result ≡ after_leaving_out self }
    {
        match self {
            Status::Done => Status::Partial,
            status => status,
        }
    }

    /// The exit status as a number.
    pub fn number(self) -> u8
        ensures { result ≡ number_of self }
    {
        match self {
            Status::Done => 0,
            Status::Failed | Status::Nothing => 1,
            Status::Misused => 2,
            Status::Found => 3,
            Status::Partial => 4,
        }
    }
}

/// Reports a failure on standard error.
pub fn report_failure<R: Eprint + AllocGlobal>(
    rt: &R,
    style: Style,
    failure: &Failure<'_>,
) -> Status
    ensures { result ≡ Status.Failed }
{
    say(rt, style, failure);
    Status::Failed
}
