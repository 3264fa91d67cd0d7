//! Why a line has no result.

use script_lines::refusal::Refusal;
use script_lines::words::ParseError;
use std::alloc::{AllocError, AllocFailed};
use std::{fmt, io};
use xet_core_structures::error::CoreError;

/// Why a line has no result.
#[derive(Drop)]
pub enum Stop {
    /// The call failed, or an allocation of the probe did.
    Refused(CoreError),
    /// The line is not a command, or a name in it does not exist.
    Unreadable,
}

impl From<CoreError> for Stop {
    fn from(error: CoreError) -> Stop {
        Stop::Refused(error)
    }
}

// The probe writes to memory only, so that these errors are those of the calls that it makes.
impl From<io::Error> for Stop {
    fn from(error: io::Error) -> Stop {
        Stop::Refused(CoreError::from(error))
    }
}

impl From<AllocError> for Stop {
    fn from(error: AllocError) -> Stop {
        Stop::Refused(CoreError::from(error))
    }
}

impl<T: Drop> From<AllocFailed<T>> for Stop {
    fn from(_error: AllocFailed<T>) -> Stop {
        Stop::Refused(CoreError::OutOfMemory)
    }
}

impl From<ParseError> for Stop {
    fn from(error: ParseError) -> Stop {
        match error {
            ParseError::Unreadable => Stop::Unreadable,
            ParseError::OutOfMemory => Stop::Refused(CoreError::OutOfMemory),
        }
    }
}

// The name of the error's variant, and the kind of a device's error, or the text, if there is one.
impl fmt::Display for Stop {
    fn fmt<W: fmt::Write>(&self, f: &mut fmt::Formatter<W>) -> fmt::Result {
        let Stop::Refused(error) = self else {
            return write!(f, "unreadable");
        };
        let refusal = Refusal(error);
        write!(f, "refused: {refusal}")?;
        match error {
            CoreError::Io(error) => {
                let kind = error.kind();
                write!(f, " {kind:?}")
            }
            CoreError::InternalError(text)
            | CoreError::Other(text)
            | CoreError::ShardVersion(text)
            | CoreError::InvalidShard(text)
                if !text.is_empty() => { write!(f, ": {text}") }
            _ => Ok(()),
        }
    }
}
