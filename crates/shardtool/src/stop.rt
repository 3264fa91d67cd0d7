//! Why a script stops before its end.

use script_lines::words::ParseError;
use std::alloc::{AllocError, AllocFailed};
use std::io;
use xet_core_structures::error::CoreError;

/// Why a script stops before its end.
#[derive(Drop)]
pub enum Stop {
    /// A command was refused, or an allocation anywhere in the program failed.
    Refused(CoreError),
    /// The line is not a command, or a name in it does not exist.
    Unreadable,
    /// Input or output failed.
    Failed,
}

impl From<CoreError> for Stop {
    ghost use Rattle.std.specs.Prelude.{◌≡◌};
    ghost use Rattle.shardtool.specs.declared.stop.Stop.TheVariants.{Refused};

    ghost from_gives = { λ error stop. stop ≡ Refused error };

    fn from(error: CoreError) -> Stop {
        Stop::Refused(error)
    }
}

impl From<AllocError> for Stop {
    ghost use Rattle.std.specs.Prelude.{◌≡◌};
    ghost use Rattle.shardtool.specs.declared.stop.Stop.TheVariants.{Refused};
    ghost use Rattle.xet_core_structures.specs.declared.error.CoreError.TheVariants.{OutOfMemory};

    ghost from_gives = { λ _ stop. stop ≡ Refused OutOfMemory };

    fn from(_error: AllocError) -> Stop {
        Stop::Refused(CoreError::OutOfMemory)
    }
}

impl<T: Drop> From<AllocFailed<T>> for Stop {
    ghost use Rattle.std.specs.Prelude.{◌≡◌};
    ghost use Rattle.shardtool.specs.declared.stop.Stop.TheVariants.{Refused};
    ghost use Rattle.xet_core_structures.specs.declared.error.CoreError.TheVariants.{OutOfMemory};

    ghost from_gives = { λ _ stop. stop ≡ Refused OutOfMemory };

    fn from(_error: AllocFailed<T>) -> Stop {
        Stop::Refused(CoreError::OutOfMemory)
    }
}

impl From<ParseError> for Stop {
    ghost use Rattle.shardtool.specs.ScriptEnds.{StopsAtLine};

    ghost from_gives = { StopsAtLine };

    fn from(error: ParseError) -> Stop {
        match error {
            ParseError::Unreadable => Stop::Unreadable,
            ParseError::OutOfMemory => Stop::Refused(CoreError::OutOfMemory),
        }
    }
}

// For the input and the output of the script. Their out-of-memory errors count as failed
// allocations.
impl From<io::Error> for Stop {
    ghost use Rattle.shardtool.specs.ScriptEnds.{StopsAtFault};

    ghost from_gives = { StopsAtFault };

    fn from(error: io::Error) -> Stop {
        if error.kind() == io::ErrorKind::OutOfMemory {
            Stop::Refused(CoreError::OutOfMemory)
        } else {
            Stop::Failed
        }
    }
}
