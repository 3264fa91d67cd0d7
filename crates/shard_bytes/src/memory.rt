//! Errors of calls on memory.

ghost use Rattle.std.specs.Prelude.{◌≡◌, ◌⊎◌};
ghost use Rattle.xet_core_structures.specs.Errors.{IsWriteError};

use std::io::ErrorKind;
use xet_core_structures::error::CoreError;

/// An `Io` that is not the end of the input is a failed allocation, as no device is involved.
pub fn in_memory(error: CoreError) -> CoreError
    ensures { ((result ≡ CoreError.OutOfMemory) × IsWriteError error)
        ⊎ ((result ≡ error) × (¬ IsWriteError error)) }
{
    match error {
        CoreError::Io(error) => {
            if error.kind() == ErrorKind::UnexpectedEof {
                CoreError::Io(error)
            } else {
                CoreError::OutOfMemory
            }
        }
        error => error,
    }
}
