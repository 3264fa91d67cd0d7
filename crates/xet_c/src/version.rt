//! Versions of the format.

ghost use Rattle.std.specs.Prelude.{◌≡◌, MatchResult};
ghost use Rattle.xet_core_structures.specs.Version.{IsVersion, number_of};

use xet_core_structures::error::{CoreError, Result};
use xet_core_structures::record_reader::FormatVersion;

/// The version with this number, or `InvalidArguments`.
pub fn version_of(number: u64) -> Result<FormatVersion>
    ensures { MatchResult result (λ version. number ≡ number_of version)
        (λ e. (e ≡ CoreError.InvalidArguments) × (¬ IsVersion number)) }
{
    match FormatVersion::of_number(number) {
        Some(version) => Ok(version),
        None => Err(CoreError::InvalidArguments),
    }
}
