//! The version of a concatenation.

ghost use Rattle.std.specs.Prelude.{◌≡◌};
ghost use Rattle.shard_concatenation.specs.Concatenation.{later};

use xet_records::record_reader::FormatVersion;

/// The later of two versions.
pub fn later_of(first: FormatVersion, second: FormatVersion) -> FormatVersion
    ensures { result ≡ later first second }
{
    match first {
        FormatVersion::V2 => second,
        FormatVersion::V3 => FormatVersion::V3,
    }
}
