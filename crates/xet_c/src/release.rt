//! The version of the library.

ghost use Rattle.std.specs.Prelude.{◌≡◌};

/// The version as a number: 10000 times the first of three, 100 times the second, and the third.
#[unsafe(no_mangle)]
pub extern "C" fn xet_version() -> u32
    ensures { result ≡ 200 }
{
    200
}
