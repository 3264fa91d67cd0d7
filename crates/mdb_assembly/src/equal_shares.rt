//! Equal shares of a number.

ghost use Rattle.std.specs.Prelude.{◌≡◌, ◌/◌, ◌<◌};

/// The quotient, or `number` if there are no parts.
pub fn share_of(number: u64, parts: u64) -> u64
    ensures none { parts ≡ 0 → result ≡ number }
    ensures some { 0 < parts → result ≡ number / parts }
{
    match number.checked_div(parts) {
        Some(share) => share,
        None => number,
    }
}
