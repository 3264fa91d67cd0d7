//! Expiries of shards.

ghost use Rattle.std.specs.Prelude.{◌≡◌};
ghost use Rattle.mdb_report.specs.ExpiryReport.{expiry_in, has_come};

/// The expiry in a footer, in seconds since 1970; `None` for 0 and `u64::MAX`.
pub fn expiry_of(seconds: u64) -> Option<u64>
    ensures { result ≡ expiry_in seconds }
{
    if seconds == 0 || seconds == u64::MAX {
        None
    } else {
        Some(seconds)
    }
}

/// Whether an expiry has come by `now`, both in seconds since 1970.
pub fn has_come(expiry: Option<u64>, now: u64) -> bool
    ensures { result ≡ has_come expiry now }
{
    match expiry {
        Some(expiry) => expiry <= now,
        None => false,
    }
}
