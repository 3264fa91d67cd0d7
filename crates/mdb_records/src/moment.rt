//! Timestamps as dates.

ghost use Rattle.std.specs.Prelude.{◌≡◌, ◌<◌, ◌^◌, Some, IfOk, IfSome, IsNone, pos, ◌*ℤ◌};
ghost use Rattle.std.specs.Str.Parse.{IsNumeral, digits_value, without_leading_plus};

use jiff::Timestamp;
use serde::{Described, Serialize, Serializer};
use std::alloc::{AllocError, Global};
use std::fmt;
use std::rt::Clock;

/// A footer's timestamp: seconds since 1970, and their date in UTC.
///
/// 0 and the greatest number stand for none, have no date and are `null` in JSON. Seconds past the
/// year 9999 have no date.
#[derive(Drop)]
pub struct Moment {
    pub seconds: u64,
    pub utc: Option<String>,
}

impl Moment {
    /// The moment so many seconds after the start of 1970.
    pub fn of_seconds(alloc: Global, seconds: u64) -> Result<Moment, AllocError>
        ensures seconds { IfOk result (λ moment. moment.seconds ≡ seconds) }
        ensures none { seconds ≡ 0 → IfOk result (λ moment. IsNone moment.utc) }
    {
        let utc = match instant_of(seconds) {
            Some(instant) => Some(instant.to_string(alloc)?),
            None => last_hours(alloc, seconds)?,
        };
        Ok(Moment { seconds, utc })
    }
}

/// The first second of 9999-12-31, and the first of the day after it.
const LAST_DAY: u64 = 253402214400;

const AFTER_LAST_DAY: u64 = 253402300800;

/// The first second that is no `Timestamp`, which ends before the year 10000 begins anywhere on
/// Earth.
const LAST_HOURS: u64 = LAST_DAY - 7199;

// The date of one of the last 26 hours of 9999, else none.
fn last_hours(alloc: Global, seconds: u64) -> Result<Option<String>, AllocError>
    ensures { seconds ≡ 0 → IfOk result IsNone }
{
    if seconds < LAST_HOURS || seconds >= AFTER_LAST_DAY {
        return Ok(None);
    }
    let day = if seconds < LAST_DAY { 30 } else { 31 };
    let hour = seconds / 3600 % 24;
    let minute = seconds / 60 % 60;
    let second = seconds % 60;
    Ok(Some(format!(in alloc; "9999-12-{day}T{hour:02}:{minute:02}:{second:02}Z")?))
}

// `None` for 0, or if the calendar lacks it.
fn instant_of(seconds: u64) -> Option<Timestamp>
    ensures value { IfSome result (λ t. t.nanosecond ≡ pos seconds *ℤ pos 1_000_000_000) }
    ensures none { seconds ≡ 0 → IsNone result }
{
    if seconds == 0 {
        return None;
    }
    let seconds = i64::try_from(seconds).ok()?;
    Timestamp::from_second(seconds).ok()
}

/// The clock's seconds since 1970, if it can be read.
pub fn seconds_now<R: Clock>(rt: &R) -> Option<u64> {
    let now = Timestamp::now(rt).ok()?;
    u64::try_from(now.as_second()).ok()
}

/// Parses seconds since 1970, with an optional plus, or a date and time of RFC 3339, without its
/// fraction of a second. `None` if the text is neither, or is before 1970.
pub fn seconds_of(text: &str) -> Option<u64>
    ensures { IsNumeral 10 (without_leading_plus text.now)
        → digits_value 10 (without_leading_plus text.now) < 2 ^ 64
        → result ≡ Some (digits_value 10 (without_leading_plus text.now)) }
{
    match text.parse::<u64>() {
        Ok(seconds) => Some(seconds),
        Err(_) => {
            let instant = text.parse::<Timestamp>().ok()?;
            u64::try_from(instant.as_second()).ok()
        }
    }
}

impl Described for Moment {}

impl Serialize for Moment {
    fn serialize<S: Serializer>(&self, out: &mut S) -> Result<(), S::Error> {
        if self.seconds == 0 || self.seconds == u64::MAX {
            return None::<Date<'_>>.serialize(out);
        }
        let date = Date {
            seconds: self.seconds,
            utc: self.utc.as_ref().map(|utc| utc.as_str()),
        };
        date.serialize(out)
    }
}

#[derive(Clone, Copy, Serialize)]
struct Date<'a> {
    seconds: u64,
    utc: Option<&'a str>,
}

impl fmt::Display for Moment {
    fn fmt<W: fmt::Write>(&self, f: &mut fmt::Formatter<W>) -> fmt::Result {
        let seconds = self.seconds;
        match &self.utc {
            Some(utc) => write!(f, "{utc} ({seconds})"),
            None if seconds == 0 => f.write_str("not set"),
            None if seconds == u64::MAX => f.write_str("none"),
            None => write!(f, "after the year 9999 ({seconds})"),
        }
    }
}
