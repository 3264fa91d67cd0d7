//! The rows that a search has still to look at, and which of them it probes next.

ghost use Rattle.std.specs.Prelude.{◌≡◌, ◌+◌, ◌^◌, ◌<◌};
ghost use Rattle.xet_base.specs.Steps.Probes.{guess_of, IsBetweenKeys, AroundKey, AfterBelow, AfterAbove, IsWhole, Narrows, KeepsEven};

/// The rows after `low` and before `high`, counted from 1, with the keys at both ends. Row 0,
/// before the table, has the key 0, and the row after the table the key `u64::MAX`. Row `probe` is
/// looked at next.
#[derive(Clone, Copy)]
pub struct Window {
    pub low: u64,
    pub low_key: u64,
    pub high: u64,
    pub high_key: u64,
    pub probe: u64,
}

impl Window {
    /// All rows of a table.
    pub fn new(rows: u64, key: u64) -> Window
        requires { rows + 1 < 2 ^ 64 }
        ensures { IsWhole rows key result }
    {
        let high = rows + 1;
        Window {
            low: 0,
            low_key: 0,
            high,
            high_key: u64::MAX,
            probe: guess(0, 0, high, u64::MAX, key),
        }
    }

    /// The rows that are left once the probed row was found to have the key `found`. Where that is
    /// the key that is looked for, the key at the upper end stays, so that the keys at the ends
    /// always differ.
    pub fn after(self, found: u64, key: u64) -> Window
        requires around { AroundKey self key }
        requires above_low { self.low < self.probe }
        requires below_high { self.probe < self.high }
        ensures narrows { Narrows self key found result }
        ensures even { KeepsEven self key found result }
    {
        self.narrow(found, key)
    }

    // The rows that are left, and the next probe: a guess, or a step from the probed row.
    fn narrow(self, found: u64, key: u64) -> Window
        requires around { AroundKey self key }
        requires above_low { self.low < self.probe }
        requires below_high { self.probe < self.high }
        ensures { Narrows self key found result }
    {
        if key < found {
            let next = probe_below(self.low, self.low_key, self.probe, found, key);
            Window {
                high: self.probe,
                high_key: found,
                probe: next,
                ..self
            }
        } else if found < key {
            let next = probe_above(self.probe, found, self.high, self.high_key, key);
            Window {
                low: self.probe,
                low_key: found,
                probe: next,
                ..self
            }
        } else {
            let next = self.probe - (self.probe - (self.low + 1)).min(4);
            Window {
                high: self.probe,
                probe: next,
                ..self
            }
        }
    }
}

// Where the key is, if keys rise evenly from `low` to `high`; never one of these two.
#[tactic(auto, unfolding(crate::specs::Steps::Probes::guess_of))]
fn guess(low: u64, low_key: u64, high: u64, high_key: u64, key: u64) -> u64
    requires { IsBetweenKeys low low_key high high_key key }
    ensures { result ≡ guess_of low low_key high high_key key }
{
    let rows = (key - low_key) as u128 * (high - low) as u128 / (high_key - low_key) as u128;
    (low + rows as u64).max(low + 1).min(high - 1)
}

// The row to probe after row `probe` had a greater key: the guess, or 256 rows further down if that
// is nearer.
#[tactic(auto, unfolding(crate::specs::Steps::Probes::guess_of))]
fn probe_below(low: u64, low_key: u64, probe: u64, found: u64, key: u64) -> u64
    requires { IsBetweenKeys low low_key probe found key }
    ensures { AfterBelow low probe (guess_of low low_key probe found key) result }
{
    let next = guess(low, low_key, probe, found, key);
    if probe - next < 256 {
        return probe - (probe - (low + 1)).min(256);
    }
    next
}

// The row to probe after row `probe` had a smaller key: the guess, or 256 rows further up if that
// is nearer.
#[tactic(auto, unfolding(crate::specs::Steps::Probes::guess_of))]
fn probe_above(probe: u64, found: u64, high: u64, high_key: u64, key: u64) -> u64
    requires { IsBetweenKeys probe found high high_key key }
    ensures { AfterAbove high probe (guess_of probe found high high_key key) result }
{
    let next = guess(probe, found, high, high_key, key);
    if next - probe <= 256 {
        return probe + (high - 1 - probe).min(256);
    }
    next
}
