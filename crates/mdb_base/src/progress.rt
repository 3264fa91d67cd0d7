//! How far a command has come, on a terminal.

use std::fmt;
use std::rt::Clock;
use std::time::{Duration, Instant};

/// The seconds before the line is shown, and between updates.
const PAUSE: u64 = 1;

/// What a command does.
#[derive(Clone, Copy)]
pub enum Stage {
    /// So many of all shards are read.
    Reading { read: usize, all: usize },
    /// So many of all shards are asked.
    Asking { asked: usize, all: usize },
    /// So many shards are merged.
    Merging(usize),
    /// So many shards are merged in parts, and this share of their bytes is done.
    MergingParts { shards: usize, percent: u64 },
}

impl fmt::Display for Stage {
    fn fmt<W: fmt::Write>(&self, f: &mut fmt::Formatter<W>) -> fmt::Result {
        match self {
            Stage::Reading { read, all } => write!(f, "{read} of {all} shards read"),
            Stage::Asking { asked, all } => write!(f, "{asked} of {all} shards done"),
            Stage::Merging(all) => write!(f, "merging {all} shards"),
            Stage::MergingParts { shards, percent } => {
                write!(f, "merging {shards} shards, {percent} %")
            }
        }
    }
}

/// A line on standard error that says how far a command of over a second has come.
#[derive(Clone, Copy)]
pub struct Progress {
    /// When the line was shown last; `None` if never.
    last: Option<Instant>,
    shown: bool,
}

impl Progress {
    /// The progress of a new command; not shown without a terminal, or if the clock can't be read.
    pub fn new<R: Clock>(rt: &R, terminal: bool) -> Progress {
        let last = if terminal {
            Instant::now(rt).ok()
        } else {
            None
        };
        Progress { last, shown: false }
    }

    /// Shows a stage, if the last one stood for a second.
    pub fn show_after_pause<R: Clock + Eprint>(&mut self, rt: &R, stage: Stage) {
        let Some(last) = self.last else {
            return;
        };
        let Ok(now) = Instant::now(rt) else {
            return;
        };
        if now.saturating_duration_since(last) >= Duration::from_secs(PAUSE) {
            self.last = Some(now);
            self.show(rt, stage);
        }
    }

    /// Shows a stage at once, as it may take long.
    pub fn show<R: Eprint>(&mut self, rt: &R, stage: Stage) {
        if self.last.is_some() {
            let _ = rt.eprint(format_args!("\r\u{1b}[K{stage}"));
            self.shown = true;
        }
    }

    /// Removes the line.
    pub fn clear<R: Eprint>(&mut self, rt: &R) {
        if self.shown {
            let _ = rt.eprint(format_args!("\r\u{1b}[K"));
            self.shown = false;
        }
    }
}
