//! Shards by their sizes, in classes from each power of two to the next.

use crate::counts::{Counts, add_count};
use mdb_report::brief::Brief;
use std::alloc::{AllocError, Global};
use std::collections::BTreeMap;

/// Units, each 1024 of the one before.
const UNITS: &[&str] = &["B", "KiB", "MiB", "GiB", "TiB", "PiB", "EiB"];

/// The shards of each class and their bytes together, which saturate.
#[derive(Drop)]
pub(crate) struct SizeClasses {
    pub(crate) shards: Counts,
    pub(crate) bytes: Counts,
}

/// The sizes of some shards.
pub(crate) fn sizes_of(alloc: Global, shards: &[Brief<'_>]) -> Result<SizeClasses, AllocError> {
    let mut sizes = SizeClasses {
        shards: BTreeMap::new(alloc),
        bytes: BTreeMap::new(alloc),
    };
    for shard in shards {
        let class = class_of(shard.bytes);
        add_count(&mut sizes.shards, class, 1)?;
        add_count(&mut sizes.bytes, class, shard.bytes)?;
    }
    Ok(sizes)
}

/// The class of a size in bytes: the number of its binary digits, and 0 for 0.
pub(crate) fn class_of(bytes: u64) -> u64 {
    u64::from(u64::BITS.saturating_sub(bytes.leading_zeros()))
}

/// The least and the greatest class; `None` without shards.
pub(crate) fn classes_in(shards: &[Brief<'_>]) -> Option<(u64, u64)> {
    let mut range: Option<(u64, u64)> = None;
    for shard in shards {
        let class = class_of(shard.bytes);
        range = match range {
            Some((least, greatest)) => Some((least.min(class), greatest.max(class))),
            None => Some((class, class)),
        };
    }
    range
}

/// The sizes of a class, as `64 KiB to 128 KiB`.
pub(crate) fn label_of(alloc: Global, class: u64) -> Result<String, AllocError> {
    match class.checked_sub(1) {
        Some(below) => {
            let (number, unit) = power_of_two(below);
            let (next, next_unit) = power_of_two(class);
            format!(in alloc; "{number} {unit} to {next} {next_unit}")
        }
        None => String::from_str(alloc, "0 B"),
    }
}

// 2 to the n as a number of a unit.
fn power_of_two(n: u64) -> (u64, &'static str) {
    let unit = UNITS.get((n / 10) as usize).copied().unwrap_or("");
    (1 << (n % 10), unit)
}
