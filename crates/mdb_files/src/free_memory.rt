//! How much memory this program can get.

use std::fs;
use std::rt::Files;

/// The system's free memory and swap.
const SYSTEM: &str = "/proc/meminfo";

/// This program's limits.
const PROGRAM: &str = "/proc/self/limits";

/// The container's limit of memory.
const CONTAINER: &str = "/sys/fs/cgroup/memory.max";

/// The container's limit of swap beside its memory.
const CONTAINER_SWAP: &str = "/sys/fs/cgroup/memory.swap.max";

/// The most bytes of memory that this program can get, as far as the system says.
pub fn free_memory<R: Files + AllocGlobal>(rt: &R) -> u64 {
    let free = match (
        number_in(rt, SYSTEM, "MemAvailable:"),
        number_in(rt, SYSTEM, "SwapFree:"),
    ) {
        (Some(memory), Some(swap)) => memory.saturating_add(swap).saturating_mul(1024),
        _ => u64::MAX,
    };
    let limit = number_in(rt, PROGRAM, "Max address space").unwrap_or(u64::MAX);
    let memory = number_in(rt, CONTAINER, "").unwrap_or(u64::MAX);
    let swap = number_in(rt, CONTAINER_SWAP, "").unwrap_or(u64::MAX);
    free.min(limit).min(memory.saturating_add(swap))
}

// The number after a name at the start of a line; `None` for another word, as without a limit.
fn number_in<R: Files + AllocGlobal>(rt: &R, path: &str, name: &str) -> Option<u64> {
    let text = fs::read_to_string(rt, path).ok()?;
    for line in text.as_str().lines() {
        if let Some(rest) = line.strip_prefix(name) {
            return rest.split_ascii_whitespace().next()?.parse().ok();
        }
    }
    None
}
