//! The order in which `info --brief` lists shards.

ghost use Rattle.std.specs.List.Sorted.{IsPermutation};

use crate::inputs::Inputs;
use mdb_base::expiry::expiry_at;
use mdb_base::request::Sort;
use std::alloc::AllocError;
use std::fs;
use std::rt::Files;

/// A shard, sorted by rank, then by path.
#[derive(PartialEq, Eq, PartialOrd, Ord, Drop)]
struct RankedShard {
    rank: u64,
    path: String,
}

/// The inputs in an order, or as they are if there is none.
pub fn inputs_in_order<R: Files + AllocGlobal>(
    rt: &R,
    inputs: Inputs,
    sort: Option<Sort>,
) -> Result<Inputs, AllocError> {
    let Some(sort) = sort else {
        return Ok(inputs);
    };
    let Inputs {
        paths,
        named,
        failed,
        failures,
        reads_input,
    } = inputs;
    let mut ranked = Vec::new(rt.alloc());
    for path in paths {
        let rank = rank_of(rt, path.as_str(), sort);
        ranked.push(RankedShard { rank, path })?;
    }
    in_order(&mut ranked);
    let mut paths = Vec::new(rt.alloc());
    for RankedShard { path, .. } in ranked {
        paths.push(path)?;
    }
    Ok(Inputs {
        paths,
        named,
        failed,
        failures,
        reads_input,
    })
}

// Shards without a size or an expiry come last.
fn rank_of<R: Files + AllocGlobal>(rt: &R, path: &str, sort: Sort) -> u64 {
    match sort {
        Sort::Name => 0,
        Sort::Size => match fs::metadata(rt, path) {
            Ok(there) if there.is_file() => there.len(),
            _ => u64::MAX,
        },
        Sort::Expiry => expiry_at(rt, path).unwrap_or(u64::MAX),
    }
}

fn in_order(ranked: &mut Vec<RankedShard>)
    ensures same { IsPermutation ranked.old.items ranked.new.items }
{
    ranked.sort_unstable();
}
