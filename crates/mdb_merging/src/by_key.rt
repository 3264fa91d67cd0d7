//! Grouping shards by their keys.

ghost use Rattle.std.specs.Prelude.{◌≡◌, IfOk};
ghost use Rattle.mdb_base.specs.Keys.{distinct_keys, values_under};

use std::alloc::{AllocError, Global};
use xet_core_structures::merklehash::HMACKey;

/// The distinct keys, in the order of their first occurrences.
pub fn distinct_keys(alloc: Global, keys: &[HMACKey]) -> Result<Vec<HMACKey>, AllocError>
    ensures { IfOk result (λ found. found.items ≡ distinct_keys keys.now) }
{
    let mut found: Vec<HMACKey> = Vec::new(alloc);
    for key in keys {
        if !found.as_slice().contains(key) {
            found.push(*key)?;
        }
    }
    Ok(found)
}

/// The values of the shards under `key`; `keys` are those of all.
pub fn values_under<T: Copy>(
    alloc: Global,
    values: &[T],
    keys: &[HMACKey],
    key: &HMACKey,
) -> Result<Vec<T>, AllocError>
    ensures { IfOk result (λ found. found.items ≡ values_under key.now values.now keys.now) }
{
    let mut found = Vec::new(alloc);
    for (value, its) in values.iter().zip(keys) {
        if its == key {
            found.push(*value)?;
        }
    }
    Ok(found)
}

/// The path in a folder of the merge under a key.
pub fn path_under(alloc: Global, folder: &str, key: &HMACKey) -> Result<String, AllocError> {
    format!(in alloc; "{folder}/{key}.mdb")
}
