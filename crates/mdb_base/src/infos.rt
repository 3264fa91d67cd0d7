//! Headers, footers and keys of inputs.

ghost use Rattle.std.specs.Prelude.{◌≡◌, map, zip, IfOk, MatchResult};
ghost use Rattle.std.specs.List.{AllZip};
ghost use Rattle.xet_core_structures.specs.Ends.{HasHeaderAndFooter};
ghost use Rattle.mdb_base.specs.Keys.{NoInfos};

use crate::failure::Failure;
use mdb_report::fault::{Fault, fault_of};
use shard_bytes::load::load_bytes;
use std::alloc::{AllocError, Global};
use xet_core_structures::merklehash::HMACKey;
use xet_core_structures::shard_format::MDBShardInfo;

/// Each input's header and footer. A failure is on the first input without.
pub fn infos_of<'a>(
    alloc: Global,
    files: &[&'a str],
    inputs: &[&[u8]],
) -> Result<Vec<MDBShardInfo>, Failure<'a>>
    ensures { MatchResult result
        (λ infos. AllZip (λ p info. HasHeaderAndFooter p.1.now info) (zip files.now inputs.now)
        infos.items)
        (NoInfos (zip files.now inputs.now)) }
{
    let mut infos = Vec::new(alloc);
    for (file, bytes) in files.iter().zip(inputs) {
        let info = match load_bytes(alloc, bytes) {
            Ok(info) => info,
            Err(error) => return Err(Failure::on_file(file, fault_of(alloc, bytes, error))),
        };
        if infos.push(info).is_err() {
            return Err(Failure::on_file(file, Fault::OutOfMemory));
        }
    }
    Ok(infos)
}

/// The key in each footer.
pub fn keys_in(alloc: Global, infos: &[MDBShardInfo]) -> Result<Vec<HMACKey>, AllocError>
    ensures { IfOk result
        (λ keys. keys.items ≡ map (λ i. i.metadata.chunk_hash_hmac_key) infos.now) }
{
    infos
        .iter()
        .map(|info| info.metadata.chunk_hash_hmac_key)
        .collect(alloc)
}
