//! Expired shards, and the earliest expiry of several.

ghost use Rattle.std.specs.Prelude.{◌≡◌, map, zip, MatchResult};
ghost use Rattle.xet_core_structures.specs.Layout.{layout};
ghost use Rattle.xet_core_structures.specs.Shard.{Shard};
ghost use Rattle.xet_core_structures.specs.WrittenShard.{IsBytesWithoutExpiry};
ghost use Rattle.mdb_base.specs.Expiries.{shard_expiry, earlier_of, IsEarliest, IsNewExpiry, NoNewExpiry};
ghost use Rattle.mdb_base.specs.Writing.{HasExpiry, RefusesExpiry};

use crate::failure::{Failure, Subject};
use crate::infos::infos_of;
use crate::messages::say;
use crate::progress::Progress;
use crate::request::NewExpiry;
use mdb_files::files::{STANDARD_STREAM, read_ends};
use mdb_records::line::Style;
use mdb_records::moment::Moment;
use mdb_records::shown::ShownText;
use mdb_report::expiry::{expiry_of, has_come};
use serde::Serialize;
use shard_bytes::expiry::with_expiry;
use shard_bytes::load::load_bytes;
use std::alloc::Global;
use std::rt::Files;
use std::{fmt, fs};
use xet_core_structures::error::CoreError;
use xet_core_structures::shard_format::MDBShardInfo;

/// The expiry in a footer.
pub fn shard_expiry(info: &MDBShardInfo) -> Option<u64>
    ensures { result ≡ shard_expiry info.now }
{
    expiry_of(info.metadata.shard_key_expiry)
}

/// The earlier of two expiries; `None` is the latest.
pub fn earlier_of(one: Option<u64>, other: Option<u64>) -> Option<u64>
    ensures { result ≡ earlier_of one other }
{
    match (one, other) {
        (Some(one), Some(other)) => Some(one.min(other)),
        (Some(one), None) => Some(one),
        (None, other) => other,
    }
}

fn earliest_in(infos: &[MDBShardInfo]) -> Option<u64>
    ensures { IsEarliest (map shard_expiry infos.now) result }
{
    let mut found = None;
    for info in infos {
        found = earlier_of(found, shard_expiry(info));
    }
    found
}

/// The expiry of what is made of some inputs. Fails only for the earliest of theirs, if an input
/// has no header and footer or memory is lacking.
pub fn new_expiry<'a>(
    alloc: Global,
    wanted: NewExpiry,
    files: &[&'a str],
    inputs: &[&[u8]],
) -> Result<Option<u64>, Failure<'a>>
    ensures { MatchResult result (IsNewExpiry wanted (zip files.now inputs.now))
        (NoNewExpiry wanted (zip files.now inputs.now)) }
{
    match wanted {
        NewExpiry::Unset => Ok(None),
        NewExpiry::At(time) => Ok(Some(time)),
        NewExpiry::Earliest => {
            let infos = infos_of(alloc, files, inputs)?;
            Ok(earliest_in(infos.as_slice()))
        }
    }
}

/// The bytes of a written shard, with the expiry if any. Fails with `OutOfMemory`, and for other
/// bytes as [`load_bytes`].
pub fn with_expiry_if_any(
    alloc: Global,
    bytes: Vec<u8>,
    expiry: Option<u64>,
) -> Result<Vec<u8>, CoreError>
    ensures any_bytes { MatchResult result (λ out. HasExpiry expiry bytes.items out.items)
        (RefusesExpiry expiry bytes.items) }
    ensures of_shard { (s : Shard) → IsBytesWithoutExpiry s bytes.items
        → MatchResult result (λ out. out.items ≡ layout s expiry)
        (λ e. e ≡ CoreError.OutOfMemory) }
{
    match expiry {
        Some(expiry) => with_expiry(alloc, bytes, expiry),
        None => Ok(bytes),
    }
}

/// The files whose shards have not expired by `now`, in seconds; `verbose` reports the others. What
/// is no regular file or no shard counts as not expired.
pub fn without_expired<'a, R: Files + Eprint + AllocGlobal>(
    rt: &R,
    files: &[&'a str],
    now: u64,
    verbose: bool,
) -> Result<Vec<&'a str>, Failure<'a>> {
    let mut remaining = Vec::new(rt.alloc());
    for file in files {
        if has_come(expiry_at(rt, file), now) {
            if verbose {
                let file = ShownText(file);
                let _ = rt.eprintln(format_args!("{file}: left out, it has expired"));
            }
        } else {
            Subject::of_all(files).in_memory(remaining.push(*file))?;
        }
    }
    Ok(remaining)
}

/// The expiry of the shard in a regular file; none of anything else.
pub fn expiry_at<R: Files + AllocGlobal>(rt: &R, file: &str) -> Option<u64> {
    if file == STANDARD_STREAM || !fs::metadata(rt, file).ok()?.is_file() {
        return None;
    }
    let ends = read_ends(rt, file).ok()?;
    shard_expiry(&load_bytes(rt.alloc(), ends.as_slice()).ok()?)
}

#[derive(Drop, Serialize)]
struct ExpiredShard<'a> {
    shard: &'a str,
    expired: Moment,
}

impl fmt::Display for ExpiredShard<'_> {
    fn fmt<W: fmt::Write>(&self, f: &mut fmt::Formatter<W>) -> fmt::Result {
        let shard = ShownText(self.shard);
        let moment = &self.expired;
        write!(f, "{shard}: it has expired, at {moment}")
    }
}

/// Reports that a file's shard has expired, if that is known.
pub fn report_expired<R: Eprint + AllocGlobal>(
    rt: &R,
    style: Style,
    file: &str,
    info: &MDBShardInfo,
    now: Option<u64>,
    progress: &mut Progress,
) {
    let (Some(now), Some(expiry)) = (now, shard_expiry(info)) else {
        return;
    };
    if !has_come(Some(expiry), now) {
        return;
    }
    if let Ok(expired) = Moment::of_seconds(rt.alloc(), expiry) {
        progress.clear(rt);
        say(
            rt,
            style,
            &ExpiredShard {
                shard: file,
                expired,
            },
        );
    }
}

/// As [`report_expired`], of the shard in these bytes, if any.
pub fn report_expired_in<R: Eprint + AllocGlobal>(
    rt: &R,
    style: Style,
    file: &str,
    bytes: &[u8],
    now: Option<u64>,
    progress: &mut Progress,
) {
    if let Ok(info) = load_bytes(rt.alloc(), bytes) {
        report_expired(rt, style, file, &info, now, progress);
    }
}
