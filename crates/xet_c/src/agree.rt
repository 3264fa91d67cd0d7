//! Whether shards are well-formed and agree.

ghost use Rattle.std.specs.Prelude.{◌≡◌, ◌⊎◌, ⊤, false, List, Option, All, map, IfOk, IfErr, MatchOption, MatchResult};
ghost use Rattle.xet_core_structures.specs.declared.error.CoreError.{CoreError};
ghost use Rattle.xet_core_structures.specs.Errors.{variant_number};
ghost use Rattle.placed_shards.specs.declared.findings.MalformedRecord.{MalformedRecord};
ghost use Rattle.placed_shards.specs.Content.{Content};
ghost use Rattle.placed_shards.specs.Findings.{AreOpened, FirstRefusal, HasFormedRecords, IsFirstMalformed};
ghost use Rattle.placed_shards.specs.Selections.{all_records};
ghost use Rattle.xet_c.specs.Agreeing.{c_record, c_disagreement, c_malformed, AreAllDisagreements, ShowsFirst, ShowsMalformed};
ghost use Rattle.xet_c.specs.Output.{Outcome};

use crate::output::{deliver, error_number};
use placed_shards::findings::{
    Disagreement, MalformedRecord, RecordHash, find_disagreements, find_malformed,
};
use placed_shards::selection::Selection;
use std::alloc::Global;
use xet_core_structures::error::{CoreError, Result};

/// A hash under which two shards have files or xorbs that do not agree, and the numbers of two such
/// shards.
#[repr(C)]
#[derive(Clone, Copy, Drop)]
pub struct XetDisagreement {
    pub hash: [u64; 4],
    pub is_xorb: bool,
    pub first: usize,
    pub second: usize,
}

/// Puts all hashes under which two shards have records that do not agree to the front of `out`:
/// first of files, then of xorbs, each in ascending order.
#[unsafe(no_mangle)]
pub extern "C" fn xet_find_disagreements(
    alloc: Global,
    shards: &[&[u8]],
    out: &mut [XetDisagreement],
    written: &mut usize,
) -> u32
    ensures { Outcome (AreAllDisagreements (map (λ x. x.now) shards.now))
        (FirstRefusal all_records (λ c. ⊤) (map (λ x. x.now) shards.now)) out.old out.new
        written.new result }
{
    let found = shown_disagreements(alloc, shards);
    deliver(found, out, written)
}

fn shown_disagreements(alloc: Global, shards: &[&[u8]]) -> Result<Vec<XetDisagreement>>
    ensures { MatchResult result
        (λ shown. AreAllDisagreements (map (λ x. x.now) shards.now) shown.items)
        (FirstRefusal all_records (λ c. ⊤) (map (λ x. x.now) shards.now)) }
{
    let all = find_disagreements(alloc, shards, &Selection::ALL)?;
    shown_all(alloc, all.as_slice())
}

fn shown_all(alloc: Global, all: &[Disagreement]) -> Result<Vec<XetDisagreement>>
    ensures ok { IfOk result (λ shown. shown.items ≡ map c_disagreement all.now) }
    ensures causes { IfErr result (λ e. e ≡ CoreError.OutOfMemory) }
{
    let mut shown = Vec::with_capacity(alloc, all.len())?;
    for disagreement in all {
        shown.push(disagreement_of(disagreement))?;
    }
    Ok(shown)
}

/// Looks for the first byte string with a record that no shard may have. `found` is the record's
/// hash and, twice, the byte string's number. If there is none, or after an error, `malformed` is
/// false and `found` stays.
#[unsafe(no_mangle)]
pub extern "C" fn xet_find_malformed(
    alloc: Global,
    shards: &[&[u8]],
    malformed: &mut bool,
    found: &mut XetDisagreement,
) -> u32
    ensures { ((one : Option MalformedRecord)
        × MatchOption one
        ((cs : List Content) × AreOpened all_records (map (λ x. x.now) shards.now) cs
        × All HasFormedRecords cs)
        (IsFirstMalformed all_records (map (λ x. x.now) shards.now))
        × ShowsMalformed one found.old found.new malformed.new × (result ≡ 0))
        ⊎ ((e : CoreError)
        × FirstRefusal all_records HasFormedRecords (map (λ x. x.now) shards.now) e
        × (found.new ≡ found.old) × (malformed.new ≡ false) × (result ≡ variant_number e)) }
{
    *malformed = false;
    match find_malformed(alloc, shards, &Selection::ALL) {
        Ok(one) => {
            show_malformed(&one, malformed, found);
            0
        }
        Err(error) => error_number(&error),
    }
}

/// Shows the first disagreement, and how many there are.
pub fn show_first(all: &[Disagreement], differing: &mut usize, found: &mut XetDisagreement)
    ensures { ShowsFirst all.now found.old found.new differing.new }
{
    *differing = all.len();
    if let Some(first) = all.first() {
        *found = disagreement_of(first);
    }
}

fn show_malformed(one: &Option<MalformedRecord>, malformed: &mut bool, found: &mut XetDisagreement)
    requires { malformed.old ≡ false }
    ensures { ShowsMalformed one.now found.old found.new malformed.new }
{
    if let Some(record) = one {
        *malformed = true;
        *found = malformed_of(record);
    }
}

fn disagreement_of(disagreement: &Disagreement) -> XetDisagreement
    ensures { result ≡ c_disagreement disagreement.now }
{
    to_c_disagreement(
        disagreement.record_hash,
        disagreement.first,
        disagreement.second,
    )
}

pub fn malformed_of(malformed: &MalformedRecord) -> XetDisagreement
    ensures { result ≡ c_malformed malformed.now }
{
    to_c_disagreement(malformed.record_hash, malformed.input, malformed.input)
}

fn to_c_disagreement(record_hash: RecordHash, first: usize, second: usize) -> XetDisagreement
    ensures { result ≡ c_record record_hash first second }
{
    let (hash, is_xorb) = match record_hash {
        RecordHash::File(hash) => (hash, false),
        RecordHash::Xorb(hash) => (hash, true),
    };
    XetDisagreement {
        hash: [hash.word0, hash.word1, hash.word2, hash.word3],
        is_xorb,
        first,
        second,
    }
}
