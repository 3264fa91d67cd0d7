//! Unions and differences of two lists of records whose hashes strictly ascend.

ghost use Rattle.std.specs.Prelude.{◌≡◌, ◌⊎◌, ◌+◌, ◌≤◌, ◌<◌, ℕ, List, map, Option, None, Some, MatchOption, MatchResult};
ghost use Rattle.xet_base.specs.declared.error.CoreError.TheVariants.{OutOfMemory};
ghost use Rattle.xet_base.specs.Errors.{IsInvalidShard};
ghost use Rattle.xet_base.specs.Hash.{hash_cmp};
ghost use Rattle.xet_records.specs.Limits.{MAX_ROWS};
ghost use Rattle.xet_shards.specs.Write.Section.{total_rows};
ghost use Rattle.xet_shards.specs.Write.WithOptions.{Ascends};
ghost use Rattle.xet_core_structures.specs.Records.RecordPairs.{key_of_record, Combines};
ghost use Rattle.placed_shards.specs.Sets.{CombinesToSection, IsLeft};
ghost use Rattle.placed_shards.specs.Steps.SetsSteps.{CountsRows, IsPass, IsTurn, MakesNone, MakesRecord};

use crate::placed_record::{PlacedRecord, all_stored};
use bumpalo::Bump;
use std::alloc::Global;
use std::cmp::Ordering;
use xet_base::error::{CoreError, Result};
use xet_records::rows::{ROW_LIMIT, ROW_SIZE};

/// What is made of two records with one hash.
pub trait Union<'a, P: PlacedRecord<'a>> {
    // what is made, where each list may have a record
    ghost makes: { Option P → Option P → Option P → Type 0 };

    /// What is made of both, as reading returns them; `None` if that is nothing that fits a
    /// section; or `OutOfMemory`. A new record is placed in the arena.
    fn make(alloc: Global, arena: &'a Bump, first: &P, second: &P) -> Result<Option<P>>
        requires { key_of_record P.kind first.now ≡ key_of_record P.kind second.now }
        ensures { MatchResult result
            (λ made. MatchOption made (MakesNone P.kind makes first.now second.now)
            (MakesRecord P.kind makes first.now second.now))
            (λ e. e ≡ OutOfMemory) };

    /// Does nothing: a record alone is kept, and at most one is made.
    fn laws()
        ensures nothing { makes None None None }
        ensures first_alone { (r : P) → makes (Some r) None (Some r) }
        ensures second_alone { (r : P) → makes None (Some r) (Some r) }
        ensures made_once { (a b c d : Option P) → makes a b c → makes a b d → c ≡ d };
}

/// The next turn of a union: the end; a record, and how far both lists are then read; or nothing,
/// where two records have no union.
#[derive(Drop)]
pub enum Turn<P> {
    End,
    Keep(P, usize, usize),
    Nothing,
}

/// The union of two lists whose hashes strictly ascend, of records as reading returns them.
///
/// `InvalidShard` if two records have no union, or the rows pass 4294967295; or `OutOfMemory`.
pub fn unite<'a, P: PlacedRecord<'a> + Drop, U: Union<'a, P>>(
    alloc: Global,
    arena: &'a Bump,
    first: &[P],
    second: &[P],
) -> Result<Vec<P>>
    requires first { Ascends P.kind (map P.kind.as_read first.now) }
    requires second { Ascends P.kind (map P.kind.as_read second.now) }
    ensures { MatchResult result
        (λ made. CombinesToSection P.kind U.makes (map P.kind.as_read first.now)
        (map P.kind.as_read second.now) (map P.kind.as_read made.items))
        (λ e. (e ≡ OutOfMemory) ⊎ (IsInvalidShard e
        × ((zs : List P) → ¬ CombinesToSection P.kind U.makes (map P.kind.as_read first.now)
        (map P.kind.as_read second.now) zs))) }
{
    P::laws();
    U::laws();
    let mut made = Vec::with_capacity(alloc, first.len().saturating_add(second.len()))?;
    let mut rows = 0;
    let mut at_1 = 0;
    let mut at_2 = 0;
    loop {
        match next_turn::<P, U>(alloc, arena, first, at_1, second, at_2)? {
            Turn::End => return if_rows_fit(alloc, made, rows),
            Turn::Keep(record, next_1, next_2) => {
                record.is_stored();
                rows = add_rows(rows, rows_of(&record));
                made.push(record)?;
                at_1 = next_1;
                at_2 = next_2;
            }
            Turn::Nothing => return Err(CoreError::InvalidShard(String::new(alloc))),
        }
    }
}

fn next_turn<'a, P: PlacedRecord<'a> + Drop, U: Union<'a, P>>(
    alloc: Global,
    arena: &'a Bump,
    first: &[P],
    at_1: usize,
    second: &[P],
    at_2: usize,
) -> Result<Turn<P>>
    ensures { MatchResult result (IsTurn P.kind U.makes first.now at_1 second.now at_2)
        (λ e. e ≡ OutOfMemory) }
{
    P::laws();
    if at_1 >= first.len() {
        if at_2 >= second.len() {
            return Ok(Turn::End);
        }
        return Ok(Turn::Keep(second[at_2].copy(), at_1, at_2 + 1));
    }
    let one = &first[at_1];
    if at_2 >= second.len() {
        return Ok(Turn::Keep(one.copy(), at_1 + 1, at_2));
    }
    let other = &second[at_2];
    match compare(one, other) {
        Ordering::Less => Ok(Turn::Keep(one.copy(), at_1 + 1, at_2)),
        Ordering::Greater => Ok(Turn::Keep(other.copy(), at_1, at_2 + 1)),
        Ordering::Equal => match U::make(alloc, arena, one, other)? {
            Some(made) => Ok(Turn::Keep(made, at_1 + 1, at_2 + 1)),
            None => Ok(Turn::Nothing),
        },
    }
}

/// As [`Turn`], of a difference: the end; or how far both lists are read after a record that is
/// dropped or left.
#[derive(Drop)]
pub enum Pass<P> {
    Done,
    Drops(usize, usize),
    Leaves(P, usize, usize),
}

/// Of two lists as in [`unite`], the records of the second whose hashes the first does not have, or
/// `OutOfMemory`.
pub fn subtract<'a, P: PlacedRecord<'a> + Drop>(
    alloc: Global,
    first: &[P],
    second: &[P],
) -> Result<Vec<P>>
    requires first { Ascends P.kind (map P.kind.as_read first.now) }
    requires second { Ascends P.kind (map P.kind.as_read second.now) }
    ensures { MatchResult result
        (λ left. Combines P.kind IsLeft (map P.kind.as_read first.now)
        (map P.kind.as_read second.now) (map P.kind.as_read left.items)
        × (total_rows P.kind (map P.kind.as_read left.items)
        ≤ total_rows P.kind (map P.kind.as_read second.now)))
        (λ e. e ≡ OutOfMemory) }
{
    P::laws();
    let mut left = Vec::new(alloc);
    let mut at_1 = 0;
    let mut at_2 = 0;
    loop {
        match next_pass::<P>(first, at_1, second, at_2) {
            Pass::Done => return Ok(left),
            Pass::Drops(next_1, next_2) => {
                at_1 = next_1;
                at_2 = next_2;
            }
            Pass::Leaves(record, next_1, next_2) => {
                record.is_stored();
                left.push(record)?;
                at_1 = next_1;
                at_2 = next_2;
            }
        }
    }
}

fn next_pass<'a, P: PlacedRecord<'a> + Drop>(
    first: &[P],
    at_1: usize,
    second: &[P],
    at_2: usize,
) -> Pass<P>
    ensures { IsPass P.kind first.now at_1 second.now at_2 result }
{
    P::laws();
    if at_1 >= first.len() {
        if at_2 >= second.len() {
            return Pass::Done;
        }
        return Pass::Leaves(second[at_2].copy(), at_1, at_2 + 1);
    }
    let one = &first[at_1];
    if at_2 >= second.len() {
        return Pass::Drops(at_1 + 1, at_2);
    }
    let other = &second[at_2];
    match compare(one, other) {
        Ordering::Less => Pass::Drops(at_1 + 1, at_2),
        Ordering::Greater => Pass::Leaves(other.copy(), at_1, at_2 + 1),
        Ordering::Equal => Pass::Drops(at_1 + 1, at_2 + 1),
    }
}

/// Compares the hashes. Bytes are touched only if the first words are equal.
pub fn compare<'a, P: PlacedRecord<'a>>(one: &P, other: &P) -> Ordering
    ensures { result ≡ hash_cmp (key_of_record P.kind one.now) (key_of_record P.kind other.now) }
{
    match one.word().cmp(&other.word()) {
        Ordering::Equal => one.hash().cmp(&other.hash()),
        order => order,
    }
}

// The rows of a record, without touching its bytes.
fn rows_of<'a, P: PlacedRecord<'a>>(placed: &P) -> u64
    ensures { result ≡ P.kind.row_count placed.now }
{
    (placed.bytes().len() / ROW_SIZE) as u64
}

// The sum, unless the count is too large already.
fn add_rows(rows: u64, more: u64) -> u64
    ensures { (total : ℕ) → CountsRows total rows → CountsRows (total + more) result }
{
    if rows > ROW_LIMIT {
        return rows;
    }
    rows.saturating_add(more)
}

fn if_rows_fit<P: Drop>(alloc: Global, made: Vec<P>, rows: u64) -> Result<Vec<P>>
    ensures { MatchResult result (λ found. (found ≡ made) × (rows ≤ MAX_ROWS))
        (λ e. IsInvalidShard e × (MAX_ROWS < rows)) }
{
    if rows > ROW_LIMIT {
        return Err(CoreError::InvalidShard(String::new(alloc)));
    }
    Ok(made)
}
