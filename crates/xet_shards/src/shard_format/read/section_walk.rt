//! Walks through a section that keep something of each record.

ghost use Rattle.std.specs.Prelude.{◌≡◌, ℕ, ◌+◌, ◌*◌, ◌^◌, ◌<◌, ◌≤◌, MatchResult};
ghost use Rattle.xet_records.specs.RecordKind.{in_version};
ghost use Rattle.xet_shards.specs.Read.SectionReading.{SectionNotStreamed};
ghost use Rattle.xet_shards.specs.Steps.SectionReadingSteps.{RecordFails};
ghost use Rattle.xet_shards.specs.Read.SectionWalk.{KeepsSection, KeepsNext};

use std::alloc::Global;
use xet_base::error::Result;
use xet_base::input::OfSource;
use xet_base::source::ShardSource;
use xet_records::record_reader::{FormatVersion, SectionRecord, read_header};
use xet_records::rows::ROW_LIMIT;

/// What a walk keeps of a record.
pub(in crate::shard_format) trait WalkItem<R: SectionRecord> {
    ghost keep: { ℕ → R → Self };

    /// What is kept of the record at an offset.
    fn of_record(offset: u64, header: &R::Header, rest: R::SkipValue) -> Self
        requires { offset + 48 * (1 + R.kind.rows_after header.now) < 2 ^ 64 }
        ensures { (r : R) → R.kind.header_of r ≡ header.now → R.kept r ≡ rest
            → result ≡ keep offset r };
}

/// Walks through the section from the source's position on.
pub(in crate::shard_format) fn walk_section<
    R: SectionRecord,
    T: WalkItem<R> + Drop,
    S: ShardSource,
>(alloc: Global, source: &mut S, version: FormatVersion) -> Result<Vec<T>>
    ensures { MatchResult result
        (λ found. KeepsSection (in_version R.kind version) T.keep (S.meaning source.old)
        (S.meaning source.new) found.items)
        (SectionNotStreamed (in_version R.kind version) (S.meaning source.old) (S.meaning source.new)) }
{
    R::laws();
    let mut found = Vec::new(alloc);
    let mut rows_left = ROW_LIMIT;
    while let Some(kept) = keep_next::<R, T, S>(alloc, source, version, &mut rows_left)? {
        found.push(kept)?;
    }
    Ok(found)
}

// `None` at the bookend.
fn keep_next<R: SectionRecord, T: WalkItem<R> + Drop, S: ShardSource>(
    alloc: Global,
    source: &mut S,
    version: FormatVersion,
    rows_left: &mut u64,
) -> Result<Option<T>>
    requires { rows_left.old ≤ 4294967296 }
    ensures { MatchResult result
        (KeepsNext (in_version R.kind version) T.keep (S.meaning source.old) (S.meaning source.new)
        rows_left.old rows_left.new)
        (RecordFails (in_version R.kind version) rows_left.old (S.meaning source.old)
        (S.meaning source.new)) }
{
    R::laws();
    let offset = source.position()?;
    let Some(header) = read_header::<R, OfSource, S>(alloc, source, version, rows_left)? else {
        return Ok(None);
    };
    let rest = R::skip_rows_after::<OfSource, S>(source, header)?;
    // The source has a position after these rows, so each offset among them fits `u64`.
    source.position()?;
    Ok(Some(T::of_record(offset, &header, rest)))
}
