//! Marks at the chunks at which files start.

ghost use Rattle.std.specs.Prelude.{◌≡◌, ◌<◌, ◌++◌, ℕ, All, length, map, MatchResult};
ghost use Rattle.std.specs.List.Sorted.{IsSorted};
ghost use Rattle.std.specs.Ordering.{is_lt};
ghost use Rattle.xet_base.specs.declared.error.CoreError.{CoreError};
ghost use Rattle.xet_records.specs.declared.file_structs.MDBFileInfo.{MDBFileInfo};
ghost use Rattle.xet_records.specs.declared.xorb_structs.MDBXorbInfo.{MDBXorbInfo};
ghost use Rattle.xet_shards.specs.Content.Shard.{xorb_hash_of};
ghost use Rattle.xet_shards.specs.StreamingShard.MinimalShard.{start_cmp, start_of_file, has_start, is_start, chunk_of, mark_starts};
ghost use Rattle.xet_shards.specs.Steps.MinimalWriting.{AreStartsFrom};
ghost use Rattle.placed_shards.specs.Steps.Marks.{AreStartsBefore};

use crate::placed_file::PlacedFile;
use crate::placed_record::PlacedRecord;
use crate::placed_xorb::PlacedXorb;
use crate::values::{place_xorb, read_xorb};
use bumpalo::Bump;
use std::alloc::Global;
use xet_base::error::Result;
use xet_records::file_structs::FileDataSequenceEntry;
use xet_records::record_bytes::row;
use xet_records::rows::Rows;
use xet_records::xorb_structs::{MDBXorbInfo, XorbChunkSequenceEntry};
use xet_shards::shard_writer::FileStart;

/// The xorbs with a mark at each chunk at which one of these files starts, or `OutOfMemory`.
pub(crate) fn all_marked<'a>(
    alloc: Global,
    arena: &'a Bump,
    files: &[PlacedFile<'_>],
    mut xorbs: Vec<PlacedXorb<'a>>,
) -> Result<Vec<PlacedXorb<'a>>>
    ensures { MatchResult result
        (λ marked. marked.items ≡ map (mark_starts (is_start files.now)) xorbs.entry.items)
        (λ e. e ≡ CoreError.OutOfMemory) }
{
    let starts = starts_of(alloc, files)?;
    for index in 0..xorbs.len() {
        xorbs[index] = marked(alloc, arena, &xorbs[index], starts.as_slice())?;
    }
    Ok(xorbs)
}

// Where files start, ascending. A file without segments starts nowhere.
fn starts_of(alloc: Global, files: &[PlacedFile<'_>]) -> Result<Vec<FileStart>>
    ensures { MatchResult result
        (λ starts. (has_start starts.items ≡ is_start files.now) × IsSorted start_cmp starts.items)
        (λ e. e ≡ CoreError.OutOfMemory) }
{
    let mut starts = Vec::new(alloc);
    for file in files {
        push_start(&mut starts, file)?;
    }
    starts.sort_unstable();
    Ok(starts)
}

fn push_start(starts: &mut Vec<FileStart>, file: &PlacedFile<'_>) -> Result<()>
    ensures { MatchResult result
        (λ _. starts.new.items ≡ starts.old.items ++ start_of_file file.now)
        (λ e. e ≡ CoreError.OutOfMemory) }
{
    file.is_stored();
    if file.header().num_entries == 0 {
        return Ok(());
    }
    let segment: FileDataSequenceEntry = row(file.bytes(), 1);
    starts.push(FileStart {
        xorb_hash: segment.xorb_hash,
        chunk_index: segment.chunk_index_start,
    })?;
    Ok(())
}

// The xorb with a mark at each of its chunks that is a start, where it lies if there is none.
fn marked<'a>(
    alloc: Global,
    arena: &'a Bump,
    xorb: &PlacedXorb<'a>,
    starts: &[FileStart],
) -> Result<PlacedXorb<'a>>
    requires { IsSorted start_cmp starts.now }
    ensures { MatchResult result (λ placed. placed ≡ mark_starts (has_start starts.now) xorb.now)
        (λ e. e ≡ CoreError.OutOfMemory) }
{
    xorb.is_stored();
    let own = starts_in(starts, xorb);
    if own.is_empty() {
        return Ok(xorb.copy());
    }
    place_xorb(arena, &with_marks(read_xorb(alloc, xorb)?, own))
}

fn with_marks(xorb: MDBXorbInfo, starts: &[FileStart]) -> MDBXorbInfo
    requires hashes { All (λ s. s.xorb_hash ≡ xorb_hash_of xorb) starts.now }
    requires indices { All (λ s. s.chunk_index < length xorb.chunks) starts.now }
    ensures { result ≡ mark_starts (has_start starts.now) xorb }
{
    let MDBXorbInfo { metadata, chunks } = xorb;
    let mut chunks = chunks.into_vec();
    mark_chunks(chunks.as_mut_slice(), starts);
    MDBXorbInfo {
        metadata,
        chunks: Rows::from(chunks),
    }
}

// The starts that are chunks of a xorb.
fn starts_in<'s>(starts: &'s [FileStart], xorb: &PlacedXorb<'_>) -> &'s [FileStart]
    requires { IsSorted start_cmp starts.now }
    ensures hashes { All (λ s. s.xorb_hash ≡ xorb_hash_of xorb.now) result.now }
    ensures indices { All (λ s. s.chunk_index < length xorb.now.chunks) result.now }
    ensures marks { mark_starts (has_start result.now) xorb.now
        ≡ mark_starts (has_start starts.now) xorb.now }
{
    xorb.is_stored();
    let header = xorb.header();
    let first = FileStart {
        xorb_hash: header.xorb_hash,
        chunk_index: 0,
    };
    let end = FileStart {
        xorb_hash: header.xorb_hash,
        chunk_index: header.num_entries,
    };
    starts_before(starts_from(starts, first), end)
}

fn starts_from<'s>(starts: &'s [FileStart], first: FileStart) -> &'s [FileStart]
    requires { IsSorted start_cmp starts.now }
    ensures { AreStartsFrom first starts.now result.now }
{
    let place = starts.partition_point(
        |start: &FileStart| -> bool
            ensures { result ≡ is_lt (start_cmp start.now first) }
        { *start < first },
    );
    &starts[place..]
}

fn starts_before<'s>(starts: &'s [FileStart], end: FileStart) -> &'s [FileStart]
    requires { IsSorted start_cmp starts.now }
    ensures { AreStartsBefore end starts.now result.now }
{
    let place = starts.partition_point(
        |start: &FileStart| -> bool
            ensures { result ≡ is_lt (start_cmp start.now end) }
        { *start < end },
    );
    &starts[..place]
}

fn mark_chunks(chunks: &mut [XorbChunkSequenceEntry], starts: &[FileStart])
    requires { All (λ s. s.chunk_index < length chunks.old) starts.now }
    ensures { (x : MDBXorbInfo) → x.chunks ≡ chunks.old
        → All (λ s. s.xorb_hash ≡ xorb_hash_of x) starts.now
        → chunks.new ≡ (mark_starts (has_start starts.now) x).chunks }
{
    for start in starts {
        let index = start.chunk_index as usize;
        chunks[index] = chunks[index].with_global_dedup_flag(true);
    }
}
