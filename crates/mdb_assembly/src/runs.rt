//! Merging sorted chunk tables of one file, with little in memory.

ghost use Rattle.std.specs.Prelude.{◌≡◌, ◌+◌, ◌-◌, ◌≤◌, ◌^◌, List, length, flat_map, slice_range, take, min, IfOk, IfSome, OnOk, MatchOption};
ghost use Rattle.std.specs.BinaryHeap.{heap_items, heap_len};
ghost use Rattle.std.specs.Io.KnownBytes.{Appends};
ghost use Rattle.xet_shards.specs.Write.Tables.{chunk_table_row_bytes};
ghost use Rattle.mdb_assembly.specs.Runs.{TakesLeast};

use std::alloc::Global;
use std::cmp::Reverse;
use std::collections::BinaryHeap;
use std::io;
use std::io::{Read, Seek, SeekFrom, Write};
use xet_core_structures::fields::{split_u32, split_u64};
use xet_core_structures::shard_format::CHUNK_ROW_SIZE;
use xet_core_structures::shard_writer::ChunkTableRow;

/// A range of a file's bytes.
#[derive(Clone, Copy)]
pub struct Extent {
    pub start: u64,
    pub size: u64,
}

/// The rows of a table still to be merged: some in memory, others in the file from `start` on.
#[derive(Drop)]
struct Run {
    start: u64,
    left: u64,
    rows: Vec<u8>,
    /// The offset of the next row in memory.
    at: usize,
}

/// The next row of a table; of equal rows, the first table's comes first.
#[derive(Clone, Copy, PartialEq, Eq, PartialOrd, Ord)]
struct Head {
    row: ChunkTableRow,
    run: usize,
}

impl Run {
    fn new(alloc: Global, extent: &Extent) -> Run {
        Run {
            start: extent.start,
            left: extent.size,
            rows: Vec::new(alloc),
            at: 0,
        }
    }

    fn next<F: Read + Seek>(&mut self, file: &mut F, room: u64) -> io::Result<Option<ChunkTableRow>>
        ensures { IfOk result (λ next. IfSome next (λ row. (16 ≤ self.new.at)
            × (slice_range self.new.rows.items (self.new.at - 16) self.new.at
            ≡ chunk_table_row_bytes row))) }
    {
        if self.at >= self.rows.len() {
            self.refill(file, room)?;
        }
        let Some(row) = self.rows.as_slice().get(self.at..) else {
            return Ok(None);
        };
        if row.len() < CHUNK_ROW_SIZE {
            return Ok(None);
        }
        let row = row_of(row);
        self.at += CHUNK_ROW_SIZE;
        Ok(Some(row))
    }

    fn refill<F: Read + Seek>(&mut self, file: &mut F, room: u64) -> io::Result<()>
        ensures { OnOk result ((length self.new.rows.items ≡ min self.old.left room)
            × (self.new.at ≡ 0) × (self.new.left + length self.new.rows.items ≡ self.old.left)
            × (self.new.start ≡ min (self.old.start + length self.new.rows.items) (2 ^ 64 - 1))) }
    {
        let start = self.start;
        let size = self.left.min(room);
        self.rows.clear();
        self.at = 0;
        if size == 0 {
            return Ok(());
        }
        file.seek(SeekFrom::Start(start))?;
        let read = file.by_ref().take(size).read_to_end(&mut self.rows)?;
        if read as u64 != size {
            return Err(io::Error::from(io::ErrorKind::UnexpectedEof));
        }
        self.start = start.saturating_add(size);
        self.left -= size;
        Ok(())
    }
}

fn row_of(bytes: &[u8]) -> ChunkTableRow
    requires { 16 ≤ length bytes.now }
    ensures { take 16 bytes.now ≡ chunk_table_row_bytes result }
{
    let (word, rest) = split_u64(bytes);
    let (row, rest) = split_u32(rest);
    let (index, _) = split_u32(rest);
    ChunkTableRow { word, row, index }
}

/// Merges ascending tables into ascending rows. At most `room` bytes of each, or one row, are in
/// memory.
pub fn merge_runs<F: Read + Seek, W: Write>(
    alloc: Global,
    file: &mut F,
    extents: &[Extent],
    room: u64,
    output: &mut W,
) -> io::Result<()>
    ensures { OnOk result ((rows : List ChunkTableRow)
        × Appends (W.contents output.old) (W.contents output.new)
        (flat_map chunk_table_row_bytes rows)) }
{
    let room = (room / CHUNK_ROW_SIZE as u64)
        .max(1)
        .saturating_mul(CHUNK_ROW_SIZE as u64);
    let mut runs = Vec::new(alloc);
    let mut heads = BinaryHeap::new(alloc);
    for extent in extents {
        let mut run = Run::new(alloc, extent);
        push_next(&mut heads, &mut run, runs.len(), file, room)?;
        runs.push(run)?;
    }
    for _ in 0..u64::MAX {
        let Some(head) = take_least(&mut heads) else {
            break;
        };
        output.write_all(&head.row.to_bytes())?;
        if let Some(run) = runs.as_mut_slice().get_mut(head.run) {
            push_next(&mut heads, run, head.run, file, room)?;
        }
    }
    Ok(())
}

fn push_next<F: Read + Seek>(
    heads: &mut BinaryHeap<Reverse<Head>>,
    run: &mut Run,
    at: usize,
    file: &mut F,
    room: u64,
) -> io::Result<()> {
    if let Some(row) = run.next(file, room)? {
        heads.push(Reverse(Head { row, run: at }))?;
    }
    Ok(())
}

fn take_least(heads: &mut BinaryHeap<Reverse<Head>>) -> Option<Head>
    ensures { MatchOption result (heap_len heads.old ≡ 0)
        (λ head. TakesLeast head (heap_items heads.old) (heap_items heads.new)) }
{
    let Reverse(head) = heads.pop()?;
    Some(head)
}
