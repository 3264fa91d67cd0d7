//! The offset and size of a table in a source.

ghost use Rattle.std.specs.Prelude.{◌≡◌, ◌⊎◌, ◌+◌, ◌^◌, ◌<◌, ◌≤◌, IfSome, IfNone};
ghost use Rattle.xet_base.specs.Search.Table.{offset_of_row};

/// The rows of a table: a key of eight bytes and a value of `width` bytes each, from `start` on.
/// Offsets and row numbers fit `u64`.
#[derive(Clone, Copy)]
pub struct TableRange {
    pub start: u64,
    pub rows: u64,
    pub width: u64,
    pub ghost countable: { rows + 1 < 2 ^ 64 },
    pub ghost placed: { offset_of_row start width rows < 2 ^ 64 },
}

impl TableRange {
    /// The range of these numbers, or `None` if `rows + 1` or the table's end does not fit `u64`.
    #[tactic(auto, unfolding(crate::specs::Search::Table::offset_of_row))]
    pub fn new(start: u64, rows: u64, width: u64) -> Option<TableRange>
        ensures some { IfSome result
            (λ r. (r.start ≡ start) × (r.rows ≡ rows) × (r.width ≡ width)) }
        ensures none { IfNone result
            ((2 ^ 64 ≤ rows + 1) ⊎ (2 ^ 64 ≤ offset_of_row start width rows)) }
    {
        if rows == u64::MAX {
            return None;
        }
        if rows > 0 {
            width.checked_add(8)?.checked_mul(rows)?.checked_add(start)?;
        }
        Some(TableRange { start, rows, width })
    }

    /// The offset of a row, counted from 0, or of the table's end.
    #[tactic(auto, unfolding(crate::specs::Search::Table::offset_of_row))]
    pub fn row_offset(&self, row: u64) -> u64
        requires { row ≤ self.now.rows }
        ensures { result ≡ offset_of_row self.now.start self.now.width row }
    {
        if row == 0 {
            return self.start;
        }
        self.start + row * (8 + self.width)
    }
}
