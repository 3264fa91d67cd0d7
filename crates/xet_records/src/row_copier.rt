//! Copying rows from any input, reader or source, to a writer: each row is written as it is read,
//! so that no more than one is held.

ghost use Rattle.std.specs.Prelude.{◌≡◌, ◌*◌, List, MatchResult, IfErr, OnOk};
ghost use Rattle.std.specs.Io.KnownBytes.{Appends};
ghost use Rattle.xet_base.specs.declared.error.CoreError.{CoreError};
ghost use Rattle.xet_records.specs.Rows.{ReadsRow};
ghost use Rattle.xet_records.specs.Copying.{CopiesRow, CopiesRows, CopyFails, IsOutputFailure};

use crate::row_reader;
use crate::rows::{self, Row};
use std::io::Write;
use xet_base::error::{CoreError, Result};
use xet_base::input::ByteInput;

/// Why rows were not copied: reading the input failed, or writing the output did, or an allocation
/// for what is written.
#[derive(Drop)]
pub enum CopyFailure {
    Input(CoreError),
    Output(CoreError),
}

/// What copying returns.
pub type CopyResult<T> = std::result::Result<T, CopyFailure>;

impl From<CoreError> for CopyFailure {
    ghost use Rattle.std.specs.Prelude.{◌≡◌};
    ghost use Rattle.xet_records.specs.declared.row_copier.CopyFailure.TheVariants.{Input};

    ghost from_gives = { λ error failure. failure ≡ Input error };

    fn from(error: CoreError) -> CopyFailure {
        CopyFailure::Input(error)
    }
}

impl From<CopyFailure> for CoreError {
    ghost use Rattle.std.specs.Prelude.{◌≡◌};
    ghost use Rattle.xet_records.specs.Steps.CopyingSteps.{error_of};

    ghost from_gives = { λ failure error. error ≡ error_of failure };

    fn from(failure: CopyFailure) -> CoreError {
        match failure {
            CopyFailure::Input(error) | CopyFailure::Output(error) => error,
        }
    }
}

/// Copies a row, and returns it as reading does. Reserved words that reading clears are written as
/// zero. `UnexpectedEof` of the input if fewer than 48 bytes are left.
#[inline(always)]
pub fn copy_row<T: Row, M, I: ByteInput<M>, W: Write>(
    input: &mut I,
    writer: &mut W,
) -> CopyResult<T>
    ensures { MatchResult result
        (CopiesRow T.row_bytes T.Fits T.as_read (I.reads input.old input.new)
        (W.contents writer.old) (W.contents writer.new))
        (CopyFails I.reads I.fails input.old input.new 48) }
{
    let row = read_row_to_copy::<T, M, I>(input)?;
    write_copied_row(&row, writer)?;
    Ok(row)
}

// Reads a row, with the error of reading rows.
#[inline(always)]
fn read_row_to_copy<T: Row, M, I: ByteInput<M>>(input: &mut I) -> Result<T>
    ensures { MatchResult result
        (ReadsRow T.row_bytes T.Fits T.as_read (I.reads input.old input.new))
        (I.fails input.old input.new 48) }
{
    Ok(row_reader::read_input_row::<T, M, I>(input)?)
}

/// Writes a row. The failure is the output's.
#[inline(always)]
pub fn write_copied_row<T: Row, W: Write>(row: &T, writer: &mut W) -> CopyResult<()>
    ensures appended { OnOk result
        (Appends (W.contents writer.old) (W.contents writer.new) (T.row_bytes row.now)) }
    ensures causes { IfErr result IsOutputFailure }
{
    match rows::write_row(row, writer) {
        Ok(()) => Ok(()),
        Err(error) => Err(CopyFailure::Output(CoreError::from(error))),
    }
}

/// Copies `count` rows. `UnexpectedEof` of the input if fewer are left.
pub fn copy_rows<T: Row, M, I: ByteInput<M>, W: Write>(
    input: &mut I,
    writer: &mut W,
    count: u64,
) -> CopyResult<()>
    ensures { MatchResult result
        (λ _. (rows : List T) × CopiesRows T.row_bytes T.Fits T.as_read
        (I.reads input.old input.new) (W.contents writer.old) (W.contents writer.new) count rows)
        (CopyFails I.reads I.fails input.old input.new (48 * count)) }
{
    for _row in 0..count {
        copy_row::<T, M, I, W>(input, writer)?;
    }
    Ok(())
}
