//! Inputs of bytes: readers and sources under one trait, so that each reading is written once.

ghost use Rattle.std.specs.Prelude.{◌≡◌, ℕ, ◌+◌, ◌<◌, ◌≤◌, List, [], ◌++◌, length, MatchResult};
ghost use Rattle.std.specs.Io.KnownBytes.{Consumes};
ghost use Rattle.std.specs.declared.io.Error.{Error as DeviceError};
ghost use Rattle.std.proofs.KnownBytes.{Consumes-nil, Consumes-trans};
ghost use Rattle.xet_base.specs.declared.error.CoreError.{CoreError};
ghost use Rattle.xet_base.specs.declared.error.CoreError.TheVariants.{OutOfMemory};
ghost use Rattle.xet_base.specs.Bytes.{ReadsThrough};
ghost use Rattle.xet_base.specs.Errors.{FromDevice};
ghost use Rattle.xet_base.specs.Input.{ReaderLacks, ReaderFails};
ghost use Rattle.xet_base.specs.Source.{ReadsBytes, FillFails, ReadFails};
ghost use Rattle.xet_base.specs.InputLaws.{reader_fails, reader_fails_later, reader_lacks_memory, source_fails, source_fails_later, source_lacks_memory, ReadsBytes-nil, ReadsBytes-trans};

use crate::error::Result;
use crate::fields::all_bytes;
use crate::serialization_utils::read_bytes;
use crate::source::{ShardSource, read_full};
use std::io;
use std::io::Read;

// How many bytes `skip` reads at once where it has to read.
const BLOCK_SIZE: usize = 768;

/// Marks the inputs that are readers.
pub struct OfReader {}

/// Marks the inputs that are sources.
pub struct OfSource {}

/// An input of bytes. `Mark` is `OfReader` or `OfSource`: it keeps the two implementations apart.
pub trait ByteInput<Mark> {
    // these bytes were read
    ghost reads: { Self → Self → List ℕ → Type 0 };

    // a slice of so many bytes was not filled
    ghost fill_fails: { Self → Self → ℕ → DeviceError → Type 0 };

    // reading up to so many bytes failed
    ghost fails: { Self → Self → ℕ → CoreError → Type 0 };

    /// Fills `slice`. `UnexpectedEof` if fewer bytes are left; any other error is the device's.
    fn fill(&mut self, slice: &mut [u8]) -> io::Result<()>
        ensures { MatchResult result (λ _. reads self.old self.new slice.new)
            (fill_fails self.old self.new (length slice.old)) };

    /// Reads past `count` bytes. `UnexpectedEof` if fewer are left; any other error is the
    /// device's. If an implementation does not write it, the bytes are read.
    fn skip(&mut self, count: u64) -> Result<()>
        ensures { MatchResult result (λ _. ReadsThrough (reads self.old self.new) count)
            (fails self.old self.new count) }
    {
        let mut block = [0u8; BLOCK_SIZE];
        let mut skipped = 0;
        while skipped < count {
            let most = (count - skipped).min(BLOCK_SIZE as u64) as usize;
            let part = &mut block[..most];
            self.fill(part)?;
            all_bytes(part);
            skipped += most as u64;
        }
        Ok(())
    }

    ghost reads_nothing: { (a : Self) → reads a a [] };

    ghost joins: { (a b c : Self) (xs ys : List ℕ) → reads a b xs → reads b c ys
        → reads a c (xs ++ ys) };

    ghost fails_once: { (a b : Self) (n : ℕ) (e : DeviceError) (f : CoreError)
        → fill_fails a b n e → FromDevice e f → fails a b n f };

    ghost fails_later: { (a b c : Self) (xs : List ℕ) (n most : ℕ) (f : CoreError)
        → reads a b xs → fails b c n f → length xs + n ≤ most → fails a c most f };

    ghost lacks_memory: { (a b : Self) (xs : List ℕ) (most : ℕ) (f : CoreError)
        → reads a b xs → length xs ≤ most → 0 < most → f ≡ OutOfMemory → fails a b most f };
}

impl<R: Read> ByteInput<OfReader> for R {
    ghost reads = { λ a b xs. Consumes (R.remaining a) (R.remaining b) xs };

    ghost fill_fails = { λ a b n e. ReaderLacks (R.remaining a) n e };

    ghost fails = { λ a b n f. ReaderFails (R.remaining a) n f };

    ghost reads_nothing = { λ a. Consumes-nil (R.remaining a) };

    ghost joins = { λ a b c xs ys p q. Consumes-trans (R.remaining a) (R.remaining b)
        (R.remaining c) xs ys p q };

    ghost fails_once = { λ a b n e f p q. reader_fails (R.remaining a) n e f p q };

    ghost fails_later = { λ a b c xs n most f p q r. reader_fails_later (R.remaining a)
        (R.remaining b) xs n most f p q r };

    ghost lacks_memory = { λ a b xs most f p q r s. reader_lacks_memory (R.remaining a) most f s };

    #[inline(always)]
    fn fill(&mut self, slice: &mut [u8]) -> io::Result<()> {
        read_bytes(self, slice)
    }
}

impl<S: ShardSource> ByteInput<OfSource> for S {
    ghost reads = { λ a b xs. ReadsBytes (S.meaning a) (S.meaning b) xs };

    ghost fill_fails = { λ a b n e. FillFails (S.meaning a) (S.meaning b) n e };

    ghost fails = { λ a b n f. ReadFails (S.meaning a) (S.meaning b) n f };

    ghost reads_nothing = { λ a. ReadsBytes-nil (S.meaning a) };

    ghost joins = { λ a b c xs ys p q. ReadsBytes-trans (S.meaning a) (S.meaning b) (S.meaning c) xs ys p
        q };

    ghost fails_once = { λ a b n e f p q. source_fails (S.meaning a) (S.meaning b) n e f p q };

    ghost fails_later = { λ a b c xs n most f p q r. source_fails_later (S.meaning a) (S.meaning b)
        (S.meaning c) xs n most f p q r };

    ghost lacks_memory = { λ a b xs most f p q r s. source_lacks_memory (S.meaning a) (S.meaning b)
        xs most f p q r s };

    #[inline(always)]
    fn fill(&mut self, slice: &mut [u8]) -> io::Result<()> {
        read_full(self, slice)
    }

    #[inline(always)]
    fn skip(&mut self, count: u64) -> Result<()> {
        Ok(self.pass(count)?)
    }
}
