//! Sources of bytes that are read at any offset. Contracts count their seeks and the bytes read.

ghost use Rattle.std.specs.Prelude.{◌≡◌, ℕ, length, MatchResult, None};
ghost use Rattle.xet_base.specs.Bytes.{ReadsThrough};
ghost use Rattle.xet_base.specs.MemorySource.{in_memory};
ghost use Rattle.xet_base.specs.Source.{Source, ReadsSome, Fails, ReadsBytes, FillFails, after_seek};

use crate::count::Count;
use crate::fields::all_bytes;
use std::io;
use std::io::ErrorKind;

// How many bytes `pass` reads at once where it has to read.
const BLOCK_SIZE: usize = 768;

/// Bytes with a read position. Contracts see the bytes, the position, the seeks made, the bytes
/// read, the failures so far and the latest failure.
///
/// A call that fails leaves the bytes as they are, and counts one failure and no byte as read;
/// `seek_to` counts its seek also if it fails, and `pass` may have counted some bytes, and counts
/// no failure at the end of the bytes. The position after a failure is unspecified.
pub trait ShardSource {
    ghost meaning: { Self → Source };

    /// Reads into `slice` and returns how many bytes; 0 only at the end or for an empty slice.
    fn read_some(&mut self, slice: &mut [u8]) -> io::Result<usize>
        ensures { MatchResult result (ReadsSome (meaning self.old) (meaning self.new) slice.new)
            (Fails (meaning self.old) (meaning self.new) 0) };

    /// The number of bytes.
    fn length(&mut self) -> io::Result<u64>
        ensures { MatchResult result
            (λ n. (n ≡ length (meaning self.old).bytes) × (meaning self.new ≡ meaning self.old))
            (Fails (meaning self.old) (meaning self.new) 0) };

    /// The position of the next read, in bytes from the start.
    fn position(&mut self) -> io::Result<u64>
        ensures { MatchResult result
            (λ n. (n ≡ (meaning self.old).at) × (meaning self.new ≡ meaning self.old))
            (Fails (meaning self.old) (meaning self.new) 0) };

    /// Sets the position of the next read. It may be past the end; reads there return 0 bytes.
    fn seek_to(&mut self, to: u64) -> io::Result<()>
        ensures { MatchResult result (λ _. meaning self.new ≡ after_seek (meaning self.old) to)
            (Fails (meaning self.old) (meaning self.new) 1) };

    /// Moves past `count` bytes, which count as read. `UnexpectedEof` if fewer are left; the
    /// device's own error at its first failure. Makes no seek. If an implementation does not write
    /// it, the bytes are read.
    fn pass(&mut self, count: u64) -> io::Result<()>
        ensures { MatchResult result
            (λ _. ReadsThrough (ReadsBytes (meaning self.old) (meaning self.new)) count)
            (FillFails (meaning self.old) (meaning self.new) count) }
    {
        let mut block = [0u8; BLOCK_SIZE];
        let mut passed = 0;
        while passed < count {
            let most = (count - passed).min(BLOCK_SIZE as u64) as usize;
            let part = &mut block[..most];
            let n = self.read_some(part)?;
            if n == 0 {
                return Err(io::Error::from(ErrorKind::UnexpectedEof));
            }
            all_bytes(&part[..n]);
            passed += n as u64;
        }
        Ok(())
    }
}

/// Fills `slice` from the source's position on. `UnexpectedEof` if fewer bytes are left; the
/// device's own error at its first failure, even if that is `Interrupted`. Makes no seek.
#[inline(always)]
pub fn read_full<S: ShardSource>(source: &mut S, slice: &mut [u8]) -> io::Result<()>
    ensures { MatchResult result
        (λ _. ReadsBytes (S.meaning source.old) (S.meaning source.new) slice.new)
        (FillFails (S.meaning source.old) (S.meaning source.new) (length slice.old)) }
{
    if slice.is_empty() {
        return Ok(());
    }
    // Apart from the loop, so that the length of a read that is filled at once is known.
    let mut filled = source.read_some(slice)?;
    if filled == 0 {
        return Err(io::Error::from(ErrorKind::UnexpectedEof));
    }
    while filled < slice.len() {
        let n = source.read_some(&mut slice[filled..])?;
        if n == 0 {
            return Err(io::Error::from(ErrorKind::UnexpectedEof));
        }
        filled += n;
    }
    Ok(())
}

/// A source over bytes in memory, which never fails.
#[derive(Drop)]
pub struct MemorySource<'a> {
    bytes: &'a [u8],
    at: u64,
    seeks: Count,
    read: Count,
}

impl<'a> MemorySource<'a> {
    /// A source of these bytes, at position 0.
    pub fn new(bytes: &'a [u8]) -> MemorySource<'a>
        ensures { ⟦<MemorySource<'a> as ShardSource>⟧.meaning result ≡ record {
          bytes = bytes.now;
          at = 0;
          seeks = 0;
          read = 0;
          failures = 0;
          last_failure = None;
        } }
    {
        MemorySource {
            bytes,
            at: 0,
            seeks: Count::new(),
            read: Count::new(),
        }
    }
}

impl<'a> ShardSource for MemorySource<'a> {
    ghost meaning = { in_memory };

    #[inline(always)]
    fn read_some(&mut self, slice: &mut [u8]) -> io::Result<usize> {
        let length = self.bytes.len() as u64;
        if self.at >= length {
            return Ok(0);
        }
        let start = self.at as usize;
        let left = self.bytes.len() - start;
        if slice.len() <= left {
            let n = slice.len();
            slice.copy_from_slice(&self.bytes[start..start + n]);
            self.at += n as u64;
            self.read.add(n as u64);
            return Ok(n);
        }
        slice[..left].copy_from_slice(&self.bytes[start..]);
        self.at += left as u64;
        self.read.add(left as u64);
        Ok(left)
    }

    fn length(&mut self) -> io::Result<u64> {
        Ok(self.bytes.len() as u64)
    }

    fn position(&mut self) -> io::Result<u64> {
        Ok(self.at)
    }

    fn seek_to(&mut self, to: u64) -> io::Result<()> {
        self.at = to;
        self.seeks.add(1);
        Ok(())
    }

    fn pass(&mut self, count: u64) -> io::Result<()> {
        let left = (self.bytes.len() as u64).saturating_sub(self.at);
        if count > left {
            return Err(io::Error::from(ErrorKind::UnexpectedEof));
        }
        all_bytes(self.bytes);
        self.at += count;
        self.read.add(count);
        Ok(())
    }
}
