//! A source that counts its seeks and the bytes read.

ghost use Rattle.std.specs.Prelude.{◌≡◌, min, ◌^◌, ◌-◌};

use std::io;
use xet_core_structures::source::ShardSource;

/// A source with counts of its seeks and of the bytes read from it, which saturate.
#[derive(Drop)]
pub struct CountingSource<S: ShardSource> {
    source: S,
    seeks: u64,
    read: u64,
    ghost seeks_are: { seeks ≡ min (S.meaning source).seeks (2 ^ 64 - 1) },
    ghost read_is: { read ≡ min (S.meaning source).read (2 ^ 64 - 1) },
}

impl<S: ShardSource> CountingSource<S> {
    /// A source whose counts are 0. It must not have been sought or read.
    pub fn new(source: S) -> CountingSource<S>
        requires seeks { (S.meaning source).seeks ≡ 0 }
        requires read { (S.meaning source).read ≡ 0 }
        ensures { S.meaning result.source ≡ S.meaning source }
    {
        CountingSource {
            source,
            seeks: 0,
            read: 0,
        }
    }

    /// The counted source.
    pub fn inner(&self) -> &S
        ensures { result.now ≡ self.now.source }
    {
        &self.source
    }

    /// The seeks so far.
    pub fn seeks(&self) -> u64
        ensures { result ≡ min (S.meaning self.now.source).seeks (2 ^ 64 - 1) }
    {
        self.seeks
    }

    /// The bytes read so far.
    pub fn bytes_read(&self) -> u64
        ensures { result ≡ min (S.meaning self.now.source).read (2 ^ 64 - 1) }
    {
        self.read
    }
}

impl<S: ShardSource> ShardSource for CountingSource<S> {
    ghost meaning = { λ s. S.meaning s.source };

    fn read_some(&mut self, slice: &mut [u8]) -> io::Result<usize> {
        let read = self.source.read_some(slice)?;
        self.read = self.read.saturating_add(read as u64);
        Ok(read)
    }

    fn length(&mut self) -> io::Result<u64> {
        self.source.length()
    }

    fn position(&mut self) -> io::Result<u64> {
        self.source.position()
    }

    fn seek_to(&mut self, to: u64) -> io::Result<()> {
        self.seeks = self.seeks.saturating_add(1);
        self.source.seek_to(to)
    }
}
