//! What is found of files and xorbs that do not fit together.

use xet_base::merklehash::MerkleHash;

/// A segment of a file, with the xorb that it names.
#[derive(Clone, Copy, PartialEq, Eq, PartialOrd, Ord)]
pub struct Segment {
    pub xorb: MerkleHash,
    pub file: MerkleHash,
    /// Which segment of its file it is, counted from 0.
    pub index: usize,
    /// The first of its chunks in the xorb.
    pub start: u32,
    /// The chunk behind its last one.
    pub end: u32,
    /// The bytes that it says to have, unpacked.
    pub bytes: u32,
}

/// What is wrong with a xorb, or with a segment that names it.
#[derive(Clone, Copy, PartialEq, Eq, PartialOrd, Ord)]
pub enum Misfit {
    /// No segment names the xorb.
    Unnamed,
    /// The xorb says to have `said` bytes, unpacked, and its chunks have `sum` together.
    Total { said: u32, sum: u64 },
    /// The chunk at `index` says to start at `said`, and those before it have `sum` bytes together.
    /// It is the first such chunk.
    Start { index: usize, said: u32, sum: u64 },
    /// No xorb has the hash that the segment names.
    Lacking(Segment),
    /// The segment has no chunk, or one that the xorb with so many chunks has not.
    Outside(Segment, usize),
    /// The segment's chunks have so many bytes together, which it does not say.
    Bytes(Segment, u64),
}

/// A misfit, and the xorb that it is about.
#[derive(Clone, Copy, PartialEq, Eq, PartialOrd, Ord)]
pub struct GarbageFinding {
    pub xorb: MerkleHash,
    pub misfit: Misfit,
}
