//! What the commands need of the system.

use std::random::RandomSource;
use std::rt::{Clock, Files};

/// Files, the standard streams, the clock, random bytes and memory.
pub trait Host: Files
    + Input
    + Clock
    + Print
    + Eprint
    + RandomSource
    + AllocGlobal
    + Clone
    + Drop {}

impl<R: Files + Input + Clock + Print + Eprint + RandomSource + AllocGlobal + Clone + Drop> Host
    for R {}
