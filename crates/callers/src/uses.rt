//! Five callers of the library, each with the theorem that it gets from the contracts of its calls.
//! `CALLING.md` of `xet_core_structures` goes through them.

pub mod export;
pub mod find;
pub mod merge;
pub mod query;
pub mod write;
