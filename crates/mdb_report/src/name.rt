//! The name of a shard's file by its hash.

use crate::inquiry::InquiryFault;
use mdb_records::line::{Layout, print};
use serde::Serialize;
use std::alloc::Global;
use std::fmt;
use std::io::Write;
use xet_core_structures::merklehash::{HMACKey, keyed_hash};
use xet_core_structures::utils::shard_file_name;

/// The name of a file.
#[derive(Clone, Copy, Serialize)]
pub struct NameReport<'a> {
    pub name: &'a str,
}

impl fmt::Display for NameReport<'_> {
    fn fmt<W: fmt::Write>(&self, f: &mut fmt::Formatter<W>) -> fmt::Result {
        f.write_str(self.name)
    }
}

/// Prints a file's name by its hash under a key.
pub(crate) fn print_name<W: Write>(
    alloc: Global,
    bytes: &[u8],
    key: HMACKey,
    layout: Layout<'_>,
    output: &mut W,
) -> Result<(), InquiryFault> {
    let name = shard_file_name(alloc, &keyed_hash(key, bytes))?;
    let report = NameReport {
        name: name.as_str(),
    };
    print(alloc, &report, layout, output)?;
    Ok(())
}
