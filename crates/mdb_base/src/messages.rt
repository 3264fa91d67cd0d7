//! Messages on standard error.

use mdb_records::line::{Style, json_of};
use serde::Serialize;
use std::fmt::Display;

/// Prints a value as a line on standard error: as JSON in that style if memory allows, else as
/// text. Errors of printing are ignored.
pub fn say<R: Eprint + AllocGlobal, T: Display + Serialize>(rt: &R, style: Style, value: &T) {
    if let Style::Json = style
        && let Ok(json) = json_of(rt.alloc(), value)
    {
        let _ = rt.eprintln(json);
    } else {
        let _ = rt.eprintln(value);
    }
}
