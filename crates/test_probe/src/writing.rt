//! Commands that read buffers through devices, and write another through one.

use crate::reading::{info_of, show_info};
use crate::runs::Run;
use crate::stop::Stop;
use script_lines::command::{Command, parse_export};
use std::alloc::{AllocError, Global};
use std::io::Write;
use xet_core_structures::set_operations::{shard_set_difference, shard_set_union};
use xet_core_structures::shard_format::MDBShardInfo;

impl Run<'_> {
    /// Runs `set_union B1 B2 B [FIELD ..]` or `set_difference ..` on the sources of B1 and B2, and
    /// prints the named fields of the header and the footer that the call returns. The headers and
    /// footers of B1 and B2 are read before, by sources that do not fail.
    pub fn combine(&mut self, words: &[&str], out: &mut Vec<u8>) -> Result<(), Stop> {
        let [command, _, _, _, fields @ ..] = words else {
            return Err(Stop::Unreadable);
        };
        let alloc = self.alloc;
        let s1 = info_of(alloc, self.first.bytes)?;
        let s2 = info_of(alloc, self.second.bytes)?;
        let (r1, r2, output) = (&mut self.first, &mut self.second, &mut self.output);
        mark(alloc);
        let answer = match *command {
            "set_union" => shard_set_union(alloc, &s1, r1, &s2, r2, output),
            _ => shard_set_difference(alloc, &s1, r1, &s2, r2, output),
        };
        mark(alloc);
        show_info(&answer?, fields, out)
    }

    /// Runs `export B1 B2 KEY NOW VALID PARTS`, or `drop ..` without auxiliary rows, on the source
    /// of B1, and prints the number that the call returns. The header and the footer are read
    /// before, by a source that does not fail, but not for `export_streaming ..` and
    /// `drop_streaming ..`.
    pub fn export(&mut self, words: &[&str], out: &mut Vec<u8>) -> Result<(), Stop> {
        let [command, arguments @ ..] = words else {
            return Err(Stop::Unreadable);
        };
        let has_info = matches!(*command, "export" | "drop");
        let aux_ext = matches!(*command, "export" | "export_streaming");
        let Command::Export { export, .. } = parse_export(aux_ext, arguments)? else {
            return Err(Stop::Unreadable);
        };
        let parts = export.parts;
        macro_rules! exported {
            ($call:ident $(, $info:expr)?) => {
                MDBShardInfo::$call(
                    $($info,)? self.alloc, &mut self.first, &mut self.output, export.key,
                    export.now, export.valid_seconds, parts.files, parts.xorb_table,
                    parts.chunk_table,
                )
            };
        }
        let info = match has_info {
            true => Some(info_of(self.alloc, self.first.bytes)?),
            false => None,
        };
        let size = match (&info, aux_ext) {
            (Some(info), true) => exported!(export_as_keyed_shard, info),
            (Some(info), false) => exported!(export_as_keyed_shard_without_aux, info),
            (None, true) => exported!(export_as_keyed_shard_streaming),
            (None, false) => exported!(export_as_keyed_shard_streaming_without_aux),
        }?;
        writeln!(out, "{size}")?;
        Ok(())
    }
}

// More bytes than any machine has.
const MARK: usize = 1 << 46;

// Asks for memory that is never there. `.ci/refusals` sees by such requests where a call of the
// library begins and ends.
fn mark(alloc: Global) {
    let _refused: Result<Vec<u8>, AllocError> = Vec::with_capacity(alloc, MARK);
}
