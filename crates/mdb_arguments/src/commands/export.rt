//! The words of `export`.

use crate::fault::RequestFault;
use crate::hashes::hash_of;
use crate::values::{now_in, number_of, text_of};
use clap::ArgMatches;
use mdb_base::request::MakeCommand;
use mdb_command_line::id;
use shard_bytes::export::{Export, ExportParts};

/// What it makes.
pub fn making_in<'a>(
    matches: &ArgMatches<'a>,
    now: Option<u64>,
) -> Result<MakeCommand<'a>, RequestFault<'a>> {
    Ok(MakeCommand::Export(text_of(matches, id::FILE)?, export_in(matches, now)?))
}

fn export_in<'a>(matches: &ArgMatches<'a>, now: Option<u64>) -> Result<Export, RequestFault<'a>> {
    Ok(Export {
        key: hash_of(text_of(matches, id::KEY)?)?,
        now: now_in(matches, now)?,
        valid_seconds: number_of(matches, id::VALID)?,
        parts: ExportParts {
            files: !matches.get_flag(id::NO_FILES),
            aux_ext: !matches.get_flag(id::NO_AUX),
            xorb_table: !matches.get_flag(id::NO_XORB_TABLE),
            chunk_table: !matches.get_flag(id::NO_CHUNK_TABLE),
        },
    })
}
