//! The commands of scripts, parsed from lines or their words.

ghost use Rattle.std.specs.Prelude.{◌≡◌, if◌then◌else◌, ◌⊎◌, IfOk, IfErr, IfSome, OnErr, IsOkAnd, IsNone, IsErrOf, IsUtf8};
ghost use Rattle.shard_bytes.specs.declared.export.ExportParts.{ExportParts as AnyParts};
ghost use Rattle.shard_bytes.specs.declared.minimal.KeptXorbs.{KeptXorbs as AnyKept};
ghost use Rattle.xet_core_structures.specs.declared.file_structs.KeptParts.{KeptParts as AnyKeptParts};
ghost use Rattle.script_lines.specs.Commands.{texts, write_verb, combine_verb, verb_of, parts_word, kept_word, SpellKept, AreArguments, AreCommand, BeginWithVerb, TakesRecord};
ghost use Rattle.script_lines.specs.Words.{IsSkipped};
ghost use Rattle.script_lines.specs.declared.command.Command.{Command as AnyCommand};

use crate::files_and_xorbs::{parse_file, parse_xorb};
use crate::lines::{is_skipped, split_words};
use crate::ranges::{ByteRange, parse_range};
use crate::records::{Form, parse_hashes};
use crate::tree::{NameTree, parse_tree};
use crate::verb::{Verb, parse_verb};
use crate::words::{
    ParseError, parse_flags, parse_hash, parse_key, parse_name, parse_optional_u64, parse_u64,
    parse_u64_or_dash,
};
use shard_bytes::combine::Operation;
use shard_bytes::export::{Export, ExportParts};
use shard_bytes::minimal::{KeptXorbs, Subset};
use std::alloc::Global;
use xet_core_structures::file_structs::{KeptParts, MDBFileInfo};
use xet_core_structures::merklehash::MerkleHash;
use xet_core_structures::record_reader::FormatVersion;
use xet_core_structures::xorb_structs::MDBXorbInfo;

/// A command. Its names are those in the line; whether they exist is not checked here.
#[derive(Drop)]
pub enum Command<'a> {
    /// `shard S`: an empty shard.
    Shard {
        shard: &'a str,
    },
    /// `xorb S HASH CHUNK:SIZE ..`: adds a xorb to a shard.
    Xorb {
        shard: &'a str,
        xorb: MDBXorbInfo,
    },
    /// `file S HASH [v=HASH,HASH..] [s=HASH] [x=HASH] XORB:START:END:BYTES ..`: adds a file to a
    /// shard.
    File {
        shard: &'a str,
        file: MDBFileInfo,
    },
    /// `write S B [EXPIRY]`, or `write2 S B [EXPIRY]` for version 2: a shard's bytes into a buffer.
    Write {
        version: FormatVersion,
        shard: &'a str,
        buffer: &'a str,
        expiry: Option<u64>,
    },
    /// `union B1 B2 B3` or `diff B1 B2 B3`: the union or the difference of the shards in two
    /// buffers, into the third.
    Combine {
        operation: Operation,
        first: &'a str,
        second: &'a str,
        buffer: &'a str,
    },
    /// `merge B TREE`: what a tree of unions over buffers gives, into a buffer.
    Merge {
        buffer: &'a str,
        tree: NameTree<'a>,
    },
    /// `export B1 B2 KEY NOW VALID OPT`: a keyed export of the shard in a buffer, into another;
    /// with `drop` for `export`, without auxiliary rows.
    Export {
        from: &'a str,
        buffer: &'a str,
        export: Export,
    },
    /// `minimal B1 B2 NOW OPT`: the minimal shard of the shard in a buffer, into another; with
    /// `dropmin` for `minimal`, without auxiliary rows.
    Minimal {
        from: &'a str,
        buffer: &'a str,
        now: u64,
        kept: KeptParts,
    },
    /// `subset B1 B2 NOW EXPIRY LIST`: some xorbs of the shard in a buffer, into another.
    Subset {
        from: &'a str,
        buffer: &'a str,
        subset: Subset,
    },
    /// `eligible B`: prints the chunks of a buffer's shard that the global index keeps.
    Eligible {
        buffer: &'a str,
    },
    /// `find B HASH`: looks up a file in a buffer's bytes and prints its record, or `none`.
    Find {
        buffer: &'a str,
        hash: MerkleHash,
    },
    /// `query B HASH ..`: looks for a run of these chunks in a buffer's bytes and prints it, or
    /// `none`.
    Query {
        buffer: &'a str,
        hashes: Vec<MerkleHash>,
    },
    /// `size B`: prints a buffer's length.
    Size {
        buffer: &'a str,
    },
    /// `hex B [FROM LEN]`: prints a buffer's bytes, or those of a range.
    Hex {
        buffer: &'a str,
        range: Option<ByteRange>,
    },
}

/// The command of a line without its line end, its records in the plain form, or `None` for an
/// empty line or one that begins with `#`. `Unreadable` if the line is not UTF-8 or not a command.
pub fn parse_line(alloc: Global, line: &[u8]) -> Result<Option<Command<'_>>, ParseError>
    ensures skipped { IsSkipped line.now → IsOkAnd result IsNone }
    ensures others { IfOk result (λ command. IsNone command → IsSkipped line.now) }
    ensures text { ¬ (IsSkipped line.now) → ¬ (IsUtf8 line.now)
        → IsErrOf result ParseError.Unreadable }
{
    if is_skipped(line) {
        return Ok(None);
    }
    let Ok(text) = str::from_utf8(line) else {
        return Err(ParseError::Unreadable);
    };
    let words = split_words(alloc, text)?;
    match parse_words(alloc, words.as_slice(), Form::Plain)? {
        None => Err(ParseError::Unreadable),
        command => Ok(command),
    }
}

/// The command of the words of a line, its records read in a form. `None` if the first word is no
/// command, `Unreadable` if the others are not what it takes.
pub fn parse_words<'a>(
    alloc: Global,
    words: &[&'a str],
    form: Form,
) -> Result<Option<Command<'a>>, ParseError>
    ensures found { IfOk result (λ found. IfSome found (AreCommand (texts words.now))) }
    ensures none { IfOk result (λ found. IsNone found → ¬ BeginWithVerb (texts words.now)) }
    ensures verb { OnErr result (BeginWithVerb (texts words.now)) }
    ensures every { (command : AnyCommand) → AreCommand (texts words.now) command
        → IfErr result (λ e. TakesRecord (verb_of command) ⊎ (e ≡ ParseError.OutOfMemory)) }
{
    let Some((word, arguments)) = words.split_first() else {
        return Ok(None);
    };
    match parse_verb(word) {
        Some(verb) => Ok(Some(parse_arguments(alloc, verb, arguments, form)?)),
        None => Ok(None),
    }
}

// The command of a verb and the words behind it.
fn parse_arguments<'a>(
    alloc: Global,
    verb: Verb,
    arguments: &[&'a str],
    form: Form,
) -> Result<Command<'a>, ParseError>
    ensures found { IfOk result
        (λ command. (verb_of command ≡ verb) × AreArguments (texts arguments.now) command) }
    ensures every { (command : AnyCommand) → verb_of command ≡ verb
        → AreArguments (texts arguments.now) command
        → IfErr result (λ e. TakesRecord verb ⊎ (e ≡ ParseError.OutOfMemory)) }
{
    match verb {
        Verb::Shard => parse_shard(arguments),
        Verb::Xorb => parse_xorb_line(alloc, arguments, form),
        Verb::File => parse_file_line(alloc, arguments, form),
        Verb::Write => parse_write(FormatVersion::V3, arguments),
        Verb::Write2 => parse_write(FormatVersion::V2, arguments),
        Verb::Union => parse_combine(Operation::Union, arguments),
        Verb::Diff => parse_combine(Operation::Difference, arguments),
        Verb::Merge => parse_merge(alloc, arguments),
        Verb::Export => parse_export(true, arguments),
        Verb::Drop => parse_export(false, arguments),
        Verb::Minimal => parse_minimal(true, arguments),
        Verb::DropMin => parse_minimal(false, arguments),
        Verb::Subset => parse_subset(alloc, arguments),
        Verb::Eligible => parse_eligible(arguments),
        Verb::Find => parse_find(arguments),
        Verb::Query => parse_query(alloc, arguments),
        Verb::Size => parse_size(arguments),
        Verb::Hex => parse_hex(arguments),
    }
}

fn parse_shard<'a>(arguments: &[&'a str]) -> Result<Command<'a>, ParseError>
    ensures found { IfOk result
        (λ command. (verb_of command ≡ Verb.Shard) × AreArguments (texts arguments.now) command) }
    ensures every { (command : AnyCommand) → verb_of command ≡ Verb.Shard
        → AreArguments (texts arguments.now) command
        → IfErr result (λ e. e ≡ ParseError.OutOfMemory) }
{
    let [shard] = arguments else {
        return Err(ParseError::Unreadable);
    };
    let shard = parse_name(shard)?;
    Ok(Command::Shard { shard })
}

fn parse_xorb_line<'a>(
    alloc: Global,
    arguments: &[&'a str],
    form: Form,
) -> Result<Command<'a>, ParseError>
    ensures { IfOk result
        (λ command. (verb_of command ≡ Verb.Xorb) × AreArguments (texts arguments.now) command) }
{
    let [shard, record @ ..] = arguments else {
        return Err(ParseError::Unreadable);
    };
    let shard = parse_name(shard)?;
    let xorb = parse_xorb(alloc, record, form)?;
    Ok(Command::Xorb { shard, xorb })
}

fn parse_file_line<'a>(
    alloc: Global,
    arguments: &[&'a str],
    form: Form,
) -> Result<Command<'a>, ParseError>
    ensures { IfOk result
        (λ command. (verb_of command ≡ Verb.File) × AreArguments (texts arguments.now) command) }
{
    let [shard, record @ ..] = arguments else {
        return Err(ParseError::Unreadable);
    };
    let shard = parse_name(shard)?;
    let file = parse_file(alloc, record, form)?;
    Ok(Command::File { shard, file })
}

fn parse_write<'a>(version: FormatVersion, arguments: &[&'a str]) -> Result<Command<'a>, ParseError>
    ensures found { IfOk result
        (λ command. (verb_of command ≡ (write_verb version)) × AreArguments (texts arguments.now) command) }
    ensures every { (command : AnyCommand) → verb_of command ≡ (write_verb version)
        → AreArguments (texts arguments.now) command
        → IfErr result (λ e. e ≡ ParseError.OutOfMemory) }
{
    let [shard, buffer, expiry @ ..] = arguments else {
        return Err(ParseError::Unreadable);
    };
    Ok(Command::Write {
        version,
        shard: parse_name(shard)?,
        buffer: parse_name(buffer)?,
        expiry: parse_optional_u64(expiry)?,
    })
}

fn parse_combine<'a>(operation: Operation, arguments: &[&'a str]) -> Result<Command<'a>, ParseError>
    ensures found { IfOk result
        (λ command. (verb_of command ≡ (combine_verb operation)) × AreArguments (texts arguments.now) command) }
    ensures every { (command : AnyCommand) → verb_of command ≡ (combine_verb operation)
        → AreArguments (texts arguments.now) command
        → IfErr result (λ e. e ≡ ParseError.OutOfMemory) }
{
    let [first, second, buffer] = arguments else {
        return Err(ParseError::Unreadable);
    };
    Ok(Command::Combine {
        operation,
        first: parse_name(first)?,
        second: parse_name(second)?,
        buffer: parse_name(buffer)?,
    })
}

fn parse_merge<'a>(alloc: Global, arguments: &[&'a str]) -> Result<Command<'a>, ParseError>
    ensures found { IfOk result
        (λ command. (verb_of command ≡ Verb.Merge) × AreArguments (texts arguments.now) command) }
    ensures every { (command : AnyCommand) → verb_of command ≡ Verb.Merge
        → AreArguments (texts arguments.now) command
        → IfErr result (λ e. e ≡ ParseError.OutOfMemory) }
{
    let [buffer, rest @ ..] = arguments else {
        return Err(ParseError::Unreadable);
    };
    let buffer = parse_name(buffer)?;
    let tree = parse_tree(alloc, rest)?;
    Ok(Command::Merge { buffer, tree })
}

/// The command of the words behind `export`, or without auxiliary rows behind `drop`.
pub fn parse_export<'a>(aux_ext: bool, arguments: &[&'a str]) -> Result<Command<'a>, ParseError>
    ensures found { IfOk result
        (λ command. (verb_of command ≡ (if aux_ext then Verb.Export else Verb.Drop)) × AreArguments (texts arguments.now) command) }
    ensures every { (command : AnyCommand) → verb_of command ≡ (if aux_ext then Verb.Export else Verb.Drop)
        → AreArguments (texts arguments.now) command
        → IfErr result (λ e. e ≡ ParseError.OutOfMemory) }
{
    let [from, buffer, key, now, valid, parts] = arguments else {
        return Err(ParseError::Unreadable);
    };
    let from = parse_name(from)?;
    let buffer = parse_name(buffer)?;
    let export = Export {
        key: parse_key(key)?,
        now: parse_u64(now)?,
        valid_seconds: parse_u64(valid)?,
        parts: parse_parts(aux_ext, parts)?,
    };
    Ok(Command::Export {
        from,
        buffer,
        export,
    })
}

fn parse_parts(aux_ext: bool, word: &str) -> Result<ExportParts, ParseError>
    ensures found { IfOk result
        (λ parts. (parts.aux_ext ≡ aux_ext) × (word.now ≡ parts_word parts)) }
    ensures none { OnErr result ((parts : AnyParts) → ¬ (word.now ≡ parts_word parts)) }
    ensures causes { IfErr result (λ e. e ≡ ParseError.Unreadable) }
{
    let [files, xorb_table, chunk_table] = parse_flags(word, b"fxc")?;
    Ok(ExportParts {
        files,
        aux_ext,
        xorb_table,
        chunk_table,
    })
}

fn parse_minimal<'a>(aux_ext: bool, arguments: &[&'a str]) -> Result<Command<'a>, ParseError>
    ensures found { IfOk result
        (λ command. (verb_of command ≡ (if aux_ext then Verb.Minimal else Verb.DropMin)) × AreArguments (texts arguments.now) command) }
    ensures every { (command : AnyCommand) → verb_of command ≡ (if aux_ext then Verb.Minimal else Verb.DropMin)
        → AreArguments (texts arguments.now) command
        → IfErr result (λ e. e ≡ ParseError.OutOfMemory) }
{
    let [from, buffer, now, option] = arguments else {
        return Err(ParseError::Unreadable);
    };
    Ok(Command::Minimal {
        from: parse_name(from)?,
        buffer: parse_name(buffer)?,
        now: parse_u64(now)?,
        kept: parse_kept_parts(aux_ext, option)?,
    })
}

fn parse_kept_parts(aux_ext: bool, word: &str) -> Result<KeptParts, ParseError>
    ensures found { IfOk result
        (λ kept. (kept.aux_ext ≡ aux_ext) × (word.now ≡ kept_word kept)) }
    ensures none { OnErr result ((kept : AnyKeptParts) → ¬ (word.now ≡ kept_word kept)) }
    ensures causes { IfErr result (λ e. e ≡ ParseError.Unreadable) }
{
    let [verification] = parse_flags(word, b"v")?;
    Ok(KeptParts {
        verification,
        aux_ext,
    })
}

fn parse_subset<'a>(alloc: Global, arguments: &[&'a str]) -> Result<Command<'a>, ParseError>
    ensures found { IfOk result
        (λ command. (verb_of command ≡ Verb.Subset) × AreArguments (texts arguments.now) command) }
    ensures every { (command : AnyCommand) → verb_of command ≡ Verb.Subset
        → AreArguments (texts arguments.now) command
        → IfErr result (λ e. e ≡ ParseError.OutOfMemory) }
{
    let [from, buffer, now, expiry, list @ ..] = arguments else {
        return Err(ParseError::Unreadable);
    };
    let from = parse_name(from)?;
    let buffer = parse_name(buffer)?;
    let now = parse_u64(now)?;
    let expiry = parse_u64_or_dash(expiry)?;
    let kept = parse_kept(alloc, list)?;
    let subset = Subset { now, expiry, kept };
    Ok(Command::Subset {
        from,
        buffer,
        subset,
    })
}

/// The xorbs of a list: all if it is `*`, else those with its hashes. `Unreadable` if it is empty or
/// has another word that is not a hash.
pub fn parse_kept(alloc: Global, list: &[&str]) -> Result<KeptXorbs, ParseError>
    ensures found { IfOk result (SpellKept (texts list.now)) }
    ensures every { (kept : AnyKept) → SpellKept (texts list.now) kept
        → IfErr result (λ e. e ≡ ParseError.OutOfMemory) }
{
    match list {
        [] => Err(ParseError::Unreadable),
        ["*"] => Ok(KeptXorbs::All),
        list => Ok(KeptXorbs::Listed(parse_hashes(alloc, list)?)),
    }
}

fn parse_eligible<'a>(arguments: &[&'a str]) -> Result<Command<'a>, ParseError>
    ensures found { IfOk result
        (λ command. (verb_of command ≡ Verb.Eligible) × AreArguments (texts arguments.now) command) }
    ensures every { (command : AnyCommand) → verb_of command ≡ Verb.Eligible
        → AreArguments (texts arguments.now) command
        → IfErr result (λ e. e ≡ ParseError.OutOfMemory) }
{
    let [buffer] = arguments else {
        return Err(ParseError::Unreadable);
    };
    let buffer = parse_name(buffer)?;
    Ok(Command::Eligible { buffer })
}

fn parse_find<'a>(arguments: &[&'a str]) -> Result<Command<'a>, ParseError>
    ensures found { IfOk result
        (λ command. (verb_of command ≡ Verb.Find) × AreArguments (texts arguments.now) command) }
    ensures every { (command : AnyCommand) → verb_of command ≡ Verb.Find
        → AreArguments (texts arguments.now) command
        → IfErr result (λ e. e ≡ ParseError.OutOfMemory) }
{
    let [buffer, hash] = arguments else {
        return Err(ParseError::Unreadable);
    };
    let buffer = parse_name(buffer)?;
    let hash = parse_hash(hash)?;
    Ok(Command::Find { buffer, hash })
}

fn parse_query<'a>(alloc: Global, arguments: &[&'a str]) -> Result<Command<'a>, ParseError>
    ensures found { IfOk result
        (λ command. (verb_of command ≡ Verb.Query) × AreArguments (texts arguments.now) command) }
    ensures every { (command : AnyCommand) → verb_of command ≡ Verb.Query
        → AreArguments (texts arguments.now) command
        → IfErr result (λ e. e ≡ ParseError.OutOfMemory) }
{
    let [buffer, rest @ ..] = arguments else {
        return Err(ParseError::Unreadable);
    };
    let buffer = parse_name(buffer)?;
    let hashes = parse_hashes(alloc, rest)?;
    Ok(Command::Query { buffer, hashes })
}

fn parse_size<'a>(arguments: &[&'a str]) -> Result<Command<'a>, ParseError>
    ensures found { IfOk result
        (λ command. (verb_of command ≡ Verb.Size) × AreArguments (texts arguments.now) command) }
    ensures every { (command : AnyCommand) → verb_of command ≡ Verb.Size
        → AreArguments (texts arguments.now) command
        → IfErr result (λ e. e ≡ ParseError.OutOfMemory) }
{
    let [buffer] = arguments else {
        return Err(ParseError::Unreadable);
    };
    let buffer = parse_name(buffer)?;
    Ok(Command::Size { buffer })
}

fn parse_hex<'a>(arguments: &[&'a str]) -> Result<Command<'a>, ParseError>
    ensures found { IfOk result
        (λ command. (verb_of command ≡ Verb.Hex) × AreArguments (texts arguments.now) command) }
    ensures every { (command : AnyCommand) → verb_of command ≡ Verb.Hex
        → AreArguments (texts arguments.now) command
        → IfErr result (λ e. e ≡ ParseError.OutOfMemory) }
{
    let [buffer, range @ ..] = arguments else {
        return Err(ParseError::Unreadable);
    };
    let buffer = parse_name(buffer)?;
    let range = parse_range(range)?;
    Ok(Command::Hex { buffer, range })
}
