//! The command line of `mdb`: its commands and their arguments, with their help.
#![tactic(auto)]

mod arguments;
mod commands;
pub mod id;
mod row;

use clap::{Arg, ArgAction, Command, value_parser};
use commands::{inquiries, makings};
use row::{Argument, Row, SORTS, Takes, VERSIONS};
use std::alloc::{AllocError, Global};

/// The version of the program.
const VERSION: &str = "0.2.0, for versions 2 and 3 of the format";

/// The command line of the program.
pub fn command_line<'a>(alloc: Global) -> Result<Command<'a>, AllocError> {
    let mut command = Command::new(alloc, "mdb")
        .bin_name("mdb")?
        .about("Looks into .mdb files, checks them, and makes new ones of them")
        .version(VERSION)
        .subcommand_required(true)
        .arg_required_else_help(true);
    for row in inquiries().iter().chain(makings()) {
        command = command.subcommand(command_of(alloc, row)?)?;
    }
    Ok(command)
}

/// A command by its name, or the whole command line if none has it.
pub fn command_named<'a>(alloc: Global, name: &str) -> Result<Command<'a>, AllocError> {
    let named = row_named(inquiries(), name).or(row_named(makings(), name));
    let Some(row) = named else {
        return command_line(alloc);
    };
    let bin_name = format!(in alloc; "mdb {name}")?;
    command_of(alloc, row)?.bin_name(bin_name.as_str())
}

fn row_named(rows: &'static [Row], name: &str) -> Option<&'static Row> {
    for row in rows {
        if row.name == name {
            return Some(row);
        }
    }
    None
}

fn command_of<'a>(alloc: Global, row: &Row) -> Result<Command<'a>, AllocError> {
    let mut command = Command::new(alloc, row.name)
        .about(row.about)
        .after_help(row.examples);
    if let Some(usage) = row.usage {
        command = command.override_usage(usage);
    }
    for argument in row.arguments {
        command = command.arg(arg_of(alloc, argument)?)?;
    }
    Ok(command)
}

fn arg_of<'a>(alloc: Global, argument: &Argument) -> Result<Arg<'a>, AllocError> {
    let mut arg = Arg::new(alloc, argument.id).help(argument.help);
    if let Some(long) = argument.long {
        arg = arg.long(long);
    }
    if let Some(letter) = argument.letter {
        arg = arg.short(letter);
    }
    match argument.takes {
        Takes::ValuesOrList => arg.num_args(1..).required_unless_present(id::LIST),
        Takes::OutputOrFolder => arg.required_unless_present_any(&[id::FOLDER, id::GROUPS]),
        Takes::Folder => arg.conflicts_with(id::OUTPUT),
        Takes::Groups => arg
            .conflicts_with_all(&[id::OUTPUT, id::FOLDER])?
            .requires_all(&[id::MAX_SIZE, id::HASH_KEY]),
        Takes::ValueWithGroups => arg.requires_arg(id::GROUPS),
        Takes::ValueWithoutGroups => arg.conflicts_with(id::GROUPS),
        Takes::NothingWithGroups => arg.action(ArgAction::SetTrue).requires_arg(id::GROUPS),
        Takes::Sort => arg.value_parser(SORTS).requires_arg(id::BRIEF),
        Takes::NothingWithoutJson => arg.action(ArgAction::SetTrue).conflicts_with(id::JSON),
        Takes::NothingWithoutCosts => arg.action(ArgAction::SetTrue).conflicts_with(id::COSTS),
        takes => Ok(with_takes(arg, takes)),
    }
}

// An argument whose kind does not depend on other arguments.
fn with_takes<'a>(arg: Arg<'a>, takes: Takes) -> Arg<'a> {
    match takes {
        Takes::Nothing => arg.action(ArgAction::SetTrue),
        Takes::NeededValue => arg.required(true),
        Takes::NeededNumber => arg.required(true).value_parser(value_parser!(u64)),
        Takes::EachValue => arg.action(ArgAction::Append),
        Takes::Version => arg.value_parser(VERSIONS),
        _ => arg,
    }
}
