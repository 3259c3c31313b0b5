//! The words that the program takes.

use crate::arguments::Argument;
use crate::commands::{
    CommandWords, DUMP, EXPLAIN, FILES, FINISH, LIST_ELEMENTS, MERGE, RECORD, TABLES, TCP, VERIFY,
};
use crate::subcommands::Subcommand;
use clap::{ArgMatches, Command, Error};
use std::alloc::{AllocError, Global};

/// The version, which `--version` prints and `CHANGELOG.md` describes.
pub const VERSION: &str = "0.1.0";

/// What the words of a command line say, or the text that the parser has for them.
pub fn matches_of<'a>(alloc: Global, words: &'a [String]) -> Result<ArgMatches<'a>, Error> {
    command(alloc)?.try_get_matches_from(words)
}

fn command<'a>(alloc: Global) -> Result<Command<'a>, AllocError> {
    let mut command = Command::new(alloc, "collectd")
        .version(VERSION)
        .about("Collects flow records sent as IPFIX and adds them up")
        .subcommand_required(true)
        .arg_required_else_help(true);
    for named in Subcommand::ALL {
        command = command.subcommand(subcommand(alloc, named)?)?;
    }
    Ok(command)
}

// What the parser is told of a command.
fn subcommand<'a>(alloc: Global, named: Subcommand) -> Result<Command<'a>, AllocError> {
    let words = words_of(named);
    let command = Command::new(alloc, named.word())
        .about(words.about)
        .after_help(words.example);
    with_each(alloc, with_each(alloc, command, words.shared)?, words.own)
}

// A command that has these arguments, too.
fn with_each<'a>(
    alloc: Global,
    mut command: Command<'a>,
    arguments: &[Argument],
) -> Result<Command<'a>, AllocError> {
    for argument in arguments {
        command = command.arg(argument.told(alloc)?)?;
    }
    Ok(command)
}

fn words_of(named: Subcommand) -> CommandWords {
    match named {
        Subcommand::Dump => DUMP,
        Subcommand::Files => FILES,
        Subcommand::Tcp => TCP,
        Subcommand::Record => RECORD,
        Subcommand::Finish => FINISH,
        Subcommand::Tables => TABLES,
        Subcommand::Merge => MERGE,
        Subcommand::Verify => VERIFY,
        Subcommand::Elements => LIST_ELEMENTS,
        Subcommand::Explain => EXPLAIN,
    }
}
