//! The grammar, as clap is told it.

ghost use Rattle.std.specs.Prelude.{◌≡◌, IfOk, false, map, option_map};
ghost use Rattle.std.specs.String.{string_bytes};
ghost use Rattle.clap.specs.Words.{app_of, subcommand_rows_of};
ghost use Rattle.clap.specs.declared.builder.command.Command.TheViews.{out-Command as fields_of};
ghost use Rattle.command_words.specs.Grammar.{operand_app, program_app, parts_now, parts_in, MeetsParts};

use clap::error::ErrorKind;
use clap::{Arg, ArgMatches, Command};
use ff_xdr::NoMemory;
use std::alloc::{AllocError, Global};

/// The word behind a command's first one.
const OPERAND: &str = "operand";

/// The first word and the operand that clap reads in the words. It also takes words that are no command,
/// as those with a `--` at their end.
pub(crate) fn parts_met<'a>(
    alloc: Global,
    words: &'a [String],
) -> Result<Option<(&'a str, Option<&'a str>)>, NoMemory>
    ensures { MeetsParts (map string_bytes words.now) result }
{
    match program(alloc)?.try_get_matches_from(words) {
        Ok(matches) => Ok(parts_of(&matches)),
        Err(error) => match error.kind() {
            ErrorKind::OutOfMemory => Err(NoMemory),
            _ => Ok(None),
        },
    }
}

/// The command that was met, and its operand.
fn parts_of<'a>(matches: &ArgMatches<'a>) -> Option<(&'a str, Option<&'a str>)>
    ensures { option_map parts_now result ≡ parts_in (subcommand_rows_of matches.now) }
{
    let (word, rest) = matches.subcommand()?;
    Some((word, rest.get_str(OPERAND)))
}

/// The program, with a command of clap's for each first word. There is no help and no version.
fn program<'a>(alloc: Global) -> Result<Command<'a>, AllocError>
    ensures { IfOk result (λ c. app_of c ≡ program_app) }
{
    Command::new(alloc, "ff_cluster")
        .no_binary_name(true)
        .disable_help_flag(true)
        .disable_help_subcommand(true)
        .subcommand(with_operand(alloc, "replay", false)?)?
        .subcommand(with_operand(alloc, "gen", true)?)?
        .subcommand(Command::new(alloc, "show"))?
        .subcommand(Command::new(alloc, "ds"))?
        .subcommand(Command::new(alloc, "mds"))?
        .subcommand(with_operand(alloc, "put", true)?)?
        .subcommand(with_operand(alloc, "get", true)?)
}

/// A command of clap's with an operand, which it wants or not.
fn with_operand<'a>(alloc: Global, word: &'a str, wanted: bool) -> Result<Command<'a>, AllocError>
    ensures app { IfOk result (λ c. app_of c ≡ operand_app word.entry.now wanted) }
    ensures local { IfOk result (λ c. (fields_of c).has_globals ≡ false) }
{
    Command::new(alloc, word).arg(Arg::new(alloc, OPERAND).required(wanted))
}
