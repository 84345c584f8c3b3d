//! The words that ask for a command.

ghost use Rattle.std.specs.Prelude.{◌≡◌, map, string_bytes, IfErr, IfOk, IfSome, false};
ghost use Rattle.clap.specs.Words.{app_of, found_of, rows_of, rule_of, subcommand_rows_of};
ghost use Rattle.fak_commands.specs.Commands.{AskedProcessors, Asks, IsOfWords, Means, command_line, processors_rule};

use clap::error::ErrorKind;
use clap::{Arg, ArgMatches, value_parser};
use fak_kernel::MOST_PROCESSORS;
use fak_replay::{Command, MainFault};
use std::alloc::{AllocError, Global};

/// The option that says on how many processors a script runs.
fn processors_option<'a>(alloc: Global) -> Arg<'a>
    ensures rule { rule_of result ≡ processors_rule }
    ensures local { result.global ≡ false }
{
    Arg::new(alloc, "processors")
        .long("processors")
        .value_parser(value_parser!(u64))
        .default_value("1")
}

/// The grammar of the command line, which asks for neither help nor version.
fn grammar<'a>(alloc: Global) -> Result<clap::Command<'a>, AllocError>
    ensures { IfOk result (λ command. app_of command ≡ command_line) }
{
    clap::Command::new(alloc, "fak")
        .disable_help_flag(true)
        .disable_help_subcommand(true)
        .disable_version_flag(true)
        .subcommand_required(true)
        .subcommand(clap::Command::new(alloc, "replay"))?
        .subcommand(clap::Command::new(alloc, "check"))?
        .subcommand(clap::Command::new(alloc, "run").arg(processors_option(alloc))?)
}

/// The number of processors that the words of `run` ask for, if it is 1 to 8.
fn processors_of(matches: &ArgMatches) -> Option<u64>
    ensures { IfSome result (AskedProcessors (rows_of (found_of matches.now))) }
{
    let processors = matches.get_one::<u64>("processors")?;
    if processors < 1 || processors > MOST_PROCESSORS {
        return None;
    }
    Some(processors)
}

/// The command that the subcommand of a match is.
fn command_from(matches: &ArgMatches) -> Option<Command>
    ensures { IfSome result (Means (subcommand_rows_of matches.now)) }
{
    match matches.subcommand() {
        Some(("replay", _)) => Some(Command::Replay),
        Some(("check", _)) => Some(Command::Check),
        Some(("run", options)) => processors_of(options).map(Command::Run),
        _ => None,
    }
}

/// The command that the words ask for; the first word is the program's name.
///
/// # Errors
///
/// `Memory`, or `Usage` if the words ask for no command.
pub fn command_of(alloc: Global, words: Vec<String>) -> Result<Command, MainFault>
    ensures ok { IfOk result (Asks (map string_bytes words.items)) }
    ensures err { IfErr result IsOfWords }
{
    let grammar = grammar(alloc)?;
    match grammar.try_get_matches_from(words.as_slice()) {
        Ok(matches) => command_from(&matches).ok_or(MainFault::Usage),
        Err(error) => match error.kind() {
            ErrorKind::OutOfMemory => Err(MainFault::Memory),
            _ => Err(MainFault::Usage),
        },
    }
}
