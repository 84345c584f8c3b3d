//! The command line.

ghost use Rattle.std.specs.Prelude.{IfOk, IfSome};
ghost use Rattle.bench_objects.specs.Plans.{IsInRange};

use crate::case::Plan;
use crate::fault::Fault;
use crate::report::{measure, try_each};
use crate::run::Machine;
use crate::tail_table::measure_tails;
use clap::error::ErrorKind;
use clap::{Arg, ArgAction, ArgMatches, value_parser};
use std::alloc::{AllocError, Global};
use std::io::Write;
use std::process::ExitCode;
use std::rt::Env;
use std::{env, io};

/// No more rounds than this.
const MOST_ROUNDS: u64 = 1000;

/// No more items than this.
const MOST_ITEMS: u64 = 10_000_000;

/// An option without a value.
fn flag<'a>(alloc: Global, name: &'static str) -> Arg<'a> {
    Arg::new(alloc, name).long(name).action(ArgAction::SetTrue)
}

/// An option with a number.
fn number<'a>(alloc: Global, name: &'static str, default: &'static str) -> Arg<'a> {
    Arg::new(alloc, name)
        .long(name)
        .value_parser(value_parser!(u64))
        .default_value(default)
}

/// The grammar of the command line.
fn grammar<'a>(alloc: Global) -> Result<clap::Command<'a>, AllocError> {
    clap::Command::new(alloc, "bench_objects")
        .disable_help_flag(true)
        .disable_version_flag(true)
        .arg(flag(alloc, "figures"))?
        .arg(flag(alloc, "tails"))?
        .arg(number(alloc, "rounds", "9"))?
        .arg(number(alloc, "items", "100000"))
}

/// What the options ask for; `None` if no figures are asked for.
fn plan_from(matches: &ArgMatches) -> Result<Option<Plan>, Fault>
    ensures { IfOk result (λ asked. IfSome asked IsInRange) }
{
    let (Some(rounds), Some(items)) = (
        matches.get_one::<u64>("rounds"),
        matches.get_one::<u64>("items"),
    ) else {
        return Err(Fault::Usage);
    };
    if rounds < 1 || rounds > MOST_ROUNDS || items < 1 || items > MOST_ITEMS {
        return Err(Fault::Usage);
    }
    match (matches.get_flag("figures"), matches.get_flag("tails")) {
        (false, false) => Ok(None),
        (true, true) => Err(Fault::Usage),
        (_, tails) => Ok(Some(Plan {
            rounds,
            items,
            tails,
        })),
    }
}

/// Why the words were not read.
fn fault_of(error: &clap::Error) -> Fault {
    match error.kind() {
        ErrorKind::OutOfMemory => Fault::Memory,
        _ => Fault::Usage,
    }
}

/// What the words ask for; `None` if no figures are asked for. The first word is the program's name.
pub fn plan_of(alloc: Global, words: Vec<String>) -> Result<Option<Plan>, Fault>
    ensures { IfOk result (λ asked. IfSome asked IsInRange) }
{
    let grammar = grammar(alloc)?;
    match grammar.try_get_matches_from(words.as_slice()) {
        Ok(matches) => plan_from(&matches),
        Err(error) => Err(fault_of(&error)),
    }
}

/// The words of the command line.
fn words_of(rt: &(impl AllocGlobal + Env)) -> Result<Vec<String>, Fault> {
    match env::args(rt) {
        Ok(words) => Ok(words.collect(rt.alloc())?),
        Err(error) if error.kind() == io::ErrorKind::OutOfMemory => Err(Fault::Memory),
        Err(_) => Err(Fault::Usage),
    }
}

/// Prints the figures, or that each case was run if no figures are asked for.
fn run<R: Machine + Print + AllocGlobal + Env>(rt: &R) -> Result<(), Fault> {
    match plan_of(rt.alloc(), words_of(rt)?)? {
        Some(plan) if plan.tails => measure_tails(rt, rt.alloc(), plan),
        Some(plan) => measure(rt, rt.alloc(), plan),
        None => {
            let runs = try_each(rt, rt.alloc())?;
            println!(rt;
                "In {runs} short runs all items came out once. With --figures they are measured."
            )?;
            Ok(())
        }
    }
}

/// Runs the program, with its faults on `errors`.
pub fn run_process<R: Machine + Print + AllocGlobal + Env>(
    rt: &R,
    errors: &mut impl Write,
) -> ExitCode {
    match run(rt) {
        Ok(()) => ExitCode::SUCCESS,
        Err(fault) => {
            // A failure to print cannot be reported anywhere.
            let _ = errors.writeln(fault);
            ExitCode::from(fault.status())
        }
    }
}
