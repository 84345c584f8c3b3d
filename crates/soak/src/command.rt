//! The command line.

ghost use Rattle.std.specs.Prelude.{◌<◌, ◌≤◌, IfOk, IfSome};

use crate::fault::Fault;
use crate::parts::{Machine, run_parts};
use clap::error::ErrorKind;
use clap::{Arg, ArgMatches, value_parser};
use std::alloc::{AllocError, Global};
use std::io::Write;
use std::process::ExitCode;
use std::rt::Env;
use std::{env, io};

/// The largest number of millions.
const MOST_MILLIONS: u64 = 1000;

/// The number of rounds for a million calls.
const ROUNDS: u64 = 1000;

/// The number of rounds if none is asked for.
const FEW_ROUNDS: u64 = 20;

/// The grammar of the command line.
fn grammar<'a>(alloc: Global) -> Result<clap::Command<'a>, AllocError> {
    clap::Command::new(alloc, "soak")
        .disable_help_flag(true)
        .disable_version_flag(true)
        .arg(
            Arg::new(alloc, "millions")
                .long("millions")
                .value_parser(value_parser!(u64)),
        )
}

/// The millions that are asked for.
fn millions_from(matches: &ArgMatches) -> Result<Option<u64>, Fault>
    ensures { IfOk result (λ asked. IfSome asked (λ n. (1 ≤ n) × (n ≤ 1000))) }
{
    match matches.get_one::<u64>("millions") {
        None => Ok(None),
        Some(millions) if millions < 1 || millions > MOST_MILLIONS => Err(Fault::Usage),
        Some(millions) => Ok(Some(millions)),
    }
}

/// The fault for words that could not be read.
fn fault_of(error: &clap::Error) -> Fault {
    match error.kind() {
        ErrorKind::OutOfMemory => Fault::Memory,
        _ => Fault::Usage,
    }
}

/// What the words ask for. The first word is the program's name.
fn millions_of(alloc: Global, words: Vec<String>) -> Result<Option<u64>, Fault>
    ensures { IfOk result (λ asked. IfSome asked (λ n. (1 ≤ n) × (n ≤ 1000))) }
{
    let grammar = grammar(alloc)?;
    match grammar.try_get_matches_from(words.as_slice()) {
        Ok(matches) => millions_from(&matches),
        Err(error) => Err(fault_of(&error)),
    }
}

/// The words of the command line.
fn words_of(rt: &(impl AllocGlobal + Env)) -> Result<Vec<String>, Fault> {
    match env::args(rt) {
        Ok(words) => Ok(words.collect(rt.alloc())?),
        Err(error) if error.kind() == io::ErrorKind::OutOfMemory => Err(Fault::Memory),
        Err(_) => Err(Fault::Usage),
    }
}

/// Runs all parts, as the command line asks.
fn run<R: Machine + Print + AllocGlobal + Env>(rt: &R) -> Result<(), Fault> {
    match millions_of(rt.alloc(), words_of(rt)?)? {
        Some(millions) => {
            run_parts(rt, rt.alloc(), millions * ROUNDS, true)?;
        }
        None => {
            let parts = run_parts(rt, rt.alloc(), FEW_ROUNDS, false)?;
            println!(rt;
                "In {parts} short parts all came out as it should. With --millions they are longer."
            )?;
        }
    }
    Ok(())
}

/// Runs the program, and prints its faults on `errors`.
pub fn run_process<R: Machine + Print + AllocGlobal + Env>(
    rt: &R,
    errors: &mut impl Write,
) -> ExitCode {
    match run(rt) {
        Ok(()) => ExitCode::SUCCESS,
        Err(fault) => {
            // If this fails too, there is nowhere left to report it.
            let _ = errors.writeln(fault);
            ExitCode::from(fault.status())
        }
    }
}
