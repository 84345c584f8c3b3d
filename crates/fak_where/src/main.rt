//! The program `fak_where`: states the place at which an input of `fak` is wrong. It takes the word that `fak` takes, and the same input.
//! With the word `--version` it prints its version.
#![tactic(auto)]

#[cfg(test)]
mod tests;

use fak_places::{WhereFault, asks_version, format_of, print_version, serve, words_of};
use std::io::Write;
use std::process::ExitCode;
use std::rt::Env;
use std::{env, io};

/// Serves the words of the command line, from standard input to standard output. Returns the exit status. If the words ask for the version,
/// the input is not read.
fn run<R: Input + Print + AllocGlobal + Env>(rt: &R) -> Result<u8, WhereFault> {
    let words = words_of(rt.alloc(), env::args(rt))?;
    if asks_version(&words) {
        return print_version(&mut io::writer(rt));
    }
    let format = format_of(&words)?;
    serve(rt.alloc(), format, rt.reader(), &mut io::writer(rt))
}

fn main(rt: HostRuntime) -> ExitCode {
    match run(&rt) {
        Ok(status) => ExitCode::from(status),
        Err(fault) => {
            // A failure to print cannot be reported anywhere.
            let _ = rt.stderr().writeln(&fault);
            ExitCode::from(fault.status())
        }
    }
}
