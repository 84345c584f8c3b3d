//! The program over the process's own arguments, input and outputs.

ghost use Rattle.std.specs.Prelude.{◌≡◌, ◌≢◌, Err, IfErr, OnOk};
ghost use Rattle.std.specs.IoError.{error_kind};
ghost use Rattle.std.specs.declared.io.ErrorKind.TheVariants.{OutOfMemory};
ghost use Rattle.fak_replay.specs.declared.fault.MainFault.TheVariants.{Memory, Usage};

use fak_commands::{MainFault, conclude, run_words};
use std::alloc::Global;
use std::env::Args;
use std::io::{ErrorKind, Write};
use std::marker::Sync;
use std::process::ExitCode;
use std::rt::Env;
use std::sync::Wait;
use std::thread::Threads;
use std::{env, io};

/// The words of the command line, from the process's arguments.
///
/// # Errors
///
/// `Memory` if there was none for them, or `Usage` if they could not be had for any other cause, such as a word that is
/// not UTF-8.
fn words_of(alloc: Global, arguments: io::Result<Args>) -> Result<Vec<String>, MainFault>
    ensures had { OnOk arguments (IfErr result (λ fault. fault ≡ Memory)) }
    ensures memory { IfErr arguments (λ error. error_kind error ≡ OutOfMemory → result ≡ Err Memory) }
    ensures other { IfErr arguments (λ error. error_kind error ≢ OutOfMemory → result ≡ Err Usage) }
{
    match arguments {
        Ok(words) => Ok(words.collect(alloc)?),
        Err(error) if error.kind() == ErrorKind::OutOfMemory => Err(MainFault::Memory),
        Err(_) => Err(MainFault::Usage),
    }
}

/// Runs the program on standard input and output, with its faults on `errors`.
pub fn run_process<R: Input + Print + AllocGlobal + Env + Threads + Wait + Sync>(
    rt: &R,
    errors: &mut impl Write,
) -> ExitCode {
    let status = match words_of(rt.alloc(), env::args(rt)) {
        Ok(words) => run_words(
            rt,
            rt.alloc(),
            words,
            &mut rt.reader(),
            &mut io::writer(rt),
            errors,
        ),
        Err(fault) => conclude(Err(fault), errors),
    };
    ExitCode::from(status)
}
