//! The program over the words of a command line, one input and two outputs.

ghost use Rattle.std.specs.Prelude.{◌≡◌, ◌≢◌, ◌⊎◌, map, string_bytes, IfErr, IfOk, MatchResult, OnOk};
ghost use Rattle.std.specs.Io.KnownBytes.{Appends, Keeps};
ghost use Rattle.fak_replay.specs.Answers.{IsRead};
ghost use Rattle.fak_replay.specs.Faults.{status_of};
ghost use Rattle.fak_commands.specs.Program.{Answers, EndsByFault, FailsOnWords};
ghost use Rattle.fak_replay.specs.declared.fault.MainFault.TheVariants.{Write};

use crate::command::command_of;
use crate::service::serve;
use fak_replay::MainFault;
use std::alloc::Global;
use std::io::{Read, Write};
use std::marker::Sync;
use std::sync::Wait;
use std::thread::Threads;

/// Serves the command that the words ask for. On any fault but `Write` nothing was written.
fn serve_words<R: Read, W: Write>(
    rt: &(impl Threads + Wait + Sync),
    alloc: Global,
    words: Vec<String>,
    reader: &mut R,
    writer: &mut W,
) -> Result<u8, MainFault>
    ensures ok { IfOk result (Answers (map string_bytes words.items)
        (IsRead (R.remaining reader.old) (R.remaining reader.new))
        (Appends (W.contents writer.old) (W.contents writer.new))) }
    ensures fault { IfErr result (FailsOnWords (map string_bytes words.items)
        (IsRead (R.remaining reader.old) (R.remaining reader.new))) }
    ensures untouched { IfErr result (λ e. e ≢ Write → Keeps (W.contents writer.old) (W.contents writer.new)) }
{
    let command = command_of(alloc, words)?;
    serve(rt, alloc, command, reader, writer)
}

/// The exit status of what was served: the answer's, or the fault's. A fault's text goes to `errors`, with a newline.
pub fn conclude<E: Write>(served: Result<u8, MainFault>, errors: &mut E) -> u8
    ensures status { MatchResult served (λ status. result ≡ status) (λ fault. result ≡ status_of fault) }
    ensures silent { OnOk served (Keeps (E.contents errors.old) (E.contents errors.new)) }
{
    match served {
        Ok(status) => status,
        Err(fault) => {
            // A failure to print cannot be reported anywhere.
            let _ = errors.writeln(fault);
            fault.status()
        }
    }
}

/// Serves the command that the words ask for: the text of its answer goes to `writer`, or else the fault's text, as one
/// line, to `errors`. Returns the exit status.
pub fn run_words<R: Read, W: Write, E: Write>(
    rt: &(impl Threads + Wait + Sync),
    alloc: Global,
    words: Vec<String>,
    reader: &mut R,
    writer: &mut W,
    errors: &mut E,
) -> u8
    ensures { (Answers (map string_bytes words.items) (IsRead (R.remaining reader.old) (R.remaining reader.new))
        (Appends (W.contents writer.old) (W.contents writer.new)) result
        × Keeps (E.contents errors.old) (E.contents errors.new))
        ⊎ EndsByFault (map string_bytes words.items) (IsRead (R.remaining reader.old) (R.remaining reader.new))
        (Keeps (W.contents writer.old) (W.contents writer.new)) result }
{
    let served = serve_words(rt, alloc, words, reader, writer);
    conclude(served, errors)
}
