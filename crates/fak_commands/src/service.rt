//! One command over one input and one output.

ghost use Rattle.std.specs.Prelude.{◌≡◌, ◌≢◌, ◌⊎◌, ◌++◌, ◌+◌, ◌≤◌, ℕ, List, length, take, IfOk, IfErr, OnOk, Ok};
ghost use Rattle.std.specs.Io.KnownBytes.{Appends, Keeps};
ghost use Rattle.fak_text.specs.Values.{most_bytes, most_kept};
ghost use Rattle.fak_replay.specs.Answers.{FailsToServe, GivesAnswer, IsRead, IsReply};
ghost use Rattle.fak_replay.specs.declared.fault.MainFault.TheVariants as faults;

use crate::run_command::run_script;
use fak_replay::{Answer, Command, MainFault, check, replay};
use fak_text::LARGEST_INPUT;
use std::alloc::Global;
use std::io::{Read, Write};
use std::marker::Sync;
use std::sync::Wait;
use std::thread::Threads;

/// How often the input is read at most; one that hasn't ended by then is a read fault.
const MOST_READS: u32 = 2_097_152;

/// How many bytes of the input are kept at most: one more than an input may have.
const MOST_KEPT: usize = LARGEST_INPUT + 1;

/// Appends to what is kept as much of the chunk as there is room for.
fn keep(kept: &mut Vec<u8>, chunk: &[u8]) -> Result<(), MainFault>
    ensures ok { OnOk result ((input : List ℕ) → kept.old.items ≡ take most_kept input
        → kept.new.items ≡ take most_kept (input ++ chunk.now)) }
    ensures err { IfErr result (λ e. e ≡ faults.Memory) }
{
    let room = MOST_KEPT - kept.len().min(MOST_KEPT);
    let count = room.min(chunk.len());
    kept.extend_from_slice(&chunk[..count])?;
    Ok(())
}

/// Reads the input to its end, and keeps its front: no more than shows that it is too long.
fn read_input<R: Read>(alloc: Global, reader: &mut R) -> Result<Vec<u8>, MainFault>
    ensures ok { IfOk result (λ v. (input : List ℕ) × IsRead (R.remaining reader.old) (R.remaining reader.new) input
        × (v.items ≡ take most_kept input)) }
    ensures few { IfOk result (λ v. length v.items ≤ most_bytes + 1) }
    ensures err { IfErr result (λ e. (e ≡ faults.Memory) ⊎ (e ≡ faults.Read)) }
{
    let mut kept = Vec::new(alloc);
    let mut buffer = [0u8; 4096];
    for _ in 0..MOST_READS {
        match reader.read(&mut buffer) {
            Ok(0) => return Ok(kept),
            Ok(n) => keep(&mut kept, &buffer[..n])?,
            Err(_) => return Err(MainFault::Read),
        }
    }
    Err(MainFault::Read)
}

/// The answer of a command to an input.
fn answer_of(
    rt: &(impl Threads + Wait + Sync),
    alloc: Global,
    command: Command,
    input: &[u8],
) -> Result<Answer, MainFault>
    ensures { GivesAnswer (IsReply command input.now) result }
{
    match command {
        Command::Replay => replay(alloc, input),
        Command::Check => check(alloc, input),
        Command::Run(processors) => run_script(rt, alloc, input, processors),
    }
}

/// Writes a text whole.
fn write_text<W: Write>(writer: &mut W, text: &[u8]) -> Result<(), MainFault>
    ensures ok { OnOk result (Appends (W.contents writer.old) (W.contents writer.new) text.now) }
    ensures err { IfErr result (λ e. e ≡ faults.Write) }
{
    if writer.write_all(text).is_err() {
        return Err(MainFault::Write);
    }
    if writer.flush().is_err() {
        return Err(MainFault::Write);
    }
    Ok(())
}

/// Reads all input, writes the text of the command's answer, and returns its status.
///
/// # Errors
///
/// `Read` or `Memory`, then the command's fault, then `Write`. On any fault except `Write` nothing was written.
pub fn serve<R: Read, W: Write>(
    rt: &(impl Threads + Wait + Sync),
    alloc: Global,
    command: Command,
    reader: &mut R,
    writer: &mut W,
) -> Result<u8, MainFault>
    ensures ok { IfOk result (λ status. (input text : List ℕ)
        × IsRead (R.remaining reader.old) (R.remaining reader.new) input
        × IsReply command input (Ok (status, text)) × Appends (W.contents writer.old) (W.contents writer.new) text) }
    ensures fault { IfErr result (FailsToServe command (IsRead (R.remaining reader.old) (R.remaining reader.new))) }
    ensures untouched { IfErr result (λ e. e ≢ faults.Write → Keeps (W.contents writer.old) (W.contents writer.new)) }
{
    let input = read_input(alloc, reader)?;
    let answer = answer_of(rt, alloc, command, &input)?;
    write_text(writer, &answer.text)?;
    Ok(answer.status)
}
