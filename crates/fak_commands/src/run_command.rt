//! The command `run`: a script of processes, and the report of its run.

ghost use Rattle.std.specs.Prelude.{◌≡◌, ◌⊎◌, IfErr, IfOk};
ghost use Rattle.fak_run.specs.ReportText.{ListSchedulerPrints, RunPrints};
ghost use Rattle.fak_replay.specs.Answers.{AreSeveral, GivesAnswer, IsFaultOfRun, IsReply, RefusesLong};
ghost use Rattle.fak_replay.specs.declared.command.Command.TheVariants.{Run};
ghost use Rattle.fak_replay.specs.declared.fault.MainFault.TheVariants.{Memory};

use fak_kernel::{FreeGate, Printed, run_one_to_text, run_to_text};
use fak_replay::{Answer, MainFault};
use fak_text::{Script, read_script};
use std::alloc::Global;
use std::marker::Sync;
use std::sync::Wait;
use std::thread::Threads;

/// What a run of a script on this many processors prints.
fn printed_on(
    rt: &(impl Threads + Wait + Sync),
    alloc: Global,
    script: &Script,
    processors: u64,
) -> Result<Printed, MainFault>
    ensures one { processors ≡ 1 → IfOk result (λ printed. ListSchedulerPrints script.now printed.text.items
        printed.status) }
    ensures any { IfOk result (λ printed. RunPrints script.now printed.text.items printed.status) }
    ensures in_range { IfOk result (λ _. (processors ≡ 1) ⊎ AreSeveral processors) }
    ensures fault { IfErr result (λ fault. (fault ≡ Memory) ⊎ IsFaultOfRun processors fault) }
{
    match processors {
        1 => Ok(run_one_to_text(rt, alloc, script)?),
        _ => Ok(run_to_text(rt, alloc, script, processors, &FreeGate)?),
    }
}

/// Runs the script that the input is: on one processor the report of the list scheduler, on 2 to 8 one that keeps its
/// promises, with status 3 if a process is stuck, else 0.
///
/// # Errors
///
/// The input's first fault, then `BadProcessors` for any other number of processors. Then `Worn` if the script's stint
/// is used up, `NoThread` if the system gave no thread, or `Memory`. For an input of more than 1,048,576 bytes it is
/// `Range(Field::Input)`, even if memory runs out.
pub fn run_script(
    rt: &(impl Threads + Wait + Sync),
    alloc: Global,
    input: &[u8],
    processors: u64,
) -> Result<Answer, MainFault>
    ensures gives { GivesAnswer (IsReply (Run processors) input.now) result }
    ensures long { RefusesLong input.now result }
{
    let script = read_script(alloc, input)?;
    let Printed { text, status } = printed_on(rt, alloc, &script, processors)?;
    Ok(Answer { status, text })
}
