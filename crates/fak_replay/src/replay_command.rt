//! The command `replay`: from a schedule to the trace of its atomic steps.

ghost use Rattle.std.specs.Prelude.{◌≡◌, ◌≤◌, IfErr, IfOk};
ghost use Rattle.fak_text.specs.ScheduleText.{IsObjectInRange};
ghost use Rattle.fak_replay.specs.Answers.{GivesAnswer, IsReply, RefusesLong};
ghost use Rattle.fak_replay.specs.Replay.{machine_of};
ghost use Rattle.fak_replay.specs.declared.command.Command.TheVariants.{Replay};
ghost use Rattle.fak_replay.specs.declared.fault.MainFault.TheVariants.{Memory};

use crate::answer::Answer;
use crate::events::trace_of;
use crate::fault::MainFault;
use crate::machine::Machine;
use fak_core::{QueueCore, RoomCore};
use fak_text::{Object, read_schedule};
use std::alloc::Global;

/// The core of a schedule, before its first event.
fn new_machine(alloc: Global, object: Object, seats: u64) -> Result<Machine, MainFault>
    requires object { IsObjectInRange object }
    requires seats { (1 ≤ seats) × (seats ≤ 64) }
    ensures ok { IfOk result (λ machine. machine ≡ machine_of object seats) }
    ensures err { IfErr result (λ fault. fault ≡ Memory) }
{
    let machine = match object {
        Object::Room(bound) => RoomCore::new(alloc, bound, seats).map(Machine::Room),
        Object::Queue(size) => QueueCore::new(alloc, size, seats).map(Machine::Queue),
    };
    machine.map_err(|_| MainFault::Memory)
}

/// Replays the schedule that the input is: the line of each atomic step, and of each event that the object refuses,
/// with status 0.
///
/// # Errors
///
/// The input's first fault, or `Memory`. For more than 1,048,576 bytes it is `Range(Field::Input)`, even if memory runs out.
pub fn replay(alloc: Global, input: &[u8]) -> Result<Answer, MainFault>
    ensures gives { GivesAnswer (IsReply Replay input.now) result }
    ensures long { RefusesLong input.now result }
{
    let schedule = read_schedule(alloc, input)?;
    let machine = new_machine(alloc, schedule.object, schedule.seats)?;
    let text = trace_of(machine, alloc, &schedule.events)?;
    Ok(Answer { status: 0, text })
}
