//! The events of a schedule, one after the other on its core.

ghost use Rattle.std.specs.Prelude.{◌≡◌, ◌++◌, [], ◌∷◌, All, IfErr, IfOk, IfSome, List, MatchResult, None, Ok, OnOk, Some, replicate, string_bytes};
ghost use Rattle.std.specs.List.{flat_map};
ghost use Rattle.fak_text.specs.ScheduleText.{IsActInRange};
ghost use Rattle.fak_replay.specs.Replay.{Action, IsRefusedStep, IsShownRow, actions_of, begins, list_of, outcome_of, rows_from, steps, text_of_rows};
ghost use Rattle.fak_replay.specs.Trace.{KeepsItsLine};
ghost use Rattle.fak_replay.specs.declared.fault.MainFault.TheVariants.{Memory};
ghost use Rattle.fak_replay.specs.declared.row.Row.TheVariants.{Moved, Refused};

use crate::fault::MainFault;
use crate::machine::Machine;
use crate::row::Row;
use crate::trace::Trace;
use fak_core::{CoreFault, Line};
use fak_text::{Act, Event};
use std::alloc::Global;

/// The row of a step, or of its refusal.
fn row_of_step(seat: u64, step: Result<Line, CoreFault>) -> Result<Row, MainFault>
    ensures { MatchResult step (λ line. result ≡ Ok (Moved line)) (λ fault. IsRefusedStep seat fault result) }
{
    match step {
        Ok(line) => Ok(Row::Moved(line)),
        Err(CoreFault::Memory) => Err(MainFault::Memory),
        Err(fault) => Ok(Row::Refused(seat, fault)),
    }
}

/// Makes the next step of a seat.
fn advance(machine: &mut Machine, alloc: Global, seat: u64) -> Result<Row, MainFault>
    ensures ok { IfOk result (λ row. outcome_of machine.old
        (steps seat) ≡ record { machine = machine.new; rows = row ∷ [] }) }
    ensures shown { IfOk result IsShownRow }
    ensures err { IfErr result (λ fault. fault ≡ Memory) }
{
    match machine {
        Machine::Room(core) => row_of_step(seat, core.advance(alloc, seat)),
        Machine::Queue(core) => row_of_step(seat, core.advance(alloc, seat)),
    }
}

/// The row of a call that did not begin.
fn row_of_refusal(seat: u64, begun: Result<(), CoreFault>) -> Option<Row>
    ensures { MatchResult begun (λ _. result ≡ None) (λ fault. result ≡ Some (Refused seat fault)) }
{
    match begun {
        Ok(()) => None,
        Err(fault) => Some(Row::Refused(seat, fault)),
    }
}

/// Begins a call of a seat. Returns a row if the call is refused.
fn begin(machine: &mut Machine, seat: u64, act: Act) -> Option<Row>
    requires { IsActInRange act }
    ensures outcome { outcome_of machine.old (begins seat act)
        ≡ record { machine = machine.new; rows = list_of result } }
    ensures shown { IfSome result IsShownRow }
{
    match (machine, act) {
        (Machine::Room(core), Act::Room(call)) => row_of_refusal(seat, core.begin(seat, call)),
        (Machine::Queue(core), Act::Queue(call)) => row_of_refusal(seat, core.begin(seat, call)),
        _ => None,
    }
}

/// Makes this many steps of a seat, and appends their rows.
fn make_steps(
    machine: &mut Machine,
    alloc: Global,
    seat: u64,
    count: u64,
    trace: &mut Trace,
) -> Result<(), MainFault>
    requires { KeepsItsLine trace.old }
    ensures ok { OnOk result ((rest : List Action) → string_bytes trace.new.text ++ text_of_rows
        (rows_from machine.new rest)
        ≡ string_bytes trace.old.text ++ text_of_rows (rows_from machine.old (replicate count (steps seat) ++ rest))) }
    ensures kept { OnOk result (KeepsItsLine trace.new) }
    ensures err { IfErr result (λ fault. fault ≡ Memory) }
{
    for made in 0..count {
        let row = advance(machine, alloc, seat)?;
        trace.push(row)?;
    }
    Ok(())
}

/// Makes an event, and appends its rows.
fn make_event(
    machine: &mut Machine,
    alloc: Global,
    event: Event,
    trace: &mut Trace,
) -> Result<(), MainFault>
    requires act { IsActInRange event.act }
    requires kept { KeepsItsLine trace.old }
    ensures ok { OnOk result ((rest : List Action) → string_bytes trace.new.text ++ text_of_rows
        (rows_from machine.new rest)
        ≡ string_bytes trace.old.text ++ text_of_rows (rows_from machine.old (actions_of event ++ rest))) }
    ensures kept { OnOk result (KeepsItsLine trace.new) }
    ensures err { IfErr result (λ fault. fault ≡ Memory) }
{
    match event.act {
        Act::Steps(count) => make_steps(machine, alloc, event.seat, count, trace),
        act => match begin(machine, event.seat, act) {
            Some(row) => trace.push(row),
            None => Ok(()),
        },
    }
}

/// The rows of all events, from the core's state on.
pub(crate) fn trace_of(
    mut machine: Machine,
    alloc: Global,
    events: &[Event],
) -> Result<Vec<u8>, MainFault>
    requires { All (λ event. IsActInRange event.act) events.now }
    ensures ok { IfOk result (λ text. text.items ≡ text_of_rows (rows_from machine (flat_map actions_of events.now))) }
    ensures err { IfErr result (λ fault. fault ≡ Memory) }
{
    let mut trace = Trace::new(alloc);
    for event in events {
        make_event(&mut machine, alloc, *event, &mut trace)?;
    }
    Ok(trace.into_text())
}
