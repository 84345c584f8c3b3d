//! The numbers of each format, and how many items its lists have, as they are read.

use crate::inputs::{Input, first_step};
use fak_core::{QueueCall, RoomCall};
use fak_model::Kind;
use fak_text::{
    Act, Field, History, Object, Schedule, Script, Step, TextFault, read_history, read_schedule,
    read_script,
};
use std::alloc::{AllocError, Global};
use std::process::Abort;

/// A number of an input: what the text is read as, and which of the numbers it is.
pub(crate) type Place = (Input, usize);

/// A number of an input, its least and its greatest, and the key at fault beyond them.
pub(crate) type Bounded = (Place, u64, u64, Field);

pub(crate) const EXTENT: Place = (Input::Schedule, 0);

pub(crate) const SEATS: Place = (Input::Schedule, 1);

pub(crate) const SEAT_OF_EVENT: Place = (Input::Schedule, 2);

pub(crate) const OF_ACT: Place = (Input::Schedule, 3);

pub(crate) const EVENTS: Place = (Input::Schedule, 4);

fn argument_of_act(act: Act) -> Option<u64> {
    match act {
        Act::Steps(n) | Act::Room(RoomCall::Tir(n) | RoomCall::Release(n)) => Some(n),
        Act::Queue(QueueCall::Insert(n)) => Some(n),
        _ => None,
    }
}

/// The extent, the seats, the seat and the argument of the first event, and how many events there are.
fn of_schedule(schedule: &Schedule) -> [Option<u64>; 5] {
    let extent = match schedule.object {
        Object::Room(n) | Object::Queue(n) => n,
    };
    let (seat, argument) = match schedule.events.first() {
        Some(event) => (Some(event.seat), argument_of_act(event.act)),
        None => (None, None),
    };
    let events = schedule.events.len() as u64;
    [
        Some(extent),
        Some(schedule.seats),
        seat,
        argument,
        Some(events),
    ]
}

pub(crate) const SIZE: Place = (Input::History, 0);

pub(crate) const SEAT_OF_MARK: Place = (Input::History, 1);

pub(crate) const OF_MARK: Place = (Input::History, 2);

pub(crate) const MARKS: Place = (Input::History, 3);

fn argument_of_mark(kind: Kind<u64>) -> Option<u64> {
    match kind {
        Kind::Put(n) | Kind::Fill(n) | Kind::Got(n) | Kind::Take(n) => Some(n),
        _ => None,
    }
}

/// The size, the seat and the argument of the first mark, and how many marks there are.
fn of_history(history: &History) -> [Option<u64>; 4] {
    let (seat, argument) = match history.marks.first() {
        Some(mark) => (Some(mark.seat), argument_of_mark(mark.kind)),
        None => (None, None),
    };
    let marks = history.marks.len() as u64;
    [Some(history.size), seat, argument, Some(marks)]
}

pub(crate) const VERSION: Place = (Input::Script, 0);

pub(crate) const SLOTS: Place = (Input::Script, 1);

pub(crate) const BIRTHS: Place = (Input::Script, 2);

pub(crate) const QUANTUM: Place = (Input::Script, 3);

pub(crate) const STINT: Place = (Input::Script, 4);

pub(crate) const FILES: Place = (Input::Script, 5);

pub(crate) const SEMAPHORE: Place = (Input::Script, 6);

pub(crate) const OF_START: Place = (Input::Script, 7);

pub(crate) const OF_STEP: Place = (Input::Script, 8);

pub(crate) const SEMAPHORES: Place = (Input::Script, 9);

pub(crate) const PROGRAMS: Place = (Input::Script, 10);

pub(crate) const STEPS: Place = (Input::Script, 11);

pub(crate) const START: Place = (Input::Script, 12);

fn argument_of_step(step: &Step) -> Option<u64> {
    match step {
        Step::Down(n) | Step::Up(n) | Step::Spawn(n) => Some(*n),
        Step::OpenFile(n) | Step::CloseFile(n) | Step::Stat(n) => Some(*n),
        _ => None,
    }
}

/// The argument of the first step of the first program.
fn first_argument(script: &Script) -> Option<u64> {
    argument_of_step(first_step(script)?)
}

/// How many steps the first program has.
fn steps_of_first(script: &Script) -> u64 {
    match script.programs().first() {
        Some(steps) => steps.len() as u64,
        None => 0,
    }
}

/// The numbers of a script, the first of each list of numbers, the first argument, and how many items there are.
fn of_script(script: &Script) -> [Option<u64>; 13] {
    [
        Some(script.version()),
        Some(script.slots()),
        Some(script.births()),
        Some(script.quantum()),
        Some(script.stint()),
        Some(script.files()),
        script.semaphores().first().copied(),
        script.start().first().copied(),
        first_argument(script),
        Some(script.semaphores().len() as u64),
        Some(script.programs().len() as u64),
        Some(steps_of_first(script)),
        Some(script.start().len() as u64),
    ]
}

fn number_at(numbers: &[Option<u64>], which: usize) -> Option<u64> {
    match numbers.get(which) {
        Some(number) => *number,
        None => None,
    }
}

/// The number that bytes have at a place, as they are read.
fn read_bytes(place: Place, alloc: Global, bytes: &[u8]) -> Result<Option<u64>, TextFault> {
    match place.0 {
        Input::Schedule => match read_schedule(alloc, bytes) {
            Ok(schedule) => Ok(number_at(&of_schedule(&schedule), place.1)),
            Err(fault) => Err(fault),
        },
        Input::History => match read_history(alloc, bytes) {
            Ok(history) => Ok(number_at(&of_history(&history), place.1)),
            Err(fault) => Err(fault),
        },
        Input::Script => match read_script(alloc, bytes) {
            Ok(script) => Ok(number_at(&of_script(&script), place.1)),
            Err(fault) => Err(fault),
        },
    }
}

/// The number that a text has at a place, or that there was no memory for the text.
fn read(
    place: Place,
    alloc: Global,
    made: Result<String, AllocError>,
) -> Result<Option<u64>, TextFault> {
    match made {
        Ok(text) => read_bytes(place, alloc, text.as_bytes()),
        Err(_) => Err(TextFault::Memory),
    }
}

/// What should be read.
fn want_at(of: Bounded, number: u64) -> Result<Option<u64>, TextFault> {
    if of.1 <= number && number <= of.2 {
        Ok(Some(number))
    } else {
        Err(TextFault::Range(of.3))
    }
}

/// Checks that the text, which begins so, has this number if it is in range, and is refused if not.
pub(crate) fn has_number(
    rt: &(impl Abort + AllocGlobal),
    of: Bounded,
    number: u64,
    made: Result<String, AllocError>,
    before: &str,
) {
    let is_so = read(of.0, rt.alloc(), made) == want_at(of, number);
    assert!(rt; is_so, "{number} behind {before}");
}
