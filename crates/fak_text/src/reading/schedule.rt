//! The reader of schedules.

ghost use Rattle.std.specs.Prelude.{◌≡◌, IfOk};
ghost use Rattle.serde_json.specs.View.{view, items_view};
ghost use Rattle.fak_text.specs.Gives.{Gives};
ghost use Rattle.fak_text.specs.Values.{RefusesLong, each_from};
ghost use Rattle.fak_text.specs.ScheduleText.{schedule_of, room_op, queue_op, op_named, without_number, third, third_within, steps_act, act_from, event_from, object_named, object_from, schedule_from, schedule_in, IsScheduleInRange};

use crate::fault::{Field, TextFault};
use crate::reading::values::{
    count, elements_of_key, input_in, number_at, number_of_key, number_within, text_at,
    value_of_key,
};
use crate::schedule::{Act, Event, Object, Schedule};
use fak_core::{QueueCall, RoomCall};
use fak_model::{LARGEST_BOUND, LARGEST_SIZE, MOST_SEATS};
use serde_json::Value;
use std::alloc::Global;

const FAULT: TextFault = TextFault::Range(Field::Events);

const MOST_EVENTS: usize = 16_384;

const MOST_AMOUNT: u64 = 1_024;

const MOST_STEPS: u64 = 64;

/// The operations of events.
#[derive(Clone, Copy)]
pub(crate) enum Op {
    Step,
    Tir,
    Release,
    Insert,
    Delete,
    Shut,
}

#[tactic(auto, unfolding(crate::specs::ScheduleText::room_op))]
fn room_op(name: &str) -> Option<Op>
    ensures { result ≡ room_op name.now }
{
    match name {
        "step" => Some(Op::Step),
        "tir" => Some(Op::Tir),
        "release" => Some(Op::Release),
        _ => None,
    }
}

#[tactic(auto, unfolding(crate::specs::ScheduleText::queue_op))]
fn queue_op(name: &str) -> Option<Op>
    ensures { result ≡ queue_op name.now }
{
    match name {
        "step" => Some(Op::Step),
        "insert" => Some(Op::Insert),
        "delete" => Some(Op::Delete),
        "shut" => Some(Op::Shut),
        _ => None,
    }
}

/// The operation of this name that the object has.
fn op_named(object: Object, name: &str) -> Option<Op>
    ensures { result ≡ op_named object name.now }
{
    match object {
        Object::Room(_) => room_op(name),
        Object::Queue(_) => queue_op(name),
    }
}

/// An event of two elements.
fn without_number(act: Act, size: usize) -> Result<Act, TextFault>
    ensures { Gives (λ a. a) result (without_number act size) }
{
    if size == 2 { Ok(act) } else { Err(FAULT) }
}

/// The third of three elements.
fn third(size: usize, number: Option<u64>) -> Result<u64, TextFault>
    ensures { Gives (λ n. n) result (third size number) }
{
    if size == 3 {
        number.ok_or(FAULT)
    } else {
        Err(FAULT)
    }
}

/// The third of three elements, from `low` to `high`.
fn third_within(low: u64, high: u64, size: usize, number: Option<u64>) -> Result<u64, TextFault>
    ensures { Gives (λ n. n) result (third_within low high size number) }
{
    if size == 3 {
        number_within(Field::Events, low, high, number)
    } else {
        Err(FAULT)
    }
}

/// The number of steps, 1 if there is none.
#[tactic(auto, unfolding(crate::specs::ScheduleText::steps_act))]
fn steps_act(size: usize, number: Option<u64>) -> Result<Act, TextFault>
    ensures { Gives (λ a. a) result (steps_act size number) }
{
    if size == 2 {
        Ok(Act::Steps(1))
    } else {
        Ok(Act::Steps(third_within(1, MOST_STEPS, size, number)?))
    }
}

/// What the seat does, if the event has this many elements and this third one.
fn act_from(op: Op, size: usize, number: Option<u64>) -> Result<Act, TextFault>
    ensures { Gives (λ a. a) result (act_from op size number) }
{
    match op {
        Op::Step => steps_act(size, number),
        Op::Tir => Ok(Act::Room(RoomCall::Tir(third_within(1, MOST_AMOUNT, size, number)?))),
        Op::Release => Ok(Act::Room(RoomCall::Release(third_within(
            1,
            MOST_AMOUNT,
            size,
            number,
        )?))),
        Op::Insert => Ok(Act::Queue(QueueCall::Insert(third(size, number)?))),
        Op::Delete => without_number(Act::Queue(QueueCall::Delete), size),
        Op::Shut => without_number(Act::Queue(QueueCall::Shut), size),
    }
}

/// The event of this index.
#[tactic(auto, unfolding(crate::specs::ScheduleText::event_from))]
fn event_from(object: Object, index: u64, value: &Value) -> Result<Event, TextFault>
    ensures { Gives (λ e. e) result (event_from object index (view value.now)) }
{
    let items = value.as_array().ok_or(FAULT)?;
    let seat = number_at(value, 0).ok_or(FAULT)?;
    let name = text_at(value, 1).ok_or(FAULT)?;
    let op = op_named(object, name).ok_or(TextFault::UnknownOp(index))?;
    let act = act_from(op, count(items), number_at(value, 2))?;
    Ok(Event { seat, act })
}

/// The events of an array, in order.
fn events_from(alloc: Global, object: Object, values: &[Value]) -> Result<Vec<Event>, TextFault>
    ensures { Gives (λ v. v.items) result (each_from (event_from object) 0 (items_view values.now)) }
{
    let mut events = Vec::new(alloc);
    for (i, value) in values.iter().enumerate() {
        events.push(event_from(object, i as u64, value)?)?;
    }
    Ok(events)
}

/// The object of this name, with its bound or size.
#[tactic(auto, unfolding(crate::specs::ScheduleText::object_named))]
fn object_named(name: &str, value: &Value) -> Result<Object, TextFault>
    ensures { Gives (λ o. o) result (object_named name.now (view value.now)) }
{
    match name {
        "room" => Ok(Object::Room(number_of_key(value, Field::Bound, 0, LARGEST_BOUND)?)),
        "queue" => Ok(Object::Queue(number_of_key(value, Field::Size, 1, LARGEST_SIZE)?)),
        _ => Err(TextFault::Range(Field::Object)),
    }
}

#[tactic(auto, unfolding(crate::specs::ScheduleText::object_from))]
fn object_from(value: &Value) -> Result<Object, TextFault>
    ensures { Gives (λ o. o) result (object_from (view value.now)) }
{
    let found = value_of_key(value, Field::Object)?;
    let name = found.as_str().ok_or(TextFault::Range(Field::Object))?;
    object_named(name, value)
}

#[tactic(auto, unfolding(crate::specs::ScheduleText::schedule_from))]
fn schedule_from(alloc: Global, value: &Value) -> Result<Schedule, TextFault>
    ensures { Gives schedule_of result (schedule_from (view value.now)) }
{
    let object = object_from(value)?;
    let seats = number_of_key(value, Field::Seats, 1, MOST_SEATS)?;
    let values = elements_of_key(value, Field::Events, MOST_EVENTS)?;
    let events = events_from(alloc, object, values)?;
    Ok(Schedule {
        object,
        seats,
        events,
    })
}

/// The schedule that an input is.
///
/// # Errors
///
/// The input's first fault, or `Memory`. For more than 1,048,576 bytes it is `Range(Field::Input)`, even if memory runs out.
pub fn read_schedule(alloc: Global, bytes: &[u8]) -> Result<Schedule, TextFault>
    ensures gives { Gives schedule_of result (schedule_in bytes.now) }
    ensures range { IfOk result (λ schedule. IsScheduleInRange (schedule_of schedule)) }
    ensures long { RefusesLong bytes.now result }
{
    let value = input_in(alloc, bytes)?;
    schedule_from(alloc, &value)
}
