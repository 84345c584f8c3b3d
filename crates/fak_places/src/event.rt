//! What is wrong with an event of a schedule.

ghost use Rattle.std.specs.Prelude.{◌≡◌, is_none, is_ok, nat_eq, not};
ghost use Rattle.std.specs.List.{position};
ghost use Rattle.serde_json.specs.View.{view};
ghost use Rattle.fak_text.specs.ScheduleText.{third_within, third, without_number, steps_act, event_from};
ghost use Rattle.fak_places.specs.Named.{room_act, queue_act, act_named};

use crate::asked::{Wrong, element, outside, whole};
use crate::values::count;
use fak_text::{Object, number_at, text_at};
use serde_json::Value;

const MOST_AMOUNT: u64 = 1_024;

const MOST_STEPS: u64 = 64;

/// What is wrong with the third of three elements, a number from 1.
fn wrong_number(what: &'static str, high: u64, size: usize, number: Option<u64>) -> Option<Wrong>
    ensures { is_none result ≡ is_ok (third_within 1 high size number) }
{
    if size != 3 {
        return Some(whole("an event of this operation has three elements"));
    }
    match number {
        Some(n) if 1 <= n && n <= high => None,
        _ => Some(outside(2, what, 1, high)),
    }
}

/// What is wrong with an event that steps.
#[tactic(auto, unfolding(fak_text::specs::ScheduleText::steps_act))]
fn wrong_steps(size: usize, number: Option<u64>) -> Option<Wrong>
    ensures { is_none result ≡ is_ok (steps_act size number) }
{
    if size == 2 {
        None
    } else {
        wrong_number("a step count", MOST_STEPS, size, number)
    }
}

/// What is wrong with an event that inserts.
fn wrong_item(size: usize, number: Option<u64>) -> Option<Wrong>
    ensures { is_none result ≡ is_ok (third size number) }
{
    if size != 3 {
        Some(whole("an event of this operation has three elements"))
    } else if number.is_none() {
        Some(element(2, "an item is a whole number"))
    } else {
        None
    }
}

/// What is wrong with an event of two elements.
fn wrong_plain(size: usize) -> Option<Wrong>
    ensures { is_none result ≡ nat_eq size 2 }
{
    if size == 2 {
        None
    } else {
        Some(whole("an event of this operation has two elements"))
    }
}

/// What is wrong with an event of a room, whose operation has this name.
#[tactic(auto, unfolding(fak_text::specs::ScheduleText::room_op))]
fn wrong_in_room(name: &str, size: usize, number: Option<u64>) -> Option<Wrong>
    ensures { is_none result ≡ is_ok (room_act name.now size number) }
{
    match name {
        "step" => wrong_steps(size, number),
        "tir" => wrong_number("an amount", MOST_AMOUNT, size, number),
        "release" => wrong_number("an amount", MOST_AMOUNT, size, number),
        _ => Some(element(1, "an operation of a room is step, tir or release")),
    }
}

/// What is wrong with an event of a queue, whose operation has this name.
#[tactic(auto, unfolding(fak_text::specs::ScheduleText::queue_op))]
fn wrong_in_queue(name: &str, size: usize, number: Option<u64>) -> Option<Wrong>
    ensures { is_none result ≡ is_ok (queue_act name.now size number) }
{
    match name {
        "step" => wrong_steps(size, number),
        "insert" => wrong_item(size, number),
        "delete" => wrong_plain(size),
        "shut" => wrong_plain(size),
        _ => Some(element(1, "an operation of a queue is step, insert, delete or shut")),
    }
}

/// What is wrong with an event whose operation has this name.
fn wrong_act(object: Object, name: &str, size: usize, number: Option<u64>) -> Option<Wrong>
    ensures { is_none result ≡ is_ok (act_named object name.now size number) }
{
    match object {
        Object::Room(_) => wrong_in_room(name, size, number),
        Object::Queue(_) => wrong_in_queue(name, size, number),
    }
}

/// What is wrong with an event, if anything.
#[tactic(auto, unfolding(fak_text::specs::ScheduleText::event_from))]
pub(crate) fn wrong_event(object: Object, value: &Value) -> Option<Wrong>
    ensures { is_none result ≡ is_ok (event_from object 0 (view value.now)) }
{
    let Some(items) = value.as_array() else {
        return Some(whole("an event is an array of two or three elements"));
    };
    if number_at(value, 0).is_none() {
        return Some(element(0, "a seat is a whole number"));
    }
    let Some(name) = text_at(value, 1) else {
        return Some(element(1, "an operation is a text"));
    };
    wrong_act(object, name, count(items), number_at(value, 2))
}

/// The index of the first event that is wrong.
pub(crate) fn first_wrong_event(object: Object, values: &[Value]) -> Option<usize>
    ensures { result ≡ position (λ v. not (is_ok (event_from object 0 (view v)))) values.now }
{
    values
        .iter()
        .position(|value| wrong_event(object, value).is_some())
}
