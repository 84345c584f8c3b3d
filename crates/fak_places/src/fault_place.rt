//! The place of an input's first fault.

ghost use Rattle.std.specs.Prelude.{◌≡◌, ◌≢◌, IfOk, IfSome, IsOk, MatchOption, Err, Ok, is_ok, not, option_map};
ghost use Rattle.serde_json.specs.View.{view};
ghost use Rattle.fak_text.specs.HistoryText.{mark_from};
ghost use Rattle.fak_text.specs.ScheduleText.{event_from, object_from};
ghost use Rattle.fak_text.specs.Values.{input_in};
ghost use Rattle.fak_text.specs.declared.fault.Field.TheVariants.{Events, Marks};
ghost use Rattle.fak_text.specs.declared.fault.TextFault.TheVariants.{Memory, NotJson};
ghost use Rattle.fak_text.specs.declared.schedule.Object as o;
ghost use Rattle.fak_places.specs.Fronts.{HintsRight};
ghost use Rattle.fak_places.specs.Named.{object_name, object_of_name};
ghost use Rattle.fak_places.specs.Places.{fault_in, key_of, list_of};
ghost use Rattle.fak_places.specs.Spots.{IsInFirst, array_of};

use crate::asked::{Asked, Hint, in_item, of_key};
use crate::event::{first_wrong_event, wrong_event};
use crate::mark::{first_wrong_mark, wrong_mark};
use crate::place::{Place, shown, value_at};
use crate::script::{hint_in_programs, hint_in_semaphores, hint_in_start};
use crate::stop::hint_of_text;
use crate::values::elements_of_key;
use fak_model::{LARGEST_BOUND, LARGEST_SIZE, LONGEST_STINT, MOST_SEATS};
use fak_text::{
    Field, LARGEST_INPUT, LONGEST_QUANTUM, MOST_BIRTHS, MOST_FILES, MOST_SLOTS, Object, TextFault,
    read_history, read_schedule, read_script,
};
use serde_json::Value;
use std::alloc::{AllocError, Global};

/// The formats of inputs.
#[derive(Clone, Copy, Debug, PartialEq, Eq)]
pub enum Format {
    Schedule,
    History,
    Script,
}

impl Format {
    /// The key of the array whose elements have operations or names.
    fn list(self) -> Field
        ensures { result ≡ list_of self }
    {
        match self {
            Format::Schedule => Field::Events,
            Format::History => Field::Marks,
            Format::Script => Field::Programs,
        }
    }
}

/// The fault of what was read, if it has one.
///
/// # Errors
///
/// There was no memory for the input.
fn fault_from<T: Drop>(read: Result<T, TextFault>) -> Result<Option<TextFault>, AllocError>
    ensures { IfOk result (λ fault. MatchOption fault (IsOk read) (λ e. (read ≡ Err e) × (e ≢ Memory))) }
{
    match read {
        Ok(_) => Ok(None),
        Err(TextFault::Memory) => Err(AllocError),
        Err(fault) => Ok(Some(fault)),
    }
}

/// The first fault of an input, if it has one.
fn fault_of(alloc: Global, format: Format, bytes: &[u8]) -> Result<Option<TextFault>, AllocError>
    ensures { IfOk result (λ fault. fault ≡ fault_in format bytes.now) }
{
    match format {
        Format::Schedule => fault_from(read_schedule(alloc, bytes)),
        Format::History => fault_from(read_history(alloc, bytes)),
        Format::Script => fault_from(read_script(alloc, bytes)),
    }
}

/// The key that a fault is about; of an unknown operation the format's array.
fn key_of_fault(format: Format, fault: TextFault) -> Field
    ensures { result ≡ key_of (list_of format) fault }
{
    match fault {
        TextFault::Missing(field) | TextFault::Range(field) => field,
        TextFault::UnknownOp(_) => format.list(),
        TextFault::NotJson | TextFault::Memory => Field::Input,
    }
}

/// What is asked of the value of a key.
fn asked_of_key(key: Field) -> Asked {
    match key {
        Field::Input => Asked::Words("an input is an object of at most 1048576 bytes"),
        Field::Object => Asked::Words("an object is \"room\" or \"queue\""),
        Field::Bound => Asked::Within("a room's bound", 0, LARGEST_BOUND),
        Field::Size => Asked::Within("a queue's size", 1, LARGEST_SIZE),
        Field::Seats => Asked::Within("the number of seats", 1, MOST_SEATS),
        Field::Events => Asked::Words("this is an array of at most 16384 events"),
        Field::Marks => Asked::Words("this is an array of at most 4096 marks"),
        Field::Version => Asked::Within("the version", 1, 2),
        Field::Slots => Asked::Within("the number of slots", 1, MOST_SLOTS),
        Field::Births => Asked::Within("the number of births", 0, MOST_BIRTHS),
        Field::Quantum => Asked::Within("the quantum", 1, LONGEST_QUANTUM),
        Field::Stint => Asked::Within("the stint", 1, LONGEST_STINT),
        Field::Semaphores => Asked::Words("this is an array of at most 16 whole numbers"),
        Field::Files => Asked::Within("the number of files", 1, MOST_FILES),
        Field::Programs => Asked::Words("this is an array of at most 64 programs"),
        Field::Start => Asked::Words("this is an array of programs' numbers"),
    }
}

/// The object of this name, with any bound or size.
#[tactic(auto, unfolding(crate::specs::Named::object_of_name))]
fn object_of_name(name: &str) -> Object
    ensures { result ≡ object_of_name name.now }
{
    match name {
        "room" => Object::Room(0),
        _ => Object::Queue(1),
    }
}

/// The object of a schedule, with any bound or size.
fn object_of(schedule: &Value) -> Object
    ensures { result ≡ object_of_name (object_name (view schedule.now)) }
{
    let name = schedule.get("object").and_then(Value::as_str);
    object_of_name(name.unwrap_or(""))
}

/// What is wrong in the events of a schedule: the first that its object does not have.
fn hint_in_events(schedule: &Value) -> Option<Hint>
    ensures { IfSome result (λ hint. (object : o.Object) → object_from (view schedule.now) ≡ Ok object
        → IsInFirst (λ d. not (is_ok (event_from object 0 d))) (array_of Events (view schedule.now)) hint.spot) }
{
    let object = object_of(schedule);
    let events = elements_of_key(schedule, Field::Events);
    let index = first_wrong_event(object, events)?;
    Some(in_item(index, wrong_event(object, events.get(index)?)?))
}

/// What is wrong in the marks of a history: the first that is wrong.
fn hint_in_marks(history: &Value) -> Option<Hint>
    ensures { IfSome result (λ hint. IsInFirst (λ d. not (is_ok (mark_from 0 d))) (array_of Marks (view history.now))
        hint.spot) }
{
    let marks = elements_of_key(history, Field::Marks);
    let index = first_wrong_mark(marks)?;
    Some(in_item(index, wrong_mark(marks.get(index)?)?))
}

/// What is wrong in the value of a key that is there.
fn hint_in_key(value: &Value, key: Field) -> Hint {
    let inside = match key {
        Field::Events => hint_in_events(value),
        Field::Marks => hint_in_marks(value),
        Field::Semaphores => hint_in_semaphores(value),
        Field::Programs => hint_in_programs(value),
        Field::Start => hint_in_start(value),
        _ => None,
    };
    inside.unwrap_or(of_key(asked_of_key(key)))
}

/// The place of a fault in an input that is JSON.
fn place_in_value(
    alloc: Global,
    format: Format,
    fault: TextFault,
    value: &Value,
) -> Result<Place, AllocError>
    ensures { IfOk result (λ place. (place.fault ≡ fault) × (place.key ≡ key_of (list_of format) fault)) }
{
    let key = key_of_fault(format, fault);
    let hint = match fault {
        TextFault::Missing(_) => of_key(Asked::Words("the key is missing")),
        _ => hint_in_key(value, key),
    };
    let found = match value_at(value, key, hint.spot) {
        Some(found) => Some(shown(alloc, found)?),
        None => None,
    };
    Ok(Place {
        fault,
        key,
        hint,
        found,
    })
}

/// The place of a fault of an input.
#[tactic(auto, using(fak_text::proofs::Json::json_in_read), unfolding(fak_text::specs::Values::input_in))]
fn place_of_fault(
    alloc: Global,
    format: Format,
    fault: TextFault,
    bytes: &[u8],
) -> Result<Place, AllocError>
    ensures fault { IfOk result (λ place. (place.fault ≡ fault) × (place.key ≡ key_of (list_of format) fault)) }
    ensures text { input_in bytes.now ≡ Err NotJson → IfOk result (λ place. HintsRight bytes.now place.hint) }
{
    let key = key_of_fault(format, fault);
    if bytes.len() > LARGEST_INPUT {
        return Ok(Place {
            fault,
            key,
            hint: of_key(asked_of_key(Field::Input)),
            found: Some(format!(in alloc; "{} bytes or more", bytes.len())?),
        });
    }
    match Value::from_slice(alloc, bytes) {
        Ok(value) => place_in_value(alloc, format, fault, &value),
        Err(error) if error.is_memory() => Err(AllocError),
        Err(error) => {
            let (hint, found) = hint_of_text(alloc, bytes, &error)?;
            Ok(Place {
                fault,
                key,
                hint,
                found,
            })
        }
    }
}

/// The place of an input's first fault; `None` if and only if `fak_text` reads the input.
///
/// # Errors
///
/// There was no memory.
pub fn place_of(alloc: Global, format: Format, bytes: &[u8]) -> Result<Option<Place>, AllocError>
    ensures fault { IfOk result (λ found. option_map (λ place. place.fault) found ≡ fault_in format bytes.now) }
    ensures key { IfOk result (λ found. IfSome found (λ place. place.key ≡ key_of (list_of format) place.fault)) }
    ensures text { input_in bytes.now ≡ Err NotJson → IfOk result (λ found. IfSome found
        (λ place. HintsRight bytes.now place.hint)) }
{
    match fault_of(alloc, format, bytes)? {
        None => Ok(None),
        Some(fault) => Ok(Some(place_of_fault(alloc, format, fault, bytes)?)),
    }
}
