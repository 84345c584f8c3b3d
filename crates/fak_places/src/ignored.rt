//! The keys of an input that its format ignores.

ghost use Rattle.std.specs.Prelude.{◌≡◌, IfOk, map, string_bytes};
ghost use Rattle.serde_json.specs.View.{members_view, view};
ghost use Rattle.fak_places.specs.Keys.{ignored_in, ignored_of, is_named, keys_of, keys_of_object, other_names};

use crate::fault_place::Format;
use crate::place::LONGEST_SHOWN;
use crate::values::value_in;
use fak_text::{Field, LARGEST_INPUT};
use serde_json::{Map, Value};
use std::alloc::{AllocError, Global};
use std::fmt;

const OF_A_ROOM: &'static [Field] = &[Field::Object, Field::Bound, Field::Seats, Field::Events];

const OF_A_QUEUE: &'static [Field] = &[Field::Object, Field::Size, Field::Seats, Field::Events];

const OF_ANY_OBJECT: &'static [Field] = &[
    Field::Object,
    Field::Bound,
    Field::Size,
    Field::Seats,
    Field::Events,
];

const OF_A_HISTORY: &'static [Field] = &[Field::Size, Field::Marks];

const OF_A_SCRIPT: &'static [Field] = &[
    Field::Version,
    Field::Slots,
    Field::Births,
    Field::Quantum,
    Field::Stint,
    Field::Semaphores,
    Field::Files,
    Field::Programs,
    Field::Start,
];

/// A key of an input that its format ignores.
#[derive(Debug, PartialEq, Eq, Drop)]
pub struct Ignored {
    /// The key, as it is in the input.
    pub key: String,
}

impl fmt::Display for Ignored {
    fn fmt<W: fmt::Write>(&self, f: &mut fmt::Formatter<W>) -> fmt::Result {
        let key = self.key.as_str();
        if key.len() > LONGEST_SHOWN {
            write!(f, "ignored: a key of {} bytes", key.len())
        } else {
            write!(f, "ignored: the key {key:?}")
        }
    }
}

/// The keys of a schedule whose object has this name. If no object has it, these are the keys of both.
#[tactic(auto, unfolding(crate::specs::Keys::keys_of_object))]
fn keys_of_object(name: &str) -> &'static [Field]
    ensures { result.now ≡ keys_of_object name.now }
{
    match name {
        "room" => OF_A_ROOM,
        "queue" => OF_A_QUEUE,
        _ => OF_ANY_OBJECT,
    }
}

/// The keys that an input of this format has.
pub(crate) fn keys_of(format: Format, input: &Value) -> &'static [Field]
    ensures { result.now ≡ keys_of format (view input.now) }
{
    match format {
        Format::Schedule => {
            let object = input.get("object").and_then(Value::as_str);
            keys_of_object(object.unwrap_or(""))
        }
        Format::History => OF_A_HISTORY,
        Format::Script => OF_A_SCRIPT,
    }
}

/// Whether one of these keys has this name.
fn is_named(keys: &[Field], name: &str) -> bool
    ensures { result ≡ is_named keys.now name.now }
{
    keys.iter().any(|key| key.name() == name)
}

/// The names of members that none of these keys has.
fn others(
    alloc: Global,
    keys: &[Field],
    members: &Map<String, Value>,
) -> Result<Vec<Ignored>, AllocError>
    ensures { IfOk result (λ found. map (λ ignored. string_bytes ignored.key) found.items
        ≡ other_names keys.now (members_view members.now.entries)) }
{
    let mut found = Vec::new(alloc);
    for key in members.keys() {
        if !is_named(keys, key.as_str()) {
            found.push(Ignored { key: key.clone()? })?;
        }
    }
    Ok(found)
}

/// The keys of a value that its format ignores.
fn ignored_of(alloc: Global, format: Format, input: &Value) -> Result<Vec<Ignored>, AllocError>
    ensures { IfOk result (λ found. map (λ ignored. string_bytes ignored.key) found.items
        ≡ ignored_of format (view input.now)) }
{
    match input.as_object() {
        Some(members) => others(alloc, keys_of(format, input), members),
        None => Ok(Vec::new(alloc)),
    }
}

/// The keys of an input that its format ignores, in the order of their bytes.
///
/// A room ignores `size`, and a queue `bound`. Nothing is ignored if the input has more than 1,048,576 bytes or is no JSON
/// object.
///
/// # Errors
///
/// There was no memory.
#[tactic(auto, unfolding(fak_text::specs::Values::input_in))]
pub fn ignored_keys(alloc: Global, format: Format, bytes: &[u8]) -> Result<Vec<Ignored>, AllocError>
    ensures { IfOk result (λ found. map (λ ignored. string_bytes ignored.key) found.items
        ≡ ignored_in format bytes.now) }
{
    if bytes.len() > LARGEST_INPUT {
        return Ok(Vec::new(alloc));
    }
    match value_in(alloc, bytes)? {
        Some(value) => ignored_of(alloc, format, &value),
        None => Ok(Vec::new(alloc)),
    }
}
