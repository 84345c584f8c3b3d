//! The keys of an input that occur more than once.

ghost use Rattle.std.specs.Prelude.{◌≡◌, IfOk, Some, length, map};
ghost use Rattle.std.specs.List.{filter};
ghost use Rattle.std.specs.Str.{IsUtf8, bytes_eq};
ghost use Rattle.json.specs.Value.{members_view, value_view};
ghost use Rattle.serde_json.specs.View.{view};
ghost use Rattle.fak_places.specs.Repeats.{repeated_among, repeated_in, repeated_in_data, repeated_in_value, repeated_of, times};

use crate::fault_place::Format;
use crate::ignored::keys_of;
use crate::values::value_in;
use fak_text::{Field, LARGEST_INPUT};
use json::{Scratch, Value};
use serde_json::Value as Data;
use std::alloc::{AllocError, Global};
use std::fmt;

/// A key of a format that occurs more than once in an input. Its last value counts.
#[derive(Clone, Copy, Debug, PartialEq, Eq)]
pub struct Repeated {
    pub key: Field,
}

impl fmt::Display for Repeated {
    fn fmt<W: fmt::Write>(&self, f: &mut fmt::Formatter<W>) -> fmt::Result {
        write!(
            f,
            "repeated: the key \"{}\", whose last value counts",
            self.key
        )
    }
}

/// How many of these members have this name.
fn count_of(members: &[(&str, Value<'_>)], name: &str) -> usize
    ensures { result ≡ length (filter (λ member. bytes_eq member.0.now name.now) members.now) }
{
    members.iter().filter(|member| member.0 == name).count()
}

/// How many members of an object have this name.
fn times(members: &[(&str, Value<'_>)], name: &str) -> usize
    ensures { result ≡ times name.now (members_view members.now) }
{
    count_of(members, name)
}

/// The keys that more than one member has, in their order.
#[tactic(auto, using(std::proofs::lemmas::List::Elements::filter_more))]
fn repeated_among(
    alloc: Global,
    keys: &[Field],
    members: &[(&str, Value<'_>)],
) -> Result<Vec<Repeated>, AllocError>
    ensures { IfOk result (λ found. map (λ repeated. repeated.key) found.items
        ≡ repeated_among keys.now (members_view members.now)) }
{
    let mut found = Vec::new(alloc);
    for key in keys {
        if times(members, key.name()) > 1 {
            found.push(Repeated { key: *key })?;
        }
    }
    Ok(found)
}

/// The keys that occur more than once in a value that is an object.
fn repeated_in_value(
    alloc: Global,
    keys: &[Field],
    value: &Value<'_>,
) -> Result<Vec<Repeated>, AllocError>
    ensures { IfOk result (λ found. map (λ repeated. repeated.key) found.items
        ≡ repeated_in_value keys.now (Some (value_view value.now))) }
{
    match value {
        Value::Object(members) => repeated_among(alloc, keys, members.as_slice()),
        _ => Ok(Vec::new(alloc)),
    }
}

/// The keys that occur more than once in the object that a text is. The text is UTF-8.
fn repeated_of(alloc: Global, keys: &[Field], bytes: &[u8]) -> Result<Vec<Repeated>, AllocError>
    ensures { IsUtf8 bytes.now → IfOk result (λ found. map (λ repeated. repeated.key) found.items
        ≡ repeated_of keys.now bytes.now) }
{
    let mut scratch = Scratch::new(alloc);
    match Value::from_slice(alloc, bytes, &mut scratch) {
        Ok(value) => repeated_in_value(alloc, keys, &value),
        Err(json::Error::OutOfMemory) => Err(AllocError),
        Err(_) => Ok(Vec::new(alloc)),
    }
}

/// The keys of its format that occur more than once in an input whose value this is.
fn repeated_if_object(
    alloc: Global,
    format: Format,
    value: &Data,
    bytes: &[u8],
) -> Result<Vec<Repeated>, AllocError>
    ensures { IsUtf8 bytes.now → IfOk result (λ found. map (λ repeated. repeated.key) found.items
        ≡ repeated_in_data format bytes.now (view value.now)) }
{
    match value.as_object() {
        Some(_) => repeated_of(alloc, keys_of(format, value), bytes),
        None => Ok(Vec::new(alloc)),
    }
}

/// The keys of its format that occur more than once in an input, in the order of the format's table.
///
/// The readers take the last value of each. Nothing is repeated if the input has more than 1,048,576 bytes or is no JSON object.
///
/// # Errors
///
/// There was no memory.
#[tactic(auto, using(crate::proofs::Times::read_is_utf8), unfolding(fak_text::specs::Values::input_in))]
pub fn repeated_keys(
    alloc: Global,
    format: Format,
    bytes: &[u8],
) -> Result<Vec<Repeated>, AllocError>
    ensures { IfOk result (λ found. map (λ repeated. repeated.key) found.items ≡ repeated_in format bytes.now) }
{
    if bytes.len() > LARGEST_INPUT {
        return Ok(Vec::new(alloc));
    }
    match value_in(alloc, bytes)? {
        Some(value) => repeated_if_object(alloc, format, &value, bytes),
        None => Ok(Vec::new(alloc)),
    }
}
