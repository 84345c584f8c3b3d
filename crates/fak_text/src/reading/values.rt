//! The values in an input of any format.

ghost use Rattle.std.specs.Prelude.{◌≡◌, ◌≤◌, ◌<◌, length, IfOk, option_map};
ghost use Rattle.serde_json.specs.Events.{items_len};
ghost use Rattle.serde_json.specs.View.{view, items_view};
ghost use Rattle.fak_text.specs.Gives.{Gives};
ghost use Rattle.fak_text.specs.Values.{RefusesLong, json_in, input_in, number_within, number_below, number_at, text_at, value_of_key, number_of_key, elements_within, elements_of_key};

use crate::fault::{Field, TextFault};
use serde_json::Value;
use std::alloc::Global;

/// An input has at most this many bytes.
pub const LARGEST_INPUT: usize = 1_048_576;

/// The JSON value that the bytes are.
#[tactic(auto, using(crate::proofs::Json::json_in_read, crate::proofs::Json::json_in_refused))]
fn json_in(alloc: Global, bytes: &[u8]) -> Result<Value, TextFault>
    ensures { Gives view result (json_in bytes.now) }
{
    match Value::from_slice(alloc, bytes) {
        Ok(value) => Ok(value),
        Err(e) => {
            if e.is_memory() {
                Err(TextFault::Memory)
            } else {
                Err(TextFault::NotJson)
            }
        }
    }
}

/// The object that an input is. One that is too long is refused before anything grows.
#[tactic(auto, unfolding(crate::specs::Values::input_in))]
pub(crate) fn input_in(alloc: Global, bytes: &[u8]) -> Result<Value, TextFault>
    ensures gives { Gives view result (input_in bytes.now) }
    ensures long { RefusesLong bytes.now result }
{
    if bytes.len() > LARGEST_INPUT {
        return Err(TextFault::Range(Field::Input));
    }
    let value = json_in(alloc, bytes)?;
    if value.is_object() {
        Ok(value)
    } else {
        Err(TextFault::Range(Field::Input))
    }
}

/// The number, if it is from `low` to `high`.
pub(crate) fn number_within(
    field: Field,
    low: u64,
    high: u64,
    number: Option<u64>,
) -> Result<u64, TextFault>
    ensures gives { Gives (λ n. n) result (number_within field low high number) }
    ensures range { IfOk result (λ n. (low ≤ n) × (n ≤ high)) }
{
    match number {
        Some(n) if low <= n && n <= high => Ok(n),
        _ => Err(TextFault::Range(field)),
    }
}

/// The number, if it is below the bound.
pub(crate) fn number_below(field: Field, bound: u64, number: Option<u64>) -> Result<u64, TextFault>
    ensures gives { Gives (λ n. n) result (number_below field bound number) }
    ensures range { IfOk result (λ n. n < bound) }
{
    match number {
        Some(n) if n < bound => Ok(n),
        _ => Err(TextFault::Range(field)),
    }
}

/// The whole number at an index of an array.
pub fn number_at(value: &Value, index: usize) -> Option<u64>
    ensures { result ≡ number_at index (view value.now) }
{
    match value.get(index) {
        Some(found) => found.as_u64(),
        None => None,
    }
}

/// The text at an index of an array.
pub fn text_at(value: &Value, index: usize) -> Option<&str>
    ensures { option_map (λ t. t.now) result ≡ text_at index (view value.now) }
{
    match value.get(index) {
        Some(found) => found.as_str(),
        None => None,
    }
}

/// The value of a key.
pub(crate) fn value_of_key(value: &Value, field: Field) -> Result<&Value, TextFault>
    ensures { Gives (λ v. view v.now) result (value_of_key field (view value.now)) }
{
    match value.get(field.name()) {
        Some(found) => Ok(found),
        None => Err(TextFault::Missing(field)),
    }
}

/// The whole number of a key, from `low` to `high`.
#[tactic(auto, unfolding(crate::specs::Values::number_of_key))]
pub(crate) fn number_of_key(
    value: &Value,
    field: Field,
    low: u64,
    high: u64,
) -> Result<u64, TextFault>
    ensures gives { Gives (λ n. n) result (number_of_key field low high (view value.now)) }
    ensures range { IfOk result (λ n. (low ≤ n) × (n ≤ high)) }
{
    let found = value_of_key(value, field)?;
    number_within(field, low, high, found.as_u64())
}

/// How many elements an array has.
#[tactic(auto, using(crate::proofs::Json::items_len_is))]
pub(crate) fn count(values: &[Value]) -> usize
    ensures seen { result ≡ items_len (items_view values.now) }
    ensures count { result ≡ length values.now }
{
    values.len()
}

/// The elements of an array that has at most this many.
#[tactic(auto, unfolding(crate::specs::Values::elements_within))]
pub(crate) fn elements_within(
    value: &Value,
    field: Field,
    most: usize,
) -> Result<&[Value], TextFault>
    ensures gives { Gives (λ vs. items_view vs.now) result (elements_within field most (view value.now)) }
    ensures few { IfOk result (λ vs. length vs.now ≤ most) }
{
    let found = value.as_array().ok_or(TextFault::Range(field))?;
    let values = found.as_slice();
    if count(values) <= most {
        Ok(values)
    } else {
        Err(TextFault::Range(field))
    }
}

/// The elements of the array of a key, at most this many.
#[tactic(auto, unfolding(crate::specs::Values::elements_of_key))]
pub(crate) fn elements_of_key(
    value: &Value,
    field: Field,
    most: usize,
) -> Result<&[Value], TextFault>
    ensures gives { Gives (λ vs. items_view vs.now) result (elements_of_key field most (view value.now)) }
    ensures few { IfOk result (λ vs. length vs.now ≤ most) }
{
    let found = value_of_key(value, field)?;
    elements_within(found, field, most)
}
