//! The value of a text, and the values in an array.

ghost use Rattle.std.specs.Prelude.{◌≡◌, Err, IfOk, MatchOption, Ok};
ghost use Rattle.serde_json.specs.Events.{items_len};
ghost use Rattle.serde_json.specs.View.{items_view, view};
ghost use Rattle.fak_text.specs.Values.{json_in};
ghost use Rattle.fak_text.specs.declared.fault.TextFault.TheVariants.{NotJson};
ghost use Rattle.fak_places.specs.Spots.{array_of};

use fak_text::Field;
use serde_json::Value;
use std::alloc::{AllocError, Global};

/// The JSON value that the bytes are, if they are one.
#[tactic(auto, using(fak_text::proofs::Json::json_in_read, fak_text::proofs::Json::json_in_refused))]
pub(crate) fn value_in(alloc: Global, bytes: &[u8]) -> Result<Option<Value>, AllocError>
    ensures { IfOk result (λ found. MatchOption found (json_in bytes.now ≡ Err NotJson)
        (λ value. json_in bytes.now ≡ Ok (view value))) }
{
    match Value::from_slice(alloc, bytes) {
        Ok(value) => Ok(Some(value)),
        Err(error) if error.is_memory() => Err(AllocError),
        Err(_) => Ok(None),
    }
}

/// How many elements an array has.
#[tactic(auto, using(crate::proofs::Counts::items_len_is))]
pub(crate) fn count(values: &[Value]) -> usize
    ensures { result ≡ items_len (items_view values.now) }
{
    values.len()
}

/// The elements of the array of a key; none if it is no array.
pub(crate) fn elements_of_key(value: &Value, field: Field) -> &[Value]
    ensures { items_view result.now ≡ array_of field (view value.now) }
{
    match value.get(field.name()).and_then(Value::as_array) {
        Some(values) => values.as_slice(),
        None => &[],
    }
}
