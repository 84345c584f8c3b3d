//! A place in an input, and its text.

use crate::asked::{Asked, Hint, Spot};
use fak_text::{Field, TextFault};
use serde_json::Value;
use std::alloc::{AllocError, Global};
use std::fmt;

/// For a text or a key with more bytes than this only the length is shown.
pub(crate) const LONGEST_SHOWN: usize = 40;

/// The place of an input's first fault.
#[derive(Debug, PartialEq, Eq, Drop)]
pub struct Place {
    /// The fault.
    pub fault: TextFault,
    /// The key whose value is at fault, or the whole input.
    pub key: Field,
    /// The place in the key's value, and what is asked there.
    pub hint: Hint,
    /// What is there, if something is.
    pub found: Option<String>,
}

impl fmt::Display for Place {
    fn fmt<W: fmt::Write>(&self, f: &mut fmt::Formatter<W>) -> fmt::Result {
        let Hint { spot, asked } = self.hint;
        match spot {
            Spot::Text(_, _) => write!(f, "{spot}: {asked}")?,
            _ => write!(f, "{}{spot}: {asked}", self.key)?,
        }
        match (asked, &self.found) {
            (Asked::Present(_), _) | (_, None) => Ok(()),
            (_, Some(found)) => write!(f, ", not {found}"),
        }
    }
}

/// A value in short. A text is said to be one, so that `"2"` is not taken for a number.
pub(crate) fn shown(alloc: Global, value: &Value) -> Result<String, AllocError> {
    match value {
        Value::Array(items) => format!(in alloc; "an array of {}", items.len()),
        Value::Object(_) => format!(in alloc; "an object"),
        Value::String(text) if text.len() > LONGEST_SHOWN => {
            format!(in alloc; "a text of {} bytes", text.len())
        }
        Value::String(_) => format!(in alloc; "the text {value}"),
        _ => format!(in alloc; "{value}"),
    }
}

/// The value at a place.
pub(crate) fn value_at<'a>(value: &'a Value, key: Field, spot: Spot) -> Option<&'a Value> {
    if key == Field::Input {
        return Some(value);
    }
    let found = value.get(key.name())?;
    match spot {
        Spot::Text(_, _) | Spot::Key => Some(found),
        Spot::One(i) => found.get(i),
        Spot::Two(i, j) => found.get(i)?.get(j),
        Spot::Three(i, j, k) => found.get(i)?.get(j)?.get(k),
    }
}
