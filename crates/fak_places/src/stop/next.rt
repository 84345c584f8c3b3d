//! What can come at a place of a text, so that the text can go on to be JSON.

ghost use Rattle.std.specs.Prelude.{◌++◌, IfOk, IsOk, IsTrue};
ghost use Rattle.fak_text.specs.Values.{json_in};
ghost use Rattle.fak_places.specs.Fronts.{CanGoOn, CanStand};

use crate::values::value_in;
use std::alloc::{AllocError, Global};
use thiserror::Error;

/// What can come at a place of a text.
#[derive(Clone, Copy, Debug, PartialEq, Eq, Error)]
pub enum Next {
    /// At the beginning, after a colon, and after a comma in an array.
    #[error("a value")]
    Value,
    /// At the beginning of an array.
    #[error("a value or ]")]
    FirstItem,
    /// After an element of an array.
    #[error("a comma or ]")]
    AfterItem,
    /// At the beginning of an object.
    #[error("a key in double quotation marks or }}")]
    FirstKey,
    /// After a comma in an object.
    #[error("a key in double quotation marks")]
    Key,
    /// After a key.
    #[error("a colon")]
    Colon,
    /// After the value of a key.
    #[error("a comma or }}")]
    AfterMember,
    /// After the whole value.
    #[error("the end")]
    End,
}

/// Whether a text of three parts is JSON.
fn is_json(alloc: Global, front: &[u8], begin: &str, rest: &[u8]) -> Result<bool, AllocError>
    ensures { IfOk result (λ yes. IsTrue yes → IsOk (json_in (front.now ++ begin.now ++ rest.now))) }
{
    let mut text = Vec::new(alloc);
    text.extend_from_slice(front)?;
    text.extend_from_slice(begin.as_bytes())?;
    text.extend_from_slice(rest)?;
    match value_in(alloc, &text)? {
        Some(_) => Ok(true),
        None => Ok(false),
    }
}

/// Whether a text is JSON that begins with two parts, and ends with this rest.
fn goes_on(alloc: Global, front: &[u8], begin: &str, rest: &[u8]) -> Result<bool, AllocError>
    ensures { IfOk result (λ yes. IsTrue yes → CanGoOn front.now begin.now) }
{
    is_json(alloc, front, begin, rest)
}

/// Whether a text can go on by each of two beginnings. The brackets are those that close what the text has opened, the innermost first;
/// the second beginning is a comma with what follows it, or the first of these brackets.
fn goes_on_twice(
    alloc: Global,
    front: &[u8],
    value: &str,
    bracket: &str,
    brackets: &[u8],
) -> Result<bool, AllocError>
    ensures { IfOk result (λ yes. IsTrue yes → CanGoOn front.now value.now × CanGoOn front.now bracket.now) }
{
    let outer = brackets.get(1..).unwrap_or(&[]);
    let has_value = goes_on(alloc, front, value, brackets)?;
    let has_bracket = goes_on(alloc, front, bracket, outer)?;
    Ok(has_value && has_bracket)
}

/// Whether this can stand after a text, as the reader finds. The brackets close what the text has opened, the innermost first. A line feed
/// keeps what comes there apart from a text or a word that has not ended.
pub(crate) fn can_stand(
    alloc: Global,
    next: Next,
    front: &[u8],
    brackets: &[u8],
) -> Result<bool, AllocError>
    ensures { IfOk result (λ yes. IsTrue yes → CanStand next front.now) }
{
    match next {
        Next::Value => goes_on(alloc, front, "\n0", brackets),
        Next::FirstItem => goes_on_twice(alloc, front, "\n0", "\n]", brackets),
        Next::AfterItem => goes_on_twice(alloc, front, "\n,0", "\n]", brackets),
        Next::FirstKey => goes_on_twice(alloc, front, "\n\"\":0", "\n}", brackets),
        Next::Key => goes_on(alloc, front, "\n\"\":0", brackets),
        Next::Colon => goes_on(alloc, front, "\n:0", brackets),
        Next::AfterMember => goes_on_twice(alloc, front, "\n,\"\":0", "\n}", brackets),
        Next::End => is_json(alloc, front, "\n", &[]),
    }
}
