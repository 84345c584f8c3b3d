//! The place at which a text stops being JSON.

ghost use Rattle.std.specs.Prelude.{◌≡◌, ◌≤◌, ◌==◌, IfOk, IfSome, length, reverse, true};
ghost use Rattle.std.specs.List.{filter, position};
ghost use Rattle.fak_places.specs.Fronts.{HintsRight, IsStop, bytes_in_line, column_after, has_leading_zero, line_after};
ghost use Rattle.fak_places.specs.Spots.{begins_with_byte_order_mark};
ghost use Rattle.fak_places.specs.declared.asked.Asked.TheVariants as asks;
ghost use Rattle.fak_places.specs.declared.asked.Spot.TheVariants.{Text};

mod front;
mod next;

use crate::asked::{Asked, Hint, Spot};
use crate::place::LONGEST_SHOWN;
use crate::stop::front::{DEEPEST, longest_front};
use crate::stop::next::can_stand;
pub use next::Next;
use serde_json::Error;
use std::alloc::{AllocError, Global};

const OPEN: &'static str =
    "the text ends before all its brackets, braces and quotation marks are closed";

const NEXT: &'static str = "a comma, a colon, a value, a closing bracket or the end";

const UTF_8: &'static str = "a text in UTF-8";

const NUMBER: &'static str = "before this column, a number that a double can hold";

/// What some editors write at the head of a file in UTF-8.
const BYTE_ORDER_MARK: &'static [u8] = &[239, 187, 191];

/// A place of a text at which it stops being JSON.
#[derive(Clone, Copy)]
pub(crate) struct Stop {
    /// How many bytes are before it.
    pub at: usize,
    /// What can come next.
    pub next: Next,
    /// How many arrays and objects are open there.
    pub depth: usize,
}

/// Whether a text begins with a byte order mark.
fn has_byte_order_mark(bytes: &[u8]) -> bool
    ensures { result ≡ begins_with_byte_order_mark bytes.now }
{
    bytes.starts_with(BYTE_ORDER_MARK)
}

/// Whether a word is a number whose first digit is a 0, with another digit after it.
fn has_leading_zero(word: &[u8]) -> bool
    ensures { result ≡ has_leading_zero word.now }
{
    match word {
        [b'-', b'0', next, ..] => next.is_ascii_digit(),
        [b'0', next, ..] => next.is_ascii_digit(),
        _ => false,
    }
}

/// Whether a text stops being JSON after a number that is too large. Only the crate's message says so.
fn is_of_number(alloc: Global, error: &Error) -> Result<bool, AllocError> {
    let message = format!(in alloc; "{error}")?;
    Ok(message.as_str().starts_with("number"))
}

/// How many line feeds are among these bytes.
fn line_feeds(front: &[u8]) -> usize
    ensures count { result ≡ length (filter (λ byte. byte == 10) front.now) }
    ensures bound { result ≤ length front.now }
{
    front.iter().filter(|byte| **byte == b'\n').count()
}

/// How many bytes are after the last line feed, if there is one.
fn bytes_after_feed(front: &[u8]) -> Option<usize>
    ensures place { result ≡ position (λ byte. byte == 10) (reverse front.now) }
    ensures bound { IfSome result (λ count. count ≤ length front.now) }
{
    front.iter().rev().position(|byte| *byte == b'\n')
}

/// How many bytes are in the last line.
fn bytes_in_line(front: &[u8]) -> usize
    ensures count { result ≡ bytes_in_line front.now }
    ensures bound { result ≤ length front.now }
{
    bytes_after_feed(front).unwrap_or(front.len())
}

/// How many bytes are before a line and a column, both from 1.
fn offset_of(bytes: &[u8], line: usize, column: usize) -> usize {
    let mut left = line;
    for (i, byte) in bytes.iter().enumerate() {
        if left <= 1 {
            return i.saturating_add(column.saturating_sub(1));
        }
        if *byte == b'\n' {
            left -= 1;
        }
    }
    bytes.len()
}

/// The place at which a text stops being JSON, within its first bytes or after these; none if the reader does not find so.
fn stop_within(alloc: Global, bytes: &[u8], most: usize) -> Result<Option<Stop>, AllocError>
    ensures { IfOk result (λ found. IfSome found (λ stop. IsStop bytes.now stop)) }
{
    let (at, front) = longest_front(alloc, bytes, most)?;
    let Some(before) = bytes.get(..at) else {
        return Ok(None);
    };
    let brackets = front.brackets(alloc)?;
    if !can_stand(alloc, front.next, before, &brackets)? {
        return Ok(None);
    }
    Ok(Some(Stop {
        at,
        next: front.next,
        depth: front.opened.len(),
    }))
}

/// What can stand after these bytes, and the line and the column there.
fn hint_after(before: &[u8], next: Next) -> Hint
    ensures spot { result.spot ≡ Text (line_after before.now) (column_after before.now) }
    ensures asked { result.asked ≡ asks.Next next }
{
    Hint {
        spot: Spot::Text(line_feeds(before) + 1, bytes_in_line(before) + 1),
        asked: Asked::Next(next),
    }
}

/// The spot of a stop, and what can come there.
#[tactic(auto, using(crate::proofs::Fronts::next_right))]
fn hint_of_stop(bytes: &[u8], stop: Stop) -> Option<Hint>
    ensures { IsStop bytes.now stop → IfSome result (λ hint. HintsRight bytes.now hint) }
{
    let before = bytes.get(..stop.at)?;
    Some(hint_after(before, stop.next))
}

/// Whether a byte belongs to a word that is shown.
fn is_in_word(byte: u8) -> bool {
    byte.is_ascii_graphic() && !matches!(byte, b'[' | b']' | b'{' | b'}' | b',' | b':' | b'"')
}

/// The word at the head of these bytes.
fn word_of(rest: &[u8]) -> &[u8] {
    let end = rest.iter().position(|byte| !is_in_word(*byte));
    rest.get(..end.unwrap_or(rest.len())).unwrap_or(&[])
}

/// A byte in short: the character if it can be seen.
fn shown_byte(alloc: Global, byte: u8) -> Result<String, AllocError> {
    if byte.is_ascii_graphic() {
        format!(in alloc; "{}", byte as char)
    } else {
        format!(in alloc; "byte {byte}")
    }
}

/// The word or the character at the head of these bytes.
fn shown_word(alloc: Global, rest: &[u8]) -> Result<Option<String>, AllocError> {
    let word = word_of(rest);
    let Some(first) = rest.first() else {
        return Ok(None);
    };
    match std::str::from_utf8(word) {
        Ok(text) if 0 < text.len() && text.len() <= LONGEST_SHOWN => {
            Ok(Some(String::from_str(alloc, text)?))
        }
        _ => Ok(Some(shown_byte(alloc, *first)?)),
    }
}

/// What is wrong with the bytes at a stop, if that has a name.
fn mistake_at(rest: &[u8], stop: Stop) -> Option<&'static str> {
    let is_value = matches!(stop.next, Next::Value | Next::FirstItem);
    let is_key = matches!(stop.next, Next::FirstKey | Next::Key);
    match rest.first() {
        Some(b'\'') => Some("a single quotation mark"),
        Some(b'"') if is_value || is_key => {
            Some("a text with a control character or a wrong escape")
        }
        Some(b'[') if is_value && stop.depth == DEEPEST => {
            Some("an array inside 127 arrays and objects")
        }
        Some(b'{') if is_value && stop.depth == DEEPEST => {
            Some("an object inside 127 arrays and objects")
        }
        _ if has_leading_zero(word_of(rest)) => Some("a number with a leading zero"),
        _ => None,
    }
}

/// What is at a stop.
fn found_at(alloc: Global, rest: &[u8], stop: Stop) -> Result<Option<String>, AllocError> {
    match mistake_at(rest, stop) {
        Some(name) => Ok(Some(String::from_str(alloc, name)?)),
        None => shown_word(alloc, rest),
    }
}

/// A hint that names no continuation.
fn in_words(line: usize, column: usize, asked: &'static str) -> Hint
    ensures { (result.spot ≡ Text line column) × (result.asked ≡ asks.Words asked.entry) }
{
    Hint {
        spot: Spot::Text(line, column),
        asked: Asked::Words(asked),
    }
}

/// The place at which a text stops being JSON, by its brackets, commas, colons and quotation marks, and the word that is there.
#[tactic(auto, using(crate::proofs::Fronts::words_right))]
fn hint_of_structure(
    alloc: Global,
    bytes: &[u8],
    error: &Error,
) -> Result<(Hint, Option<String>), AllocError>
    ensures { IfOk result (λ found. HintsRight bytes.now found.0) }
{
    let most = offset_of(bytes, error.line(), error.column());
    if let Some(stop) = stop_within(alloc, bytes, most)? {
        if let Some(hint) = hint_of_stop(bytes, stop) {
            let rest = bytes.get(stop.at..).unwrap_or(&[]);
            return Ok((hint, found_at(alloc, rest, stop)?));
        }
    }
    let hint = in_words(error.line(), error.column(), NEXT);
    Ok((hint, shown_word(alloc, bytes.get(most..).unwrap_or(&[]))?))
}

/// The place at which a text stops being JSON, how it does, and what is there.
#[tactic(auto, using(crate::proofs::Fronts::words_right))]
pub(crate) fn hint_of_text(
    alloc: Global,
    bytes: &[u8],
    error: &Error,
) -> Result<(Hint, Option<String>), AllocError>
    ensures mark { IfOk result (λ found. begins_with_byte_order_mark bytes.now ≡ true → found.0.spot ≡ Text 1 1) }
    ensures next { IfOk result (λ found. HintsRight bytes.now found.0) }
{
    let (line, column) = (error.line(), error.column());
    if has_byte_order_mark(bytes) {
        let found = format!(in alloc; "a byte order mark")?;
        Ok((in_words(1, 1, "a value"), Some(found)))
    } else if error.is_eof() {
        Ok((in_words(line, column, OPEN), None))
    } else if is_of_number(alloc, error)? {
        Ok((in_words(line, column, NUMBER), None))
    } else if std::str::from_utf8(bytes).is_err() {
        let most = offset_of(bytes, line, column);
        let found = shown_word(alloc, bytes.get(most..).unwrap_or(&[]))?;
        Ok((in_words(line, column, UTF_8), found))
    } else {
        hint_of_structure(alloc, bytes, error)
    }
}
