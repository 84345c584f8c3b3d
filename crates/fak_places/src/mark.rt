//! What is wrong with a mark of a history.

ghost use Rattle.std.specs.Prelude.{◌≡◌, ℕ, is_none, is_ok, not, option_map};
ghost use Rattle.std.specs.List.{position};
ghost use Rattle.serde_json.specs.View.{view};
ghost use Rattle.fak_text.specs.HistoryText.{is_complete, kind_named, mark_from};
ghost use Rattle.fak_places.specs.Named.{bears_named, is_whole_mark};

use crate::asked::{Wrong, element, outside, whole};
use crate::values::count;
use fak_text::{number_at, text_at};
use serde_json::Value;

const LAST_SEAT: u64 = 63;

const NAMES: &'static str =
    "a mark is claim-in, over-in, back-in, no-room, put, fill, end-in, claim-out, over-out, back-out, no-item, got, take, end-out, close, closed or late-in";

/// Whether the mark of this name bears a number; none if no mark has the name.
#[tactic(auto, unfolding(crate::specs::Named::bears_named))]
fn bears(name: &str) -> Option<bool>
    ensures { result ≡ bears_named name.now }
{
    match name {
        "put" | "fill" | "got" | "take" => Some(true),
        "claim-in" | "over-in" | "back-in" | "no-room" | "end-in" | "late-in" => Some(false),
        "claim-out" | "over-out" | "back-out" | "no-item" | "end-out" => Some(false),
        "close" | "closed" => Some(false),
        _ => None,
    }
}

/// What is wrong with the elements of a mark that bears a number, or none.
fn wrong_elements(bears: bool, size: usize, number: Option<u64>) -> Option<Wrong>
    ensures { is_none result ≡ is_whole_mark bears size number }
{
    if !bears && size != 2 {
        Some(whole("a mark of this name has two elements"))
    } else if bears && size != 3 {
        Some(whole("a mark of this name has three elements"))
    } else if bears && number.is_none() {
        Some(element(2, "an item or a ticket is a whole number"))
    } else {
        None
    }
}

/// What is wrong with a mark, if anything.
#[tactic(auto, unfolding(fak_text::specs::HistoryText::mark_from))]
pub(crate) fn wrong_mark(value: &Value) -> Option<Wrong>
    ensures { is_none result ≡ is_ok (mark_from 0 (view value.now)) }
{
    let Some(items) = value.as_array() else {
        return Some(whole("a mark is an array of two or three elements"));
    };
    let Some(seat) = number_at(value, 0) else {
        return Some(outside(0, "a seat", 0, LAST_SEAT));
    };
    let Some(name) = text_at(value, 1) else {
        return Some(element(1, "a mark's name is a text"));
    };
    let Some(bears) = bears(name) else {
        return Some(element(1, NAMES));
    };
    if seat > LAST_SEAT {
        return Some(outside(0, "a seat", 0, LAST_SEAT));
    }
    wrong_elements(bears, count(items), number_at(value, 2))
}

/// The index of the first mark that is wrong.
pub(crate) fn first_wrong_mark(values: &[Value]) -> Option<usize>
    ensures { result ≡ position (λ v. not (is_ok (mark_from 0 (view v)))) values.now }
{
    values.iter().position(|value| wrong_mark(value).is_some())
}
