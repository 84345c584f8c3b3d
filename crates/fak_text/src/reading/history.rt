//! The reader of histories.

ghost use Rattle.std.specs.Prelude.{◌≡◌, IfOk};
ghost use Rattle.serde_json.specs.View.{view, items_view};
ghost use Rattle.fak_text.specs.Gives.{Gives};
ghost use Rattle.fak_text.specs.Values.{RefusesLong, each_from};
ghost use Rattle.fak_text.specs.HistoryText.{history_of, kind_named, is_complete, mark_from, history_from, history_in, IsHistoryInRange};

use crate::fault::{Field, TextFault};
use crate::history::History;
use crate::names::{kind_name, number};
use crate::reading::values::{count, elements_of_key, input_in, number_at, number_of_key, text_at};
use fak_model::{Kind, LARGEST_SIZE, MOST_SEATS, Mark};
use serde_json::Value;
use std::alloc::Global;

const FAULT: TextFault = TextFault::Range(Field::Marks);

const MOST_MARKS: usize = 4_096;

const LAST_SEAT: u64 = MOST_SEATS - 1;

/// The kind of this name, with this number if it bears one.
#[tactic(auto, unfolding(crate::specs::HistoryText::kind_named))]
fn kind_named(name: &str, n: u64) -> Option<Kind<u64>>
    ensures { result ≡ kind_named name.now n }
{
    let kinds = [
        Kind::ClaimIn,
        Kind::OverIn,
        Kind::BackIn,
        Kind::NoRoom,
        Kind::Put(n),
        Kind::Fill(n),
        Kind::EndIn,
        Kind::ClaimOut,
        Kind::OverOut,
        Kind::BackOut,
        Kind::NoItem,
        Kind::Got(n),
        Kind::Take(n),
        Kind::EndOut,
        Kind::Close,
        Kind::Closed,
        Kind::LateIn,
    ];
    kinds.iter().find(|kind| kind_name(**kind) == name).copied()
}

/// Whether a mark has three elements if it bears a number, and else two.
fn is_complete(borne: Option<u64>, size: usize, number: Option<u64>) -> bool
    ensures { result ≡ is_complete borne size number }
{
    match borne {
        None => size == 2,
        Some(_) => size == 3 && number.is_some(),
    }
}

/// The mark of this index.
#[tactic(auto, unfolding(crate::specs::HistoryText::mark_from))]
fn mark_from(index: u64, value: &Value) -> Result<Mark<u64>, TextFault>
    ensures { Gives (λ m. m) result (mark_from index (view value.now)) }
{
    let items = value.as_array().ok_or(FAULT)?;
    let seat = number_at(value, 0).ok_or(FAULT)?;
    let name = text_at(value, 1).ok_or(FAULT)?;
    let third = number_at(value, 2);
    let kind = kind_named(name, third.unwrap_or(0)).ok_or(TextFault::UnknownOp(index))?;
    let complete = is_complete(number(kind), count(items), third);
    if seat <= LAST_SEAT && complete {
        Ok(Mark { seat, kind })
    } else {
        Err(FAULT)
    }
}

/// The marks of an array, in order.
fn marks_from(alloc: Global, values: &[Value]) -> Result<Vec<Mark<u64>>, TextFault>
    ensures { Gives (λ v. v.items) result (each_from mark_from 0 (items_view values.now)) }
{
    let mut marks = Vec::new(alloc);
    for (i, value) in values.iter().enumerate() {
        marks.push(mark_from(i as u64, value)?)?;
    }
    Ok(marks)
}

#[tactic(auto, unfolding(crate::specs::HistoryText::history_from))]
fn history_from(alloc: Global, value: &Value) -> Result<History, TextFault>
    ensures { Gives history_of result (history_from (view value.now)) }
{
    let size = number_of_key(value, Field::Size, 1, LARGEST_SIZE)?;
    let values = elements_of_key(value, Field::Marks, MOST_MARKS)?;
    let marks = marks_from(alloc, values)?;
    Ok(History { size, marks })
}

/// The history that an input is.
///
/// # Errors
///
/// The input's first fault, or `Memory`. For more than 1,048,576 bytes it is `Range(Field::Input)`, even if memory runs out.
pub fn read_history(alloc: Global, bytes: &[u8]) -> Result<History, TextFault>
    ensures gives { Gives history_of result (history_in bytes.now) }
    ensures range { IfOk result (λ history. IsHistoryInRange (history_of history)) }
    ensures long { RefusesLong bytes.now result }
{
    let value = input_in(alloc, bytes)?;
    history_from(alloc, &value)
}
