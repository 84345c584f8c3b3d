//! The text of a line, and of a refusal.

ghost use Rattle.std.specs.Prelude.{◌≡◌, ◌++◌, string_bytes, IfOk, IfErr, OnOk};
ghost use Rattle.fak_text.specs.LineText.{with_number, mark_or_dash, text_of_line, text_of_refusal};
ghost use Rattle.fak_text.specs.Names.{IsRefusal};
ghost use Rattle.fak_text.specs.declared.fault.TextFault.TheVariants.{Memory};

use crate::fault::TextFault;
use crate::names::{amount, kind_name, move_name, number, refusal_name, room_name};
use crate::text::number::append_number;
use fak_core::{CoreFault, Line, LineMark};
use std::alloc::{AllocError, Global};

/// Appends the name of a mark, and the number that it bears.
fn append_named(text: &mut String, name: &str, number: Option<u64>) -> Result<(), AllocError>
    ensures { OnOk result (string_bytes text.new ≡ string_bytes text.old ++ with_number name.now number) }
{
    text.push_str(name)?;
    match number {
        None => Ok(()),
        Some(number) => {
            text.push_str(" ")?;
            append_number(text, number)
        }
    }
}

/// Appends the mark of a line, or a dash if there is none.
fn append_mark(text: &mut String, mark: Option<LineMark>) -> Result<(), AllocError>
    ensures { OnOk result (string_bytes text.new ≡ string_bytes text.old ++ mark_or_dash mark) }
{
    match mark {
        None => text.push_str("-"),
        Some(LineMark::Room(kind)) => append_named(text, room_name(kind), Some(amount(kind))),
        Some(LineMark::Queue(kind)) => append_named(text, kind_name(kind), number(kind)),
    }
}

/// Appends the text of a line: its seat, step, value found, and mark or `-`. It has no newline.
#[tactic(auto, unfolding(crate::specs::LineText::text_of_line))]
pub fn append_line(text: &mut String, line: &Line) -> Result<(), AllocError>
    ensures { OnOk result (string_bytes text.new ≡ string_bytes text.old ++ text_of_line line.now) }
{
    append_number(text, line.seat)?;
    text.push_str(" ")?;
    text.push_str(move_name(line.step))?;
    text.push_str(" ")?;
    append_number(text, line.found)?;
    text.push_str(" ")?;
    append_mark(text, line.mark)
}

/// Appends the text of a refused call or step: the seat, `refused`, and the name of the refusal. It has no newline.
#[tactic(auto, unfolding(crate::specs::LineText::text_of_refusal))]
pub fn append_refusal(text: &mut String, seat: u64, fault: &CoreFault) -> Result<(), AllocError>
    requires { IsRefusal fault.now }
    ensures { OnOk result (string_bytes text.new ≡ string_bytes text.old ++ text_of_refusal seat fault.now) }
{
    append_number(text, seat)?;
    text.push_str(" refused ")?;
    text.push_str(refusal_name(*fault))
}

/// The text of a line: its seat, step, value found, and mark or `-`. It has no newline.
///
/// # Errors
///
/// Only `Memory`.
pub fn line_text(alloc: Global, line: &Line) -> Result<Vec<u8>, TextFault>
    ensures text { IfOk result (λ v. v.items ≡ text_of_line line.now) }
    ensures memory { IfErr result (λ e. e ≡ Memory) }
{
    let mut text = String::new(alloc);
    append_line(&mut text, line)?;
    Ok(text.into_bytes())
}

/// The text of a refused call or step: the seat, `refused`, and the name of the refusal. It has no newline.
///
/// # Errors
///
/// Only `Memory`.
pub fn refused_text(alloc: Global, seat: u64, fault: &CoreFault) -> Result<Vec<u8>, TextFault>
    requires { IsRefusal fault.now }
    ensures text { IfOk result (λ v. v.items ≡ text_of_refusal seat fault.now) }
    ensures memory { IfErr result (λ e. e ≡ Memory) }
{
    let mut text = String::new(alloc);
    append_refusal(&mut text, seat, fault)?;
    Ok(text.into_bytes())
}
