//! The text of a journal, and of a process's name.

ghost use Rattle.std.specs.Prelude.{◌≡◌, ◌++◌, map, decimal, string_bytes, IfOk, IfErr, MatchOption, OnOk};
ghost use Rattle.fak_text.specs.JournalText.{text_of_name, child_prefix, text_of_note, text_of_journal};
ghost use Rattle.fak_text.specs.Views.{note_of};
ghost use Rattle.fak_text.specs.declared.fault.TextFault.TheVariants.{Memory};

use crate::fault::TextFault;
use crate::steps::Note;
use crate::text::number::append_number;
use std::alloc::{AllocError, Global};

/// Appends a word and a number.
fn append_numbered(text: &mut String, word: &str, number: u64) -> Result<(), AllocError>
    ensures { OnOk result (string_bytes text.new ≡ string_bytes text.old ++ (word.now ++ decimal number)) }
{
    text.push_str(word)?;
    append_number(text, number)
}

/// Appends a word and a number, or the other word if there is no number.
fn append_optional(
    text: &mut String,
    word: &str,
    number: Option<u64>,
    none: &str,
) -> Result<(), AllocError>
    ensures { OnOk result (MatchOption number (string_bytes text.new ≡ string_bytes text.old ++ none.now)
        (λ n. string_bytes text.new ≡ string_bytes text.old ++ (word.now ++ decimal n))) }
{
    match number {
        Some(number) => append_numbered(text, word, number),
        None => text.push_str(none),
    }
}

/// Appends what the names of a process's children begin with: each of its numbers, and a dot.
fn append_prefix(text: &mut String, name: &[u64]) -> Result<(), AllocError>
    ensures { OnOk result (string_bytes text.new ≡ string_bytes text.old ++ child_prefix name.now) }
{
    for number in name {
        append_number(text, *number)?;
        text.push_str(".")?;
    }
    Ok(())
}

/// Appends the text of a process's name: its numbers, joined by dots.
pub fn append_name(text: &mut String, name: &[u64]) -> Result<(), AllocError>
    ensures { OnOk result (string_bytes text.new ≡ string_bytes text.old ++ text_of_name name.now) }
{
    match name.split_last() {
        None => Ok(()),
        Some((last, parents)) => {
            append_prefix(text, parents)?;
            append_number(text, *last)
        }
    }
}

/// Appends the text of a note of the process of this name.
fn append_note(text: &mut String, name: &[u64], note: &Note) -> Result<(), AllocError>
    ensures { OnOk result (string_bytes text.new ≡ string_bytes text.old ++ text_of_note
        (λ j. child_prefix name.now ++ decimal j)
        (note_of note.now)) }
{
    match note {
        Note::Say(said) => {
            text.push_str("say ")?;
            text.push_str(said)
        }
        Note::Yield => text.push_str("yield"),
        Note::Down(s) => append_numbered(text, "down ", *s),
        Note::Up(s) => append_numbered(text, "up ", *s),
        Note::OpenFile(n, entry) => {
            append_numbered(text, "open ", *n)?;
            append_optional(text, " entry ", *entry, " no-entry")
        }
        Note::CloseFile(n, entry) => {
            append_numbered(text, "close ", *n)?;
            append_optional(text, " entry ", *entry, " none")
        }
        Note::Stat(n, uses) => {
            append_numbered(text, "stat ", *n)?;
            append_optional(text, " uses ", *uses, " none")
        }
        Note::Spawned(j) => {
            text.push_str("spawn ")?;
            append_prefix(text, name)?;
            append_number(text, *j)
        }
        Note::NoBirth => text.push_str("spawn no-birth"),
        Note::NoSlot => text.push_str("spawn no-slot"),
        Note::Shutdown => text.push_str("shutdown"),
    }
}

/// Appends the text of the journal of the process of this name: a line for each note, which begins with two spaces and
/// ends with a newline. A child's name is the process's name and the child's number.
pub fn append_journal(text: &mut String, name: &[u64], notes: &[Note]) -> Result<(), AllocError>
    ensures { OnOk result (string_bytes text.new ≡ string_bytes text.old ++ text_of_journal name.now
        (map note_of notes.now)) }
{
    for note in notes {
        text.push_str("  ")?;
        append_note(text, name, note)?;
        text.push_str("\n")?;
    }
    Ok(())
}

/// The text of a process's name: its numbers, joined by dots.
pub fn name_text(alloc: Global, name: &[u64]) -> Result<String, AllocError>
    ensures { IfOk result (λ s. string_bytes s ≡ text_of_name name.now) }
{
    let mut text = String::new(alloc);
    append_name(&mut text, name)?;
    Ok(text)
}

/// The text of the journal of the process of this name: a line for each note, which begins with two spaces and ends
/// with a newline. A child's name is the process's name and the child's number.
///
/// # Errors
///
/// Only `Memory`.
pub fn journal_text(alloc: Global, name: &[u64], notes: &[Note]) -> Result<Vec<u8>, TextFault>
    ensures text { IfOk result (λ v. v.items ≡ text_of_journal name.now (map note_of notes.now)) }
    ensures memory { IfErr result (λ e. e ≡ Memory) }
{
    let mut text = String::new(alloc);
    append_journal(&mut text, name, notes)?;
    Ok(text.into_bytes())
}
