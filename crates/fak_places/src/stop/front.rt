//! How far a text can go on to be JSON, by its brackets, commas, colons and quotation marks.

ghost use Rattle.std.specs.Prelude.{◌≡◌, ◌≤◌, IfOk, Ok, [], false, length, map, reverse};
ghost use Rattle.json.specs.Word.{is_space};
ghost use Rattle.fak_places.specs.Fronts.{after_value, begins_value, closes};
ghost use Rattle.fak_places.specs.declared.stop.next.Next.TheVariants as nexts;

use crate::stop::next::Next;
use std::alloc::{AllocError, Global};

/// Arrays and objects nest at most this deep.
pub(crate) const DEEPEST: usize = 127;

/// What is open at a place of a text.
#[derive(Clone, Copy, PartialEq, Eq)]
pub(crate) enum Open {
    Array,
    Object,
}

impl Open {
    /// The bracket that closes it.
    fn bracket(self) -> u8
        ensures { result ≡ closes self }
    {
        match self {
            Open::Array => b']',
            Open::Object => b'}',
        }
    }
}

/// What a byte of a text is part of.
#[derive(Clone, Copy, PartialEq, Eq)]
enum Mode {
    Between,
    Word,
    Text,
    Escape,
}

/// The front of a text.
#[derive(Drop)]
pub(crate) struct Front {
    /// What can stand after it, if it is not inside a text.
    pub next: Next,
    /// What is open after it, the outermost first.
    pub opened: Vec<Open>,
    mode: Mode,
}

/// What can stand after a value, by what is open there.
fn after_value(opened: &[Open]) -> Next
    ensures { result ≡ after_value opened.now }
{
    match opened {
        [] => Next::End,
        [.., Open::Array] => Next::AfterItem,
        [.., Open::Object] => Next::AfterMember,
    }
}

/// Whether a value can stand.
fn begins_value(next: Next) -> bool
    ensures { result ≡ begins_value next }
{
    matches!(next, Next::Value | Next::FirstItem)
}

/// Whether a byte is a space of JSON.
fn is_space(byte: u8) -> bool
    ensures { result ≡ is_space byte }
{
    byte == b' ' || byte == b'\t' || byte == b'\n' || byte == b'\r'
}

/// What the next byte is part of, after this byte of a text.
fn after_in_text(byte: u8) -> Mode {
    match byte {
        b'"' => Mode::Between,
        b'\\' => Mode::Escape,
        _ => Mode::Text,
    }
}

impl Front {
    /// The front of no byte.
    fn new(alloc: Global) -> Front
        ensures { (result.next ≡ nexts.Value) × (result.opened.items ≡ []) }
    {
        Front {
            next: Next::Value,
            opened: Vec::new(alloc),
            mode: Mode::Between,
        }
    }

    /// Opens an array or an object, if one can stand here.
    fn takes_opening(&mut self, what: Open, first: Next) -> Result<bool, AllocError>
        ensures { result ≡ Ok false → self.new ≡ self.old }
    {
        if !begins_value(self.next) || self.opened.len() >= DEEPEST {
            return Ok(false);
        }
        self.opened.push(what)?;
        self.next = first;
        self.mode = Mode::Between;
        Ok(true)
    }

    /// Closes what can be closed at its beginning or after a value.
    fn takes_closing(&mut self, first: Next, after: Next) -> bool
        ensures { result ≡ false → self.new ≡ self.old }
    {
        if self.next != first && self.next != after {
            return false;
        }
        drop(self.opened.pop());
        self.next = after_value(self.opened.as_slice());
        self.mode = Mode::Between;
        true
    }

    /// Passes a comma, if one can stand here.
    fn takes_comma(&mut self) -> bool
        ensures { result ≡ false → self.new ≡ self.old }
    {
        self.next = match self.next {
            Next::AfterItem => Next::Value,
            Next::AfterMember => Next::Key,
            _ => return false,
        };
        self.mode = Mode::Between;
        true
    }

    /// Passes a colon, if one can stand here.
    fn takes_colon(&mut self) -> bool
        ensures { result ≡ false → self.new ≡ self.old }
    {
        if self.next != Next::Colon {
            return false;
        }
        self.next = Next::Value;
        self.mode = Mode::Between;
        true
    }

    /// Begins a key or a value, of this mode, if one can stand here.
    fn takes_beginning(&mut self, mode: Mode) -> bool
        ensures { result ≡ false → self.new ≡ self.old }
    {
        let is_key = mode == Mode::Text && matches!(self.next, Next::FirstKey | Next::Key);
        if !is_key && !begins_value(self.next) {
            return false;
        }
        self.next = if is_key {
            Next::Colon
        } else {
            after_value(self.opened.as_slice())
        };
        self.mode = mode;
        true
    }

    /// Passes a byte outside texts, if it can stand here.
    fn takes_outside(&mut self, byte: u8) -> Result<bool, AllocError>
        ensures { result ≡ Ok false → self.new ≡ self.old }
    {
        match byte {
            b'[' => self.takes_opening(Open::Array, Next::FirstItem),
            b'{' => self.takes_opening(Open::Object, Next::FirstKey),
            b']' => Ok(self.takes_closing(Next::FirstItem, Next::AfterItem)),
            b'}' => Ok(self.takes_closing(Next::FirstKey, Next::AfterMember)),
            b',' => Ok(self.takes_comma()),
            b':' => Ok(self.takes_colon()),
            _ if is_space(byte) => {
                self.mode = Mode::Between;
                Ok(true)
            }
            _ if self.mode == Mode::Word => Ok(true),
            b'"' => Ok(self.takes_beginning(Mode::Text)),
            _ => Ok(self.takes_beginning(Mode::Word)),
        }
    }

    /// Passes a byte, if it can stand here. Otherwise nothing changes.
    fn takes(&mut self, byte: u8) -> Result<bool, AllocError>
        ensures { result ≡ Ok false → self.new ≡ self.old }
    {
        self.mode = match self.mode {
            Mode::Escape => Mode::Text,
            Mode::Text => after_in_text(byte),
            Mode::Between | Mode::Word => return self.takes_outside(byte),
        };
        Ok(true)
    }

    /// The brackets that close what is open, the innermost first.
    pub(crate) fn brackets(&self, alloc: Global) -> Result<Vec<u8>, AllocError>
        ensures { IfOk result (λ brackets. brackets.items ≡ reverse (map closes self.now.opened.items)) }
    {
        let mut brackets: Vec<u8> = self
            .opened
            .iter()
            .map(|what| what.bracket())
            .collect(alloc)?;
        brackets.reverse();
        Ok(brackets)
    }
}

/// The longest front, of at most this many bytes, that can go on to be JSON as far as its brackets, commas, colons and quotation marks
/// show, and its length.
pub(crate) fn longest_front(
    alloc: Global,
    bytes: &[u8],
    most: usize,
) -> Result<(usize, Front), AllocError>
    ensures { IfOk result (λ found. found.0 ≤ length bytes.now) }
{
    let mut front = Front::new(alloc);
    for (i, byte) in bytes.iter().enumerate() {
        if most <= i || !front.takes(*byte)? {
            return Ok((i, front));
        }
    }
    Ok((bytes.len(), front))
}
