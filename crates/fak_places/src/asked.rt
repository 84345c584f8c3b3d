//! What is asked of a value, and the value's place in its key's array.

ghost use Rattle.std.specs.Prelude.{◌≡◌};
ghost use Rattle.fak_places.specs.Spots.{absent_at, spot_in_item, spot_in_step};

use crate::stop::Next;
use std::fmt;
use thiserror::Error;

/// What is asked of a value.
#[derive(Clone, Copy, Debug, PartialEq, Eq, Error)]
pub enum Asked {
    /// What these words say.
    #[error("{0}")]
    Words(&'static str),
    /// This is a whole number in this range, both ends included.
    #[error("{0} is a whole number from {1} to {2}")]
    Within(&'static str, u64, u64),
    /// This is an array of at most this many first processes.
    #[error("this is an array of at most {0} programs' numbers, one for each slot")]
    Starts(u64),
    /// The script has what a number names. The text says which number that is.
    #[error("{0}")]
    Present(Absent),
    /// A text goes on so at its place, and then to its end as JSON.
    #[error("{0}")]
    Next(Next),
}

/// A number that names nothing in its script.
#[derive(Clone, Copy, Debug, PartialEq, Eq)]
pub struct Absent {
    /// What the number would name: a semaphore or a program.
    pub what: &'static str,
    /// The number.
    pub number: u64,
    /// How many of these the script has, at most `number`. They are numbered from 0.
    pub count: u64,
}

impl fmt::Display for Absent {
    fn fmt<W: fmt::Write>(&self, f: &mut fmt::Formatter<W>) -> fmt::Result {
        let Absent {
            what,
            number,
            count,
        } = *self;
        write!(f, "{what} {number} does not exist: the script has ")?;
        match count.checked_sub(1) {
            None => write!(f, "no {what}s"),
            Some(0) => write!(f, "only {what} 0"),
            Some(last) => write!(f, "{what}s 0 to {last}"),
        }
    }
}

/// The place of a value.
#[derive(Clone, Copy, Debug, PartialEq, Eq)]
pub enum Spot {
    /// This line and column of a text that is not JSON, both from 1.
    Text(usize, usize),
    /// The value of the key.
    Key,
    /// The element of this index.
    One(usize),
    /// An element of an element.
    Two(usize, usize),
    /// An element of an element of an element.
    Three(usize, usize, usize),
}

impl fmt::Display for Spot {
    fn fmt<W: fmt::Write>(&self, f: &mut fmt::Formatter<W>) -> fmt::Result {
        match self {
            Spot::Text(line, column) => write!(f, "line {line}, column {column}"),
            Spot::Key => Ok(()),
            Spot::One(i) => write!(f, "[{i}]"),
            Spot::Two(i, j) => write!(f, "[{i}][{j}]"),
            Spot::Three(i, j, k) => write!(f, "[{i}][{j}][{k}]"),
        }
    }
}

/// The place of a wrong value, and what is asked there.
#[derive(Clone, Copy, Debug, PartialEq, Eq)]
pub struct Hint {
    pub spot: Spot,
    pub asked: Asked,
}

/// Which element of an event, a mark or a step is wrong, or all of it; and what is asked there.
#[derive(Clone, Copy, Debug, PartialEq, Eq)]
pub(crate) struct Wrong {
    pub element: Option<usize>,
    pub asked: Asked,
}

/// All of the value is wrong.
pub(crate) fn whole(asked: &'static str) -> Wrong {
    Wrong {
        element: None,
        asked: Asked::Words(asked),
    }
}

/// The element of this index is wrong.
pub(crate) fn element(index: usize, asked: &'static str) -> Wrong {
    Wrong {
        element: Some(index),
        asked: Asked::Words(asked),
    }
}

/// The element of this index is no number from `low` to `high`.
pub(crate) fn outside(index: usize, what: &'static str, low: u64, high: u64) -> Wrong {
    Wrong {
        element: Some(index),
        asked: Asked::Within(what, low, high),
    }
}

/// The element of this index names what the script does not have.
pub(crate) fn names_nothing(index: usize, absent: Absent) -> Wrong
    ensures { result ≡ absent_at index absent }
{
    Wrong {
        element: Some(index),
        asked: Asked::Present(absent),
    }
}

/// What is wrong with the element of this index of a key's array.
pub(crate) fn in_item(index: usize, wrong: Wrong) -> Hint
    ensures { result.spot ≡ spot_in_item index wrong.element }
{
    let spot = match wrong.element {
        None => Spot::One(index),
        Some(element) => Spot::Two(index, element),
    };
    Hint {
        spot,
        asked: wrong.asked,
    }
}

/// What is wrong with a step of a program.
pub(crate) fn in_step(program: usize, step: usize, wrong: Wrong) -> Hint
    ensures { result.spot ≡ spot_in_step program step wrong.element }
{
    let spot = match wrong.element {
        None => Spot::Two(program, step),
        Some(element) => Spot::Three(program, step, element),
    };
    Hint {
        spot,
        asked: wrong.asked,
    }
}

/// What is asked of the value of a key.
pub(crate) fn of_key(asked: Asked) -> Hint {
    Hint {
        spot: Spot::Key,
        asked,
    }
}
