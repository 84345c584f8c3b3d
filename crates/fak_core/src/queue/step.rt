//! One atomic step of a seat of a queue, as data.

ghost use Rattle.std.specs.Prelude.{◌≡◌};

use crate::line::CoreMove;
use crate::queue::phase::Phase;
use fak_model::Kind;
use std::alloc::AllocError;

/// The value that a step found in its word; for a store of a turn or an item, the value stored.
#[derive(Debug, Drop)]
pub enum Found<T> {
    /// A count, or a ticket counter.
    Count(i64),
    /// A ticket, or a turn word.
    Word(u64),
    /// The content of a cell.
    Item(Option<T>),
}

/// What a step writes: the word, and its new value.
#[derive(Debug, Drop)]
pub enum Write<T> {
    /// The step only loads.
    Nothing,
    /// The upper count.
    Upper(i64),
    /// The lower count.
    Lower(i64),
    /// The counter of insertions' tickets.
    DrawsIn(u64),
    /// The counter of deletions' tickets.
    DrawsOut(u64),
    /// The number of a cell, and its new turn word.
    Turn(u64, u64),
    /// The number of a cell, and its new content.
    Cell(u64, T),
    /// The shut bit, which is set.
    Shut,
}

impl<T: Copy> Clone for Write<T> {
    ghost is_clone = { λ x y. y ≡ x };

    ghost is_infallible = { λ _. Unit {0} };

    fn clone(&self) -> Result<Write<T>, AllocError> {
        Ok(*self)
    }
}

impl<T: Copy> Copy for Write<T> {}

/// One atomic step of a seat.
#[derive(Debug, Drop)]
pub struct QueueMove<T> {
    /// Which step it is.
    pub step: CoreMove,
    /// What it finds.
    pub found: Found<T>,
    /// The mark that it leaves in the history, if any.
    pub mark: Option<Kind<T>>,
    /// What it writes.
    pub write: Write<T>,
    /// The phase of the seat after it.
    pub phase: Phase<T>,
}
