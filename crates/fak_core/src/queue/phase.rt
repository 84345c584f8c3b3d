//! The phase of a seat of a queue core.

ghost use Rattle.std.specs.Prelude.{◌≡◌};

use std::alloc::AllocError;

/// The next step of a seat, with the item and the ticket of its call. `moves` states what each step must follow.
#[derive(Debug, PartialEq, Eq, Drop)]
pub enum Phase<T> {
    /// No call is open.
    Idle,
    /// An insertion's load of the upper count.
    TestUp(T),
    /// An insertion's add to the upper count.
    AddUp(T),
    /// The withdrawal of an insertion that was refused at its add.
    BackUp(T),
    /// The draw of an insertion's ticket.
    TicketIn(T),
    /// An insertion's load of its cell's turn word.
    TurnIn(u64, T),
    /// The store of the item in the cell, which was found free.
    StoreItem(u64, T),
    /// The store of the turn word that makes the cell full.
    SetFull(u64, T),
    /// The add to the lower count that ends an insertion.
    EndInsert(u64),
    /// A deletion's load of the lower count.
    TestLow,
    /// A deletion's subtraction from the lower count.
    SubLow,
    /// The withdrawal of a deletion that was refused at its subtraction.
    BackLow,
    /// The draw of a deletion's ticket.
    TicketOut,
    /// A deletion's load of its cell's turn word.
    TurnOut(u64),
    /// The load of the item from the cell, which was found full.
    LoadItem(u64),
    /// The store of the turn word that makes the cell free for the next round.
    SetFree(u64),
    /// The subtraction from the upper count that ends a deletion.
    EndDelete(u64),
    /// The setting of the upper count's shut bit.
    SetShut,
}

impl<T: Copy> Clone for Phase<T> {
    ghost is_clone = { λ x y. y ≡ x };

    ghost is_infallible = { λ _. Unit {0} };

    fn clone(&self) -> Result<Phase<T>, AllocError> {
        Ok(*self)
    }
}

impl<T: Copy> Copy for Phase<T> {}
