//! The marks that calls on a bounded queue leave in its history.

/// The kind of a mark of a queue: what one atomic step of a call adds to the history.
///
/// An insertion is `NoRoom`, `OverIn BackIn`, `Closed`, `LateIn BackIn` or `ClaimIn Put Fill EndIn`. A deletion is
/// `NoItem`, `OverOut BackOut` or `ClaimOut Got Take EndOut`. `Close` is a call by itself. The forms are those of
/// Gottlieb, Lubachevsky and Rudolph (TOPLAS 5(2), 1983), extended by those of a queue that can be shut.
#[derive(Clone, Copy, Debug, PartialEq, Eq, Drop)]
pub enum Kind<T> {
    /// An insertion found room at its add: it is granted.
    ClaimIn,
    /// An insertion found no room at its add, and will withdraw it.
    OverIn,
    /// An insertion withdrew its add: it is refused.
    BackIn,
    /// An insertion found no room at its test: it is refused.
    NoRoom,
    /// An insertion drew its ticket, the number of earlier `Put`s, for this item.
    Put(T),
    /// An insertion drew its ticket for this item. The ticket is the number of earlier `Put`s.
    Fill(u64),
    /// An insertion raised the lower count: it is complete.
    EndIn,
    /// An insertion raised the lower count: it is complete, and a deletion may claim the item.
    ClaimOut,
    /// A deletion found no item at its subtraction, and will withdraw it.
    OverOut,
    /// A deletion withdrew its subtraction: it is refused.
    BackOut,
    /// A deletion found no item at its test: it is refused.
    NoItem,
    /// A deletion drew its ticket, the number of earlier `Got`s, and with it this item.
    Got(T),
    /// A deletion drew its ticket, and with it this item. The ticket is the number of earlier `Got`s.
    Take(u64),
    /// The item of this ticket was taken from its cell.
    EndOut,
    /// A deletion lowered the upper count: it is complete, and an insertion may claim the cell.
    Close,
    /// An insertion found the queue shut at its test: it is refused.
    Closed,
    /// An insertion found the queue shut at its add, and will withdraw it.
    LateIn,
}

/// A mark of a seat in the history of a queue.
#[derive(Clone, Copy, Debug, PartialEq, Eq, Drop)]
pub struct Mark<T> {
    pub seat: u64,
    pub kind: Kind<T>,
}

/// What the open call of a seat has done so far.
#[derive(Debug, PartialEq, Eq, Drop)]
pub enum Stage<T> {
    /// No call is open.
    Idle,
    /// An insertion that was refused at its add and isn't withdrawn yet.
    Withdrawing,
    /// An insertion that is granted and has no ticket yet.
    Claimed,
    /// An insertion with its ticket and item, whose cell isn't filled yet.
    Putting(u64, T),
    /// An insertion whose cell, of this ticket, is filled.
    Filled(u64),
    /// A deletion that was refused at its subtraction and isn't withdrawn yet.
    WithdrawingOut,
    /// A deletion that is granted and has no ticket yet.
    ClaimedOut,
    /// A deletion with its ticket, whose cell isn't taken from yet.
    Getting(u64),
    /// A deletion that has taken from the cell of this ticket.
    Taken(u64),
}
