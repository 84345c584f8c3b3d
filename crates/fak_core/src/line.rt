//! The record of one atomic step of a core.

use fak_model::{Kind, RoomKind};

/// The atomic steps, each one operation on one word.
#[derive(Clone, Copy, Debug, PartialEq, Eq)]
pub enum CoreMove {
    /// Room: load the count, and test whether the claim fits.
    Test,
    /// Room: add the claim, and test again whether it fitted.
    Add,
    /// Room: withdraw a claim that did not fit.
    Back,
    /// Room: give an amount back.
    Release,
    /// Queue: load the upper count, and test whether there is room.
    TestUp,
    /// Queue: add 1 to the upper count, and test again.
    AddUp,
    /// Queue: withdraw an insertion that found no room, or found the queue shut.
    BackUp,
    /// Queue: draw an insertion's ticket.
    TicketIn,
    /// Queue: load the cell's turn word, for an insertion.
    TurnIn,
    /// Queue: store the item in the cell.
    StoreItem,
    /// Queue: hand the cell on to the deletion of the same ticket.
    SetFull,
    /// Queue: add 1 to the lower count, which ends the insertion.
    EndIn,
    /// Queue: load the lower count, and test whether there is an item.
    TestLow,
    /// Queue: subtract 1 from the lower count, and test again.
    SubLow,
    /// Queue: withdraw a deletion that found no item.
    BackLow,
    /// Queue: draw a deletion's ticket.
    TicketOut,
    /// Queue: load the cell's turn word, for a deletion.
    TurnOut,
    /// Queue: load the item of the cell.
    LoadItem,
    /// Queue: hand the cell on to the insertion of the next round.
    SetFree,
    /// Queue: subtract 1 from the upper count, which ends the deletion.
    EndOut,
    /// Queue: shut the queue.
    Shut,
}

/// The kind of mark that a step left, without its seat.
#[derive(Clone, Copy, Debug, PartialEq, Eq)]
pub enum LineMark {
    Room(RoomKind),
    Queue(Kind<u64>),
}

/// One atomic step.
#[derive(Clone, Copy, Debug, PartialEq, Eq)]
pub struct Line {
    /// The seat that took it.
    pub seat: u64,
    /// Which step it was.
    pub step: CoreMove,
    /// The value of the word before the step; for a store, the value stored. A count is given without its bias.
    pub found: i128,
    /// The mark that it left in the history, if any.
    pub mark: Option<LineMark>,
}
