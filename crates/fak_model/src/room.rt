//! The marks that calls on a room leave in its history.

/// The kind of a mark of a room, with the amount of its call.
#[derive(Clone, Copy, Debug, PartialEq, Eq)]
pub enum RoomKind {
    /// The amount fitted at the claim's add: the claim is granted.
    Up(u64),
    /// The amount did not fit at the claim's add, which will be withdrawn.
    Over(u64),
    /// The claim was withdrawn: it is refused.
    Back(u64),
    /// The amount did not fit at the claim's test: the claim is refused.
    No(u64),
    /// An amount was given back.
    Release(u64),
}

/// A mark of a seat in the history of a room.
#[derive(Clone, Copy, Debug, PartialEq, Eq)]
pub struct RoomMark {
    pub seat: u64,
    pub kind: RoomKind,
}
