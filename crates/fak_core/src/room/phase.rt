//! The phase of a seat of a room core.

/// The next step of a seat, with the amount of its call. `moves` states what each step must follow.
#[derive(Clone, Copy, Debug, PartialEq, Eq)]
pub enum RoomPhase {
    /// No call: there is no next step.
    Idle,
    /// The load of a claim, which tests the count.
    Testing(u64),
    /// The add of a claim, which tests again.
    Adding(u64),
    /// The withdrawal of a claim that did not fit at its add.
    Backing(u64),
    /// The subtraction that gives an amount back.
    Releasing(u64),
}

/// What a seat of a room core holds, and its next step.
#[derive(Clone, Copy, Debug, PartialEq, Eq)]
pub struct CoreSeat {
    pub held: u64,
    pub phase: RoomPhase,
}
