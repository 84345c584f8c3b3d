//! The tickets of a burst.

/// The tickets that a burst drew, which follow one another: from `ticket` on, `count` of them.
#[derive(Clone, Copy, Debug, PartialEq, Eq, Drop)]
pub struct Burst {
    /// The first ticket.
    pub ticket: u64,
    /// How many, at least 1.
    pub count: u64,
}
