//! What a load of the upper count observes.

/// The cells in use, and whether the queue is shut, as one load observed them.
#[derive(Clone, Copy, Debug, PartialEq, Eq, Drop)]
pub struct InUse {
    /// The upper count: insertions begun and not withdrawn, minus deletions that have ended. It is at least 0. It exceeds the
    /// number of cells only for a moment, while insertions are refused.
    pub count: i64,
    /// Whether the queue is shut.
    pub is_shut: bool,
}
