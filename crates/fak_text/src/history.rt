//! Recorded histories of a queue, to be judged.

use fak_model::Mark;

/// A history of a queue of this size, 1 to 4,096.
#[derive(Debug, PartialEq, Eq, Drop)]
pub struct History {
    pub size: u64,
    /// At most 4,096 marks of the seats 0 to 63, oldest first.
    pub marks: Vec<Mark<u64>>,
}
