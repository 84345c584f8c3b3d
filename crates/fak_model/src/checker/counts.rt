//! What the checker remembers of the marks that it has read.

/// The counts of the marks of a queue's history that were read so far.
#[derive(Clone, Copy)]
pub struct Counts {
    /// The marks that raise the upper count.
    pub upper_raises: u64,
    /// The marks that lower it.
    pub upper_drops: u64,
    /// The marks that raise the lower count.
    pub lower_raises: u64,
    /// The marks that lower it.
    pub lower_drops: u64,
    pub puts: u64,
    pub gots: u64,
    /// Whether a `Close` was read.
    pub is_shut: bool,
    /// An index before which there are exactly as many `Put`s as `Got`s were read in all. The first `Put` from this
    /// index on has the oldest item left.
    pub oldest: usize,
}
