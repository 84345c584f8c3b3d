//! The word that holds a count.

/// The place of the count among the words. It is in the middle: the 16 words before it and the 16 after it are unused.
/// So nothing else shares a line of 128 bytes or less with the count, wherever the table is in memory.
pub(crate) const COUNT: usize = 16;

/// The number of words of a table.
pub(crate) const WORDS: usize = 33;
