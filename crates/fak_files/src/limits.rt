//! What a file table is made with.

/// The number of entries of a file table, and of its seats.
#[derive(Drop)]
pub struct FileLimits {
    pub entries: u64,
    pub seats: u64,
}
