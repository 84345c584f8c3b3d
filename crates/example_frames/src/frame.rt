//! A page frame.

/// The right to use one page frame of the machine. It is moved and never copied, so it has one owner.
#[derive(Drop)]
pub struct Frame {
    /// Which frame it is.
    pub number: u64,
}
