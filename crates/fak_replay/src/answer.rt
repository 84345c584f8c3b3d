//! The answer of a command.

/// The exit status, and the text to write.
#[derive(Debug, PartialEq, Eq, Drop)]
pub struct Answer {
    pub status: u8,
    pub text: Vec<u8>,
}
