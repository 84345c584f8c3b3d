//! The two sides of a channel.

/// The role in which a seat sleeps or looks for a sleeper: which side's bits a step is about.
#[derive(Clone, Copy, Debug, PartialEq, Eq, Drop)]
pub enum Role {
    /// The bits of the senders that sleep.
    Sender,
    /// The bits of the receivers that sleep.
    Receiver,
}
