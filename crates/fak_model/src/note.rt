//! What an end of a channel notes of its steps that leave no mark in the history. It exists only in proofs: no value of
//! these types is ever made.

/// A step of an end on the bits of one side of a channel: of the senders that sleep, or of the receivers that sleep.
#[derive(Debug)]
pub enum Sign {
    /// It sets its bit.
    Registers,
    /// Its second test finds no item.
    FindsNoItem,
    /// Its second test finds nothing to wait for.
    FallsAsleep,
    /// It finds its bit clear, since another end has woken it.
    IsWoken,
    /// It clears its bit, which was set.
    TakesBack,
    /// It loads or clears the bit of the end of this name, and finds it set or clear: an own bit that it loads is still set;
    /// that of another end which it clears was clear before.
    FindsBit(u64, bool),
    /// It was woken, and does not try again: so it owes a look.
    GivesUp,
    /// Its look finds no bit set in the word of this number.
    PassesWord(u64),
    /// Its look finds this word of bits, of this number. Some of them are set.
    FindsWord(u64, u64),
    /// Its look clears the bit of the end of this name, which was set: this wakes that end.
    WakesEnd(u64),
}

/// What a note says.
#[derive(Debug)]
pub enum NoteKind {
    /// A step as a sender.
    AsSender(Sign),
    /// A step as a receiver.
    AsReceiver(Sign),
    /// A check whether the channel is drained, and whether it is.
    Checks(bool),
}

/// A note of an end.
#[derive(Debug)]
pub struct Note {
    pub kind: NoteKind,
    /// The number of the end's own marks before it.
    pub after: u64,
}
