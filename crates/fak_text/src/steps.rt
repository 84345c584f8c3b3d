//! The steps of a program, and what they did.

/// A step of a program.
#[derive(Debug, PartialEq, Eq, Drop)]
pub enum Step {
    /// Say a text of 0 to 80 characters from space to tilde.
    Say(String),
    /// End the turn.
    Yield,
    /// Lower this semaphore, or sleep until it is raised.
    Down(u64),
    /// Raise this semaphore.
    Up(u64),
    /// Open the file of this inode, 1 to 4,294,967,296.
    OpenFile(u64),
    /// Close the file of this inode, 1 to 4,294,967,296.
    CloseFile(u64),
    /// Count the uses of the file of this inode, 1 to 4,294,967,296.
    Stat(u64),
    /// Start a child process that runs this program.
    Spawn(u64),
    /// Shut the ready queue; in scripts of version 2.
    Shutdown,
}

/// A step that was done, with its result.
#[derive(Debug, PartialEq, Eq, Drop)]
pub enum Note {
    /// This text was said.
    Say(String),
    /// The turn was ended.
    Yield,
    /// This semaphore was lowered.
    Down(u64),
    /// This semaphore was raised.
    Up(u64),
    /// The file of this inode was opened at this entry of the file table, if one could be had.
    OpenFile(u64, Option<u64>),
    /// The file of this inode was closed at this entry of the file table, if it was open.
    CloseFile(u64, Option<u64>),
    /// The file of this inode had this many uses, if it was open.
    Stat(u64, Option<u64>),
    /// A child with this number was started.
    Spawned(u64),
    /// No child was started: all births were used.
    NoBirth,
    /// No child was started: no slot was free.
    NoSlot,
    /// The ready queue was shut.
    Shutdown,
}

/// What the steps of a script may name.
#[derive(Clone, Copy)]
pub(crate) struct StepLimits {
    pub version: u64,
    pub semaphores: u64,
    pub programs: u64,
}
