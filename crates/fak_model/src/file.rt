//! The marks that calls on a file table leave in its history.

/// A field of an entry.
#[derive(Clone, Copy, Debug, PartialEq, Eq)]
pub enum FileField {
    /// The number of the file; 0 if the entry is free.
    Inode,
    /// The number of times that the file is open.
    Uses,
}

/// The kind of a mark of a file table. A hold has an amount: 1 for a reader, the number of seats for a writer.
#[derive(Clone, Copy, Debug, PartialEq, Eq)]
pub enum FileKind {
    /// The subtraction found at least the amount: the hold is granted.
    Take(u64),
    /// The subtraction found less than the amount, and will be withdrawn.
    Over(u64),
    /// The subtraction was withdrawn: the hold is refused.
    Back(u64),
    /// The test found less than the amount: the hold is refused.
    No(u64),
    /// A writer set a field of an entry, during its hold.
    Set(u64, FileField, u64),
    /// The hold was given back.
    Give,
}

/// A mark of a seat in the history of a file table.
#[derive(Clone, Copy, Debug, PartialEq, Eq)]
pub struct FileMark {
    pub seat: u64,
    pub kind: FileKind,
}

/// An entry of a file table: a file, and the number of times that it is open. Both are 0 if the entry is free.
#[derive(Clone, Copy, Debug, PartialEq, Eq)]
pub struct FileEntry {
    pub inode: u64,
    pub uses: u64,
}
