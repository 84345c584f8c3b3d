//! What is left of a file table that was closed.

ghost use Rattle.std.specs.Prelude.{◌≡◌, ◌<◌, length, slice_get, Some};

use crate::words::MOST_ENTRIES;
use fak_model::FileEntry;
use std::fmt;
use std::marker::Model;

/// The entries of a file table that was closed.
#[derive(Drop)]
pub struct FileRest {
    pub(crate) entries: [FileEntry; MOST_ENTRIES],
    pub(crate) count: u64,
}

impl Model for FileRest {
    ghost use Rattle.std.specs.Prelude.{List, take, ◌≤◌};
    ghost use Rattle.fak_model.specs.declared.file.FileEntry.{FileEntry};

    ghost Value = { List FileEntry };

    ghost view = { λ r. take r.count r.entries };

    ghost invariant = { λ r. r.count ≤ 16 };
}

impl FileRest {
    /// The entry `i`.
    pub fn get(&self, i: u64) -> FileEntry
        requires { i < length self.now }
        ensures { slice_get self.now i ≡ Some result }
    {
        let row = &self.entries;
        row[i as usize]
    }
}

impl fmt::Debug for FileRest {
    fn fmt<W: fmt::Write>(&self, f: &mut fmt::Formatter<W>) -> fmt::Result {
        let entries = &self.entries[..self.count as usize];
        f.debug_struct("FileRest")
            .field("entries", &entries)
            .finish()
    }
}
