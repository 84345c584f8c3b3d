//! A copy of the entries of a file table.

ghost use Rattle.std.specs.Prelude.{◌≡◌, ◌<◌, List, length, replicate, slice_get, IfOk, IfSome};
ghost use Rattle.fak_model.specs.declared.file.FileEntry.{FileEntry};
ghost use Rattle.fak_run.specs.Files.{open_change, close_change, uses_of, free_entry, first_entry, raise};

use fak_model::FileEntry;
use std::alloc::{AllocError, Global};
use std::marker::Model;

/// The most uses of an entry.
const MOST_USES: u64 = 4_294_967_295;

const FREE: FileEntry = FileEntry { inode: 0, uses: 0 };

/// The entries of a file table, as a processor copies them.
#[derive(Debug, Drop)]
pub struct Files {
    pub(crate) entries: Vec<FileEntry>,
}

impl Model for Files {
    ghost Value = { List FileEntry };

    ghost view = { λ f. f.entries.items };
}

impl Files {
    /// This many free entries.
    pub fn new(alloc: Global, count: u64) -> Result<Files, AllocError>
        ensures free { IfOk result (λ files. files ≡ replicate count free_entry) }
    {
        let mut entries = Vec::new(alloc);
        for _ in 0..count {
            entries.push(FREE)?;
        }
        Ok(Files { entries })
    }

    /// The first entry with the inode gets one more use. If there is none, the first free entry gets the inode and 1 use.
    /// Returns the place of the entry, or nothing if the table is full or the entry has the most uses.
    pub fn open(&mut self, inode: u64) -> Option<u64>
        ensures change { record { entry = result; entries = self.new } ≡ open_change self.old inode }
        ensures within { IfSome result (λ i. i < length self.old) }
        ensures len { length self.new ≡ length self.old }
    {
        match self.first(inode) {
            Some(i) => self.raise(i),
            None => {
                let i = self.first(0)?;
                self.entries[i] = FileEntry { inode, uses: 1 };
                Some(i as u64)
            }
        }
    }

    /// The first entry with the inode loses one use, and is free at 0. Returns the place of the entry, if there is one.
    pub fn close(&mut self, inode: u64) -> Option<u64>
        ensures change { record { entry = result; entries = self.new } ≡ close_change self.old inode }
        ensures within { IfSome result (λ i. i < length self.old) }
        ensures len { length self.new ≡ length self.old }
    {
        let i = self.first(inode)?;
        let entry = self.entries[i];
        let uses = entry.uses.saturating_sub(1);
        let inode = if uses == 0 { 0 } else { entry.inode };
        self.entries[i] = FileEntry { inode, uses };
        Some(i as u64)
    }

    /// The uses of the first entry with the inode, if there is one.
    pub fn uses(&self, inode: u64) -> Option<u64>
        ensures { result ≡ uses_of self.now inode }
    {
        self.entries
            .iter()
            .find(|e| e.inode == inode)
            .map(|e| e.uses)
    }

    /// The place of the first entry with the inode, if there is one.
    fn first(&self, inode: u64) -> Option<usize>
        ensures { result ≡ first_entry self.now inode }
    {
        self.entries.iter().position(|e| e.inode == inode)
    }

    /// One more use of an entry, unless it has the most uses.
    fn raise(&mut self, i: usize) -> Option<u64>
        requires { i < length self.old }
        ensures change { record { entry = result; entries = self.new } ≡ raise self.old i (slice_get self.old i) }
        ensures within { IfSome result (λ i. i < length self.old) }
        ensures len { length self.new ≡ length self.old }
    {
        let FileEntry { inode, uses } = self.entries[i];
        if uses < MOST_USES {
            let uses = uses + 1;
            self.entries[i] = FileEntry { inode, uses };
            Some(i as u64)
        } else {
            None
        }
    }
}
