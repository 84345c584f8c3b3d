//! What the words of a closed file table show.

ghost use Rattle.std.specs.Prelude.{◌≡◌, ◌<◌, ◌≤◌, ℕ, slice_get, Some};
ghost use Rattle.std.specs.Slots.{slots_items, slots_len, IsFull};
ghost use Rattle.fak_files.specs.Closing.{entry_in};
ghost use Rattle.fak_files.specs.Words.{width};

use crate::words::{MOST_ENTRIES, place_of};
use atomic_table::Closed;
use fak_model::{FileEntry, FileField};
use std::alloc::Global;

/// The entries that the words of a closed table show.
pub(crate) fn entries_of(closed: &Closed<(), Global>, count: u64) -> [FileEntry; MOST_ENTRIES]
    requires words { IsFull closed.now.words × (slots_len closed.now.words ≡ width count) × (count ≤ 16) }
    ensures { (i : ℕ) → i < count → slice_get result i ≡ Some (entry_in (slots_items closed.now.words) i) }
{
    let mut entries = [FileEntry { inode: 0, uses: 0 }; MOST_ENTRIES];
    for i in 0..count {
        entries[i as usize] = FileEntry {
            inode: closed.word(place_of(i, FileField::Inode)),
            uses: closed.word(place_of(i, FileField::Uses)),
        };
    }
    entries
}
