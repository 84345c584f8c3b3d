//! The words of a file table: its count, and two for each entry.
//!
//! The count is the number of seats less what is held, and less what was taken too much and is not yet withdrawn. The
//! 16 words before the count are unused, and so are those after it up to the fields. So neither a field nor what is
//! before the table shares a line of 128 bytes or less with the count, wherever the table is in memory.

ghost use Rattle.std.specs.Prelude.{◌≡◌, ◌<◌};
ghost use Rattle.fak_files.specs.Words.{word_of};

use fak_model::FileField;

/// The place of the count among the words.
pub(crate) const COUNT: usize = 16;

/// The place of the first field.
pub(crate) const FIELDS: usize = 32;

/// The most entries of a table.
pub(crate) const MOST_ENTRIES: usize = 16;

/// The place of a field among the words.
pub(crate) fn place_of(entry: u64, field: FileField) -> usize
    requires { entry < 16 }
    ensures { result ≡ word_of entry field }
{
    let offset = match field {
        FileField::Inode => 0,
        FileField::Uses => 1,
    };
    FIELDS + 2 * entry as usize + offset
}
