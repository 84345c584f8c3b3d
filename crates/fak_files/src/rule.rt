//! The rule of a file table's words.

use crate::limits::FileLimits;
use crate::phase::FilePhase;
use atomic_table::TableRule;
use fak_model::{FileMark, View};

/// What a seat of a file table knows.
pub type FileView = View<FileMark, FilePhase>;

/// The words of a file table show its history.
pub struct FileRule;

impl TableRule<(), FileView, FileLimits> for FileRule {
    ghost use Rattle.fak_files.specs.Shown.{IsShownFile, opened_file};

    ghost holds = { IsShownFile };

    ghost first = { opened_file };
}
