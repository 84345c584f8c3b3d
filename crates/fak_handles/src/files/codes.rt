//! The results of the calls of a seat of a file table as numbers.

ghost use Rattle.std.specs.Prelude.{◌≡◌};
ghost use Rattle.fak_handles.specs.files.Calls.{count_or, hold_answer, hold_code, inode_or, may_code, uses_or};

use crate::code::{BUSY, OK, WORN, WRONG_STATE};
use fak_files::{FileFault, Hold};
use fak_model::FileEntry;

pub fn of_hold(tried: &Option<Result<(), FileFault>>, count: &mut i64) -> i32
    ensures code { result ≡ hold_answer tried.now }
    ensures count { count.new ≡ count_or count.old tried.now }
{
    match tried {
        None => WRONG_STATE,
        Some(Ok(())) => OK,
        Some(Err(FileFault::Busy(found))) => {
            *count = *found;
            BUSY
        }
        Some(Err(FileFault::Worn)) => WORN,
    }
}

pub fn of_get(got: &Option<FileEntry>, inode: &mut u64, uses: &mut u64) -> i32
    ensures code { result ≡ may_code got.now }
    ensures inode { inode.new ≡ inode_or inode.old got.now }
    ensures uses { uses.new ≡ uses_or uses.old got.now }
{
    match got {
        None => WRONG_STATE,
        Some(entry) => {
            *inode = entry.inode;
            *uses = entry.uses;
            OK
        }
    }
}

pub fn of_done(done: Option<()>) -> i32
    ensures { result ≡ may_code done }
{
    match done {
        None => WRONG_STATE,
        Some(()) => OK,
    }
}

pub fn of_held(hold: Hold) -> u32
    ensures { result ≡ hold_code hold }
{
    match hold {
        Hold::Nothing => 0,
        Hold::Reading => 1,
        Hold::Writing => 2,
    }
}
