//! The readers of schedules, histories and scripts.

use super::inputs::{HISTORY, SCHEDULE, SCRIPT};
use crate::printing::show;
use crate::retrying::try_twice;
use fak_text::{read_history, read_schedule, read_script};

/// Reads a schedule.
fn schedule(rt: &(impl Print + Eprint + AllocGlobal)) -> bool {
    let schedule = try_twice!(
        rt,
        "read_schedule",
        read_schedule(rt.alloc(), SCHEDULE.as_bytes())
    );
    show(rt, "read_schedule", &schedule);
    true
}

/// Reads a history.
fn history(rt: &(impl Print + Eprint + AllocGlobal)) -> bool {
    let history = try_twice!(
        rt,
        "read_history",
        read_history(rt.alloc(), HISTORY.as_bytes())
    );
    show(rt, "read_history", &history);
    true
}

/// Reads a script.
fn script(rt: &(impl Print + Eprint + AllocGlobal)) -> bool {
    let script = try_twice!(
        rt,
        "read_script",
        read_script(rt.alloc(), SCRIPT.as_bytes())
    );
    show(rt, "read_script", &script);
    true
}

/// Reads one of each input.
pub(super) fn read_all(rt: &(impl Print + Eprint + AllocGlobal)) -> bool {
    schedule(rt) && history(rt) && script(rt)
}
