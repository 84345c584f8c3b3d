//! The texts of traces, names and journals.

use crate::printing::show_text;
use crate::retrying::try_twice;
use fak_core::{CoreFault, CoreMove, Line};
use fak_text::{Note, journal_text, line_text, name_text, refused_text};

/// The text of a line of a trace.
fn line(rt: &(impl Print + Eprint + AllocGlobal)) -> bool {
    let line = Line {
        seat: u64::MAX,
        step: CoreMove::TestLow,
        found: -4_096,
        mark: None,
    };
    let text = try_twice!(rt, "line_text", line_text(rt.alloc(), &line));
    show_text(rt, "line_text", &text);
    true
}

/// The text of a refused step.
fn refused(rt: &(impl Print + Eprint + AllocGlobal)) -> bool {
    let text = try_twice!(
        rt,
        "refused_text",
        refused_text(rt.alloc(), u64::MAX, &CoreFault::NoSuchSeat)
    );
    show_text(rt, "refused_text", &text);
    true
}

/// A long name.
const NAME: [u64; 5] = [u64::MAX, 7, 1_000_000, 12, u64::MAX];

/// The text of a name.
fn name(rt: &(impl Print + Eprint + AllocGlobal)) -> bool {
    let text = try_twice!(rt, "name_text", name_text(rt.alloc(), &NAME));
    show_text(rt, "name_text", text.as_bytes());
    true
}

/// The text of a journal.
fn journal(rt: &(impl Print + Eprint + AllocGlobal)) -> bool {
    let notes = [
        Note::Yield,
        Note::OpenFile(4_294_967_296, None),
        Note::Stat(7, Some(u64::MAX)),
        Note::Spawned(u64::MAX),
        Note::NoBirth,
        Note::Shutdown,
    ];
    let text = try_twice!(rt, "journal_text", journal_text(rt.alloc(), &NAME, &notes));
    show_text(rt, "journal_text", &text);
    true
}

/// Makes one of each text.
pub(super) fn make_all(rt: &(impl Print + Eprint + AllocGlobal)) -> bool {
    line(rt) && refused(rt) && name(rt) && journal(rt)
}
