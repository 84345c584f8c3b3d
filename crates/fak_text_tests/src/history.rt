use crate::counts::{Row, has_count, text_of};
use crate::inputs::{Input, have_faults, holds_at};
use crate::numbers;
use fak_model::{Kind, Mark};
use fak_text::{Field, TextFault, read_history};
use std::alloc::Global;

const MARKS: TextFault = TextFault::Range(Field::Marks);

/// Whether the text is a history of this size with these marks.
fn is_history(alloc: Global, text: &str, size: u64, marks: &[Mark<u64>]) -> bool {
    match read_history(alloc, text.as_bytes()) {
        Ok(history) => history.size == size && history.marks.as_slice() == marks,
        Err(_) => false,
    }
}

/// A mark of each kind, as they are written.
const EACH_KIND: &str =
    r#"{"size":4096,"marks":[[0,"claim-in"],[63,"over-in"],[0,"back-in"],[0,"no-room"],[0,"put",18446744073709551615],[0,"fill",1],
    [0,"end-in"],[0,"claim-out"],[0,"over-out"],[0,"back-out"],[0,"no-item"],[0,"got",0],[0,"take",2],[0,"end-out"],[0,"close"],[0,"closed"],[0,"late-in"]]}"#;

/// The same marks.
const OF_EACH_KIND: &[Mark<u64>] = &[
    Mark {
        seat: 0,
        kind: Kind::ClaimIn,
    },
    Mark {
        seat: 63,
        kind: Kind::OverIn,
    },
    Mark {
        seat: 0,
        kind: Kind::BackIn,
    },
    Mark {
        seat: 0,
        kind: Kind::NoRoom,
    },
    Mark {
        seat: 0,
        kind: Kind::Put(18446744073709551615),
    },
    Mark {
        seat: 0,
        kind: Kind::Fill(1),
    },
    Mark {
        seat: 0,
        kind: Kind::EndIn,
    },
    Mark {
        seat: 0,
        kind: Kind::ClaimOut,
    },
    Mark {
        seat: 0,
        kind: Kind::OverOut,
    },
    Mark {
        seat: 0,
        kind: Kind::BackOut,
    },
    Mark {
        seat: 0,
        kind: Kind::NoItem,
    },
    Mark {
        seat: 0,
        kind: Kind::Got(0),
    },
    Mark {
        seat: 0,
        kind: Kind::Take(2),
    },
    Mark {
        seat: 0,
        kind: Kind::EndOut,
    },
    Mark {
        seat: 0,
        kind: Kind::Close,
    },
    Mark {
        seat: 0,
        kind: Kind::Closed,
    },
    Mark {
        seat: 0,
        kind: Kind::LateIn,
    },
];

#[test]
fn a_history_of_each_kind_of_mark(rt: HostRuntime) {
    let empty = r#"{"size":1,"marks":[]}"#;
    holds_at(&rt, is_history(rt.alloc(), empty, 1, &[]), empty);
    let is_so = is_history(rt.alloc(), EACH_KIND, 4096, OF_EACH_KIND);
    holds_at(&rt, is_so, EACH_KIND);
}

#[test]
fn the_first_fault_of_a_history(rt: HostRuntime) {
    const OF_HISTORY: &[(&str, TextFault)] = &[
        (r#"{"marks":7}"#, TextFault::Missing(Field::Size)),
        (r#"{"size":0,"marks":7}"#, TextFault::Range(Field::Size)),
        (r#"{"size":4097}"#, TextFault::Range(Field::Size)),
        (r#"{"size":1}"#, TextFault::Missing(Field::Marks)),
        (r#"{"size":1,"marks":{}}"#, MARKS),
    ];
    have_faults(&rt, Input::History, "", "", OF_HISTORY);
    const OF_MARKS: &[(&str, TextFault)] = &[
        (r#"7"#, MARKS),
        (r#"[]"#, MARKS),
        (r#"[0]"#, MARKS),
        (r#"["0","put",1]"#, MARKS),
        (r#"[0,7]"#, MARKS),
        (r#"[0,"jump"]"#, TextFault::UnknownOp(0)),
        (r#"[0,"Put",1]"#, TextFault::UnknownOp(0)),
        (r#"[0,"up",1]"#, TextFault::UnknownOp(0)),
        (r#"[64,"no-room"]"#, MARKS),
        (r#"[64,"jump"]"#, TextFault::UnknownOp(0)),
        (r#"[0,"close"],[0,"jump",1,2]"#, TextFault::UnknownOp(1)),
        (r#"[0,"put"],[0,"jump"]"#, MARKS),
        (r#"[0,"put","1"]"#, MARKS),
        (r#"[0,"got",-1]"#, MARKS),
        (r#"[0,"fill",1,1]"#, MARKS),
        (r#"[0,"take",18446744073709551616]"#, MARKS),
        (r#"[0,"claim-in",1]"#, MARKS),
        (r#"[0,"late-in",1]"#, MARKS),
    ];
    have_faults(
        &rt,
        Input::History,
        r#"{"size":1,"marks":["#,
        "]}",
        OF_MARKS,
    );
}

#[test]
fn a_history_has_at_most_4096_marks(rt: HostRuntime) {
    const MANY: &Row<'static> = &(
        numbers::MARKS,
        r#"{"size":1,"marks":["#,
        r#"[0,"no-room"]"#,
        "]}",
        4_096,
        Field::Marks,
    );
    has_count(&rt, MANY, 4_096);
    let of = (numbers::SIZE, 1, 1, Field::Size);
    numbers::has_number(&rt, of, 1, text_of(&rt, MANY, 4_096), MANY.1);
    // their number is tested before the first mark is
    const TOO_MANY: &Row<'static> = &(
        numbers::MARKS,
        r#"{"size":1,"marks":[[0,"jump"],"#,
        r#"[0,"no-room"]"#,
        "]}",
        4_095,
        Field::Marks,
    );
    has_count(&rt, TOO_MANY, 4_096);
}
