//! Recorded histories and their first faults.

use super::assertions::assert_equal;
use fak_model::{Kind, Mark, cell_of, first_fault, round_of};

#[test]
fn a_cell_is_filled_before_its_last_item_was_taken(rt: HostRuntime) {
    const EARLY: [Mark<u64>; 18] = [
        Mark {
            seat: 0,
            kind: Kind::ClaimIn,
        },
        Mark {
            seat: 0,
            kind: Kind::Put(10),
        },
        Mark {
            seat: 0,
            kind: Kind::Fill(0),
        },
        Mark {
            seat: 0,
            kind: Kind::EndIn,
        },
        Mark {
            seat: 0,
            kind: Kind::ClaimIn,
        },
        Mark {
            seat: 0,
            kind: Kind::Put(11),
        },
        Mark {
            seat: 0,
            kind: Kind::Fill(1),
        },
        Mark {
            seat: 0,
            kind: Kind::EndIn,
        },
        Mark {
            seat: 1,
            kind: Kind::ClaimOut,
        },
        Mark {
            seat: 1,
            kind: Kind::Got(10),
        },
        Mark {
            seat: 2,
            kind: Kind::ClaimOut,
        },
        Mark {
            seat: 2,
            kind: Kind::Got(11),
        },
        Mark {
            seat: 2,
            kind: Kind::Take(1),
        },
        Mark {
            seat: 2,
            kind: Kind::EndOut,
        },
        Mark {
            seat: 0,
            kind: Kind::ClaimIn,
        },
        Mark {
            seat: 0,
            kind: Kind::Put(12),
        },
        Mark {
            seat: 0,
            kind: Kind::Fill(2),
        },
        Mark {
            seat: 0,
            kind: Kind::Fill(2),
        },
    ];
    assert_equal(&rt, first_fault(2, &EARLY[..17]), Some(16));
    let mut late = EARLY;
    late[16] = Mark {
        seat: 1,
        kind: Kind::Take(0),
    };
    assert_equal(&rt, first_fault(2, &late), None);
}

/// A few marks, and their first fault in a queue of one cell.
type Row = (&'static [Mark<u64>], Option<usize>);

#[test]
fn a_last_call_cut_short_is_no_fault(rt: HostRuntime) {
    const ROWS: &[Row] = &[
        (&[], None),
        (
            &[
                Mark {
                    seat: 0,
                    kind: Kind::ClaimIn,
                },
                Mark {
                    seat: 0,
                    kind: Kind::Put(7),
                },
            ],
            None,
        ),
        (
            &[Mark {
                seat: 0,
                kind: Kind::NoRoom,
            }],
            Some(0),
        ),
    ];
    for &(marks, fault) in ROWS {
        assert_equal(&rt, first_fault(1, marks), fault);
    }
}

#[test]
fn a_shut_queue_grants_no_insertion(rt: HostRuntime) {
    const ROWS: &[Row] = &[
        (
            &[
                Mark {
                    seat: 0,
                    kind: Kind::Close,
                },
                Mark {
                    seat: 1,
                    kind: Kind::NoRoom,
                },
            ],
            Some(1),
        ),
        (
            &[
                Mark {
                    seat: 0,
                    kind: Kind::Close,
                },
                Mark {
                    seat: 1,
                    kind: Kind::Closed,
                },
                Mark {
                    seat: 1,
                    kind: Kind::ClaimIn,
                },
            ],
            Some(2),
        ),
        (
            &[Mark {
                seat: 0,
                kind: Kind::Closed,
            }],
            Some(0),
        ),
        (
            &[
                Mark {
                    seat: 0,
                    kind: Kind::Close,
                },
                Mark {
                    seat: 1,
                    kind: Kind::LateIn,
                },
                Mark {
                    seat: 0,
                    kind: Kind::Close,
                },
                Mark {
                    seat: 1,
                    kind: Kind::BackIn,
                },
            ],
            None,
        ),
    ];
    for &(marks, fault) in ROWS {
        assert_equal(&rt, first_fault(1, marks), fault);
    }
}

#[test]
fn over_claims_count_until_they_are_withdrawn(rt: HostRuntime) {
    const OVER: &[Mark<u64>] = &[
        Mark {
            seat: 0,
            kind: Kind::ClaimIn,
        },
        Mark {
            seat: 1,
            kind: Kind::OverIn,
        },
        Mark {
            seat: 0,
            kind: Kind::Put(7),
        },
        Mark {
            seat: 0,
            kind: Kind::Fill(0),
        },
        Mark {
            seat: 0,
            kind: Kind::EndIn,
        },
        Mark {
            seat: 0,
            kind: Kind::ClaimOut,
        },
        Mark {
            seat: 0,
            kind: Kind::Got(7),
        },
        Mark {
            seat: 0,
            kind: Kind::Take(0),
        },
        Mark {
            seat: 0,
            kind: Kind::EndOut,
        },
        Mark {
            seat: 2,
            kind: Kind::NoRoom,
        },
        Mark {
            seat: 1,
            kind: Kind::BackIn,
        },
        Mark {
            seat: 2,
            kind: Kind::NoRoom,
        },
    ];
    assert_equal(&rt, first_fault(1, OVER), Some(11));
}

#[test]
fn tickets_go_round_the_cells(rt: HostRuntime) {
    assert_equal(&rt, cell_of(7, 3), 1);
    assert_equal(&rt, round_of(7, 3), 2);
}
