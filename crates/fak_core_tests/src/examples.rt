//! The first faults of marks that may or may not continue a queue's history, on both sides of each part of the
//! definition.

ghost use Rattle.std.specs.Prelude.{◌≤◌};

#[cfg(test)]
use super::assertions::assert_equal;
use Part::{By, Deleted, Inserted};
use fak_model::Kind::{
    BackIn, BackOut, ClaimIn, ClaimOut, Close, Closed, EndIn, EndOut, Fill, Got, LateIn, NoItem,
    NoRoom, OverIn, OverOut, Put, Take,
};
use fak_model::{Kind, Mark, first_fault};
use std::alloc::{AllocError, Global};
use std::process::Abort;

/// A mark, or all marks of an insertion or a deletion with its item and ticket.
#[derive(Clone, Copy, Drop)]
enum Part {
    By(u64, Kind<u64>),
    Inserted(u64, u64, u64),
    Deleted(u64, u64, u64),
}

fn push_all(marks: &mut Vec<Mark<u64>>, seat: u64, kinds: &[Kind<u64>]) -> Result<(), AllocError> {
    for &kind in kinds {
        marks.push(Mark { seat, kind })?;
    }
    Ok(())
}

fn push_parts(marks: &mut Vec<Mark<u64>>, parts: &[Part]) -> Result<(), AllocError> {
    for part in parts {
        match *part {
            By(seat, kind) => push_all(marks, seat, &[kind]),
            Inserted(seat, x, k) => push_all(marks, seat, &[ClaimIn, Put(x), Fill(k), EndIn]),
            Deleted(seat, x, k) => push_all(marks, seat, &[ClaimOut, Got(x), Take(k), EndOut]),
        }?;
    }
    Ok(())
}

/// After the marks of `before`, those of `may` may come. The marks of `may_not` may come too, except the last: it is the
/// first fault.
#[derive(Clone, Copy)]
struct Example<'a> {
    size: u64,
    before: &'a [Part],
    may: &'a [Part],
    may_not: &'a [Part],
}

/// Two numbers: the marks before the first fault in `before` followed by others, and all of these marks.
fn legal_of(
    alloc: Global,
    size: u64,
    before: &[Part],
    after: &[Part],
) -> Result<(usize, usize), AllocError>
    requires { (1 ≤ size) × (size ≤ 4096) }
{
    let mut marks = Vec::new(alloc);
    push_parts(&mut marks, before)?;
    push_parts(&mut marks, after)?;
    let legal = first_fault(size, &marks).unwrap_or(marks.len());
    Ok((legal, marks.len()))
}

/// The index of the first example that is judged wrongly.
fn judged_otherwise(alloc: Global, examples: &[Example]) -> Result<Option<usize>, AllocError> {
    for (i, e) in examples.iter().enumerate() {
        if e.size < 1 || e.size > 4096 {
            return Ok(Some(i));
        }
        let (legal, all) = legal_of(alloc, e.size, e.before, e.may)?;
        let (fault, marks) = legal_of(alloc, e.size, e.before, e.may_not)?;
        if legal != all || fault.checked_add(1) != Some(marks) {
            return Ok(Some(i));
        }
    }
    Ok(None)
}

/// Checks that each example is judged as it states.
#[cfg(test)]
fn are_judged(rt: &(impl Abort + AllocGlobal), examples: &[Example]) {
    assert_equal(rt, judged_otherwise(rt.alloc(), examples), Ok(None));
}

#[test]
fn the_calls_of_a_queue_are_judged(rt: HostRuntime) {
    const EXAMPLES: &[Example] = &[
        Example {
            size: 1,
            before: &[Inserted(0, 7, 0)],
            may: &[By(1, OverIn), By(1, BackIn)],
            may_not: &[By(1, BackIn)],
        },
        Example {
            size: 1,
            before: &[],
            may: &[By(0, ClaimIn), By(0, Put(7))],
            may_not: &[By(0, Put(7))],
        },
        Example {
            size: 2,
            before: &[By(0, ClaimIn), By(0, Put(7))],
            may: &[By(0, Fill(0)), By(0, EndIn)],
            may_not: &[By(0, Fill(0)), By(0, Fill(0))],
        },
        Example {
            size: 1,
            before: &[By(0, ClaimIn), By(0, Put(7))],
            may: &[By(0, Fill(0)), By(0, EndIn)],
            may_not: &[By(0, EndIn)],
        },
        Example {
            size: 1,
            before: &[],
            may: &[By(0, OverOut), By(0, BackOut)],
            may_not: &[By(0, BackOut)],
        },
        Example {
            size: 1,
            before: &[Inserted(0, 7, 0)],
            may: &[By(1, ClaimOut), By(1, Got(7))],
            may_not: &[By(1, Got(7))],
        },
        Example {
            size: 1,
            before: &[Inserted(0, 7, 0), By(1, ClaimOut)],
            may: &[By(1, Got(7)), By(1, Take(0))],
            may_not: &[By(1, Take(0))],
        },
        Example {
            size: 1,
            before: &[Inserted(0, 7, 0), By(1, ClaimOut), By(1, Got(7))],
            may: &[By(1, Take(0)), By(1, EndOut)],
            may_not: &[By(1, EndOut)],
        },
        Example {
            size: 1,
            before: &[By(0, ClaimIn)],
            may: &[By(1, NoItem)],
            may_not: &[By(0, NoItem)],
        },
        Example {
            size: 1,
            before: &[By(0, ClaimIn)],
            may: &[By(1, Close)],
            may_not: &[By(0, Close)],
        },
        Example {
            size: 1,
            before: &[By(0, Close), By(1, LateIn)],
            may: &[By(1, BackIn), By(1, Closed)],
            may_not: &[By(1, Closed)],
        },
        Example {
            size: 1,
            before: &[By(0, OverOut)],
            may: &[By(0, BackOut), By(0, NoItem)],
            may_not: &[By(0, NoItem)],
        },
        Example {
            size: 2,
            before: &[Inserted(0, 7, 0), By(1, ClaimIn)],
            may: &[By(1, Put(8))],
            may_not: &[By(1, Got(7))],
        },
        Example {
            size: 2,
            before: &[Inserted(0, 7, 0), By(1, ClaimOut)],
            may: &[By(1, Got(7))],
            may_not: &[By(1, Put(8))],
        },
    ];
    are_judged(&rt, EXAMPLES);
}

#[test]
fn the_answers_of_a_queue_are_judged(rt: HostRuntime) {
    const EXAMPLES: &[Example] = &[
        Example {
            size: 1,
            before: &[Inserted(0, 7, 0)],
            may: &[By(1, NoRoom)],
            may_not: &[Deleted(1, 7, 0), By(1, NoRoom)],
        },
        Example {
            size: 1,
            before: &[Inserted(0, 7, 0)],
            may: &[By(1, NoRoom), By(0, Close)],
            may_not: &[By(0, Close), By(1, NoRoom)],
        },
        Example {
            size: 1,
            before: &[Inserted(0, 7, 0)],
            may: &[By(1, OverIn)],
            may_not: &[Deleted(1, 7, 0), By(1, OverIn)],
        },
        Example {
            size: 1,
            before: &[Inserted(0, 7, 0)],
            may: &[By(1, OverIn), By(0, Close)],
            may_not: &[By(0, Close), By(1, OverIn)],
        },
        Example {
            size: 1,
            before: &[Inserted(0, 7, 0)],
            may: &[Deleted(1, 7, 0), By(1, ClaimIn)],
            may_not: &[By(1, ClaimIn)],
        },
        Example {
            size: 1,
            before: &[],
            may: &[By(1, ClaimIn), By(0, Close)],
            may_not: &[By(0, Close), By(1, ClaimIn)],
        },
        Example {
            size: 1,
            before: &[],
            may: &[By(0, Close), By(1, Closed)],
            may_not: &[By(1, Closed)],
        },
        Example {
            size: 1,
            before: &[],
            may: &[By(0, Close), By(1, LateIn)],
            may_not: &[By(1, LateIn)],
        },
        Example {
            size: 1,
            before: &[],
            may: &[By(1, NoItem), Inserted(0, 7, 0)],
            may_not: &[Inserted(0, 7, 0), By(1, NoItem)],
        },
        Example {
            size: 1,
            before: &[],
            may: &[By(1, OverOut), Inserted(0, 7, 0)],
            may_not: &[Inserted(0, 7, 0), By(1, OverOut)],
        },
        Example {
            size: 1,
            before: &[By(0, ClaimIn), By(0, Put(7)), By(0, Fill(0))],
            may: &[By(0, EndIn), By(1, ClaimOut)],
            may_not: &[By(1, ClaimOut)],
        },
        Example {
            size: 2,
            before: &[Inserted(0, 7, 0), By(1, ClaimOut)],
            may: &[Inserted(0, 8, 1), By(2, ClaimOut)],
            may_not: &[By(2, ClaimOut)],
        },
        Example {
            size: 1,
            before: &[By(0, Close)],
            may: &[By(1, NoItem)],
            may_not: &[By(1, ClaimOut)],
        },
    ];
    are_judged(&rt, EXAMPLES);
}

#[test]
fn the_counts_of_a_queue_are_judged(rt: HostRuntime) {
    const EXAMPLES: &[Example] = &[
        Example {
            size: 1,
            before: &[Inserted(0, 7, 0), By(1, OverIn), Deleted(2, 7, 0)],
            may: &[By(3, NoRoom)],
            may_not: &[By(1, BackIn), By(3, NoRoom)],
        },
        Example {
            size: 1,
            before: &[
                Inserted(0, 7, 0),
                By(1, ClaimOut),
                By(1, Got(7)),
                By(1, Take(0)),
            ],
            may: &[By(2, NoRoom)],
            may_not: &[By(1, EndOut), By(2, NoRoom)],
        },
        Example {
            size: 1,
            before: &[By(1, OverOut), Inserted(0, 7, 0)],
            may: &[By(2, NoItem)],
            may_not: &[By(1, BackOut), By(2, NoItem)],
        },
        Example {
            size: 1,
            before: &[By(0, ClaimIn), By(0, Put(7)), By(0, Fill(0))],
            may: &[By(1, NoItem)],
            may_not: &[By(0, EndIn), By(1, NoItem)],
        },
    ];
    are_judged(&rt, EXAMPLES);
}

#[test]
fn the_items_of_a_queue_are_judged(rt: HostRuntime) {
    const EXAMPLES: &[Example] = &[
        Example {
            size: 2,
            before: &[Inserted(0, 7, 0), Inserted(0, 8, 1), By(1, ClaimOut)],
            may: &[By(1, Got(7))],
            may_not: &[By(1, Got(8))],
        },
        Example {
            size: 2,
            before: &[
                Inserted(0, 7, 0),
                Inserted(0, 8, 1),
                By(1, ClaimOut),
                By(2, ClaimOut),
                By(1, Got(7)),
            ],
            may: &[By(2, Got(8))],
            may_not: &[By(2, Got(7))],
        },
        Example {
            size: 1,
            before: &[Inserted(0, 7, 0), By(1, ClaimOut)],
            may: &[By(1, Got(7))],
            may_not: &[By(1, Got(9))],
        },
    ];
    are_judged(&rt, EXAMPLES);
}

#[test]
fn the_cells_of_a_queue_are_judged(rt: HostRuntime) {
    const EXAMPLES: &[Example] = &[
        Example {
            size: 2,
            before: &[By(0, ClaimIn), By(1, ClaimIn), By(0, Put(7)), By(1, Put(8))],
            may: &[By(1, Fill(1))],
            may_not: &[By(1, Fill(0))],
        },
        Example {
            size: 2,
            before: &[By(0, ClaimIn), By(0, Put(7))],
            may: &[By(0, Fill(0))],
            may_not: &[By(0, Fill(1))],
        },
        Example {
            size: 2,
            before: &[
                Inserted(0, 7, 0),
                Inserted(0, 8, 1),
                By(1, ClaimOut),
                By(1, Got(7)),
            ],
            may: &[By(1, Take(0))],
            may_not: &[By(1, Take(1))],
        },
        Example {
            size: 2,
            before: &[
                Inserted(0, 7, 0),
                Inserted(0, 8, 1),
                By(1, ClaimOut),
                By(1, Got(7)),
                Deleted(2, 8, 1),
                By(0, ClaimIn),
                By(0, Put(9)),
            ],
            may: &[By(1, Take(0)), By(0, Fill(2))],
            may_not: &[By(0, Fill(2))],
        },
        Example {
            size: 2,
            before: &[
                By(0, ClaimIn),
                By(0, Put(7)),
                Inserted(1, 8, 1),
                By(2, ClaimOut),
                By(2, Got(7)),
            ],
            may: &[By(0, Fill(0)), By(2, Take(0))],
            may_not: &[By(2, Take(0))],
        },
    ];
    are_judged(&rt, EXAMPLES);
}
