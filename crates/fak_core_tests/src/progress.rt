//! The longest schedules that a search over all reached states found, and rounds counted against the bounds of the
//! laws.

use super::assertions::assert_equal;
use crate::queues::{begins, opened};
use fak_core::{CoreFault, Line, LineMark, QueueCall, QueueCore};
use fak_model::Kind;
use std::ops::Range;
use std::process::Abort;

/// A seat with the call that it begins, or with None if it takes its next step.
type Event = (u64, Option<QueueCall>);

/// The insertion of these schedules. The item does not matter.
const INSERT: QueueCall = QueueCall::Insert(7);

/// Whether this is the last line of its call.
fn ends(line: Line) -> bool {
    matches!(
        line.mark,
        Some(LineMark::Queue(
            Kind::EndIn
                | Kind::EndOut
                | Kind::BackIn
                | Kind::BackOut
                | Kind::NoRoom
                | Kind::NoItem
                | Kind::Close
                | Kind::Closed
        ))
    )
}

/// Takes the next step of a seat. None if the seat is idle.
fn step(rt: &(impl AllocGlobal + Abort), core: &mut QueueCore, seat: u64) -> Option<Line> {
    match core.advance(rt.alloc(), seat) {
        Ok(line) => Some(line),
        Err(fault) => {
            assert_equal(rt, fault, CoreFault::IdleSeat);
            None
        }
    }
}

/// Begins a call and takes this many steps of it, which do not end it.
fn goes_on(
    rt: &(impl AllocGlobal + Abort),
    core: &mut QueueCore,
    seat: u64,
    call: QueueCall,
    steps: u64,
) {
    begins(rt, core, seat, call);
    for _ in 0..steps {
        assert_equal(rt, step(rt, core, seat).map(ends), Some(false));
    }
}

/// Performs a whole call.
fn makes(rt: &(impl AllocGlobal + Abort), core: &mut QueueCore, seat: u64, call: QueueCall) {
    goes_on(rt, core, seat, call, 6);
    assert_equal(rt, step(rt, core, seat).map(ends), Some(true));
}

/// Begins a call and takes steps until it has drawn its ticket.
fn draws(rt: &(impl AllocGlobal + Abort), core: &mut QueueCore, seat: u64, call: QueueCall) {
    goes_on(rt, core, seat, call, 3);
}

/// Whether a seat takes a step in these events.
fn steps_in(events: &[Event], seat: u64) -> bool {
    for &(s, call) in events {
        if s == seat && call.is_none() {
            return true;
        }
    }
    false
}

/// Begins this call, or takes a step that does not end a call of seat 0.
fn plays(rt: &(impl AllocGlobal + Abort), core: &mut QueueCore, (seat, call): Event) {
    match call {
        Some(call) => begins(rt, core, seat, call),
        None => {
            let ended = step(rt, core, seat).is_some_and(ends);
            assert_equal(rt, seat == 0 && ended, false);
        }
    }
}

/// Plays a round in which each seat takes a step and the call of seat 0 stays open.
fn stays_open(rt: &(impl AllocGlobal + Abort), core: &mut QueueCore, seats: u64, round: &[Event]) {
    for seat in 0..seats {
        assert_equal(rt, steps_in(round, seat), true);
    }
    for &event in round {
        plays(rt, core, event);
    }
    assert_equal(rt, core.begin(0, INSERT), Err(CoreFault::MidCall));
}

/// The number of rounds in which a seat's call ends. In each round the first seats take one step each, the last seat
/// first.
fn rounds_to_end(
    rt: &(impl AllocGlobal + Abort),
    core: &mut QueueCore,
    seats: u64,
    seat: u64,
    most: usize,
) -> Option<usize> {
    for round in 1..=most {
        for s in (0..seats).rev() {
            if step(rt, core, s).is_some_and(ends) && s == seat {
                return Some(round);
            }
        }
    }
    None
}

/// Opens a queue and plays rounds in which the first call of seat 0 stays open. Checks that it ends in the round after
/// them.
fn ends_after(rt: &(impl AllocGlobal + Abort), size: u64, seats: u64, rounds: &[&[Event]]) {
    let mut core = opened(rt, size, seats);
    begins(rt, &mut core, 0, INSERT);
    for &round in rounds {
        stays_open(rt, &mut core, seats, round);
    }
    assert_equal(rt, rounds_to_end(rt, &mut core, seats, 0, 1), Some(1));
}

/// The number of such rounds after which all seats are idle.
fn rounds_to_rest(
    rt: &(impl AllocGlobal + Abort),
    core: &mut QueueCore,
    seats: u64,
    most: usize,
) -> Option<usize> {
    for round in 0..=most {
        let mut moved = false;
        for seat in (0..seats).rev() {
            moved |= step(rt, core, seat).is_some();
        }
        if !moved {
            return Some(round);
        }
    }
    None
}

/// The number of marks of this kind in a queue.
fn marks_of(core: &QueueCore, kind: Kind<u64>) -> usize {
    core.marks().iter().filter(|mark| mark.kind == kind).count()
}

/// With one cell the bound is 7 rounds, and this call needs all of them.
#[test]
fn a_call_on_one_cell_ends_in_its_seventh_round(rt: HostRuntime) {
    const ROUNDS: &[&[Event]] = &[
        &[(1, None), (0, None)],
        &[(1, Some(INSERT)), (1, None), (0, None)],
        &[(0, None), (1, None)],
        &[(1, None), (0, None)],
        &[(0, None), (1, None)],
        &[(1, None), (0, None)],
    ];
    ends_after(&rt, 1, 2, ROUNDS);
    assert_equal(&rt, ROUNDS.len() + 1, 7);
}

/// Two other seats overtake this call twice. With two cells the bound is 10 rounds; the search found no call longer
/// than 9.
#[test]
fn a_call_that_others_overtake_ends_in_its_ninth_round(rt: HostRuntime) {
    const DELETES: Option<QueueCall> = Some(QueueCall::Delete);
    const INSERTS: Option<QueueCall> = Some(INSERT);
    const ROUNDS: &[&[Event]] = &[
        &[(1, INSERTS), (1, None), (2, INSERTS), (2, None), (0, None)],
        &[
            (1, None),
            (2, None),
            (2, None),
            (1, None),
            (1, None),
            (1, None),
            (1, None),
            (2, None),
            (2, None),
            (1, None),
            (2, None),
            (2, None),
            (2, DELETES),
            (2, None),
            (1, DELETES),
            (1, None),
            (2, None),
            (1, None),
            (2, None),
            (1, None),
            (1, None),
            (1, None),
            (1, None),
            (1, None),
            (0, None),
        ],
        &[(2, None), (0, None), (1, None)],
        &[(1, None), (0, None), (2, None)],
        &[(1, None), (0, None), (2, None)],
        &[(2, None), (0, None), (1, None)],
        &[(0, None), (1, INSERTS), (1, None), (2, INSERTS), (2, None)],
        &[(1, None), (0, None), (2, None)],
    ];
    ends_after(&rt, 2, 3, ROUNDS);
    assert_equal(&rt, ROUNDS.len() + 1, 9);
}

/// Performs the calls of these letters: at I and D seat 63 a whole one, at i and d the next seat up to a ticket of cell
/// 0.
fn calls(
    rt: &(impl AllocGlobal + Abort),
    core: &mut QueueCore,
    seats: &mut Range<u64>,
    letter: u8,
) {
    let call = match letter {
        b'I' | b'i' => INSERT,
        _ => QueueCall::Delete,
    };
    match letter {
        b'I' | b'D' => makes(rt, core, 63, call),
        _ => draws(rt, core, seats.next().expect(rt, "a seat"), call),
    }
}

/// Checks that the last seat with a ticket of cell 0 ends in this round, if in each round earlier seats take their step
/// later.
fn last_ends_in(rt: &(impl AllocGlobal + Abort), size: u64, letters: &str, rounds: usize) {
    let mut core = opened(rt, size, 64);
    let mut seats = 0..size;
    for &letter in letters.as_bytes() {
        calls(rt, &mut core, &mut seats, letter);
    }
    assert_equal(rt, seats.next(), None);
    let found = rounds_to_end(rt, &mut core, size, size.saturating_sub(1), 100);
    assert_equal(rt, found, Some(rounds));
}

/// For each cell of the queue some seat holds a ticket of cell 0, each for the turn after that of the seat before. In
/// each round earlier seats take their step later: so the last of them needs all of the 3 size + 1 rounds that the law
/// allows.
#[test]
fn seats_of_one_cell_need_three_rounds_each(rt: HostRuntime) {
    const ROWS: &[(u64, &str, usize)] = &[
        (1, "i", 4),
        (2, "iId", 7),
        (3, "iIdIDi", 10),
        (4, "iIdIIDiDIDId", 13),
        (5, "iIdIIIDiDDIDIdIDIDi", 16),
        (
            8,
            "iIdIIIIIIDiDDDDDIDIdIIIIDIDiDDDIDIDIdIIDIDIDiDIDIDIDId",
            25,
        ),
    ];
    for &(size, letters, rounds) in ROWS {
        last_ends_in(&rt, size, letters, rounds);
    }
}

/// Seat 4 stops with ticket 0, and seat 3 waits for its item. Seats 0 and 1 have ticket 1.
#[test]
fn a_stopped_seat_holds_up_its_cell_alone(rt: HostRuntime) {
    let mut core = opened(&rt, 4, 5);
    draws(&rt, &mut core, 4, INSERT);
    draws(&rt, &mut core, 0, INSERT);
    makes(&rt, &mut core, 2, INSERT);
    makes(&rt, &mut core, 2, INSERT);
    draws(&rt, &mut core, 3, QueueCall::Delete);
    draws(&rt, &mut core, 1, QueueCall::Delete);
    assert_equal(&rt, rounds_to_end(&rt, &mut core, 2, 1, 13), Some(7));
    assert_equal(&rt, rounds_to_end(&rt, &mut core, 4, 3, 1_000), None);
    assert_equal(&rt, core.begin(3, INSERT), Err(CoreFault::MidCall));
    assert_equal(&rt, rounds_to_end(&rt, &mut core, 5, 3, 13), Some(6));
}

/// Lets all 64 seats begin this call and pass their test. Checks that the queue is at rest after six rounds.
fn all_claim(rt: &(impl AllocGlobal + Abort), core: &mut QueueCore, call: QueueCall) {
    for seat in 0..64 {
        begins(rt, core, seat, call);
        assert!(rt; step(rt, core, seat).is_some());
    }
    assert_equal(rt, rounds_to_rest(rt, core, 64, 100), Some(6));
}

/// Checks that of the insertions of all seats, and of their deletions, this many are granted and withdrawn.
fn comes_to_rest(rt: &(impl AllocGlobal + Abort), size: u64, granted: usize, withdrawn: usize) {
    let mut core = opened(rt, size, 64);
    all_claim(rt, &mut core, INSERT);
    all_claim(rt, &mut core, QueueCall::Delete);
    assert_equal(rt, marks_of(&core, Kind::EndIn), granted);
    assert_equal(rt, marks_of(&core, Kind::BackIn), withdrawn);
    assert_equal(rt, marks_of(&core, Kind::EndOut), granted);
    assert_equal(rt, marks_of(&core, Kind::BackOut), withdrawn);
}

/// All 64 seats pass their test before any of them adds: as many claims are granted as fit, and the others are
/// withdrawn. A granted call then has six of its seven steps left.
#[test]
fn a_queue_that_every_seat_claims_comes_to_rest(rt: HostRuntime) {
    comes_to_rest(&rt, 1, 1, 63);
    comes_to_rest(&rt, 2, 2, 62);
    comes_to_rest(&rt, 63, 63, 1);
    comes_to_rest(&rt, 64, 64, 0);
    comes_to_rest(&rt, 4096, 64, 0);
}
