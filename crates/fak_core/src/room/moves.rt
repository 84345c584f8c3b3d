//! The atomic steps of a room. Each is a function of the value that it finds in the count, and its comment states what
//! it must follow and why.

ghost use Rattle.std.specs.Prelude.{◌≡◌, ◌++◌, ◌≤◌, ◌≤ℤ◌, pos, reverse, Err, IfErr, IsSome, OnErr, OnOk};
ghost use Rattle.fak_core.specs.declared.fault.CoreFault.TheVariants.{Memory};
ghost use Rattle.fak_core.specs.Room.{HasRange, add_move, back_move, begun_phase, fits, line_mark, marks_left, next_move, release_move, test_move};

use super::phase::{CoreSeat, RoomPhase};
use super::step::RoomMove;
use crate::call::RoomCall;
use crate::fault::CoreFault;
use crate::line::{CoreMove, LineMark};
use fak_model::{RoomKind, RoomMark};

/// Whether the bound allows `d` more than was found.
fn fits(bound: u64, found: i64, d: u64) -> bool
    requires bound { bound ≤ 4294967296 }
    requires low { pos 0 ≤ℤ found }
    requires high { found ≤ℤ pos 8589934592 }
    requires amount { d ≤ 1024 }
    ensures { result ≡ fits bound found d }
{
    found + d as i64 <= bound as i64
}

/// The load of the count, before the add; `passes` is whether the claim fits. A claim that does not fit raises no
/// count. Without this test, refused claims could keep the count high, and so keep out others although there is room.
fn test_move(passes: bool, found: i64, held: u64, d: u64) -> RoomMove
    ensures { result ≡ test_move passes found held d }
{
    let (mark, phase) = if passes {
        (None, RoomPhase::Adding(d))
    } else {
        (Some(RoomKind::No(d)), RoomPhase::Idle)
    };
    RoomMove {
        step: CoreMove::Test,
        mark,
        count: found,
        seat: CoreSeat { held, phase },
    }
}

/// The add of a claim; `passes` is whether it fits what the add found. The test is repeated here, since other seats may
/// have added after the load. A claim that does not fit must be withdrawn by `back_move`.
fn add_move(passes: bool, found: i64, held: u64, d: u64) -> RoomMove
    requires found { found ≤ℤ pos 8589934592 }
    requires held { held ≤ 4294967296 }
    requires amount { d ≤ 1024 }
    ensures { result ≡ add_move passes found held d }
{
    let (mark, held, phase) = if passes {
        (RoomKind::Up(d), held + d, RoomPhase::Idle)
    } else {
        (RoomKind::Over(d), held, RoomPhase::Backing(d))
    };
    RoomMove {
        step: CoreMove::Add,
        mark: Some(mark),
        count: found + d as i64,
        seat: CoreSeat { held, phase },
    }
}

/// The subtraction that withdraws a claim, after an add that did not fit. Until then the count is too high by the
/// amount, and other claims may be refused although there is room.
fn back_move(found: i64, held: u64, d: u64) -> RoomMove
    requires found { pos 0 ≤ℤ found }
    requires amount { d ≤ 1024 }
    ensures { result ≡ back_move found held d }
{
    RoomMove {
        step: CoreMove::Back,
        mark: Some(RoomKind::Back(d)),
        count: found - d as i64,
        seat: CoreSeat {
            held,
            phase: RoomPhase::Idle,
        },
    }
}

/// The subtraction that gives an amount back. Other claims may take the amount from here on, so this comes after the
/// last use of what the seat holds.
fn release_move(found: i64, held: u64, d: u64) -> RoomMove
    requires found { pos 0 ≤ℤ found }
    requires amount { (d ≤ 1024) × (d ≤ held) }
    ensures { result ≡ release_move found held d }
{
    RoomMove {
        step: CoreMove::Release,
        mark: Some(RoomKind::Release(d)),
        count: found - d as i64,
        seat: CoreSeat {
            held: held - d,
            phase: RoomPhase::Idle,
        },
    }
}

/// The next step of a seat, if the count has the value `found`. None if the seat is idle.
pub(crate) fn next_move(bound: u64, found: i64, seat: CoreSeat) -> Option<RoomMove>
    requires bound { bound ≤ 4294967296 }
    requires low { pos 0 ≤ℤ found }
    requires high { found ≤ℤ pos 8589934592 }
    requires held { seat.held ≤ 4294967296 }
    requires range { HasRange seat.held seat.phase }
    ensures { result ≡ next_move bound found seat.held seat.phase }
{
    let held = seat.held;
    match seat.phase {
        RoomPhase::Idle => None,
        RoomPhase::Testing(d) => {
            let passes = fits(bound, found, d);
            Some(test_move(passes, found, held, d))
        }
        RoomPhase::Adding(d) => {
            let still_fits = fits(bound, found, d);
            Some(add_move(still_fits, found, held, d))
        }
        RoomPhase::Backing(d) => Some(back_move(found, held, d)),
        RoomPhase::Releasing(d) => Some(release_move(found, held, d)),
    }
}

/// The first phase of this call of the seat.
pub(crate) fn begun_phase(seat: CoreSeat, call: RoomCall) -> Result<RoomPhase, CoreFault>
    ensures { result ≡ begun_phase seat.held seat.phase call }
{
    match (seat.phase, call) {
        (RoomPhase::Idle, RoomCall::Tir(d)) => Ok(RoomPhase::Testing(d)),
        (RoomPhase::Idle, RoomCall::Release(d)) => {
            if seat.held < d {
                Err(CoreFault::NotHeld)
            } else {
                Ok(RoomPhase::Releasing(d))
            }
        }
        _ => Err(CoreFault::MidCall),
    }
}

/// Appends the mark of a step of this seat, if it leaves one.
pub(crate) fn keep_mark(
    marks: &mut Vec<RoomMark>,
    seat: u64,
    mark: Option<RoomKind>,
) -> Result<(), CoreFault>
    ensures ok { OnOk result (reverse marks.new.items ≡ marks_left seat mark ++ reverse marks.old.items) }
    ensures err { OnErr result (marks.new.items ≡ marks.old.items) }
    ensures fault { IfErr result (λ fault. (fault ≡ Memory) × IsSome mark) }
{
    if let Some(kind) = mark {
        if marks.push(RoomMark { seat, kind }).is_err() {
            return Err(CoreFault::Memory);
        }
    }
    Ok(())
}

/// The mark of a step, for its line.
pub(crate) fn line_mark(mark: Option<RoomKind>) -> Option<LineMark>
    ensures { result ≡ line_mark mark }
{
    mark.map(LineMark::Room)
}
