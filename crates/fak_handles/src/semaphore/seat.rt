//! A seat of a semaphore that goes by steps, with a share of the semaphore.

ghost use Rattle.std.specs.Prelude.{◌≡◌};
ghost use Rattle.std.specs.Arc.{arc_value};

use crate::desk::Desk;
use crate::seat_kind::SeatKind;
use fak_sem::{Semaphore, StepSeat};
use std::alloc::Global;
use std::sync::Arc;

/// A seat with a share of its semaphore.
#[derive(Drop)]
#[repr(C)]
pub struct SemDesk {
    pub(crate) before: [u64; 8],
    pub(crate) semaphore: Arc<Semaphore<u64>, Global>,
    pub seat: StepSeat<u64>,
    pub(crate) after: [u64; 8],
    pub ghost same: { seat.seat.object ≡ (arc_value semaphore).object },
}

impl SemDesk {
    pub(crate) fn of(semaphore: Arc<Semaphore<u64>, Global>, seat: StepSeat<u64>) -> SemDesk
        requires same { seat.seat.object ≡ (arc_value semaphore).object }
        ensures object { arc_value result.semaphore ≡ arc_value semaphore }
        ensures seat { result.seat ≡ seat }
    {
        SemDesk {
            before: [0; 8],
            semaphore,
            seat,
            after: [0; 8],
        }
    }
}

impl SeatKind for SemDesk {
    ghost use Rattle.std.specs.Prelude.{refl};
    ghost use Rattle.fak_handles.specs.Kinds.{semaphore_in, with_semaphore};

    ghost seat_in = { semaphore_in };

    ghost with_seat = { with_semaphore };

    fn lend(desk: &mut Desk) -> Option<&mut SemDesk> {
        match desk {
            Desk::Semaphore(desk) => Some(desk),
            _ => None,
        }
    }

    ghost no_desk = { refl };
}
