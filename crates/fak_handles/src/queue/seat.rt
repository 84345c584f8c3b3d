//! A seat of a queue, with a share of the queue.

ghost use Rattle.std.specs.Prelude.{◌≡◌};
ghost use Rattle.std.specs.Arc.{arc_value};

use crate::desk::Desk;
use crate::seat_kind::SeatKind;
use fak_queue::{Queue, Seat};
use std::alloc::Global;
use std::sync::Arc;

/// A seat with a share of its queue. The unused bytes on both sides keep what other desks write off its cache lines.
#[derive(Drop)]
#[repr(C)]
pub struct QueueDesk {
    pub(crate) before: [u64; 8],
    pub(crate) queue: Arc<Queue<u64>, Global>,
    pub seat: Seat<u64>,
    pub(crate) after: [u64; 8],
    pub ghost same: { seat.object ≡ (arc_value queue).object },
}

impl QueueDesk {
    pub(crate) fn of(queue: Arc<Queue<u64>, Global>, seat: Seat<u64>) -> QueueDesk
        requires same { seat.object ≡ (arc_value queue).object }
        ensures object { arc_value result.queue ≡ arc_value queue }
        ensures seat { result.seat ≡ seat }
    {
        QueueDesk {
            before: [0; 8],
            queue,
            seat,
            after: [0; 8],
        }
    }
}

impl SeatKind for QueueDesk {
    ghost use Rattle.std.specs.Prelude.{refl};
    ghost use Rattle.fak_handles.specs.Kinds.{queue_in, with_queue};

    ghost seat_in = { queue_in };

    ghost with_seat = { with_queue };

    fn lend(desk: &mut Desk) -> Option<&mut QueueDesk> {
        match desk {
            Desk::Queue(desk) => Some(desk),
            _ => None,
        }
    }

    ghost no_desk = { refl };
}
