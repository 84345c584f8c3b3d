//! A bundle of seats of a queue, with a share of the queue.

ghost use Rattle.std.specs.Prelude.{◌≡◌, ◌+◌, ◌<◌, ◌≤◌, ℕ, [], length};
ghost use Rattle.std.specs.Arc.{arc_value};
ghost use Rattle.std.specs.VecDeque.{deque_capacity};
ghost use Rattle.fak_queue.specs.declared.bundle.BundleState.TheVariants.{Idle, Inserting};
ghost use Rattle.fak_handles.specs.bundle.Open.{open_in};

use crate::desk::Desk;
use crate::seat_kind::SeatKind;
use fak_queue::{Bundle, Queue};
use std::alloc::Global;
use std::collections::VecDeque;
use std::sync::Arc;

/// A bundle with a share of its queue.
#[derive(Drop)]
#[repr(C)]
pub struct BundleDesk {
    pub(crate) before: [u64; 8],
    pub(crate) queue: Arc<Queue<u64>, Global>,
    pub bundle: Bundle<u64>,
    /// Items on their way between an array and the queue: those of an insertion during its call, and those that a burst of deletions has
    /// taken out, until they find places. It has room for an item of each seat.
    pub(crate) held: VecDeque<u64>,
    /// The ticket of the item that an open burst of deletions hands out next.
    pub(crate) next: u64,
    pub(crate) after: [u64; 8],
    pub ghost same: { bundle.object ≡ (arc_value queue).object },
    pub ghost some: { 0 < length bundle.names },
    pub ghost wide: { length bundle.names ≤ deque_capacity held },
    pub ghost burst: { open_in bundle.state + length held.items ≤ length bundle.names },
    pub ghost none: { (k e g : ℕ) → bundle.state ≡ Inserting k e g → held.items ≡ [] },
}

impl BundleDesk {
    pub(crate) fn of(
        queue: Arc<Queue<u64>, Global>,
        bundle: Bundle<u64>,
        held: VecDeque<u64>,
    ) -> BundleDesk
        requires same { bundle.object ≡ (arc_value queue).object }
        requires idle { bundle.state ≡ Idle }
        requires some { 0 < length bundle.names }
        requires wide { length bundle.names ≤ deque_capacity held }
        requires none { held.items ≡ [] }
        ensures object { arc_value result.queue ≡ arc_value queue }
        ensures bundle { result.bundle ≡ bundle }
        ensures held { result.held.items ≡ [] }
    {
        BundleDesk {
            before: [0; 8],
            queue,
            bundle,
            held,
            next: 0,
            after: [0; 8],
        }
    }
}

impl SeatKind for BundleDesk {
    ghost use Rattle.std.specs.Prelude.{refl};
    ghost use Rattle.fak_handles.specs.Kinds.{bundle_in, with_bundle};

    ghost seat_in = { bundle_in };

    ghost with_seat = { with_bundle };

    fn lend(desk: &mut Desk) -> Option<&mut BundleDesk> {
        match desk {
            Desk::Bundle(desk) => Some(desk.as_mut()),
            _ => None,
        }
    }

    ghost no_desk = { refl };
}
