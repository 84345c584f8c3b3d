//! Many calls on queues and rooms, one after the other: none is refused because of the number before it.

ghost use Rattle.std.specs.Prelude.{◌≤◌};

use super::assertions::assert_equal;
use crate::{queues, rooms};
use fak_core::{CoreFault, QueueCall, QueueCore, RoomCall, RoomCore};
use std::process::Abort;

/// The item of an insertion; the items have all magnitudes.
fn item_of(insertion: u64) -> u64 {
    insertion.wrapping_mul(0x9E37_79B9_7F4A_7C15) >> (insertion % 64)
}

/// Performs a whole call of seven steps, of which the fifth stores or loads the item.
fn makes(
    rt: &(impl AllocGlobal + Abort),
    core: &mut QueueCore,
    seat: u64,
    call: QueueCall,
    item: u64,
) {
    queues::begins(rt, core, seat, call);
    queues::advances(rt, core, &[seat; 4]);
    let line = core.advance(rt.alloc(), seat).ok().expect(rt, "a step");
    assert_equal(rt, line.found, i128::from(item));
    queues::advances(rt, core, &[seat; 2]);
    assert_equal(rt, core.advance(rt.alloc(), seat), Err(CoreFault::IdleSeat));
}

/// Inserts the item of this insertion into a queue of this size. The queue is full or has one free cell; if it is full,
/// a deletion comes first.
fn inserts(rt: &(impl AllocGlobal + Abort), core: &mut QueueCore, size: u64, insertion: u64) {
    let seat = insertion % 64;
    if insertion >= size {
        let oldest = item_of(insertion - size);
        makes(rt, core, seat, QueueCall::Delete, oldest);
    }
    let item = item_of(insertion);
    makes(rt, core, seat, QueueCall::Insert(item), item);
}

/// The seats insert and delete in turn, and the queue stays full.
#[test]
fn a_queue_takes_many_items(rt: HostRuntime) {
    for (size, insertions, marks) in [
        (1, 5_000, 39_996),
        (64, 20_000, 159_744),
        (4096, 5_000, 23_616),
    ] {
        let mut core = queues::opened(&rt, size, 64);
        for insertion in 0..insertions {
            inserts(&rt, &mut core, size, insertion);
        }
        assert_equal(&rt, core.marks().len(), marks);
    }
}

/// Claims this amount and gives it back, while no other claim is in the room.
fn claims_and_releases(rt: &(impl AllocGlobal + Abort), core: &mut RoomCore, seat: u64, amount: u64)
    requires { (1 ≤ amount) × (amount ≤ 1024) }
{
    rooms::begins(rt, core, seat, RoomCall::Tir(amount));
    rooms::advances(rt, core, &[seat; 2]);
    assert_equal(rt, core.value(), amount as i64);
    rooms::begins(rt, core, seat, RoomCall::Release(amount));
    rooms::advances(rt, core, &[seat]);
    assert_equal(rt, core.value(), 0);
}

/// The seats claim and give back in turn, all amounts that a call may have.
#[test]
fn a_room_takes_many_claims(rt: HostRuntime) {
    for (bound, claims, marks) in [(1024, 20_000, 40_000), (4_294_967_296, 5_000, 10_000)] {
        let mut core = rooms::opened(&rt, bound, 64);
        for claim in 0..claims {
            claims_and_releases(&rt, &mut core, claim % 64, claim % 1024 + 1);
        }
        assert_equal(&rt, core.marks().len(), marks);
    }
}
