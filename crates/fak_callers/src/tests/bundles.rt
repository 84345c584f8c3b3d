//! Bursts, and bundles that are joined.

ghost use Rattle.fak_queue.specs.BundleCalls.{IsIdleBundle};
ghost use Rattle.std.specs.Prelude.{◌≡◌};

use crate::bundles::{claim_copies, close_joined, join_bundles};
use fak_queue::{Bundle, BundleState, Burst, BurstFault, Queue};
use std::collections::VecDeque;
use std::process::Abort;

/// Fills the cells that the bundle has claimed, and stops if it then still waits for one.
fn fill_all(rt: &impl Abort, queue: &Queue<u64>, bundle: &mut Bundle<u64>)
    requires { bundle.old.object ≡ queue.now.object }
    ensures { IsIdleBundle queue.now.object bundle.new }
{
    match bundle.state() {
        BundleState::Inserting { .. } => {
            queue.try_fill_burst(bundle);
        }
        BundleState::Idle | BundleState::Deleting { .. } => {}
    }
    match bundle.state() {
        BundleState::Idle => {}
        BundleState::Inserting { .. } | BundleState::Deleting { .. } => {
            panic!(rt; "a burst waits")
        }
    }
}

#[test]
fn items_that_were_not_granted_go_back(rt: HostRuntime) {
    let (queue, seats) = Queue::<u64>::open(rt.alloc(), 2, 3, 9).expect(&rt, "open");
    let Ok(mut bundle) = Bundle::of(rt.alloc(), &queue, seats) else {
        panic!(rt; "no bundle");
    };
    let mut held = VecDeque::with_capacity(rt.alloc(), 3).expect(&rt, "room for three");
    assert!(rt;
        matches!(
            claim_copies(&queue, &mut bundle, &[7, 8, 9], &mut held),
            Ok(Burst {
                ticket: 0,
                count: 2
            })
        )
    );
    assert!(rt; held.len() == 1 && held[0] == 9);
    fill_all(&rt, &queue, &mut bundle);
    assert!(rt;
        matches!(
            claim_copies(&queue, &mut bundle, &[5, 6], &mut held),
            Err(BurstFault::Full { upper: 2 })
        )
    );
    assert!(rt; held.len() == 2 && held[0] == 5 && held[1] == 6);
}

#[test]
fn bundles_and_a_seat_are_joined(rt: HostRuntime) {
    let (queue, mut seats) = Queue::<u64>::open(rt.alloc(), 4, 5, 9).expect(&rt, "open");
    let seat = seats.pop().expect(&rt, "five seats");
    let others = seats.split_off(2).expect(&rt, "two of four seats");
    let Ok(mut first) = Bundle::of(rt.alloc(), &queue, seats) else {
        panic!(rt; "no bundle");
    };
    let Ok(second) = Bundle::of(rt.alloc(), &queue, others) else {
        panic!(rt; "no bundle");
    };
    let mut held = VecDeque::with_capacity(rt.alloc(), 2).expect(&rt, "room for two");
    assert!(rt; claim_copies(&queue, &mut first, &[7, 8], &mut held).is_ok());
    fill_all(&rt, &queue, &mut first);
    let tally = join_bundles(&queue, first, seat, second);
    assert!(rt; tally.is_whole());
    let mut rest = close_joined(queue, tally).expect(&rt, "all seats");
    assert!(rt; rest.next() == Some(7));
    assert!(rt; rest.next() == Some(8));
    assert!(rt; rest.next() == None);
}
