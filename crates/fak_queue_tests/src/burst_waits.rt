//! Whole bursts that wait for a cell, each in a thread of its own. What a burst does before it waits is there for others meanwhile.

ghost use Rattle.std.specs.Prelude.{◌≡◌, All};

use super::assertions::{assert_case, assert_left};
use super::bundle_steps::{BurstStep, close_with_bundle, open_bundle, walk_bursts};
use super::bundles::{NEEDS_A_CELL, NEEDS_AN_ITEM};
use super::steps::{A, B, Step, meets};
use fak_queue::{Bundle, Queue, Seat};
use std::process::Abort;
use std::sync::Wait;
use std::sync::atomic::{AtomicBool, Ordering};
use std::thread::{Threads, join};

/// A burst that waits for a cell, which belongs to an open call of seat A.
struct Case {
    burst: &'static [BurstStep],
    /// A call of seat B that waits for what the burst does before it waits itself.
    seen: Step<u64>,
    /// The end of the call of seat A.
    freed: Step<u64>,
}

/// Makes the burst, and says that it has returned.
fn make_burst<R: Abort + AllocGlobal + Wait>(
    rt: &R,
    queue: &Queue<u64>,
    mut bundle: Bundle<u64>,
    burst: &[BurstStep],
    has_returned: &AtomicBool,
) -> Bundle<u64>
    requires { bundle.object ≡ queue.now.object }
    ensures { result.object ≡ queue.now.object }
{
    walk_bursts(rt, queue, &mut bundle, &mut Vec::new(rt.alloc()), burst);
    has_returned.store(true, Ordering::SeqCst);
    bundle
}

/// Makes the call of seat B, and sets the cell free, for which the burst must still wait then.
fn see_and_free<R: Abort + Wait>(
    rt: &R,
    queue: &Queue<u64>,
    mut seats: Vec<Seat<u64>>,
    case: &Case,
    has_returned: &AtomicBool,
) -> Vec<Seat<u64>>
    requires { All (λ s. s.object ≡ queue.now.object) seats.items }
    ensures { All (λ s. s.object ≡ queue.now.object) result.items }
{
    assert_case(rt, &"seen", meets(rt, queue, &mut seats, B, &case.seen));
    assert_case(rt, &"waits", !has_returned.load(Ordering::SeqCst));
    assert_case(rt, &"freed", meets(rt, queue, &mut seats, A, &case.freed));
    seats
}

/// Makes the burst in one thread, and the calls of the seats in another.
fn make_at_once<R: Threads + Abort + AllocGlobal + Wait + Sync>(
    rt: &R,
    queue: &Queue<u64>,
    bundle: Bundle<u64>,
    seats: Vec<Seat<u64>>,
    case: &Case,
) -> (Bundle<u64>, Vec<Seat<u64>>)
    requires bundle { bundle.object ≡ queue.now.object }
    requires seats { All (λ s. s.object ≡ queue.now.object) seats.items }
    ensures bundle { result.0.object ≡ queue.now.object }
    ensures seats { All (λ s. s.object ≡ queue.now.object) result.1.items }
{
    let returned = AtomicBool::new(false);
    let has_returned = &returned;
    join(
        rt,
        move || -> Bundle<u64>
            requires { bundle.object ≡ queue.now.object }
            ensures { result.object ≡ queue.entry.now.object }
        { make_burst(rt, queue, bundle, case.burst, has_returned) },
        move || -> Vec<Seat<u64>>
            requires { All (λ s. s.object ≡ queue.now.object) seats.items }
            ensures { All (λ s. s.object ≡ queue.entry.now.object) result.items }
        { see_and_free(rt, queue, seats, case, has_returned) },
    )
}

/// Walks the first rows on a queue of this size, and then makes the burst while the seats call. These items must be left.
fn waits_in_mid_burst<R: Threads + Abort + AllocGlobal + Wait + Sync>(
    rt: &R,
    size: u64,
    before: &[BurstStep],
    case: &Case,
    left: &[u64],
) {
    let (queue, mut bundle, mut seats) = open_bundle(rt, size, 4, 2, 100);
    walk_bursts(rt, &queue, &mut bundle, &mut seats, before);
    let (bundle, seats) = make_at_once(rt, &queue, bundle, seats, case);
    assert_left(rt, close_with_bundle(rt, queue, bundle, seats), left);
}

#[test]
fn an_insertion_shows_its_first_item_while_it_waits(rt: HostRuntime) {
    const CASE: &Case = &Case {
        burst: &[BurstStep::Insert(14, 3, Ok((4, 3)))],
        seen: Step::WaitDelete(Ok((4, 14))),
        freed: Step::TryTake(Some((1, 11))),
    };
    waits_in_mid_burst(&rt, 4, &NEEDS_A_CELL[..4], CASE, &[15, 16]);
}

#[test]
fn a_deletion_frees_its_first_cell_while_it_waits(rt: HostRuntime) {
    const CASE: &Case = &Case {
        burst: &[BurstStep::Delete(4, Ok((0, 2)), 10)],
        seen: Step::WaitInsert(13, Ok(3)),
        freed: Step::TryFill(Some(1)),
    };
    waits_in_mid_burst(&rt, 3, &NEEDS_AN_ITEM[..3], CASE, &[12, 13]);
}
