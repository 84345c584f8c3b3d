//! Calls of bundles: whole bursts, and bursts by claims and tries.

ghost use Rattle.std.specs.Prelude.{◌≡◌, ◌+◌, ◌≤◌, IfSome};
ghost use Rattle.std.specs.VecDeque.{deque_capacity, deque_len};
ghost use Rattle.fak_queue.specs.BundleCalls.{IsIdleBundle};

use super::sentinels::{begin, end};
use fak_queue::laws::new_seats_are_idle;
use fak_queue::{Bundle, BundleState, Burst, BurstFault, DeleteFault, Queue};
use std::alloc::Global;
use std::collections::VecDeque;
use std::sync::Wait;

/// What a call returns, if it may be made.
type Returned<F> = Option<Result<Burst, F>>;

/// This burst.
fn burst<F>(ticket: u64, count: u64) -> Returned<F> {
    Some(Ok(Burst { ticket, count }))
}

/// A queue of four cells with a bundle of its three seats.
fn open(alloc: Global) -> Option<(Queue<u64>, Bundle<u64>)>
    ensures { IfSome result (λ r. IsIdleBundle r.0.object r.1) }
{
    new_seats_are_idle::<u64>();
    let Ok((queue, seats)) = Queue::<u64>::open(alloc, 4, 3, 100) else {
        return None;
    };
    let Ok(bundle) = Bundle::of(alloc, &queue, seats) else {
        return None;
    };
    Some((queue, bundle))
}

/// The numbers below 9.
fn numbers(alloc: Global) -> Option<VecDeque<u64>> {
    let mut numbers = VecDeque::new(alloc);
    for number in 0..9u64 {
        if numbers.push_back(number).is_err() {
            return None;
        }
    }
    Some(numbers)
}

/// Room for a burst.
fn room(alloc: Global) -> Option<VecDeque<u64>>
    ensures { IfSome result (λ r. deque_len r + 3 ≤ deque_capacity r) }
{
    VecDeque::with_capacity(alloc, 3).ok()
}

/// Inserts a burst of the items, if there are any.
fn insert<R: Wait>(
    rt: &R,
    queue: &Queue<u64>,
    bundle: &mut Bundle<u64>,
    items: &mut VecDeque<u64>,
) -> Returned<BurstFault>
    requires { IsIdleBundle queue.now.object bundle.old }
    ensures { IsIdleBundle queue.now.object bundle.new }
{
    if items.is_empty() {
        return None;
    }
    Some(queue.insert_burst(rt, bundle, items))
}

/// The same by the call that waits.
fn wait_insert<R: Wait>(
    rt: &R,
    queue: &Queue<u64>,
    bundle: &mut Bundle<u64>,
    items: &mut VecDeque<u64>,
) -> Returned<BurstFault>
    requires { IsIdleBundle queue.now.object bundle.old }
    ensures { IsIdleBundle queue.now.object bundle.new }
{
    if items.is_empty() {
        return None;
    }
    Some(queue.wait_insert_burst(rt, bundle, items))
}

/// Three bursts of insertions, of which the last finds no room.
fn insert_bursts<R: Wait>(
    rt: &R,
    queue: &Queue<u64>,
    bundle: &mut Bundle<u64>,
    items: &mut VecDeque<u64>,
) -> bool
    requires { IsIdleBundle queue.now.object bundle.old }
    ensures { IsIdleBundle queue.now.object bundle.new }
{
    insert(rt, queue, bundle, items) == burst(0, 3)
        && wait_insert(rt, queue, bundle, items) == burst(3, 1)
        && insert(rt, queue, bundle, items) == Some(Err(BurstFault::Full { upper: 4 }))
}

/// Three bursts of deletions, of which the last finds no item.
fn delete_bursts<R: Wait>(
    rt: &R,
    queue: &Queue<u64>,
    bundle: &mut Bundle<u64>,
    first: &mut VecDeque<u64>,
    second: &mut VecDeque<u64>,
    third: &mut VecDeque<u64>,
) -> bool
    requires bundle { IsIdleBundle queue.now.object bundle.old }
    requires first { deque_len first.old + 3 ≤ deque_capacity first.old }
    requires second { deque_len second.old + 3 ≤ deque_capacity second.old }
    requires third { deque_len third.old + 3 ≤ deque_capacity third.old }
{
    Some(queue.delete_burst(rt, bundle, 3, first)) == burst(0, 3)
        && Some(queue.wait_delete_burst(rt, bundle, 3, second)) == burst(3, 1)
        && queue.delete_burst(rt, bundle, 3, third) == Err(DeleteFault::Empty(0))
        && first.front() == Some(&0)
        && second.front() == Some(&3)
        && third.is_empty()
}

/// Whole bursts.
pub(super) fn call_bursts(rt: &(impl Print + AllocGlobal + Wait)) -> bool {
    let alloc = rt.alloc();
    let Some((queue, mut bundle)) = open(alloc) else {
        return false;
    };
    let (Some(mut items), Some(mut first), Some(mut second), Some(mut third)) = (
        numbers(alloc),
        room(alloc),
        room(alloc),
        room(alloc),
    ) else {
        return false;
    };
    begin(rt);
    bundle.set_pauses_in_calls(false);
    let are_as_expected = bundle.seats() == 3
        && insert_bursts(rt, &queue, &mut bundle, &mut items)
        && delete_bursts(rt, &queue, &mut bundle, &mut first, &mut second, &mut third)
        && bundle.left() == 292;
    end(
        rt,
        "Bundle: insert_burst, wait_insert_burst, delete_burst, wait_delete_burst, seats, left, set_pauses_in_calls",
        are_as_expected,
    );
    true
}

/// Claims room for the items, if there are any, and fills the cells.
fn insert_by_claim(queue: &Queue<u64>, bundle: &mut Bundle<u64>, items: &mut VecDeque<u64>) -> bool
    requires { IsIdleBundle queue.now.object bundle.old }
    ensures { bundle.new.object ≡ queue.now.object }
{
    const WHOLE: Burst = Burst {
        ticket: 0,
        count: 3,
    };
    if items.is_empty() || queue.claim_insert_burst(bundle, items) != Ok(WHOLE) {
        return false;
    }
    match bundle.state() {
        BundleState::Inserting {
            ticket: 0,
            ended: 0,
            granted: 3,
        } => queue.try_fill_burst(bundle) == 0,
        _ => false,
    }
}

/// Claims items, if the bundle is idle, and takes them out.
fn delete_by_claim(queue: &Queue<u64>, bundle: &mut Bundle<u64>, out: &mut VecDeque<u64>) -> bool
    requires object { bundle.old.object ≡ queue.now.object }
    requires room { deque_len out.old + 3 ≤ deque_capacity out.old }
{
    const TWO: Burst = Burst {
        ticket: 0,
        count: 2,
    };
    let BundleState::Idle = bundle.state() else {
        return false;
    };
    if queue.claim_delete_burst(bundle, 2) != Ok(TWO) {
        return false;
    }
    match bundle.state() {
        BundleState::Deleting {
            ticket: 0,
            ended: 0,
            granted: 2,
        } => queue.try_take_burst(bundle, out) == 0,
        _ => false,
    }
}

/// Claims and tries.
pub(super) fn call_claims(rt: &(impl Print + AllocGlobal)) -> bool {
    let alloc = rt.alloc();
    let Some((queue, mut bundle)) = open(alloc) else {
        return false;
    };
    let (Some(mut items), Some(mut out)) = (numbers(alloc), room(alloc)) else {
        return false;
    };
    begin(rt);
    let are_as_expected = insert_by_claim(&queue, &mut bundle, &mut items)
        && delete_by_claim(&queue, &mut bundle, &mut out)
        && bundle.state() == BundleState::Idle;
    end(
        rt,
        "Bundle: claim_insert_burst, try_fill_burst, claim_delete_burst, try_take_burst, state",
        are_as_expected,
    );
    true
}
