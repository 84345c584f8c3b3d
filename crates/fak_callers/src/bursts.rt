//! What callers of a bundle conclude, by the clauses of its calls alone.

ghost use Rattle.std.specs.Prelude.{◌≡◌, ◌<◌, ◌+◌, ℕ, IfOk, MatchOption, Some, length};
ghost use Rattle.std.specs.List.{sum_by};
ghost use Rattle.std.specs.VecDeque.{deque_capacity, deque_len};
ghost use Rattle.fak_model.specs.Calls.{fresh_seats};
ghost use Rattle.fak_model.specs.Queue.{item_at, items_put};
ghost use Rattle.fak_queue.specs.BundleCalls.{IsIdleBundle};
ghost use Rattle.fak_queue.specs.BurstCalls.{got_by_all, put_by_all};
ghost use Rattle.fak_queue.specs.Sums.{put_by};

use fak_queue::laws::bundles::a_bundle_adds_up_as_its_seats;
use fak_queue::laws::new_seats_are_idle;
use fak_queue::{Bundle, BundleFault, Burst, Queue, Seat};
use std::alloc::Global;
use std::collections::VecDeque;
use std::sync::Wait;

/// Makes a bundle of all seats of a new queue: under each weight of items it has put in what they had.
pub fn bundle_up(
    alloc: Global,
    queue: &Queue<u64>,
    seats: Vec<Seat<u64>>,
) -> Result<Bundle<u64>, BundleFault<u64>>
    requires { (stint count : ℕ) × (seats.items ≡ fresh_seats queue.now.object stint 0 count) }
    ensures idle { IfOk result (λ bundle. IsIdleBundle queue.now.object bundle) }
    ensures put { IfOk result (λ bundle. (w : ℕ → ℕ) → put_by_all w bundle ≡ sum_by (put_by w) seats.items) }
{
    new_seats_are_idle::<u64>();
    a_bundle_adds_up_as_its_seats::<u64>();
    Bundle::of(alloc, queue, seats)
}

/// Inserts a burst, and deletes an item. Under each weight of items, what the bundle put in came out of one deque, and what it
/// got went into the other.
pub fn pass_on<R: Wait>(
    rt: &R,
    queue: &Queue<u64>,
    bundle: &mut Bundle<u64>,
    items: &mut VecDeque<u64>,
    out: &mut VecDeque<u64>,
)
    requires idle { IsIdleBundle queue.now.object bundle.old }
    requires some { 0 < length items.old.items }
    requires room { deque_len out.old < deque_capacity out.old }
    ensures idle { IsIdleBundle queue.now.object bundle.new }
    ensures put { (w : ℕ → ℕ)
        → put_by_all w bundle.new + sum_by w items.new.items ≡ put_by_all w bundle.old + sum_by w items.old.items }
    ensures got { (w : ℕ → ℕ)
        → got_by_all w bundle.new + sum_by w out.old.items ≡ got_by_all w bundle.old + sum_by w out.new.items }
{
    let _ = queue.insert_burst(rt, bundle, items);
    let _ = queue.delete_burst(rt, bundle, 1, out);
}

/// Inserts a burst: its items have consecutive tickets, in their order.
pub fn insert_in_order<R: Wait>(
    rt: &R,
    queue: &Queue<u64>,
    bundle: &mut Bundle<u64>,
    items: &mut VecDeque<u64>,
) -> Option<Burst>
    requires idle { IsIdleBundle queue.now.object bundle.old }
    requires some { 0 < length items.old.items }
    ensures idle { IsIdleBundle queue.now.object bundle.new }
    ensures order { MatchOption result (Unit {0}) (λ b. (i n x : ℕ) → item_at bundle.old.names i ≡ Some n → i < b.count
        → item_at items.old.items i ≡ Some x → item_at (items_put bundle.new.seen) (b.ticket + i) ≡ Some x) }
{
    match queue.insert_burst(rt, bundle, items) {
        Ok(burst) => Some(burst),
        Err(_) => None,
    }
}
