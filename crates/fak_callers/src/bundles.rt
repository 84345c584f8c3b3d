//! What callers conclude of bundles whose items are copied in, and of bundles that are joined.

ghost use Rattle.std.specs.Prelude.{◌≡◌, ℕ, ◌+◌, ◌-◌, ◌<◌, ◌≤◌, ◌++◌, ◌∷◌, IfSome, List, MatchResult, drop, length};
ghost use Rattle.std.specs.List.{All};
ghost use Rattle.std.specs.VecDeque.{deque_capacity, deque_len};
ghost use Rattle.fak_model.specs.declared.queue.Mark.{Mark};
ghost use Rattle.fak_model.specs.Calls.{SeatInfo};
ghost use Rattle.fak_model.specs.Queue.{IsQueueHistory};
ghost use Rattle.fak_queue.specs.BundleCalls.{IsIdleBundle};
ghost use Rattle.fak_queue.specs.Bundling.{KnowsOwn};
ghost use Rattle.fak_queue.specs.Queues.{IsIdleSeat};
ghost use Rattle.fak_queue.specs.Sums.{AreJoined, Balances, seats_in};

use fak_queue::laws::bundles::joined_seats_have_observed_one_history;
use fak_queue::{Bundle, Burst, BurstFault, Queue, Rest, Seat, Tally};
use std::collections::VecDeque;

/// Puts the items from this one on at the back of a deque that has room for them.
fn put_from(items: &[u64], first: usize, held: &mut VecDeque<u64>)
    requires some { first ≤ length items.now }
    requires room { deque_len held.old + (length items.now - first) ≤ deque_capacity held.old }
    ensures items { held.new.items ≡ held.old.items ++ drop first items.now }
    ensures capacity { deque_capacity held.new ≡ deque_capacity held.old }
{
    let rest = &items[first..];
    for i in 0..rest.len() {
        held.push_back_reserved(rest[i]);
    }
}

/// Claims room for these items by a deque that has room for them, and puts those that were not granted back into it. No push
/// allocates, before the claim or after it.
pub fn claim_copies(
    queue: &Queue<u64>,
    bundle: &mut Bundle<u64>,
    items: &[u64],
    held: &mut VecDeque<u64>,
) -> Result<Burst, BurstFault>
    requires idle { IsIdleBundle queue.now.object bundle.old }
    requires some { 0 < length items.now }
    requires room { length items.now ≤ deque_capacity held.old }
    ensures object { bundle.new.object ≡ queue.now.object }
    ensures held { MatchResult result (λ burst. held.new.items ≡ drop burst.count items.now)
        (λ _. held.new.items ≡ items.now) }
    ensures capacity { deque_capacity held.new ≡ deque_capacity held.old }
{
    held.clear();
    put_from(items, 0, held);
    let claimed = queue.claim_insert_burst(bundle, held);
    let granted = match &claimed {
        Ok(burst) => burst.count as usize,
        Err(_) => 0,
    };
    held.clear();
    put_from(items, granted, held);
    claimed
}

/// Joins a bundle, a seat and a second bundle into one tally. They have observed one legal history: each seat has observed a
/// prefix of it, and the marks under its name are its own.
pub fn join_bundles(
    queue: &Queue<u64>,
    first: Bundle<u64>,
    seat: Seat<u64>,
    second: Bundle<u64>,
) -> Tally<u64>
    requires bundles { IsIdleBundle queue.now.object first × IsIdleBundle queue.now.object second }
    requires seat { IsIdleSeat queue.now.object seat }
    ensures object { result.object ≡ queue.now.object }
    ensures joined { AreJoined queue.now.size (seats_in second ++ seat ∷ seats_in first) result }
    ensures lawful { IsQueueHistory queue.now.size result.seen }
    ensures known { All (KnowsOwn result.seen) (seats_in second ++ seat ∷ seats_in first) }
{
    joined_seats_have_observed_one_history::<u64>();
    let tally = queue.join(Tally::of_bundle(queue, first), seat);
    queue.join_bundle(tally, second)
}

/// Closes the queue if all its seats are in the tally, whether they were joined by bundles or one by one. What they put in they
/// got out, or it is left.
pub fn close_joined(queue: Queue<u64>, tally: Tally<u64>) -> Option<Rest<u64>>
    requires { tally.object ≡ queue.object }
    ensures { IfSome result (λ rest. (seats : List (SeatInfo (Mark ℕ))) → AreJoined queue.size seats tally
        → queue.object.seats ≡ length seats → (w : ℕ → ℕ) → Balances w seats rest) }
{
    joined_seats_have_observed_one_history::<u64>();
    if !tally.is_whole() {
        return None;
    }
    Some(queue.close(tally))
}
