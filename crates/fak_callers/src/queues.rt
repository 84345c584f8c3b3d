//! What callers of a queue conclude.

ghost use Rattle.std.specs.Prelude.{◌≡◌, ℕ, ◌<◌, ◌≤◌, ◌++◌, ◌∷◌, [], List, length, reverse};
ghost use Rattle.fak_model.specs.declared.queue.Kind.TheVariants.{Fill, Take};
ghost use Rattle.fak_model.specs.declared.queue.Mark.{Mark};
ghost use Rattle.fak_model.specs.Histories.{AreNamed, IsAtRest, seat_words};
ghost use Rattle.fak_model.specs.Queue.{Has, IsQueueHistory, contents, count, gots, puts, queue_rules};
ghost use Rattle.fak_model.specs.QueueOrder.{Deletion, DeletionEnded, Insertion, InsertionEnded};
ghost use Rattle.fak_model.specs.QueuePast.{IsLegalPast};
ghost use Rattle.fak_model.specs.Weights.{close_of, closed_of};
ghost use Rattle.fak_queue.specs.declared.state.SeatState.TheVariants.{Idle};
ghost use Rattle.fak_queue.specs.Queues.{IsIdleSeat, size_of, state_of};

use fak_model::laws::queue::{
    a_beginning_of_a_queue_history_is_one, a_cell_is_put_then_filled_then_taken,
    a_legal_history_is_legal_mark_by_mark, a_queue_holds_no_more_than_its_size,
    a_queue_is_found_shut_after_a_close, a_queue_keeps_the_order_of_its_calls,
    a_seat_without_a_call_keeps_a_queue_history,
};
use fak_queue::{Queue, Seat, Tally};

/// Brings two seats together: in what they have seen no more was got than was put, and no more is left than the queue has
/// cells.
pub fn join_within_size(queue: &Queue<u64>, a: Seat<u64>, b: Seat<u64>) -> Tally<u64>
    requires { IsIdleSeat queue.now.object a × IsIdleSeat queue.now.object b }
    ensures got { count gots result.seen ≤ count puts result.seen }
    ensures left { length (contents result.seen) ≤ queue.now.size }
{
    a_queue_holds_no_more_than_its_size::<u64>();
    queue.join(Tally::of(a), b)
}

/// Brings two seats together: if the insertion of p ended before that of q began, a deletion of q ends only after one of p
/// has begun.
pub fn join_in_order(queue: &Queue<u64>, a: Seat<u64>, b: Seat<u64>) -> Tally<u64>
    requires { IsIdleSeat queue.now.object a × IsIdleSeat queue.now.object b }
    ensures { (p q : ℕ) (now later : List (Mark ℕ)) (of_q : Insertion result.seen q) → now ++ later ≡ result.seen
        → InsertionEnded of_q.claim.before p → DeletionEnded now q → Deletion now p }
{
    a_queue_keeps_the_order_of_its_calls::<u64>();
    queue.join(Tally::of(a), b)
}

/// Brings two seats together: what they have seen is legal mark by mark.
pub fn join_mark_by_mark(queue: &Queue<u64>, a: Seat<u64>, b: Seat<u64>) -> Tally<u64>
    requires { IsIdleSeat queue.now.object a × IsIdleSeat queue.now.object b }
    ensures { IsLegalPast queue.now.size (reverse result.seen) }
{
    a_legal_history_is_legal_mark_by_mark::<u64>();
    queue.join(Tally::of(a), b)
}

/// Shuts a queue: what the seat had seen before is legal.
pub fn shut_lawfully(queue: &Queue<u64>, seat: &mut Seat<u64>) -> bool
    requires { IsIdleSeat queue.now.object seat.old }
    ensures idle { IsIdleSeat queue.now.object seat.new }
    ensures before { IsQueueHistory queue.now.size seat.old.seen }
{
    a_beginning_of_a_queue_history_is_one::<u64>();
    queue.shut(seat)
}

/// Brings two seats together. A seat number beyond the queue's seats has no marks in the joined history, which is also well
/// formed for a larger number of seats.
pub fn join_among_more(queue: &Queue<u64>, a: Seat<u64>, b: Seat<u64>) -> Tally<u64>
    requires { IsIdleSeat queue.now.object a × IsIdleSeat queue.now.object b }
    ensures named { result.object.seats ≤ 64 → AreNamed (queue_rules queue.now.size) 64 result.seen }
    ensures free { seat_words (queue_rules queue.now.size) result.object.seats result.seen ≡ [] }
{
    a_seat_without_a_call_keeps_a_queue_history::<u64>();
    queue.join(Tally::of(a), b)
}

/// The tally of the only seat of a queue: no call is cut short in what it has seen.
pub fn tally_at_rest(seat: Seat<u64>) -> Tally<u64>
    requires idle { state_of seat ≡ Idle }
    requires only { (seat.object.seats ≡ 1) × (seat.name ≡ 0) }
    ensures { IsAtRest (queue_rules (size_of result.object)) result.seen }
{
    a_seat_without_a_call_keeps_a_queue_history::<u64>();
    let _idle = seat.state();
    Tally::of(seat)
}

/// Brings two seats together: if no seat has shut the queue, no insertion has found it shut.
pub fn join_open(queue: &Queue<u64>, a: Seat<u64>, b: Seat<u64>) -> Tally<u64>
    requires { IsIdleSeat queue.now.object a × IsIdleSeat queue.now.object b }
    ensures { count close_of result.seen ≡ 0 → count closed_of result.seen ≡ 0 }
{
    a_queue_is_found_shut_after_a_close::<u64>();
    queue.join(Tally::of(a), b)
}

/// Brings two seats together: each cell was filled after its Put, and taken after it was filled.
pub fn join_in_turn(queue: &Queue<u64>, a: Seat<u64>, b: Seat<u64>) -> Tally<u64>
    requires { IsIdleSeat queue.now.object a × IsIdleSeat queue.now.object b }
    ensures filled { (k : ℕ) (before after : List (Mark ℕ)) (m : Mark ℕ) → before ++ m ∷ after ≡ result.seen
        → m.kind ≡ Fill k → k < count puts before }
    ensures taken { (k : ℕ) (before after : List (Mark ℕ)) (m : Mark ℕ) → before ++ m ∷ after ≡ result.seen
        → m.kind ≡ Take k → Has (Fill k) before }
{
    a_cell_is_put_then_filled_then_taken::<u64>();
    queue.join(Tally::of(a), b)
}
