//! What follows for the callers of seats that can sleep, of their accounts and of the law of sleepers.

ghost use Rattle.std.specs.Prelude.{◌≡◌, ℕ, ℤ, ◌<◌, ◌≤◌, true, IsTrue, Option, Some, length, reverse};
ghost use Rattle.atomic_table.specs.Table.{State};
ghost use Rattle.fak_model.specs.Limits.{large_seats};
ghost use Rattle.fak_model.specs.declared.note.Sign.TheVariants.{PassesWord};
ghost use Rattle.fak_model.specs.Queue.{contents};
ghost use Rattle.fak_channel_core.specs.SleeperSides.{Asleep, Awake, Duty, after_sign};
ghost use Rattle.fak_queue.specs.declared.limits.QueueLimits.{QueueLimits};
ghost use Rattle.fak_queue.specs.declared.role.Role.TheVariants.{Receiver, Sender};
ghost use Rattle.fak_queue.specs.declared.state.SeatState.TheVariants.{Inserting};
ghost use Rattle.fak_queue.specs.Found.{HasNoRoom};
ghost use Rattle.fak_queue.specs.Queues.{IsIdleSeat, state_of};
ghost use Rattle.fak_queue.specs.SeatsSeen.{AllRest, SeatSleeps};
ghost use Rattle.fak_queue.specs.Shown.{IsShownQueue, QueueView};
ghost use Rattle.fak_queue.specs.SleeperRest.{OwesNothing};
ghost use Rattle.fak_queue.specs.SleeperSeats.{SleeperInfo, account_of_seat};
ghost use Rattle.fak_queue.specs.Sleepers.{duty_as};

use fak_queue::laws::looks::{a_look_pays, an_insertion_changes_the_account};
use fak_queue::laws::sleepers::no_seat_sleeps_beside_work;
use fak_queue::{NoRoom, Queue, Role, SleeperSeat};

/// If all seats rest, no receiver sleeps while there is an item, no sender while there is a free cell, and nobody in a queue
/// that is shut.
pub fn an_item_a_free_cell_and_a_close_keep_seats_awake<T>()
    ensures item { (key : QueueLimits) (s : State (Option T) (QueueView T)) (shown : IsShownQueue key s)
        (seats : ℕ → SleeperInfo T) → AllRest key s seats → (n : ℕ) → n < key.seats
        → 0 < length (contents (reverse shown.core.past)) → SeatSleeps key s Receiver (seats n) → ⊥ }
    ensures cell { (key : QueueLimits) (s : State (Option T) (QueueView T)) (shown : IsShownQueue key s)
        (seats : ℕ → SleeperInfo T) → AllRest key s seats → (n : ℕ) → n < key.seats
        → length (contents (reverse shown.core.past)) < key.size → SeatSleeps key s Sender (seats n) → ⊥ }
    ensures receiver { (key : QueueLimits) (s : State (Option T) (QueueView T)) (shown : IsShownQueue key s)
        (seats : ℕ → SleeperInfo T) → AllRest key s seats → (n : ℕ) → n < key.seats → shown.core.shut ≡ true
        → SeatSleeps key s Receiver (seats n) → ⊥ }
    ensures sender { (key : QueueLimits) (s : State (Option T) (QueueView T)) (shown : IsShownQueue key s)
        (seats : ℕ → SleeperInfo T) → AllRest key s seats → (n : ℕ) → n < key.seats → shown.core.shut ≡ true
        → SeatSleeps key s Sender (seats n) → ⊥ }
{
    no_seat_sleeps_beside_work::<T>();
}

/// With at most 128 seats, a look that finds no bit set in either word pays all looks.
pub fn two_words_pay_for_128_seats()
    ensures { (n : ℕ) (g : Duty) → n ≤ 128
        → (after_sign n (PassesWord 1) (after_sign n (PassesWord 0) g)).looks ≡ 0 }
{
    a_look_pays();
}

/// Ends the insertion if it is the cell's turn, and then wakes the receiver `other` if it sleeps. A seat that has done both
/// and owed nothing before owes nothing again.
pub fn fill_and_wake<T: Drop>(queue: &Queue<T>, seat: &mut SleeperSeat<T>, other: u64) -> bool
    requires object { seat.old.seat.object ≡ queue.now.object }
    requires inserting { (k : ℕ) × (state_of seat.old.seat ≡ Inserting k) }
    requires owes { OwesNothing (account_of_seat seat.old) }
    requires other { other < large_seats }
    ensures { IsTrue result → OwesNothing (account_of_seat seat.new) }
{
    an_insertion_changes_the_account::<T>();
    if seat.try_fill(queue).is_none() {
        return false;
    }
    seat.clear(queue, Role::Receiver, other)
}

/// Sets the bit of a sender and tests again: the upper count, if it has fallen asleep. Then the queue was full and open.
pub fn sleep_if_full<T: Drop>(queue: &Queue<T>, seat: &mut SleeperSeat<T>) -> Option<i64>
    requires idle { IsIdleSeat queue.now.object seat.old.seat }
    requires awake { (duty_as Sender (account_of_seat seat.old)).stage ≡ Awake }
    ensures { (upper : ℤ) → result ≡ Some upper → HasNoRoom queue.now.size upper seat.new.seat.seen
        × ((duty_as Sender (account_of_seat seat.new)).stage ≡ Asleep) }
{
    seat.set_bit(queue, Role::Sender);
    match seat.test_room_again(queue) {
        Err(NoRoom::Full(upper)) => Some(upper),
        _ => None,
    }
}
