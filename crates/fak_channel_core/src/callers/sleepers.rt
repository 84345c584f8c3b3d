//! Callers of the laws of sleepers that are bits: each cites one law and concludes something in other words.

ghost use Rattle.std.specs.Prelude.{◌≡◌, ◌≢◌, ℕ, ◌<◌, ◌≤◌, List, length, map, true, false};
ghost use Rattle.std.specs.List.{All};
ghost use Rattle.fak_model.specs.Queue.{IsQueueHistory, contents, count, gots, puts};
ghost use Rattle.fak_core.specs.declared.queue.phase.Phase.TheVariants.{Idle};
ghost use Rattle.fak_core.specs.QueueMoves.{history_of};
ghost use Rattle.fak_core.specs.QueueProgress.{IsRound, SomeSeatMoves};
ghost use Rattle.fak_core.specs.QueueSchedule.{QueueEvent};
ghost use Rattle.fak_channel_core.specs.SleeperMoves.{SleeperState, queue_event};
ghost use Rattle.fak_channel_core.specs.SleeperProgress.{ComesOn, EndsCallWithin, steps_to_rest};
ghost use Rattle.fak_channel_core.specs.SleeperSchedule.{AllEndsRest, IsResting, ReceiverSigns, ReceiverSleeps, SenderSigns, SenderSleeps, SleeperEvent, end_of, queue_events, sleeper_happens, sleeper_reached};
ghost use Rattle.fak_model.specs.declared.note.Sign.TheVariants.{FindsBit, IsWoken};
ghost use Rattle.fak_channel_core.specs.SleeperSides.{Asleep};

use crate::laws::sleepers::{
    a_channel_never_locks_up, a_note_of_a_bit_is_true, a_queue_goes_its_own_way,
    a_woken_end_goes_on, an_end_knows_what_it_owes, every_call_of_a_channel_ends,
    nobody_sleeps_beside_work, the_queue_of_a_channel_is_reached,
};
use fak_core::laws::queue::every_queue_schedule_is_legal;
use fak_model::laws::queue::a_queue_holds_no_more_than_its_size;

/// If all ends rest and the channel is closed, nobody sleeps.
pub fn nobody_sleeps_in_a_closed_channel<T>()
    ensures receiver { (n size e : ℕ) (schedule : List (SleeperEvent T)) → 0 < size
        → AllEndsRest n (sleeper_reached n size schedule) → (sleeper_reached n size schedule).queue.shut ≡ true
        → ReceiverSleeps (sleeper_reached n size schedule) e → ⊥ }
    ensures sender { (n size e : ℕ) (schedule : List (SleeperEvent T)) → 0 < size
        → AllEndsRest n (sleeper_reached n size schedule) → (sleeper_reached n size schedule).queue.shut ≡ true
        → SenderSleeps (sleeper_reached n size schedule) e → ⊥ }
{
    nobody_sleeps_beside_work::<T>();
}

/// If all ends rest, no receiver sleeps while there is an item, and no sender while there is a free cell.
pub fn an_item_and_a_free_cell_keep_awake<T>()
    ensures receiver { (n size e : ℕ) (schedule : List (SleeperEvent T)) → 0 < size
        → AllEndsRest n (sleeper_reached n size schedule)
        → 0 < length (contents (history_of (sleeper_reached n size schedule).queue))
        → ReceiverSleeps (sleeper_reached n size schedule) e → ⊥ }
    ensures sender { (n size e : ℕ) (schedule : List (SleeperEvent T)) → 0 < size
        → AllEndsRest n (sleeper_reached n size schedule)
        → length (contents (history_of (sleeper_reached n size schedule).queue)) < size
        → SenderSleeps (sleeper_reached n size schedule) e → ⊥ }
{
    nobody_sleeps_beside_work::<T>();
}

/// The marks of a channel's queue are a legal history of a queue of that size.
pub fn the_marks_of_a_channel_are_legal<T>()
    ensures { (n size : ℕ) (schedule : List (SleeperEvent T)) → 0 < size
        → IsQueueHistory size (history_of (sleeper_reached n size schedule).queue) }
{
    the_queue_of_a_channel_is_reached::<T>();
    every_queue_schedule_is_legal::<T>();
}

/// No more was received than was sent, and the items left fit into the channel.
pub fn a_channel_holds_what_fits<T>()
    ensures got { (n size : ℕ) (schedule : List (SleeperEvent T)) → 0 < size
        → count gots (history_of (sleeper_reached n size schedule).queue) ≤ count puts
        (history_of (sleeper_reached n size schedule).queue) }
    ensures left { (n size : ℕ) (schedule : List (SleeperEvent T)) → 0 < size
        → length (contents (history_of (sleeper_reached n size schedule).queue)) ≤ size }
{
    the_marks_of_a_channel_are_legal::<T>();
    a_queue_holds_no_more_than_its_size::<T>();
}

/// The same event does the same to the same queue, whether ends sleep or not.
pub fn sleepers_do_not_hold_up_a_queue<T>()
    ensures { (n m size : ℕ) (s t : SleeperState T) (v : QueueEvent T) → s.queue ≡ t.queue
        → (queue_event n size s v).queue ≡ (queue_event m size t v).queue }
{
    a_queue_goes_its_own_way::<T>();
}

/// No other end can give an end a look to take.
pub fn another_end_adds_no_look<T>()
    ensures { (n size e : ℕ) (s : SleeperState T) (v : SleeperEvent T) → e ≢ end_of v
        → (s.accounts e).receiver.looks ≡ 0 → ((sleeper_happens n size s v).accounts e).receiver.looks ≡ 0 }
{
    an_end_knows_what_it_owes::<T>();
}

/// An end that owes a look, and has no open call on the queue, can take a step that leaves it less to do.
pub fn an_end_that_owes_a_look_comes_on<T>()
    ensures { (n size e : ℕ) (schedule : List (SleeperEvent T)) → 0 < size → e < n
        → (sleeper_reached n size schedule).queue.phase e ≡ Idle
        → ((sleeper_reached n size schedule).accounts e).receiver.looks ≢ 0
        → ComesOn n size (sleeper_reached n size schedule) e }
{
    a_channel_never_locks_up::<T>();
}

/// If no end can move a call on the queue, and an end can take no step that leaves it less to do, that end rests: it has no
/// open call, or it sleeps.
pub fn an_end_that_cannot_go_on_rests<T>()
    ensures { (n size e : ℕ) (schedule : List (SleeperEvent T)) → 0 < size → e < n
        → (SomeSeatMoves size n (sleeper_reached n size schedule).queue → ⊥)
        → (ComesOn n size (sleeper_reached n size schedule) e → ⊥)
        → (IsResting (sleeper_reached n size schedule) e → ⊥) → ⊥ }
{
    a_channel_never_locks_up::<T>();
}

/// An end that rests has no step that leaves it less to do. An end without an open call that has nothing left to do owes
/// neither a look nor a check.
pub fn an_end_with_nothing_to_do_rests<T>()
    ensures rests { (n size e : ℕ) (s : SleeperState T) → IsResting s e → ComesOn n size s e → ⊥ }
    ensures looks { (n e : ℕ) (s : SleeperState T) → s.queue.phase e ≡ Idle → steps_to_rest n s e ≡ 0
        → ((s.accounts e).sender.looks ≡ 0) × ((s.accounts e).receiver.looks ≡ 0) }
    ensures checks { (n e : ℕ) (s : SleeperState T) → s.queue.phase e ≡ Idle → steps_to_rest n s e ≡ 0
        → (s.accounts e).checks ≡ false }
{
    a_channel_never_locks_up::<T>();
}

/// In a channel with one cell a call on the queue ends within seven rounds, however many ends there are.
pub fn a_call_on_one_cell_ends_within_seven_rounds<T>()
    ensures { (n e : ℕ) (schedule : List (SleeperEvent T)) (rounds : List (List (SleeperEvent T)))
        → All (IsRound n) (map (queue_events n) rounds) → length rounds ≡ 7
        → EndsCallWithin n 1 rounds (sleeper_reached n 1 schedule) e }
{
    every_call_of_a_channel_ends::<T>();
}

/// With two ends a call on the queue ends within ten rounds, however many cells there are.
pub fn a_call_of_two_ends_ends_within_ten_rounds<T>()
    ensures { (size e : ℕ) (schedule : List (SleeperEvent T)) (rounds : List (List (SleeperEvent T))) → 0 < size
        → All (IsRound 2) (map (queue_events 2) rounds) → length rounds ≡ 10
        → EndsCallWithin 2 size rounds (sleeper_reached 2 size schedule) e }
{
    every_call_of_a_channel_ends::<T>();
}

/// An end whose bit another end has cleared does not sleep any more once it has looked at its bit.
pub fn a_cleared_bit_ends_a_sleep<T>()
    ensures sender { (n size e : ℕ) (s : SleeperState T) → e < n → s.queue.phase e ≡ Idle
        → (s.accounts e).sender.stage ≡ Asleep → s.senders e ≡ false
        → SenderSleeps (sleeper_happens n size s (SenderSigns e IsWoken)) e → ⊥ }
    ensures receiver { (n size e : ℕ) (s : SleeperState T) → e < n → s.queue.phase e ≡ Idle
        → (s.accounts e).receiver.stage ≡ Asleep → s.receivers e ≡ false
        → ReceiverSleeps (sleeper_happens n size s (ReceiverSigns e IsWoken)) e → ⊥ }
{
    a_woken_end_goes_on::<T>();
}

/// A receiver that was woken cannot note that its bit is still set.
pub fn a_woken_receiver_cannot_sleep_on<T>()
    ensures { (n size e : ℕ) (s : SleeperState T) → s.receivers e ≡ false
        → sleeper_happens n size s (ReceiverSigns e (FindsBit e true)) ≡ s }
{
    a_note_of_a_bit_is_true::<T>();
}

#[cfg(test)]
mod tests {
    use super::{
        a_call_of_two_ends_ends_within_ten_rounds, a_call_on_one_cell_ends_within_seven_rounds,
        a_channel_holds_what_fits, a_cleared_bit_ends_a_sleep, a_woken_receiver_cannot_sleep_on,
        an_end_that_cannot_go_on_rests, an_end_that_owes_a_look_comes_on,
        an_end_with_nothing_to_do_rests, an_item_and_a_free_cell_keep_awake,
        another_end_adds_no_look, nobody_sleeps_in_a_closed_channel,
        sleepers_do_not_hold_up_a_queue, the_marks_of_a_channel_are_legal,
    };

    #[test]
    fn the_callers_of_the_laws_are_called() {
        nobody_sleeps_in_a_closed_channel::<u64>();
        an_item_and_a_free_cell_keep_awake::<u64>();
        the_marks_of_a_channel_are_legal::<u64>();
        a_channel_holds_what_fits::<u64>();
        sleepers_do_not_hold_up_a_queue::<u64>();
        another_end_adds_no_look::<u64>();
        an_end_that_owes_a_look_comes_on::<u64>();
        an_end_that_cannot_go_on_rests::<u64>();
        an_end_with_nothing_to_do_rests::<u64>();
        a_call_of_two_ends_ends_within_ten_rounds::<u64>();
        a_call_on_one_cell_ends_within_seven_rounds::<u64>();
        a_cleared_bit_ends_a_sleep::<u64>();
        a_woken_receiver_cannot_sleep_on::<u64>();
    }
}
