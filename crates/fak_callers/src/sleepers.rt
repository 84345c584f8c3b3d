//! What follows of the laws of the sleepers of a running queue.

ghost use Rattle.std.specs.Prelude.{◌≡◌, ℕ, ◌+◌, ◌<◌, ◌≤◌, true, List, Option, length, reverse};
ghost use Rattle.atomic_table.specs.Table.{State};
ghost use Rattle.fak_model.specs.declared.note.Note.{Note};
ghost use Rattle.fak_model.specs.declared.note.NoteKind.TheVariants.{AsReceiver};
ghost use Rattle.fak_model.specs.declared.note.Sign.TheVariants.{PassesWord, WakesEnd};
ghost use Rattle.fak_model.specs.declared.queue.Mark.{Mark};
ghost use Rattle.fak_model.specs.Calls.{SeatInfo};
ghost use Rattle.fak_model.specs.Queue.{contents};
ghost use Rattle.fak_channel_core.specs.SleeperMoves.{after_note};
ghost use Rattle.fak_queue.specs.declared.limits.QueueLimits.{QueueLimits};
ghost use Rattle.fak_queue.specs.declared.role.Role.TheVariants.{Receiver, Sender};
ghost use Rattle.fak_queue.specs.Accounts.{AreWithin};
ghost use Rattle.fak_queue.specs.Queues.{Makes, kinds_in, kinds_out};
ghost use Rattle.fak_queue.specs.Shown.{IsShownQueue, QueueView};
ghost use Rattle.fak_queue.specs.SleeperRest.{AllSeatsRest, OwesNothing, SleepsAs, account_by, marks_by};

use fak_queue::laws::sleepers::{
    a_call_owes_by_its_marks, an_insertion_and_its_look_owe_nothing,
    nobody_sleeps_beside_work_in_a_running_queue,
};

/// If all seats are at rest, no receiver sleeps while there is an item, no sender while there is a free cell, and nobody in
/// a queue that is shut.
pub fn an_item_a_free_cell_and_a_close_keep_awake<T>()
    ensures item { (key : QueueLimits) (s : State (Option T) (QueueView T)) (shown : IsShownQueue key s) → (n : ℕ)
        → AllSeatsRest key s → 0 < length (contents (reverse shown.core.past)) → SleepsAs key s n Receiver → ⊥ }
    ensures cell { (key : QueueLimits) (s : State (Option T) (QueueView T)) (shown : IsShownQueue key s) → (n : ℕ)
        → AllSeatsRest key s → length (contents (reverse shown.core.past)) < key.size → SleepsAs key s n Sender → ⊥ }
    ensures receiver { (key : QueueLimits) (s : State (Option T) (QueueView T)) (shown : IsShownQueue key s) → (n : ℕ)
        → AllSeatsRest key s → shown.core.shut ≡ true → SleepsAs key s n Receiver → ⊥ }
    ensures sender { (key : QueueLimits) (s : State (Option T) (QueueView T)) (shown : IsShownQueue key s) → (n : ℕ)
        → AllSeatsRest key s → shown.core.shut ≡ true → SleepsAs key s n Sender → ⊥ }
{
    nobody_sleeps_beside_work_in_a_running_queue::<T>();
}

/// A whole deletion owes one look for a sender, and a check.
pub fn a_deletion_owes_a_look_and_a_check<T>()
    ensures look { (seats size ticket : ℕ) (x : T) (notes : List Note) (old new : SeatInfo (Mark T))
        → AreWithin notes (marks_by old) → Makes size (kinds_out ticket x) old new
        → (account_by seats notes new).sender.looks ≡ (account_by seats notes old).sender.looks + 1 }
    ensures check { (seats size ticket : ℕ) (x : T) (notes : List Note) (old new : SeatInfo (Mark T))
        → AreWithin notes (marks_by old) → Makes size (kinds_out ticket x) old new
        → (account_by seats notes new).checks ≡ true }
{
    a_call_owes_by_its_marks::<T>();
}

/// After an insertion and one look for a receiver, a seat that owed nothing owes no look.
pub fn one_look_pays_for_an_insertion<T>()
    ensures wakes { (seats size ticket other : ℕ) (x : T) (notes : List Note) (old new : SeatInfo (Mark T))
        → AreWithin notes (marks_by old) → OwesNothing (account_by seats notes old)
        → Makes size (kinds_in ticket x) old new
        → (after_note seats (AsReceiver (WakesEnd other)) (account_by seats notes new)).receiver.looks ≡ 0 }
    ensures passes { (seats size ticket : ℕ) (x : T) (notes : List Note) (old new : SeatInfo (Mark T)) → seats ≤ 64
        → AreWithin notes (marks_by old) → OwesNothing (account_by seats notes old)
        → Makes size (kinds_in ticket x) old new
        → (after_note seats (AsReceiver (PassesWord 0)) (account_by seats notes new)).receiver.looks ≡ 0 }
{
    an_insertion_and_its_look_owe_nothing::<T>();
}
