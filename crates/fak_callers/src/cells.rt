//! What follows of the cells and words of a running queue, between any two atomic steps of its seats.

ghost use Rattle.std.specs.Prelude.{◌≡◌, ◌≢◌, ℕ, ◌<◌, ◌≤◌, Option, slice_index};
ghost use mathlib.Core.Option.{some, none};
ghost use lib.ListN.{get_elem?};
ghost use Rattle.atomic_table.specs.Table.{State};
ghost use Rattle.fak_core.specs.QueueProgress.{HoldsTicketOf};
ghost use Rattle.fak_core.specs.QueueSchedule.{InCell, stepped};
ghost use Rattle.fak_core.specs.declared.queue.phase.Phase.TheVariants.{Idle};
ghost use Rattle.fak_model.specs.declared.queue.Kind.TheVariants.{Close};
ghost use Rattle.fak_model.specs.Queue.{Has};
ghost use Rattle.fak_queue.specs.declared.limits.QueueLimits.{QueueLimits};
ghost use Rattle.fak_queue.specs.Shown.{IsShownQueue, QueueView};
ghost use Rattle.fak_queue.specs.Words.{shut_bit};

use fak_queue::laws::{
    a_running_cell_has_one_owner, a_running_queue_never_locks_up,
    a_slot_is_out_while_its_cell_has_an_owner, names_beyond_the_seats_are_idle,
    the_shut_bit_tells_of_a_close,
};

/// Two seats are never in one cell.
pub fn owners_are_apart<T>()
    ensures { (key : QueueLimits) (s : State (Option T) (QueueView T)) (shown : IsShownQueue key s) (a b cell : ℕ)
        → a ≢ b → InCell key.size (shown.core.phase a) cell → InCell key.size (shown.core.phase b) cell → ⊥ }
{
    a_running_cell_has_one_owner::<T>();
}

/// A cell whose slot is out of the table has an owner.
pub fn a_slot_that_is_out_has_an_owner<T>()
    ensures { (key : QueueLimits) (s : State (Option T) (QueueView T)) (shown : IsShownQueue key s) (cell : ℕ)
        → cell < key.size → get_elem? s.homes cell ≡ some none → (a : ℕ) × InCell key.size (shown.core.phase a) cell }
{
    a_slot_is_out_while_its_cell_has_an_owner::<T>();
}

/// If the shut bit is set, somebody has shut the queue.
pub fn a_set_bit_has_its_close<T>()
    ensures { (key : QueueLimits) (s : State (Option T) (QueueView T)) (shown : IsShownQueue key s)
        → shut_bit ≤ slice_index s.words 16 → Has Close shown.core.past }
{
    the_shut_bit_tells_of_a_close::<T>();
}

/// A seat whose call is open is one of the queue's seats.
pub fn who_calls_is_a_seat<T>()
    ensures { (key : QueueLimits) (s : State (Option T) (QueueView T)) (shown : IsShownQueue key s) (a : ℕ)
        → shown.core.phase a ≢ Idle → a < key.seats }
{
    names_beyond_the_seats_are_idle::<T>();
}

/// While a call is open, the next steps of the queue's seats do not all leave their seats as they are. Nor do those of the
/// seats that hold a ticket of its cell, nor does its own if it holds none.
pub fn never_all_stuck<T>()
    ensures call { (key : QueueLimits) (s : State (Option T) (QueueView T)) (shown : IsShownQueue key s) (a : ℕ)
        → shown.core.phase a ≢ Idle
        → ((b : ℕ) → b < key.seats → (stepped key.size shown.core b).phase b ≡ shown.core.phase b) → ⊥ }
    ensures cell { (key : QueueLimits) (s : State (Option T) (QueueView T)) (shown : IsShownQueue key s) (a cell : ℕ)
        → HoldsTicketOf key.size (shown.core.phase a) cell
        → ((b : ℕ) → b < key.seats → HoldsTicketOf key.size (shown.core.phase b) cell
        → (stepped key.size shown.core b).phase b ≡ shown.core.phase b) → ⊥ }
    ensures own { (key : QueueLimits) (s : State (Option T) (QueueView T)) (shown : IsShownQueue key s) (a : ℕ)
        → shown.core.phase a ≢ Idle → (stepped key.size shown.core a).phase a ≡ shown.core.phase a
        → (((cell : ℕ) → HoldsTicketOf key.size (shown.core.phase a) cell → ⊥) → ⊥) }
{
    a_running_queue_never_locks_up::<T>();
}
