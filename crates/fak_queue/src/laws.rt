//! What the rule of a running queue states of its cells and its words, between any two atomic steps of its seats.

pub mod bundles;
pub mod examples;
pub mod looks;
pub mod sleepers;

ghost use Rattle.std.specs.Prelude.{◌≡◌, ◌≢◌, ℕ, ◌<◌, ◌≤◌, ◌↔◌, List, [], Option, slice_index};
ghost use mathlib.Core.Option.{some, none};
ghost use lib.ListN.{get_elem?};
ghost use Rattle.atomic_table.specs.Table.{State};
ghost use Rattle.fak_core.specs.QueueProgress.{HoldsTicketOf, MakesProgress, SomeHolderMoves, SomeSeatMoves};
ghost use Rattle.fak_core.specs.QueueSchedule.{InCell};
ghost use Rattle.fak_core.specs.declared.queue.phase.Phase.TheVariants.{Idle};
ghost use Rattle.fak_queue.specs.declared.limits.QueueLimits.{QueueLimits};
ghost use Rattle.fak_model.specs.declared.queue.Kind.TheVariants.{Close};
ghost use Rattle.fak_model.specs.declared.queue.Mark.{Mark};
ghost use Rattle.std.specs.List.{All};
ghost use Rattle.fak_model.specs.Calls.{ObjectId, fresh_seats};
ghost use Rattle.fak_queue.specs.Queues.{IsIdleSeat};
ghost use Rattle.fak_model.specs.Queue.{Has, IsQueueHistory, contents, count, gots, puts};
ghost use Rattle.fak_model.specs.Seats.{Begins};
ghost use Rattle.fak_queue.specs.Drained.{IsDrained, claim_in_of, claim_out_of};
ghost use Rattle.fak_queue.specs.Shown.{IsShownQueue, QueueView};
ghost use Rattle.fak_queue.specs.Words.{shut_bit, upper_word};

/// At most one seat at a time is between the load that found its turn at a cell and the store that gives the
/// cell on.
pub fn a_running_cell_has_one_owner<T>()
    ensures { (key : QueueLimits) (s : State (Option T) (QueueView T)) (shown : IsShownQueue key s) → (a b cell : ℕ)
        → InCell key.size (shown.core.phase a) cell → InCell key.size (shown.core.phase b) cell → a ≡ b }
{}

/// A cell's slot is out of the table exactly while a seat is in the cell.
pub fn a_slot_is_out_while_its_cell_has_an_owner<T>()
    ensures { (key : QueueLimits) (s : State (Option T) (QueueView T)) (shown : IsShownQueue key s)
        → (cell : ℕ) → cell < key.size
        → (get_elem? s.homes cell ≡ some none) ↔ ((a : ℕ) × InCell key.size (shown.core.phase a) cell) }
{}

/// The shut bit is set in the word of the upper count exactly if the history that is shown has a `Close`.
pub fn the_shut_bit_tells_of_a_close<T>()
    ensures { (key : QueueLimits) (s : State (Option T) (QueueView T)) (shown : IsShownQueue key s)
        → (shut_bit ≤ slice_index s.words upper_word) ↔ Has Close shown.core.past }
{}

/// No name from the number of seats on has a call.
pub fn names_beyond_the_seats_are_idle<T>()
    ensures { (key : QueueLimits) (s : State (Option T) (QueueView T)) (shown : IsShownQueue key s) → (a : ℕ)
        → key.seats ≤ a → shown.core.phase a ≡ Idle }
{}

/// A running queue never locks up: while a call is open, the next atomic step of one of the queue's seats moves its call
/// forward. If the call holds a ticket, so does that of one that holds a ticket of the same cell; if it holds none, its
/// own does.
pub fn a_running_queue_never_locks_up<T>()
    ensures call { (key : QueueLimits) (s : State (Option T) (QueueView T)) (shown : IsShownQueue key s) → (a : ℕ)
        → shown.core.phase a ≢ Idle → SomeSeatMoves key.size key.seats shown.core }
    ensures cell { (key : QueueLimits) (s : State (Option T) (QueueView T)) (shown : IsShownQueue key s) → (a cell : ℕ)
        → HoldsTicketOf key.size (shown.core.phase a) cell → SomeHolderMoves key.size key.seats shown.core cell }
    ensures ticketless { (key : QueueLimits) (s : State (Option T) (QueueView T)) (shown : IsShownQueue key s) → (a : ℕ)
        → shown.core.phase a ≢ Idle → ((cell : ℕ) → HoldsTicketOf key.size (shown.core.phase a) cell → ⊥)
        → MakesProgress key.size shown.core a }
{}

/// The seats that an opening deals are idle, and of its queue. So they can be made a bundle.
pub fn new_seats_are_idle<T>()
    ensures { (object : ObjectId) (stint name count : ℕ)
        → All (IsIdleSeat object) (fresh_seats {M = Mark T} object stint name count) }
{}

/// A drained queue stays empty: each claim of an insertion was matched by one of a deletion and each item that was put was got,
/// and in every history that goes on from there no more is claimed, put or got.
pub fn a_drained_queue_stays_empty<T>()
    ensures claims { (size : ℕ) (h : List (Mark T)) → IsQueueHistory size h → IsDrained h
        → count claim_in_of h ≡ count claim_out_of h }
    ensures gone { (size : ℕ) (h : List (Mark T)) → IsQueueHistory size h → IsDrained h
        → (count puts h ≡ count gots h) × (contents h ≡ []) }
    ensures later { (size : ℕ) (h later : List (Mark T)) → IsQueueHistory size later → Begins h later → IsDrained h
        → (count claim_in_of later ≡ count claim_in_of h) × (count claim_out_of later ≡ count claim_out_of h)
        × (count puts later ≡ count puts h) × (count gots later ≡ count gots h) × (contents later ≡ []) }
{}
