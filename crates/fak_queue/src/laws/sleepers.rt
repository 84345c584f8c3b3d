//! What the rule of a running queue states of the sleepers of a channel, whose bits are in its table.

ghost use Rattle.std.specs.Prelude.{◌≡◌, ℕ, ◌<◌, ◌≤◌, false, List, [], Option, length, reverse};
ghost use mathlib.Core.Option.{some};
ghost use lib.ListN.{get_elem?};
ghost use Rattle.atomic_table.specs.Seated.{TableId};
ghost use Rattle.atomic_table.specs.Table.{State};
ghost use Rattle.fak_core.specs.declared.queue.phase.Phase.{Phase};
ghost use Rattle.fak_model.specs.declared.note.Note.{Note};
ghost use Rattle.fak_model.specs.declared.note.NoteKind.TheVariants.{AsReceiver};
ghost use Rattle.fak_model.specs.declared.note.Sign.TheVariants.{PassesWord, WakesEnd};
ghost use Rattle.fak_model.specs.declared.queue.Kind.{Kind};
ghost use Rattle.fak_model.specs.declared.queue.Mark.{Mark};
ghost use Rattle.fak_model.specs.Calls.{SeatInfo, object_id};
ghost use Rattle.fak_model.specs.Queue.{contents};
ghost use Rattle.fak_channel_core.specs.SleeperMoves.{after_note};
ghost use Rattle.fak_queue.specs.declared.limits.QueueLimits.{QueueLimits};
ghost use Rattle.fak_queue.specs.declared.role.Role.TheVariants.{Receiver, Sender};
ghost use Rattle.fak_queue.specs.Accounts.{AreWithin, after_kinds};
ghost use Rattle.fak_queue.specs.Queues.{IsQueueSeat, Makes, kinds_in};
ghost use Rattle.fak_queue.specs.SeatParts.{queue_parts};
ghost use Rattle.fak_queue.specs.SeatsSeen.{AllRest, IsSeenIn, SeatSleeps};
ghost use Rattle.fak_queue.specs.Shown.{IsShownQueue, QueueHolder, QueueView};
ghost use Rattle.fak_queue.specs.SleeperRest.{AllSeatsRest, OwesNothing, SleepsAs, account_by, marks_by};
ghost use Rattle.fak_queue.specs.SleeperSeats.{AreUndealt, KnowsNotes, SleeperInfo, fresh_sleeper, sleeper_info};

/// No wake-up is lost in a running queue. If all seats are at rest, a receiver sleeps only if the queue is empty and open;
/// a sender sleeps only if it is full and open.
pub fn nobody_sleeps_beside_work_in_a_running_queue<T>()
    ensures receiver { (key : QueueLimits) (s : State (Option T) (QueueView T)) (shown : IsShownQueue key s) → (n : ℕ)
        → AllSeatsRest key s → SleepsAs key s n Receiver
        → (contents (reverse shown.core.past) ≡ []) × (shown.core.shut ≡ false) }
    ensures sender { (key : QueueLimits) (s : State (Option T) (QueueView T)) (shown : IsShownQueue key s) → (n : ℕ)
        → AllSeatsRest key s → SleepsAs key s n Sender
        → (length (contents (reverse shown.core.past)) ≡ key.size) × (shown.core.shut ≡ false) }
{}

/// What a call on the queue adds to a seat's account is told by the marks that it leaves.
pub fn a_call_owes_by_its_marks<T>()
    ensures { (seats size : ℕ) (notes : List Note) (kinds : List (Kind T)) (old new : SeatInfo (Mark T))
        → AreWithin notes (marks_by old) → Makes size kinds old new
        → account_by seats notes new ≡ after_kinds seats (reverse kinds) (account_by seats notes old) }
{}

/// A seat that owes nothing owes nothing again after an insertion and one look, which wakes a receiver, or finds no bit
/// set among at most 64 seats.
pub fn an_insertion_and_its_look_owe_nothing<T>()
    ensures wakes { (seats size ticket other : ℕ) (x : T) (notes : List Note) (old new : SeatInfo (Mark T))
        → AreWithin notes (marks_by old) → OwesNothing (account_by seats notes old)
        → Makes size (kinds_in ticket x) old new
        → OwesNothing (after_note seats (AsReceiver (WakesEnd other)) (account_by seats notes new)) }
    ensures passes { (seats size ticket : ℕ) (x : T) (notes : List Note) (old new : SeatInfo (Mark T)) → seats ≤ 64
        → AreWithin notes (marks_by old) → OwesNothing (account_by seats notes old)
        → Makes size (kinds_in ticket x) old new
        → OwesNothing (after_note seats (AsReceiver (PassesWord 0)) (account_by seats notes new)) }
{}

/// No wake-up is lost, in the terms of what callers see of their seats. If all seats rest, a receiver sleeps only if the queue
/// is empty and open; a sender sleeps only if it is full and open.
pub fn no_seat_sleeps_beside_work<T>()
    ensures receiver { (key : QueueLimits) (s : State (Option T) (QueueView T)) (shown : IsShownQueue key s)
        (seats : ℕ → SleeperInfo T) → AllRest key s seats → (n : ℕ) → n < key.seats → SeatSleeps key s Receiver (seats n)
        → (contents (reverse shown.core.past) ≡ []) × (shown.core.shut ≡ false) }
    ensures sender { (key : QueueLimits) (s : State (Option T) (QueueView T)) (shown : IsShownQueue key s)
        (seats : ℕ → SleeperInfo T) → AllRest key s seats → (n : ℕ) → n < key.seats → SeatSleeps key s Sender (seats n)
        → (length (contents (reverse shown.core.past)) ≡ key.size) × (shown.core.shut ≡ false) }
{}

/// What callers see of a seat is what the view of its token in the table knows. A seat that is still to be dealt is as it will
/// be dealt.
pub fn the_table_has_what_callers_see_of_a_seat<T>()
    ensures seat { (key : QueueLimits) (s : State (Option T) (QueueView T)) (table : TableId) (name left : ℕ) (p : Phase T)
        (me : QueueHolder T) (id : ℕ) → IsQueueSeat table.slots key.seats name p left me
        → KnowsNotes (queue_parts (object_id table key.seats) name left me) → get_elem? s.views id ≡ some me.0
        → IsSeenIn key s (sleeper_info (queue_parts (object_id table key.seats) name left me)) }
    ensures undealt { (key : QueueLimits) (s : State (Option T) (QueueView T)) (table : TableId) (stint next n : ℕ)
        (me : QueueHolder T) (id : ℕ) → AreUndealt key.seats stint next me → next ≤ n → n < key.seats
        → get_elem? s.views id ≡ some me.0 → IsSeenIn key s (fresh_sleeper (object_id table key.seats) stint n) }
{}
