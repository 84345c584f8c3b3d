//! What callers can conclude from the standing of an end.

ghost use Rattle.std.specs.Prelude.{◌≡◌, ℕ, ◌<◌, ◌∷◌, true, false, List, [], Option, length, reverse};
ghost use Rattle.atomic_table.specs.Table.{State};
ghost use Rattle.fak_model.specs.declared.note.Sign.TheVariants.{FindsBit};
ghost use Rattle.fak_model.specs.declared.queue.Mark.{Mark};
ghost use Rattle.fak_model.specs.Queue.{IsQueueHistory, contents, count};
ghost use Rattle.fak_channel_core.specs.SleeperSides.{Asleep, Awake};
ghost use Rattle.fak_queue.specs.declared.limits.QueueLimits.{QueueLimits};
ghost use Rattle.fak_queue.specs.Drained.{IsDrained, claim_in_of, claim_out_of};
ghost use Rattle.fak_queue.specs.Shown.{IsShownQueue, QueueView};
ghost use Rattle.fak_queue.specs.Sleepers.{as_role};
ghost use Rattle.fak_queue.specs.SleeperSeats.{note_of};
ghost use Rattle.fak_channel.specs.declared.channel.Channel.{Channel};
ghost use Rattle.fak_channel.specs.declared.seat.ChannelSeat.{ChannelSeat};
ghost use Rattle.fak_channel.specs.declared.standing.ChannelStep.{ChannelStep};
ghost use Rattle.fak_channel.specs.declared.standing.ChannelStep.TheVariants.{Sleeps};
ghost use Rattle.fak_channel.specs.declared.standing.Next.TheVariants.{Sleeping};
ghost use Rattle.fak_channel.specs.declared.standing.Wish.{Wish};
ghost use Rattle.fak_channel.specs.declared.standing.Wish.TheVariants.{Receive, Send};
ghost use Rattle.fak_channel.specs.declared.undealt.UndealtSeats.{UndealtSeats};
ghost use Rattle.fak_channel.specs.ChannelSteps.{KeepsAwake, StandsAfter, Steps};
ghost use Rattle.fak_channel.specs.EndsAtRest.{AllEndsRest, EndSleeps, RestsAs};
ghost use Rattle.fak_channel.specs.Marks.{end_in_of, end_out_of};
ghost use Rattle.fak_channel.specs.Moves.{Moves};
ghost use Rattle.fak_channel.specs.Standings.{IsBetweenCalls, IsInCall, IsSeatOf, IsStepSeatOf, role_of};
ghost use Rattle.fak_channel.specs.Undealt.{AreUndealt, fresh_channel_seat};

use fak_queue::laws::sleepers::no_seat_sleeps_beside_work;

/// An end between two calls owes nothing to others, and is awake in both roles. An end whose call sleeps owes nothing
/// either, and by its notes it is asleep in the role of its wish.
pub fn an_end_that_waits_owes_nothing<T>()
    ensures idle { (c : Channel T) (e : ChannelSeat T) (w : Wish T) → IsStepSeatOf c e → IsBetweenCalls e
        → RestsAs w Awake e }
    ensures asleep { (c : Channel T) (e : ChannelSeat T) (w : Wish T) → IsStepSeatOf c e → e.standing.next ≡ Sleeping w
        → RestsAs w Asleep e }
{}

/// A call sleeps on only after a look at its own bit, at that step: the seat notes that the bit is still set. By
/// `a_note_of_a_bit_is_true` no seat can note so whose bit another end has cleared.
pub fn an_end_that_sleeps_on_finds_its_bit_set<T>()
    ensures { (c : Channel T) (w : Wish T) (old new : ChannelSeat T) → old.standing.next ≡ Sleeping w → Moves c old new Sleeps
        → new.queue.notes ≡ note_of (as_role (role_of w) (FindsBit old.queue.seat.name true)) old.queue ∷ old.queue.notes }
{}

/// After any step of an open call its seat belongs to the channel, and the call is open, sleeps or has ended as the step says. How far
/// it has come since it began follows from how far it had come before (`Steps`). So this also holds of the seats between the steps of
/// one `Channel::steps` (`Runs`).
pub fn a_step_goes_on_with_its_call<T>()
    ensures stands { (c : Channel T) (old new : ChannelSeat T) (s : ChannelStep T) → IsStepSeatOf c old → Moves c old new s
        → IsStepSeatOf c new }
    ensures after { (c : Channel T) (old new : ChannelSeat T) (s : ChannelStep T) → IsInCall old → Moves c old new s
        → StandsAfter new s }
    ensures call { (c : Channel T) (old new : ChannelSeat T) (s : ChannelStep T) → IsStepSeatOf c old → Moves c old new s
        → Steps c.queue.size old new s }
{}

/// A seat that is dealt (`UndealtSeats::next`) belongs to its channel, and is between two calls.
pub fn a_dealt_seat_belongs_to_its_channel<T>()
    ensures { (c : Channel T) (stint name left : ℕ) (undealt : UndealtSeats T) → AreUndealt c stint name left undealt
        → IsSeatOf c (fresh_channel_seat c stint name) }
{}

/// In a drained channel no granted call is open on the queue: each insertion and each deletion that was claimed has ended.
pub fn a_drained_channel_has_no_granted_call<T>()
    ensures insertions { (size : ℕ) (h : List (Mark T)) → IsQueueHistory size h → IsDrained h
        → count end_in_of h ≡ count claim_in_of h }
    ensures deletions { (size : ℕ) (h : List (Mark T)) → IsQueueHistory size h → IsDrained h
        → count end_out_of h ≡ count claim_out_of h }
{}

/// A try sets no bit of its own at any step, so it never sleeps.
pub fn a_try_sets_no_bit<T>()
    ensures { (c : Channel T) (old new : ChannelSeat T) (s : ChannelStep T) → IsStepSeatOf c old → Moves c old new s
        → KeepsAwake old new }
{}

/// No wake-up is lost in a running channel. Between any two steps: if only sleepers have open calls, a receiver sleeps only if
/// the channel is empty and open, and a sender only if it is full and open.
pub fn no_end_sleeps_beside_work<T>()
    ensures receiver { (c : Channel T) (key : QueueLimits) (s : State (Option T) (QueueView T))
        (shown : IsShownQueue key s) (ends : ℕ → ChannelSeat T) → AllEndsRest c key s ends → (n : ℕ) → n < key.seats
        → (sleeps : EndSleeps key s (ends n)) → sleeps.wish ≡ Receive
        → (contents (reverse shown.core.past) ≡ []) × (shown.core.shut ≡ false) }
    ensures sender { (c : Channel T) (key : QueueLimits) (s : State (Option T) (QueueView T))
        (shown : IsShownQueue key s) (ends : ℕ → ChannelSeat T) → AllEndsRest c key s ends → (n : ℕ) → n < key.seats
        → (sleeps : EndSleeps key s (ends n)) → (x : T) → sleeps.wish ≡ Send x
        → (length (contents (reverse shown.core.past)) ≡ key.size) × (shown.core.shut ≡ false) }
{
    no_seat_sleeps_beside_work::<T>();
}
