//! What follows for the callers of channels: nobody sleeps while there is an item, a free cell or a close.

ghost use Rattle.std.specs.Prelude.{◌≡◌, ℕ, ◌<◌, true, List, IfSome, Option, length, reverse};
ghost use Rattle.atomic_table.specs.Table.{State};
ghost use Rattle.fak_model.specs.declared.queue.Mark.{Mark};
ghost use Rattle.fak_model.specs.Queue.{IsQueueHistory, contents, count};
ghost use Rattle.fak_queue.specs.declared.limits.QueueLimits.{QueueLimits};
ghost use Rattle.fak_queue.specs.Shown.{IsShownQueue, QueueView};
ghost use Rattle.fak_queue.specs.SleeperRest.{OwesNothing};
ghost use Rattle.fak_queue.specs.SleeperSeats.{account_of_seat};
ghost use Rattle.fak_channel.specs.declared.channel.Channel.{Channel};
ghost use Rattle.fak_channel.specs.declared.seat.ChannelSeat.{ChannelSeat};
ghost use Rattle.fak_channel.specs.declared.standing.ChannelStep.TheVariants.{GoesOn, Sleeps};
ghost use Rattle.fak_channel.specs.declared.standing.Next.TheVariants.{Sleeping};
ghost use Rattle.fak_channel.specs.declared.standing.Wish.{Wish};
ghost use Rattle.fak_channel.specs.declared.standing.Wish.TheVariants.{Receive, Send};
ghost use Rattle.fak_channel.specs.Channels.{StaysAwake};
ghost use Rattle.fak_channel.specs.EndsAtRest.{AllEndsRest, EndSleeps};
ghost use Rattle.fak_channel.specs.Marks.{end_in_of, end_out_of};
ghost use Rattle.fak_channel.specs.Moves.{Moves};
ghost use Rattle.fak_channel.specs.Standings.{IsInCall, IsSeatOf, IsStepSeatOf};
ghost use Rattle.fak_channel.specs.Undealt.{AreUndealt};
ghost use Rattle.fak_queue.specs.Drained.{IsDrained};

use fak_channel::laws::{
    a_dealt_seat_belongs_to_its_channel, a_drained_channel_has_no_granted_call,
    a_step_goes_on_with_its_call, a_try_sets_no_bit, an_end_that_sleeps_on_finds_its_bit_set,
    an_end_that_waits_owes_nothing, no_end_sleeps_beside_work,
};
use fak_channel::{Channel, ChannelSeat, ChannelStep, End, UndealtSeats};
use fak_queue::laws::a_drained_queue_stays_empty;

/// If only sleepers have open calls, no receiver sleeps while there is an item, no sender while there is a free cell, and
/// nobody in a channel that is closed.
pub fn an_item_a_free_cell_and_a_close_keep_ends_awake<T>()
    ensures item { (c : Channel T) (key : QueueLimits) (s : State (Option T) (QueueView T))
        (shown : IsShownQueue key s) (ends : ℕ → ChannelSeat T) → AllEndsRest c key s ends → (n : ℕ) → n < key.seats
        → 0 < length (contents (reverse shown.core.past)) → (sleeps : EndSleeps key s (ends n)) → sleeps.wish ≡ Receive
        → ⊥ }
    ensures cell { (c : Channel T) (key : QueueLimits) (s : State (Option T) (QueueView T))
        (shown : IsShownQueue key s) (ends : ℕ → ChannelSeat T) → AllEndsRest c key s ends → (n : ℕ) → n < key.seats
        → length (contents (reverse shown.core.past)) < key.size → (sleeps : EndSleeps key s (ends n)) → (x : T)
        → sleeps.wish ≡ Send x → ⊥ }
    ensures close { (c : Channel T) (key : QueueLimits) (s : State (Option T) (QueueView T))
        (shown : IsShownQueue key s) (ends : ℕ → ChannelSeat T) → AllEndsRest c key s ends → (n : ℕ) → n < key.seats
        → shown.core.shut ≡ true → (sleeps : EndSleeps key s (ends n)) → sleeps.wish ≡ Receive → ⊥ }
{
    no_end_sleeps_beside_work::<T>();
}

/// Makes a seat go by steps. Between two calls it owes no look and no check.
pub fn take_steps<T: Drop>(channel: &Channel<T>, seat: ChannelSeat<T>) -> ChannelSeat<T>
    requires { IsSeatOf channel.now seat }
    ensures { OwesNothing (account_of_seat result.queue) }
{
    an_end_that_waits_owes_nothing::<T>();
    channel.step_seat(seat)
}

/// A step that noted nothing has not looked: no call sleeps on by it.
pub fn who_has_not_looked_does_not_sleep_on<T>()
    ensures { (c : Channel T) (w : Wish T) (old new : ChannelSeat T) → old.standing.next ≡ Sleeping w
        → new.queue.notes ≡ old.queue.notes → Moves c old new Sleeps → ⊥ }
{
    an_end_that_sleeps_on_finds_its_bit_set::<T>();
}

/// If a step goes on, its call is still open, so the next step may be taken.
pub fn a_call_that_goes_on_is_open<T>()
    ensures { (c : Channel T) (old new : ChannelSeat T) → IsInCall old → Moves c old new GoesOn → IsInCall new }
{
    a_step_goes_on_with_its_call::<T>();
}

/// Deals the next seat of a channel as an end.
pub fn deal_an_end<'c, T: Drop>(
    channel: &'c Channel<T>,
    undealt: &mut UndealtSeats<T>,
) -> Option<End<'c, T>>
    requires { (stint : ℕ) × ((name : ℕ) × ((left : ℕ) × AreUndealt channel.now stint name left undealt.old)) }
    ensures { IfSome result (λ e. e.channel.now ≡ channel.now) }
{
    a_dealt_seat_belongs_to_its_channel::<T>();
    let seat = undealt.next()?;
    Some(End::new(channel, seat))
}

/// In a drained channel as many deletions have ended as insertions: each item was handed out.
pub fn a_drained_channel_has_handed_all_out<T>()
    ensures { (size : ℕ) (h : List (Mark T)) → IsQueueHistory size h → IsDrained h
        → count end_out_of h ≡ count end_in_of h }
{
    a_drained_channel_has_no_granted_call::<T>();
    a_drained_queue_stays_empty::<T>();
}

/// Takes one step of an open try. The seat sets no bit by it, so it does not sleep.
pub fn take_a_step_of_a_try<T: Drop>(
    channel: &Channel<T>,
    seat: &mut ChannelSeat<T>,
) -> ChannelStep<T>
    requires stands { IsStepSeatOf channel.now seat.old }
    requires in_call { IsInCall seat.old }
    requires is_try { seat.old.standing.tries ≡ true }
    ensures stands { IsStepSeatOf channel.now seat.new }
    ensures awake { StaysAwake seat.old.queue seat.new.queue }
{
    a_try_sets_no_bit::<T>();
    channel.step(seat)
}
