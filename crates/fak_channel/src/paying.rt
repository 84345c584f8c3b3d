//! What an end owes to others: looks for sleepers, and checks whether the channel is drained. An end that makes room or an
//! item looks for a sleeper. An end that may have drained the channel checks it.

ghost use Rattle.std.specs.Prelude.{◌≡◌, ◌*◌, ◌<◌, ◌≤◌};
ghost use Rattle.fak_model.specs.Limits.{large_seats};
ghost use Rattle.fak_queue.specs.declared.state.SeatState.TheVariants.{Idle};
ghost use Rattle.fak_queue.specs.Queues.{state_of};
ghost use Rattle.fak_channel.specs.Looks.{past_word, words_of};
ghost use Rattle.fak_channel.specs.Moves.{ClearsBit, LoadsWord, LooksOnce, PaysCheck, looks_for, step_of, with_looks};
ghost use Rattle.fak_channel.specs.Standings.{CanLook};

use crate::channel::Channel;
use crate::progress::Progress;
use crate::seat::ChannelSeat;
use crate::standing::{CallStanding, Looks};
use crate::stepping::Wake;
use fak_queue::Role;

impl<T> CallStanding<T> {
    /// The look for a sleeper of this role.
    fn looks_for(&self, role: Role) -> Looks
        ensures { result ≡ looks_for role self.now }
    {
        match role {
            Role::Sender => self.senders,
            Role::Receiver => self.receivers,
        }
    }

    /// The end from which on that look goes.
    fn look_from(&self, role: Role) -> u64
        ensures { result ≡ (looks_for role self.now).from }
    {
        match role {
            Role::Sender => self.senders.from,
            Role::Receiver => self.receivers.from,
        }
    }

    /// The end whose bit it has found set.
    fn look_found(&self, role: Role) -> Option<u64>
        ensures { result ≡ (looks_for role self.now).found }
    {
        match role {
            Role::Sender => self.senders.found,
            Role::Receiver => self.receivers.found,
        }
    }

    /// A load has found no bit set in its word. It stays a function of its own: else a look would call nothing, and LLVM would
    /// have it write below the stack.
    #[inline(never)]
    fn pass_word(&mut self, role: Role, ends: u64)
        requires few { ends ≤ large_seats }
        requires from { (looks_for role self.old).from < 64 * words_of ends }
        ensures { self.new ≡ with_looks role (past_word ends (looks_for role self.old)) self.old }
    {
        match role {
            Role::Sender => self.senders.pass_word(ends),
            Role::Receiver => self.receivers.pass_word(ends),
        }
    }

    fn set_looks(&mut self, role: Role, looks: Looks)
        ensures { self.new ≡ with_looks role looks self.old }
    {
        match role {
            Role::Sender => self.senders = looks,
            Role::Receiver => self.receivers = looks,
        }
    }
}

impl<T: Drop> Channel<T> {
    /// One step of a look for a sleeper of this role: a load of a word of bits, or the deletion of a bit that was found set.
    pub(crate) fn look(&self, seat: &mut ChannelSeat<T>, role: Role) -> Progress
        requires { CanLook self.now (looks_for role seat.old.standing) seat.old }
        ensures { LooksOnce self.now.ends self.now.queue.size role (looks_for role seat.old.standing) seat.old seat.new
            (looks_for role seat.old.standing).found (step_of result) }
    {
        match seat.standing.look_found(role) {
            Some(other) => self.clear_bit(seat, role, other),
            None => {
                self.load_word(seat, role);
                Progress::GoesOn
            }
        }
    }

    /// Loads the next word of bits. It comes after the step that made room or an item: an end that sets its bit later tests
    /// again, and finds what was made.
    fn load_word(&self, seat: &mut ChannelSeat<T>, role: Role)
        requires { CanLook self.now (looks_for role seat.old.standing) seat.old }
        ensures { LoadsWord self.now.ends self.now.queue.size role (looks_for role seat.old.standing) seat.old seat.new }
    {
        let word = seat.standing.look_from(role) / 64;
        let found = seat.queue.look(&self.queue, role, word);
        if found == 0 {
            seat.standing.pass_word(role, self.ends);
            return;
        }
        let looks = seat.standing.looks_for(role);
        match looks.first_in(found) {
            Some(other) => seat.standing.set_looks(
                role,
                Looks {
                    is_owed: looks.is_owed,
                    from: looks.from,
                    left: looks.left,
                    found: Some(other),
                },
            ),
            None => seat.standing.set_looks(role, looks.past_bits(self.ends)),
        }
    }

    /// Clears the bit of another end. If it was set, this wakes that end, and the look is done. Otherwise another end was
    /// faster, and the look is tried again.
    fn clear_bit(&self, seat: &mut ChannelSeat<T>, role: Role, other: u64) -> Progress
        requires can { CanLook self.now (looks_for role seat.old.standing) seat.old }
        requires other { other < large_seats }
        ensures { ClearsBit self.now.ends self.now.queue.size role (looks_for role seat.old.standing) seat.old seat.new other
            (step_of result) }
    {
        let looks = seat.standing.looks_for(role);
        if seat.queue.clear(&self.queue, role, other) {
            seat.standing
                .set_looks(role, looks.done_at(self.ends, other));
            return Progress::Wakes(Wake::of(other));
        }
        let again = Looks {
            is_owed: looks.is_owed,
            from: looks.from,
            left: looks.left,
            found: None,
        };
        seat.standing.set_looks(role, again);
        Progress::GoesOn
    }

    /// Checks whether the channel is drained. It comes after a step that may have drained it; if it has, a look for a
    /// receiver is owed, since no item comes any more.
    pub(crate) fn check(&self, seat: &mut ChannelSeat<T>)
        requires object { seat.old.queue.seat.object ≡ self.now.queue.object }
        requires few { self.now.ends ≤ large_seats }
        requires idle { state_of seat.old.queue.seat ≡ Idle }
        ensures { PaysCheck self.now seat.old seat.new }
    {
        if seat.queue.check_drained(&self.queue) {
            seat.standing.receivers = seat.standing.receivers.owing(self.ends);
        }
        seat.standing.checks = false;
    }
}
