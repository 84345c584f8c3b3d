//! The atomic steps of a seat on the bits of sleepers, and the tests that belong to a sleep. Each comes between two calls of
//! the seat on the queue, leaves no mark, and never waits.

ghost use Rattle.std.specs.Prelude.{◌≡◌, ◌<◌, true};
ghost use Rattle.fak_model.specs.Limits.{large_seats};
ghost use Rattle.fak_model.specs.declared.note.Sign.TheVariants.{GivesUp, Registers};
ghost use Rattle.fak_channel_core.specs.SleeperSides.{Awake, PastLower, Registered, Woken, relies_on_bit};
ghost use Rattle.fak_queue.specs.declared.role.Role.TheVariants.{Receiver, Sender};
ghost use Rattle.fak_queue.specs.declared.state.SeatState.TheVariants.{Idle};
ghost use Rattle.fak_queue.specs.Queues.{state_of};
ghost use Rattle.fak_queue.specs.Sleepers.{as_role, duty_as};
ghost use Rattle.fak_queue.specs.SleeperSeats.{AddsNote, ChecksDrained, ClearsBit, LooksAt, SeesBit, TakesBit, TestsDrained, TestsItem, TestsRoom, account_of_seat};

use crate::found::NoRoom;
use crate::queue::Queue;
use crate::role::Role;
use crate::sleeper_seat::SleeperSeat;
use crate::steps::bits;
use std::marker::Brand;

impl<T: Drop> SleeperSeat<T> {
    /// Sets the own bit. A test follows: who makes room or an item from here on finds the bit. The seat must belong to this
    /// queue, be idle, and be awake in this role.
    pub fn set_bit(&mut self, queue: &Queue<T>, role: Role)
        requires object { self.old.seat.object ≡ queue.now.object }
        requires idle { state_of self.old.seat ≡ Idle }
        requires awake { (duty_as role (account_of_seat self.old)).stage ≡ Awake }
        ensures { AddsNote queue.now.size (as_role role Registers) self.old self.new }
    {
        let parts = &mut self.parts;
        let words = &queue.table.shared;
        let size = queue.cells.size;
        bits::set_bit::<T, Brand>(words, &mut parts.token, role, size, parts.name);
    }

    /// Loads the own bit: whether it is still set. If it is not, another seat has woken this one. The seat must belong to this
    /// queue, be idle, and rely on its bit in this role.
    pub fn see_bit(&mut self, queue: &Queue<T>, role: Role) -> bool
        requires object { self.old.seat.object ≡ queue.now.object }
        requires idle { state_of self.old.seat ≡ Idle }
        requires relies { relies_on_bit (duty_as role (account_of_seat self.old)).stage ≡ true }
        ensures { SeesBit queue.now.size role result self.old self.new }
    {
        let parts = &mut self.parts;
        let words = &queue.table.shared;
        let size = queue.cells.size;
        bits::see_bit::<T, Brand>(words, &mut parts.token, role, size, parts.name)
    }

    /// Clears the own bit: whether it was set. If it was not, another seat has woken this one. It follows a second test that
    /// found what the seat waits for, or a deadline. The seat must belong to this queue, be idle, and rely on its bit in this
    /// role.
    pub fn take_back(&mut self, queue: &Queue<T>, role: Role) -> bool
        requires object { self.old.seat.object ≡ queue.now.object }
        requires idle { state_of self.old.seat ≡ Idle }
        requires relies { relies_on_bit (duty_as role (account_of_seat self.old)).stage ≡ true }
        ensures { TakesBit queue.now.size role result self.old self.new }
    {
        let parts = &mut self.parts;
        let words = &queue.table.shared;
        let size = queue.cells.size;
        bits::take_back::<T, Brand>(words, &mut parts.token, role, size, parts.name)
    }

    /// Notes that a woken seat does not try again, so that it owes a look. The seat must belong to this queue, be idle, and be
    /// woken in this role.
    pub fn give_up(&mut self, queue: &Queue<T>, role: Role)
        requires object { self.old.seat.object ≡ queue.now.object }
        requires idle { state_of self.old.seat ≡ Idle }
        requires woken { (duty_as role (account_of_seat self.old)).stage ≡ Woken }
        ensures { AddsNote queue.now.size (as_role role GivesUp) self.old self.new }
    {
        let parts = &mut self.parts;
        let words = &queue.table.shared;
        let size = queue.cells.size;
        bits::give_up::<T, Brand>(words, &mut parts.token, role, size, parts.name);
    }

    /// Loads the word of this number of the bits of a role, and returns it: bit `j` is that of the seat `64 * word + j`. If no
    /// bit is set, the look has passed the word. `word` is 0 to 15. The seat must belong to this queue and be idle.
    pub fn look(&mut self, queue: &Queue<T>, role: Role, word: u64) -> u64
        requires object { self.old.seat.object ≡ queue.now.object }
        requires idle { state_of self.old.seat ≡ Idle }
        requires word { word < 16 }
        ensures { LooksAt queue.now.size role word result self.old self.new }
    {
        let parts = &mut self.parts;
        let words = &queue.table.shared;
        let size = queue.cells.size;
        bits::look::<T, Brand>(words, &mut parts.token, role, size, word)
    }

    /// Clears the bit of another seat: whether it was set. If it was, this has woken that seat, and its thread is to be woken.
    /// `other` is below `LARGE_SEATS`. The seat must belong to this queue and be idle.
    pub fn clear(&mut self, queue: &Queue<T>, role: Role, other: u64) -> bool
        requires object { self.old.seat.object ≡ queue.now.object }
        requires idle { state_of self.old.seat ≡ Idle }
        requires other { other < large_seats }
        ensures { ClearsBit queue.now.size role other result self.old self.new }
    {
        let parts = &mut self.parts;
        let words = &queue.table.shared;
        let size = queue.cells.size;
        bits::clear::<T, Brand>(words, &mut parts.token, role, size, other)
    }

    /// The second test of a sender that has set its bit: whether there is room. The seat must belong to this queue, be idle,
    /// and have set its bit as a sender.
    ///
    /// # Errors
    ///
    /// `Full` with the upper count, and the sender falls asleep; or `Shut`, and it does not.
    pub fn test_room_again(&mut self, queue: &Queue<T>) -> Result<(), NoRoom>
        requires object { self.old.seat.object ≡ queue.now.object }
        requires idle { state_of self.old.seat ≡ Idle }
        requires registered { (duty_as Sender (account_of_seat self.old)).stage ≡ Registered }
        ensures { TestsRoom queue.now.size result self.old self.new }
    {
        let parts = &mut self.parts;
        bits::test_room_again::<T, Brand>(&queue.table.shared, &mut parts.token, queue.cells.size)
    }

    /// The second test of a receiver that has set its bit: whether there is an item. The seat must belong to this queue, be
    /// idle, and have set its bit as a receiver.
    ///
    /// # Errors
    ///
    /// The lower count, which is at most 0. `test_drained_again` follows.
    pub fn test_item_again(&mut self, queue: &Queue<T>) -> Result<(), i64>
        requires object { self.old.seat.object ≡ queue.now.object }
        requires idle { state_of self.old.seat ≡ Idle }
        requires registered { (duty_as Receiver (account_of_seat self.old)).stage ≡ Registered }
        ensures { TestsItem queue.now.size result self.old self.new }
    {
        let parts = &mut self.parts;
        bits::test_item_again::<T, Brand>(&queue.table.shared, &mut parts.token)
    }

    /// The rest of the second test of a receiver: whether the queue is drained. If it is not, the receiver falls asleep. The
    /// seat must belong to this queue, be idle, and have found no item by `test_item_again`.
    pub fn test_drained_again(&mut self, queue: &Queue<T>) -> bool
        requires object { self.old.seat.object ≡ queue.now.object }
        requires idle { state_of self.old.seat ≡ Idle }
        requires past_lower { (duty_as Receiver (account_of_seat self.old)).stage ≡ PastLower }
        ensures { TestsDrained queue.now.size result self.old self.new }
    {
        let parts = &mut self.parts;
        bits::test_drained_again::<T, Brand>(&queue.table.shared, &mut parts.token)
    }

    /// Checks whether the queue is drained. It follows a call that may have drained it. If it has, the seat owes a look for
    /// a receiver. The seat must belong to this queue and be idle.
    pub fn check_drained(&mut self, queue: &Queue<T>) -> bool
        requires object { self.old.seat.object ≡ queue.now.object }
        requires idle { state_of self.old.seat ≡ Idle }
        ensures { ChecksDrained queue.now.size result self.old self.new }
    {
        let parts = &mut self.parts;
        bits::check_drained::<T, Brand>(&queue.table.shared, &mut parts.token)
    }
}
