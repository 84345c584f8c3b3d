//! A seat of a queue.

ghost use Rattle.std.specs.Prelude.{◌≡◌, ◌+◌};
ghost use Rattle.fak_queue.specs.Queues.{IsState, drawn_by, state_of};

use crate::parts::SeatParts;
use crate::state::SeatState;
use std::fmt;
use std::marker::Model;

/// The right to insert into a queue and delete from it, as often as its stint allows. Between a claim and the try that
/// fills the cell it keeps the item. Contracts see its object, its name, its stint and the history that it has seen.
#[derive(Drop)]
pub struct Seat<T> {
    pub(crate) parts: SeatParts<T>,
}

impl<T> Model for Seat<T> {
    ghost use Rattle.fak_model.specs.declared.queue.Mark.{Mark};
    ghost use Rattle.fak_model.specs.Calls.{SeatInfo};

    ghost Value = { SeatInfo (Mark T) };

    ghost view = { λ s. s.parts.seat };
}

impl<T> Seat<T> {
    /// The state of the seat between two calls.
    pub fn state(&self) -> SeatState
        ensures value { result ≡ state_of self.now }
        ensures read_off_seen { IsState self.now result }
    {
        self.parts.state()
    }

    /// How many tickets are left of the stint.
    pub fn left(&self) -> u64
        ensures { result + drawn_by self.now ≡ self.now.stint }
    {
        self.parts.left()
    }

    /// Sets whether `insert`, `delete` and the calls that wait begin with `Queue::pause`. At first they do, which raises
    /// throughput. Without pauses no call takes much longer than its steps.
    pub fn set_pauses_in_calls(&mut self, pauses: bool)
        ensures { self.new ≡ self.old }
    {
        self.parts.set_pauses_in_calls(pauses);
    }
}

impl<T> fmt::Debug for Seat<T> {
    fn fmt<W: fmt::Write>(&self, f: &mut fmt::Formatter<W>) -> fmt::Result {
        f.debug_struct("Seat")
            .field("name", &self.parts.name())
            .field("state", &self.state())
            .field("left", &self.left())
            .finish_non_exhaustive()
    }
}
