//! The room core: a count that claims raise by test, increment and retest, one atomic step at a time.

ghost use Rattle.std.specs.Prelude.{◌≡◌, ◌<◌, ◌≤◌, ◌⊎◌, ◌↔◌, length, Err, IfErr, IfOk, IsErrOf, OnErr, OnOk};
ghost use Rattle.fak_model.specs.Room.{IsRoomHistory, amount_held, value as value_of};
ghost use Rattle.fak_core.specs.declared.fault.CoreFault.TheVariants.{BadSeats, BadSize, Memory};
ghost use Rattle.fak_core.specs.Room.{IsBegun, IsStep, LeavesMark, amount_of, begin_of, history_of, opening, step_of};

pub mod moves;
pub mod phase;
pub mod step;

use crate::call::RoomCall;
use crate::fault::CoreFault;
use crate::line::Line;
use fak_model::{LARGEST_BOUND, MOST_SEATS, RoomMark};
use moves::{begun_phase, keep_mark, line_mark, next_move};
use phase::{CoreSeat, RoomPhase};
use std::alloc::Global;
use std::marker::Model;

/// A room over plain data: a count, from 0 up, that claims raise and releases lower. Claims are granted only up to the
/// bound.
///
/// Its value in contracts is a state: the bound, the count, what each seat holds and its next step, and the marks so
/// far, newest first.
#[derive(Debug, Drop)]
pub struct RoomCore {
    bound: u64,
    count: i64,
    seats: Vec<CoreSeat>,
    marks: Vec<RoomMark>,
}

impl Model for RoomCore {
    ghost use Rattle.std.specs.Prelude.{reverse};
    ghost use Rattle.fak_core.specs.Room.{RoomState};
    ghost use Rattle.fak_core.specs.RoomSchedule.{IsSound};

    ghost Value = { RoomState };

    ghost view = { λ c. record {
      bound = c.bound;
      count = c.count;
      seats = c.seats.items;
      past = reverse c.marks.items;
    } };

    ghost invariant = { λ c. IsSound (record {
      bound = c.bound;
      count = c.count;
      seats = c.seats.items;
      past = reverse c.marks.items;
    }) };
}

impl PartialEq for RoomCore {
    ghost use Rattle.std.specs.Cmp.{partial_equiv_from_equiv};
    ghost use Rattle.fak_core.specs.Equality.{same_room, same_room_laws};

    ghost eq = { same_room };

    ghost laws = { partial_equiv_from_equiv same_room_laws };

    fn eq(&self, other: &RoomCore) -> bool {
        self.bound == other.bound
            && self.count == other.count
            && self.seats == other.seats
            && self.marks == other.marks
    }
}

impl Eq for RoomCore {
    ghost use Rattle.fak_core.specs.Equality.{same_room_laws};

    ghost laws = { same_room_laws };
}

impl RoomCore {
    /// A room of this bound, 0 to 4,294,967,296, with this number of seats, 1 to 64, none of which holds anything.
    ///
    /// # Errors
    ///
    /// `BadSize`, `BadSeats` or `Memory`, in this order.
    pub fn new(alloc: Global, bound: u64, seats: u64) -> Result<RoomCore, CoreFault>
        ensures ok { IfOk result (λ core. core ≡ opening bound seats) }
        ensures many { IfOk result (λ core. length core.seats ≡ seats) }
        ensures size { IsErrOf result CoreFault.BadSize ↔ 4294967296 < bound }
        ensures seats { IsErrOf result CoreFault.BadSeats ↔ (bound ≤ 4294967296) × ((seats ≡ 0) ⊎ (64 < seats)) }
        ensures fault { IfErr result (λ fault. (fault ≡ BadSize) ⊎ (fault ≡ BadSeats) ⊎ (fault ≡ Memory)) }
    {
        if bound > LARGEST_BOUND {
            return Err(CoreFault::BadSize);
        }
        if seats == 0 || seats > MOST_SEATS {
            return Err(CoreFault::BadSeats);
        }
        let idle = CoreSeat {
            held: 0,
            phase: RoomPhase::Idle,
        };
        let Ok(all) = vec![in alloc; idle; seats as usize] else {
            return Err(CoreFault::Memory);
        };
        Ok(RoomCore {
            bound,
            count: 0,
            seats: all,
            marks: Vec::new(alloc),
        })
    }

    /// The marks so far, oldest first.
    pub fn marks(&self) -> &[RoomMark]
        ensures marks { result.now ≡ history_of self.now }
        ensures lawful { IsRoomHistory self.now.bound result.now }
    {
        &self.marks
    }

    /// The count, which is the value of the marks so far.
    pub fn value(&self) -> i64
        ensures count { result ≡ self.now.count }
        ensures value { result ≡ value_of (history_of self.now) }
    {
        self.count
    }

    /// The amount that a seat holds. The seat is below the number of seats.
    pub fn held(&self, seat: u64) -> u64
        requires { seat < length self.now.seats }
        ensures { result ≡ amount_held seat (history_of self.now) }
    {
        self.seats[seat as usize].held
    }

    /// Begins a call of a seat. The amount of the call is 1 to 1,024.
    ///
    /// # Errors
    ///
    /// `NoSuchSeat`, `MidCall` or `NotHeld`, in this order.
    pub fn begin(&mut self, seat: u64, call: RoomCall) -> Result<(), CoreFault>
        requires { (1 ≤ amount_of call) × (amount_of call ≤ 1024) }
        ensures ok { OnOk result (IsBegun self.old seat call self.new) }
        ensures err { OnErr result (self.new ≡ self.old) }
        ensures many { length self.new.seats ≡ length self.old.seats }
        ensures fault { IfErr result (λ fault. begin_of self.old seat call ≡ Err fault) }
    {
        if seat >= self.seats.len() as u64 {
            return Err(CoreFault::NoSuchSeat);
        }
        let at = self.seats[seat as usize];
        let phase = begun_phase(at, call)?;
        self.seats[seat as usize] = CoreSeat {
            held: at.held,
            phase,
        };
        Ok(())
    }

    /// Takes one atomic step of the open call of a seat.
    ///
    /// # Errors
    ///
    /// `NoSuchSeat`, `IdleSeat` or `Memory`, in this order. `Memory` is possible only at a step that leaves a mark; the
    /// seat's next step is then still the same.
    pub fn advance(&mut self, _alloc: Global, seat: u64) -> Result<Line, CoreFault>
        ensures ok { IfOk result (λ line. IsStep self.old seat line self.new) }
        ensures err { OnErr result (self.new ≡ self.old) }
        ensures many { length self.new.seats ≡ length self.old.seats }
        ensures fault { IfErr result (λ fault. (step_of self.old seat ≡ Err fault)
            ⊎ ((fault ≡ Memory) × LeavesMark (step_of self.old seat))) }
    {
        if seat >= self.seats.len() as u64 {
            return Err(CoreFault::NoSuchSeat);
        }
        let at = self.seats[seat as usize];
        let found = self.count;
        let Some(step) = next_move(self.bound, found, at) else {
            return Err(CoreFault::IdleSeat);
        };
        if let Err(fault) = keep_mark(&mut self.marks, seat, step.mark) {
            return Err(fault);
        }
        self.count = step.count;
        self.seats[seat as usize] = step.seat;
        Ok(Line {
            seat,
            step: step.step,
            found: found as i128,
            mark: line_mark(step.mark),
        })
    }
}
