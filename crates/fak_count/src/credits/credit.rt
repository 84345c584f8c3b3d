//! A credit that threads share.

ghost use Rattle.std.specs.Prelude.{◌≡◌, IfOk, MatchResult};
ghost use Rattle.fak_model.specs.declared.credit.CreditKind.TheVariants.{Debit, Credit as Credited};
ghost use Rattle.fak_count.specs.Credits.{MakesCall, IsWorn, Observes};
ghost use Rattle.fak_count.specs.Seats.{IsSeatOf};
ghost use Rattle.fak_model.specs.Calls.{fresh_seats, IsJoined};
ghost use Rattle.fak_count.specs.Opening.{IsCount, IsInRange, IsOpenFault};
ghost use Rattle.fak_model.specs.Credit.{credit_rules};
ghost use Rattle.fak_model.specs.Limits.{IsInLargeRange, IsLargeFault};

use crate::credits::limits::CreditLimits;
use crate::credits::rule::{CreditRule, CreditView};
use crate::credits::seat::CreditSeat;
use crate::credits::steps::{credit, debit, hear, observe};
use crate::credits::tally::CreditTally;
use crate::fault::{OpenFault, Worn};
use crate::opening::{tested_large_limits, tested_limits};
use crate::words::{COUNT, WORDS};
use atomic_table::Table;
use fak_model::{BIAS, Both, Deal, LargeFault, count_of};
use std::alloc::{AllocError, Global};
use std::fmt;
use std::marker::{Brand, Model};

/// A count that debits lower and credits raise, each by 1 in one atomic step, with no test.
#[derive(Drop)]
pub struct Credit {
    pub(crate) table: Table<(), CreditView, CreditLimits, CreditRule, Global>,
}

impl Model for Credit {
    ghost use Rattle.std.specs.Prelude.{◌≡◌};
    ghost use Rattle.fak_model.specs.Calls.{object_id};
    ghost use Rattle.fak_count.specs.Credits.{CreditInfo, credit_info};
    ghost use Rattle.fak_count.specs.Words.{width};

    ghost Value = { CreditInfo };

    ghost view = { λ c. credit_info (object_id c.table.shared.table_id c.table.shared.key.seats)
        c.table.shared.key.start };

    ghost invariant = { λ c. c.table.shared.table_id.words ≡ width };
}

impl Credit {
    /// Opens a credit at `start`, with its seats. Each seat may perform `stint` calls, debits and credits together.
    ///
    /// `start` is 0 to 4,294,967,296, `seats` 1 to 64, `stint` 1 to 2^40.
    ///
    /// # Errors
    ///
    /// `BadSize`, `BadSeats`, `BadStint` or `Memory`, in this order.
    pub fn open(
        alloc: Global,
        start: u64,
        seats: u64,
        stint: u64,
    ) -> Result<(Credit, Vec<CreditSeat>), OpenFault>
        ensures { MatchResult result (λ r. IsInRange start seats stint × (r.0.start ≡ start)
            × (r.0.object.seats ≡ seats)
            × (r.1.items ≡ fresh_seats r.0.object stint 0 seats)) (IsOpenFault start seats stint) }
    {
        if let Err(fault) = tested_limits(start, seats, stint) {
            return Err(fault);
        }
        match Credit::with_limits(alloc, start, seats, stint) {
            Ok(opened) => Ok(opened),
            Err(AllocError) => Err(OpenFault::Memory),
        }
    }

    /// Opens a large credit: the same credit, with the same calls, but more seats.
    ///
    /// `start` is 0 to 4,294,967,296, and `seats` 1 to `LARGE_SEATS`. `stint` is at least 1, and `seats` times `stint`
    /// at most `LARGE_TICKETS`.
    ///
    /// # Errors
    ///
    /// `BadSize`, `BadSeats`, `BadStint` or `Memory`, in this order.
    pub fn open_large(
        alloc: Global,
        start: u64,
        seats: u64,
        stint: u64,
    ) -> Result<(Credit, Vec<CreditSeat>), LargeFault>
        ensures { MatchResult result (λ r. IsInLargeRange (IsCount start) seats stint × (r.0.start ≡ start)
            × (r.0.object.seats ≡ seats)
            × (r.1.items ≡ fresh_seats r.0.object stint 0 seats)) (IsLargeFault (IsCount start) seats stint) }
    {
        if let Err(fault) = tested_large_limits(start, seats, stint) {
            return Err(fault);
        }
        match Credit::with_limits(alloc, start, seats, stint) {
            Ok(opened) => Ok(opened),
            Err(AllocError) => Err(LargeFault::Memory),
        }
    }

    /// A credit with its seats; the caller has tested the limits.
    fn with_limits(
        alloc: Global,
        start: u64,
        seats: u64,
        stint: u64,
    ) -> Result<(Credit, Vec<CreditSeat>), AllocError>
        requires { IsInLargeRange (IsCount start) seats stint }
        ensures { IfOk result (λ r. (r.0.start ≡ start) × (r.0.object.seats ≡ seats)
            × (r.1.items ≡ fresh_seats r.0.object stint 0 seats)) }
    {
        let mut words = [0; WORDS];
        words[COUNT] = BIAS + start;
        let key = CreditLimits {
            start,
            seats,
            stint,
        };
        let Ok((table, mut rest)) = Table::of_words(alloc, &words, &key) else {
            return Err(AllocError);
        };
        let Ok(mut dealt) = Vec::with_capacity(alloc, seats as usize) else {
            return Err(AllocError);
        };
        for name in 0..seats {
            let seat = CreditSeat {
                token: table.shared.split_seat::<Deal>(&mut rest),
                name,
                seats,
                left: stint,
            };
            if dealt.push(seat).is_err() {
                return Err(AllocError);
            }
        }
        Ok((Credit { table }, dealt))
    }

    /// Subtracts 1, and returns the value before.
    ///
    /// # Errors
    ///
    /// `Worn`, if the seat's stint is used up.
    pub fn debit(&self, seat: &mut CreditSeat) -> Result<i64, Worn>
        requires object { IsSeatOf self.now.object seat.old }
        ensures object { seat.new.object ≡ seat.old.object }
        ensures call { MatchResult result (MakesCall Debit self.now seat.old seat.new) (λ _. IsWorn seat.old seat.new) }
    {
        if seat.left == 0 {
            return Err(Worn);
        }
        let found = debit::<Brand>(&self.table.shared, &mut seat.token);
        seat.left -= 1;
        Ok(count_of(found))
    }

    /// Adds 1, and returns the value before.
    ///
    /// # Errors
    ///
    /// `Worn`, if the seat's stint is used up.
    pub fn credit(&self, seat: &mut CreditSeat) -> Result<i64, Worn>
        requires object { IsSeatOf self.now.object seat.old }
        ensures object { seat.new.object ≡ seat.old.object }
        ensures call { MatchResult result (MakesCall Credited self.now seat.old seat.new)
            (λ _. IsWorn seat.old seat.new) }
    {
        if seat.left == 0 {
            return Err(Worn);
        }
        let found = credit::<Brand>(&self.table.shared, &mut seat.token);
        seat.left -= 1;
        Ok(count_of(found))
    }

    /// Loads the value.
    pub fn value(&self, seat: &mut CreditSeat) -> i64
        requires object { IsSeatOf self.now.object seat.old }
        ensures object { seat.new.object ≡ seat.old.object }
        ensures call { Observes self.now seat.old seat.new result }
    {
        let found = observe::<Brand>(&self.table.shared, &mut seat.token);
        count_of(found)
    }

    /// The tally with this seat added.
    pub fn join(&self, tally: CreditTally, seat: CreditSeat) -> CreditTally
        requires object { (tally.object ≡ self.now.object) × IsSeatOf self.now.object seat }
        ensures joined { IsJoined credit_rules tally seat result }
        ensures object { result.object ≡ self.now.object }
    {
        let CreditTally {
            mut token,
            mut names,
            seats,
        } = tally;
        let CreditSeat {
            token: other,
            name,
            seats: _,
            left: _,
        } = seat;
        self.table.shared.join_seat::<Both>(&mut token, other);
        hear::<Brand>(&self.table.shared, &mut token);
        names.insert(name);
        CreditTally {
            token,
            names,
            seats,
        }
    }
}

impl fmt::Debug for Credit {
    fn fmt<W: fmt::Write>(&self, f: &mut fmt::Formatter<W>) -> fmt::Result {
        f.debug_struct("Credit").finish_non_exhaustive()
    }
}
