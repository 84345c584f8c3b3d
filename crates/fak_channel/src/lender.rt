//! A lender of ends, for threads that have none.

ghost use Rattle.std.specs.Prelude.{IfOk, IsOk, MatchResult};
ghost use Rattle.fak_channel.specs.Lending.{BusyOrRefusesReceive, BusyOrRefusesSend, SomeEndCloses};
ghost use Rattle.fak_channel.specs.Lending.{SomeEndReceives, SomeEndReceivesAtOnce, SomeEndRefusesReceive};
ghost use Rattle.fak_channel.specs.Lending.{SomeEndRefusesSend, SomeEndSends, SomeEndSendsAtOnce};

use crate::end::End;
use crate::fault::{ChannelWorn, ReceiveFault, SendFault};
use crate::lender_fault::{LenderReceiveFault, LenderSendFault};
use crate::parker::time_left;
use crate::shelves::{Loan, Shelves};
use std::alloc::{AllocError, Global};
use std::fmt;
use std::sync::{Condvar, Mutex, Wait};
use std::time::{Clock, Instant};

/// Lends ends of channels, each to one borrower at a time. While all ends are lent, a borrower sleeps, and a try fails.
///
/// A call that sleeps keeps its end. So use one lender for the ends of senders and another for those of receivers.
/// Otherwise sleeping receivers may have all ends, and no sender gets one.
///
/// `send` and its like borrow an end, perform the call of that end, and give it back. Their clauses cannot name the end, so they
/// say little. To prove what a call did, borrow the end (`lend`) and cite the call of the end.
#[derive(Drop)]
pub struct Lender<'c, T> {
    shelves: Mutex<Shelves<'c, T>>,
    put_aside: Condvar,
}

impl<'c, T: Drop> Lender<'c, T> {
    /// A lender that has no end yet.
    pub fn new() -> Lender<'c, T> {
        Lender {
            shelves: Mutex::new(Shelves::new()),
            put_aside: Condvar::new(),
        }
    }

    /// Gives the lender an end.
    ///
    /// # Errors
    ///
    /// `AllocError`, if memory runs out; the end is dropped.
    pub fn add<R: Wait>(&self, rt: &R, alloc: Global, end: End<'c, T>) -> Result<(), AllocError> {
        let loan = Loan::of(alloc, end)?;
        self.take_back(rt, loan);
        Ok(())
    }

    /// Lends an end. The thread sleeps while all ends are lent.
    pub fn lend<R: Wait>(&self, rt: &R) -> Loan<'c, T> {
        let mut shelves = self.shelves.lock(rt);
        if let Some(loan) = shelves.take_idle() {
            return loan;
        }
        shelves.begin_to_wait();
        for _ in rt.forever() {
            shelves = self
                .put_aside
                .wait_while(rt, shelves, |shelves| shelves.has_none_aside());
            if let Some(loan) = shelves.take_aside() {
                return loan;
            }
        }
        unreachable!()
    }

    /// Lends an end, unless all ends are lent. The thread does not sleep for an end.
    pub fn try_lend<R: Wait>(&self, rt: &R) -> Option<Loan<'c, T>> {
        self.shelves.lock(rt).take_idle()
    }

    /// Lends an end. The thread sleeps while all ends are lent, until the deadline at most. A clock that cannot be read ends the
    /// wait.
    pub fn lend_deadline<R: Wait + Clock>(&self, rt: &R, deadline: Instant) -> Option<Loan<'c, T>> {
        let mut shelves = self.shelves.lock(rt);
        if let Some(loan) = shelves.take_idle() {
            return Some(loan);
        }
        shelves.begin_to_wait();
        let left = time_left(rt, deadline);
        let (mut shelves, _) = self
            .put_aside
            .wait_timeout_while(rt, shelves, left, |shelves| shelves.has_none_aside());
        shelves.stop_waiting()
    }

    /// Takes back an end that was lent, and wakes a borrower that waits for one.
    pub fn take_back<R: Wait>(&self, rt: &R, loan: Loan<'c, T>) {
        let notice = self.shelves.lock(rt).give(loan);
        if let Some(notice) = notice {
            notice.deliver(&self.put_aside);
        }
    }

    /// Sends the item by a borrowed end.
    ///
    /// # Errors
    ///
    /// As `End::send`; the item comes back.
    pub fn send<R: Wait>(&self, rt: &R, item: T) -> Result<(), SendFault<T>>
        ensures { MatchResult result (λ _. SomeEndSends item) (SomeEndRefusesSend item) }
    {
        let mut loan = self.lend(rt);
        let sent = loan.end().send(rt, item);
        self.take_back(rt, loan);
        sent
    }

    /// Sends the item by a borrowed end, if an end is not lent and there is a free cell. The thread does not sleep.
    ///
    /// # Errors
    ///
    /// `Busy`, if all ends are lent; otherwise `Refused` with the fault of `End::try_send`. The item comes back.
    pub fn try_send<R: Wait>(&self, rt: &R, item: T) -> Result<(), LenderSendFault<T>>
        ensures { MatchResult result (λ _. SomeEndSendsAtOnce item) (BusyOrRefusesSend item) }
    {
        let Some(mut loan) = self.try_lend(rt) else {
            return Err(LenderSendFault::Busy { item });
        };
        let sent = loan.end().try_send(rt, item);
        self.take_back(rt, loan);
        match sent {
            Ok(()) => Ok(()),
            Err(fault) => Err(LenderSendFault::Refused { fault }),
        }
    }

    /// Receives the oldest item by a borrowed end.
    ///
    /// # Errors
    ///
    /// As `End::receive`.
    pub fn receive<R: Wait>(&self, rt: &R) -> Result<T, ReceiveFault>
        ensures { MatchResult result SomeEndReceives (SomeEndRefusesReceive T) }
    {
        let mut loan = self.lend(rt);
        let received = loan.end().receive(rt);
        self.take_back(rt, loan);
        received
    }

    /// Receives the oldest item by a borrowed end, if an end is not lent and there is an item. The thread does not sleep.
    ///
    /// # Errors
    ///
    /// `Busy`, if all ends are lent; otherwise `Refused` with the fault of `End::try_receive`.
    pub fn try_receive<R: Wait>(&self, rt: &R) -> Result<T, LenderReceiveFault>
        ensures { MatchResult result SomeEndReceivesAtOnce (BusyOrRefusesReceive T) }
    {
        let Some(mut loan) = self.try_lend(rt) else {
            return Err(LenderReceiveFault::Busy);
        };
        let received = loan.end().try_receive(rt);
        self.take_back(rt, loan);
        match received {
            Ok(item) => Ok(item),
            Err(fault) => Err(LenderReceiveFault::Refused { fault }),
        }
    }

    /// Closes the channel by a borrowed end. Returns whether the channel was open before.
    ///
    /// # Errors
    ///
    /// As `End::close`.
    pub fn close<R: Wait>(&self, rt: &R) -> Result<bool, ChannelWorn>
        ensures call { IfOk result (SomeEndCloses T) }
        ensures never_fails { IsOk result }
    {
        let mut loan = self.lend(rt);
        let closed = loan.end().close(rt);
        self.take_back(rt, loan);
        closed
    }
}

impl<'c, T> fmt::Debug for Lender<'c, T> {
    fn fmt<W: fmt::Write>(&self, f: &mut fmt::Formatter<W>) -> fmt::Result {
        f.debug_struct("Lender").finish_non_exhaustive()
    }
}
