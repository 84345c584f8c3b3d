//! Which ends of a lender are idle, and which callers wait for one. Other files can neither lose a lent end nor a notice: only this
//! file can take them apart.

ghost use Rattle.std.specs.Prelude.{◌≡◌, ◌≢◌, ◌↔◌, ◌+◌, ◌-◌, ◌^◌, IfOk, IsTrue, MatchOption, None, min};
ghost use Rattle.std.specs.Option.{ForSome};
ghost use Rattle.fak_channel.specs.Lending.{IsTaken, PutsOnTop, TakesTop, end_of};

use crate::end::End;
use std::alloc::{AllocError, Global};
use std::fmt;
use std::sync::Condvar;

/// An end that nobody uses, and those below it. The shelf is lent together with its end, so lending does not allocate.
#[derive(Drop)]
struct Shelf<'c, T> {
    end: End<'c, T>,
    below: Option<Box<Shelf<'c, T>>>,
}

/// A lent end. It cannot be dropped, only given back (`Lender::take_back`) or kept (`into_end`).
pub struct Loan<'c, T> {
    shelf: Box<Shelf<'c, T>>,
}

/// One caller that waits is to be notified, since an end was put aside. It cannot be dropped, only delivered.
pub(crate) struct Notice {
    _private: (),
}

/// What the lock of a lender guards. Nobody waits in vain: an end is idle only if an end was put aside for each caller that waits.
#[derive(Drop)]
pub(crate) struct Shelves<'c, T> {
    /// Ends that any caller may borrow.
    idle: Option<Box<Shelf<'c, T>>>,
    /// Ends that were put aside for callers that wait.
    aside: Option<Box<Shelf<'c, T>>>,
    /// How many callers wait, beyond those for whom an end was put aside.
    waiting: u64,
    ghost nobody_waits_beside_an_idle_end: { ForSome idle (λ _. waiting ≡ 0) },
}

/// Takes the top shelf off, if there is one.
fn take_off<'c, T: Drop>(shelves: &mut Option<Box<Shelf<'c, T>>>) -> Option<Loan<'c, T>>
    ensures taken { IsTaken shelves.old result }
    ensures top { TakesTop shelves.old shelves.new result }
    ensures none { result ≡ None → shelves.new ≡ None }
    ensures still_none { shelves.old ≡ None → shelves.new ≡ None }
{
    let mut shelf = shelves.take()?;
    *shelves = shelf.below.take();
    Some(Loan { shelf })
}

impl<'c, T: Drop> Loan<'c, T> {
    /// A loan of an end that no lender has had yet.
    ///
    /// # Errors
    ///
    /// `AllocError`, if memory runs out; the end is dropped.
    pub(crate) fn of(alloc: Global, end: End<'c, T>) -> Result<Loan<'c, T>, AllocError>
        ensures { IfOk result (λ loan. end_of loan ≡ end.entry) }
    {
        let shelf = Box::new(alloc, Shelf { end, below: None })?;
        Ok(Loan { shelf })
    }

    /// The lent end.
    pub fn end(&mut self) -> &mut End<'c, T> {
        &mut self.shelf.end
    }

    /// The end, which the lender does not get back. It calls by itself from now on; `end.channel` is its channel.
    pub fn into_end(self) -> End<'c, T>
        ensures { result ≡ end_of self.entry }
    {
        let Loan { shelf } = self;
        let Shelf { end, below: _ } = Box::into_inner(shelf);
        end
    }
}

impl Notice {
    /// Wakes a caller that waits.
    pub(crate) fn deliver(self, put_aside: &Condvar) {
        let Notice { _private: () } = self;
        put_aside.notify_one();
    }
}

impl<'c, T: Drop> Shelves<'c, T> {
    pub(crate) fn new() -> Shelves<'c, T>
        ensures { result.waiting ≡ 0 }
    {
        Shelves {
            idle: None,
            aside: None,
            waiting: 0,
        }
    }

    /// An idle end, if there is one. With none, the shelves stay as they were.
    pub(crate) fn take_idle(&mut self) -> Option<Loan<'c, T>>
        ensures waiting { self.new.waiting ≡ self.old.waiting }
        ensures aside { self.new.aside ≡ self.old.aside }
        ensures top { TakesTop self.old.idle self.new.idle result }
        ensures end { IsTaken self.old.idle result }
        ensures none { result ≡ None → self.new.idle ≡ None }
    {
        take_off(&mut self.idle)
    }

    /// Counts a caller that waits, up to 2^64 - 1 of them. It comes after `take_idle` has found no end.
    pub(crate) fn begin_to_wait(&mut self)
        requires { self.old.idle ≡ None }
        ensures waiting { self.new.waiting ≡ min (self.old.waiting + 1) (2 ^ 64 - 1) }
        ensures idle { self.new.idle ≡ self.old.idle }
        ensures aside { self.new.aside ≡ self.old.aside }
    {
        self.waiting = self.waiting.saturating_add(1);
    }

    /// Whether no end was put aside.
    pub(crate) fn has_none_aside(&self) -> bool
        ensures { IsTrue result ↔ (self.now.aside ≡ None) }
    {
        self.aside.is_none()
    }

    /// An end that was put aside, if there is one. A caller that waits takes it, and waits no longer.
    pub(crate) fn take_aside(&mut self) -> Option<Loan<'c, T>>
        ensures waiting { self.new.waiting ≡ self.old.waiting }
        ensures idle { self.new.idle ≡ self.old.idle }
        ensures top { TakesTop self.old.aside self.new.aside result }
        ensures end { IsTaken self.old.aside result }
    {
        take_off(&mut self.aside)
    }

    /// The end of a wait at its deadline: an end that was put aside, or none, and the caller waits no longer.
    pub(crate) fn stop_waiting(&mut self) -> Option<Loan<'c, T>>
        ensures end { IsTaken self.old.aside result }
        ensures idle { self.new.idle ≡ self.old.idle }
        ensures top { TakesTop self.old.aside self.new.aside result }
        ensures waiting { MatchOption result (self.new.waiting ≡ self.old.waiting - 1) (λ _. self.new.waiting ≡ self.old.waiting) }
    {
        let taken = take_off(&mut self.aside);
        if taken.is_none() {
            self.waiting = self.waiting.saturating_sub(1);
        }
        taken
    }

    /// Takes an end: it is put aside for a caller that waits, who is to be notified; or it is idle, if none waits.
    pub(crate) fn give(&mut self, loan: Loan<'c, T>) -> Option<Notice>
        ensures none { MatchOption result (self.old.waiting ≡ 0) (λ _. self.new.waiting + 1 ≡ self.old.waiting) }
        ensures kept { MatchOption result (self.new.idle ≢ None) (λ _. self.new.aside ≢ None) }
        ensures idle { MatchOption result (PutsOnTop loan.entry self.old.idle self.new.idle)
            (λ _. self.new.idle ≡ self.old.idle) }
        ensures aside { MatchOption result (self.new.aside ≡ self.old.aside)
            (λ _. PutsOnTop loan.entry self.old.aside self.new.aside) }
    {
        let Loan { mut shelf } = loan;
        if self.waiting == 0 {
            shelf.below = self.idle.take();
            self.idle = Some(shelf);
            return None;
        }
        self.waiting -= 1;
        shelf.below = self.aside.take();
        self.aside = Some(shelf);
        Some(Notice { _private: () })
    }
}

impl<'c, T> fmt::Debug for Loan<'c, T> {
    fn fmt<W: fmt::Write>(&self, f: &mut fmt::Formatter<W>) -> fmt::Result {
        f.debug_struct("Loan")
            .field("end", &self.shelf.end)
            .finish()
    }
}
