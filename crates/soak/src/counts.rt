//! The parts of rooms and credits.

ghost use Rattle.std.specs.Prelude.{◌≤◌, IfOk};
ghost use Rattle.fak_count.specs.Seats.{IsSeatOf};
ghost use Rattle.soak.specs.Seats.{AreCountsOf};

use crate::crew::{Crew, THREADS};
use crate::fault::Fault;
use crate::parts::{Job, Machine, run_all};
use fak_count::{Credit, CreditSeat, LONGEST_STINT, Room, RoomSeat};
use std::alloc::{AllocError, Global};
use std::sync::Wait;
use std::sync::atomic::{AtomicU64, Ordering};

/// The bound of the room.
const BOUND: u64 = 5;

/// The start of the credit.
const START: u64 = 7;

/// A thread that enters a room and leaves it, this many times.
#[derive(Drop)]
struct Visitor<'r> {
    room: &'r Room,
    seat: RoomSeat,
    inside: &'r AtomicU64,
    calls: u64,
    ghost same: { IsSeatOf room.now.object seat },
}

impl<'r> Visitor<'r> {
    /// Enters with this many, counts how many are inside, and leaves. Returns whether they were within the bound.
    fn visit(&mut self, d: u64) -> bool
        requires { (1 ≤ d) × (d ≤ 1024) }
    {
        if self.room.tir(&mut self.seat, d).is_err() {
            return true;
        }
        let before = self.inside.fetch_add(d, Ordering::SeqCst);
        let fits = before <= BOUND && before.wrapping_add(d) <= BOUND;
        self.inside.fetch_sub(d, Ordering::SeqCst);
        self.room.release(&mut self.seat, d);
        fits
    }
}

impl<'r> Job for Visitor<'r> {
    fn work<R: Wait>(&mut self, _rt: &R, crew: &Crew) {
        let mut all_fit = true;
        for number in 0..self.calls {
            all_fit &= self.visit(number % 3 + 1);
        }
        crew.expect(all_fit);
    }
}

/// An open room with its seats.
fn open_room(alloc: Global) -> Result<(Room, Vec<RoomSeat>), Fault>
    ensures { IfOk result (λ r. AreCountsOf r.0.object r.1.items) }
{
    let Ok((room, seats)) = Room::open(alloc, BOUND, THREADS + 1, LONGEST_STINT) else {
        return Err(Fault::Memory);
    };
    Ok((room, seats))
}

/// A visitor for each seat.
fn visitors<'r>(
    alloc: Global,
    room: &'r Room,
    mut seats: Vec<RoomSeat>,
    inside: &'r AtomicU64,
    calls: u64,
) -> Result<Vec<Visitor<'r>>, AllocError>
    requires { AreCountsOf room.now.object seats.items }
{
    let mut jobs = Vec::new(alloc);
    while let Some(seat) = seats.pop() {
        jobs.push(Visitor {
            room,
            seat,
            inside,
            calls,
        })?;
    }
    Ok(jobs)
}

/// Threads that perform this many calls each on a room. At the end its whole bound is free.
pub fn room_part<R: Machine>(rt: &R, alloc: Global, calls: u64) -> Result<(), Fault> {
    let (room, mut seats) = open_room(alloc)?;
    let Some(mut last) = seats.pop() else {
        return Err(Fault::Room);
    };
    let crew = Crew::new();
    let inside = AtomicU64::new(0);
    run_all(rt, &crew, visitors(alloc, &room, seats, &inside, calls)?)?;
    crew.expect(room.tir(&mut last, BOUND) == Ok(0));
    crew.verdict(0, Fault::Room)
}

/// A thread that performs this many debits, and one credit more.
#[derive(Drop)]
struct Spender<'c> {
    account: &'c Credit,
    seat: CreditSeat,
    calls: u64,
    ghost same: { IsSeatOf account.now.object seat },
}

impl<'c> Spender<'c> {
    /// Performs one credit. Returns whether it succeeded.
    fn earn(&mut self) -> bool {
        self.account.credit(&mut self.seat).is_ok()
    }

    /// Performs one debit. Returns whether it succeeded.
    fn spend(&mut self) -> bool {
        self.account.debit(&mut self.seat).is_ok()
    }
}

impl<'c> Job for Spender<'c> {
    fn work<R: Wait>(&mut self, _rt: &R, crew: &Crew) {
        let mut are_made = self.earn();
        for _ in 0..self.calls {
            are_made &= self.spend();
            are_made &= self.earn();
        }
        crew.expect(are_made);
    }
}

/// An open credit with its seats.
fn open_credit(alloc: Global) -> Result<(Credit, Vec<CreditSeat>), Fault>
    ensures { IfOk result (λ r. AreCountsOf r.0.object r.1.items) }
{
    let Ok((account, seats)) = Credit::open(alloc, START, THREADS + 1, LONGEST_STINT) else {
        return Err(Fault::Memory);
    };
    Ok((account, seats))
}

/// A spender for each seat.
fn spenders<'c>(
    alloc: Global,
    account: &'c Credit,
    mut seats: Vec<CreditSeat>,
    calls: u64,
) -> Result<Vec<Spender<'c>>, AllocError>
    requires { AreCountsOf account.now.object seats.items }
{
    let mut jobs = Vec::new(alloc);
    while let Some(seat) = seats.pop() {
        jobs.push(Spender {
            account,
            seat,
            calls,
        })?;
    }
    Ok(jobs)
}

/// Threads that perform this many debits each on a credit, and one credit more. At the end its value is higher by the
/// number of threads.
pub fn credit_part<R: Machine>(rt: &R, alloc: Global, calls: u64) -> Result<(), Fault> {
    let (account, mut seats) = open_credit(alloc)?;
    let Some(mut last) = seats.pop() else {
        return Err(Fault::Credit);
    };
    let crew = Crew::new();
    run_all(rt, &crew, spenders(alloc, &account, seats, calls)?)?;
    crew.expect(account.value(&mut last) == (START + THREADS) as i64);
    crew.verdict(0, Fault::Credit)
}
