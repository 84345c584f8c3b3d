//! The cases whose single calls are timed: pairs of a producer and a consumer at one queue.

ghost use Rattle.std.specs.Prelude.{◌<◌};
ghost use Rattle.bench_objects.specs.Seats.{AreIdleSeats};

use crate::attempts::{Attempts, Manner, NoQueue, SeatAttempts};
use crate::fault::Fault;
use crate::queue_handle::{Row, SeatQueue, SharedQueue, shared_handles};
use crate::queues::part_of;
use crate::run::{Machine, numbers_below, run_all};
use crate::tail::{Tail, tail_of};
use crate::timing::Timing;
use crossbeam_queue::ArrayQueue;
use fak_queue::{LONGEST_STINT, Queue, Seat};
use std::alloc::{AllocError, Global};
use std::sync::Mutex;

/// Whose calls are timed.
#[derive(Clone, Copy)]
pub enum Caller {
    /// A seat of this repository's queue, with pauses in its calls or without.
    Seat { manner: Manner, pauses: bool },
    /// A user of the kit's queue by compare-and-swap.
    Ring,
    /// A user of a row under a lock.
    Lock,
    /// Nobody: only the clock, by one pair.
    Clock,
}

/// Calls at a queue of this many cells, by this many pairs of threads.
#[derive(Clone, Copy)]
pub struct TailCase {
    pub caller: Caller,
    pub size: u64,
    pub pairs: u64,
    ghost some: { 0 < size },
}

/// A handle for each seat, which calls in this manner.
fn seat_attempts<'q>(
    alloc: Global,
    queue: &'q Queue<u64>,
    mut seats: Vec<Seat<u64>>,
    manner: Manner,
    pauses: bool,
) -> Result<Vec<SeatAttempts<'q>>, AllocError>
    requires { AreIdleSeats queue.now.object seats.items }
{
    let mut handles = Vec::new(alloc);
    while let Some(mut seat) = seats.pop() {
        seat.set_pauses_in_calls(pauses);
        let handle = SeatQueue { alloc, queue, seat };
        handles.push(SeatAttempts { handle, manner })?;
    }
    Ok(handles)
}

/// What each thread does.
fn timings_of<'t, P: Attempts>(
    alloc: Global,
    mut handles: Vec<P>,
    pairs: u64,
    items: u64,
    all: &'t Mutex<Vec<u64>>,
) -> Result<Vec<Timing<'t, P>>, AllocError> {
    let mut jobs = Vec::new(alloc);
    let mut number = 0u64;
    while let Some(handle) = handles.pop() {
        jobs.push(Timing {
            handle,
            workload: part_of(number, pairs, items),
            times: Vec::with_capacity(alloc, items as usize)?,
            all,
        })?;
        number = number.wrapping_add(1);
    }
    Ok(jobs)
}

impl TailCase {
    /// How many threads there are.
    fn threads(&self) -> u64 {
        self.pairs.saturating_mul(2)
    }

    /// One run over these handles: the tail of the times of all calls.
    fn over<R: Machine, P: Attempts + Send>(
        &self,
        rt: &R,
        alloc: Global,
        handles: Vec<P>,
        items: u64,
    ) -> Result<Option<Tail>, Fault> {
        let calls = self.threads().saturating_mul(items) as usize;
        let all = Mutex::new(Vec::with_capacity(alloc, calls)?);
        let jobs = timings_of(alloc, handles, self.pairs, items, &all)?;
        run_all(rt, jobs, numbers_below(self.pairs.saturating_mul(items)))?;
        let times = all.into_inner();
        if times.len() != calls {
            return Err(Fault::Memory);
        }
        Ok(tail_of(times)?)
    }

    fn by_seats<R: Machine>(
        &self,
        rt: &R,
        alloc: Global,
        items: u64,
        manner: Manner,
        pauses: bool,
    ) -> Result<Option<Tail>, Fault> {
        let Ok((queue, seats)) = Queue::<u64>::open(alloc, self.size, self.threads(), LONGEST_STINT)
        else {
            return Err(Fault::Memory);
        };
        let handles = seat_attempts(alloc, &queue, seats, manner, pauses)?;
        self.over(rt, alloc, handles, items)
    }

    fn by_shared<Q: SharedQueue<Item = u64>, R: Machine>(
        &self,
        rt: &R,
        alloc: Global,
        items: u64,
    ) -> Result<Option<Tail>, Fault> {
        let queue = Q::open(alloc, self.size as usize)?;
        let handles = shared_handles(alloc, &queue, self.threads())?;
        self.over(rt, alloc, handles, items)
    }

    fn by_clock<R: Machine>(
        &self,
        rt: &R,
        alloc: Global,
        items: u64,
    ) -> Result<Option<Tail>, Fault> {
        if self.pairs != 1 {
            return Ok(None);
        }
        let mut handles = Vec::new(alloc);
        for _ in 0..self.threads() {
            handles.push(NoQueue { next: 0 })?;
        }
        self.over(rt, alloc, handles, items)
    }

    /// Runs it once, and returns the percentiles of the times of all calls; `None` for the clock of several pairs.
    pub fn once<R: Machine>(
        &self,
        rt: &R,
        alloc: Global,
        items: u64,
    ) -> Result<Option<Tail>, Fault> {
        match self.caller {
            Caller::Seat { manner, pauses } => self.by_seats(rt, alloc, items, manner, pauses),
            Caller::Ring => self.by_shared::<ArrayQueue<u64>, R>(rt, alloc, items),
            Caller::Lock => self.by_shared::<Mutex<Row<u64>>, R>(rt, alloc, items),
            Caller::Clock => self.by_clock(rt, alloc, items),
        }
    }
}
