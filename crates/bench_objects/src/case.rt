//! Cases that are measured, in rounds.

use crate::channels::ChannelCase;
use crate::fault::Fault;
use crate::handover::SemaphoreCase;
use crate::queues::QueueCase;
use crate::run::Machine;
use crate::spread::{Spread, spread_of};
use crate::visits::TableCase;
use std::alloc::{AllocError, Global};

/// How much is measured.
#[derive(Clone, Copy)]
pub struct Plan {
    /// How often each case is run.
    pub rounds: u64,
    /// The items of each producer in a run, or the calls of each thread.
    pub items: u64,
    /// Whether single calls are timed.
    pub tails: bool,
}

/// One thing that is measured.
#[derive(Clone, Copy)]
pub enum Case {
    Queue(QueueCase),
    Semaphore(SemaphoreCase),
    Table(TableCase),
    Channel(ChannelCase),
}

impl Case {
    /// Runs it once, and returns the nanoseconds for each item or call.
    fn once<R: Machine>(&self, rt: &R, alloc: Global, items: u64) -> Result<u64, Fault> {
        match self {
            Case::Queue(case) => case.once(rt, alloc, items),
            Case::Semaphore(case) => case.once(rt, alloc, items),
            Case::Table(case) => case.once(rt, alloc, items),
            Case::Channel(case) => case.once(rt, alloc, items),
        }
    }
}

/// Runs each case once, and adds their times to the list.
fn round<R: Machine>(
    rt: &R,
    alloc: Global,
    cases: &[Case],
    items: u64,
    times: &mut Vec<u64>,
) -> Result<(), Fault> {
    for case in cases {
        times.push(case.once(rt, alloc, items)?)?;
    }
    Ok(())
}

/// The spread of the times at this place of each round, if a round has this many.
fn spread_at(
    alloc: Global,
    times: &[u64],
    place: usize,
    width: usize,
) -> Result<Option<Spread>, AllocError> {
    let mut list = Vec::new(alloc);
    for round in times.chunks(width.max(1)) {
        if let Some(nanos) = round.get(place) {
            list.push(*nanos)?;
        }
    }
    spread_of(list)
}

/// The spread of each place.
fn spreads_in(
    alloc: Global,
    times: &[u64],
    width: usize,
) -> Result<Vec<Option<Spread>>, AllocError> {
    let mut spreads = Vec::new(alloc);
    for place in 0..width {
        spreads.push(spread_at(alloc, times, place, width)?)?;
    }
    Ok(spreads)
}

/// The times of all cases, in the same order. Each round has each case once, so that other load on the machine affects all of
/// them alike.
pub fn spreads_of<R: Machine>(
    rt: &R,
    alloc: Global,
    cases: &[Case],
    plan: Plan,
) -> Result<Vec<Option<Spread>>, Fault> {
    let mut times = Vec::new(alloc);
    for _ in 0..plan.rounds {
        round(rt, alloc, cases, plan.items, &mut times)?;
    }
    Ok(spreads_in(alloc, times.as_slice(), cases.len())?)
}
