//! The parts, run one after the other.

use crate::bursts::burst_part;
use crate::channels::channel_part;
use crate::counts::{credit_part, room_part};
use crate::crew::{Crew, PAIRS};
use crate::fault::Fault;
use crate::files::file_part;
use crate::queues::{alone_part, queue_part};
use crate::semaphores::semaphore_part;
use crate::shuts::shut_part;
use std::alloc::Global;
use std::sync::Wait;
use std::thread::{Threads, map_vec};

/// What a part needs: threads that may wait.
pub trait Machine: Threads + Wait + Sync {}

impl<R: Threads + Wait + Sync> Machine for R {}

/// What one thread does in a part.
pub trait Job: Send + Drop {
    /// Does it, and reports what it saw to the crew.
    fn work<R: Wait>(&mut self, rt: &R, crew: &Crew);
}

/// Does all jobs at once, each in a thread of its own.
pub fn run_all<R: Machine, J: Job>(rt: &R, crew: &Crew, jobs: Vec<J>) -> Result<(), Fault> {
    let part = move |mut job: J| -> bool {
        let is_met = crew.meet().is_some();
        if is_met {
            job.work(rt, crew);
        }
        is_met
    };
    match map_vec(rt, jobs, &part) {
        Ok(_) => Ok(()),
        Err(_) => Err(Fault::Memory),
    }
}

/// A part.
#[derive(Clone, Copy, Debug, Drop)]
enum Part {
    /// Items through a queue of this many cells, by one thread.
    Alone(u64),
    /// Items through a queue of this many cells, by all threads.
    Queue(u64),
    /// Items through a queue of this many cells by bursts, by all threads.
    Bursts(u64),
    /// Items through a channel of this many cells.
    Channel(u64),
    /// Queues that are shut.
    Shut,
    /// A semaphore with this many cells for the items that wait.
    Semaphore(u64),
    Room,
    Credit,
    Files,
}

/// A part, and its number of calls in a round. A small queue has few calls, since its threads wait for one another more often.
type Row = (Part, u64);

const ROWS: &[Row] = &[
    (Part::Alone(1), 1000),
    (Part::Queue(1), 1),
    (Part::Queue(2), 2),
    (Part::Queue(7), 7),
    (Part::Queue(64), 64),
    (Part::Queue(1024), 1024),
    (Part::Bursts(3), 3),
    (Part::Bursts(64), 64),
    (Part::Bursts(1024), 1024),
    (Part::Channel(1), 1),
    (Part::Channel(64), 64),
    (Part::Channel(1024), 1024),
    (Part::Shut, 5),
    (Part::Semaphore(2), 2),
    (Part::Semaphore(64), 64),
    (Part::Semaphore(1024), 1024),
    (Part::Room, 1000),
    (Part::Credit, 1000),
    (Part::Files, 200),
];

/// Runs a part with this many calls.
fn run<R: Machine>(rt: &R, alloc: Global, part: Part, calls: u64) -> Result<(), Fault> {
    match part {
        Part::Alone(size) => alone_part(rt, alloc, size, calls),
        Part::Queue(size) => queue_part(rt, alloc, size, calls / PAIRS),
        Part::Bursts(size) => burst_part(rt, alloc, size, calls / PAIRS),
        Part::Channel(size) => channel_part(rt, alloc, size, calls / PAIRS),
        Part::Shut => shut_part(rt, alloc, calls),
        Part::Semaphore(size) => semaphore_part(rt, alloc, size, calls / PAIRS),
        Part::Room => room_part(rt, alloc, calls),
        Part::Credit => credit_part(rt, alloc, calls),
        Part::Files => file_part(rt, alloc, calls),
    }
}

/// Runs this many rounds of each part, and prints a line for each part if asked to. Returns the number of parts.
pub fn run_parts<R: Machine + Print>(
    rt: &R,
    alloc: Global,
    rounds: u64,
    prints: bool,
) -> Result<usize, Fault> {
    for (part, calls_of_round) in ROWS {
        let calls = rounds.saturating_mul(*calls_of_round);
        run(rt, alloc, *part, calls)?;
        if prints {
            println!(rt; "{part:?}: {calls}")?;
        }
    }
    Ok(ROWS.len())
}
