//! A run: several threads, each with a job, that begin at once.

ghost use Rattle.std.specs.Prelude.{◌≡◌, ◌-◌, ◌*◌, ◌/◌, ◌^◌, ◌<◌, IfOk};

use crate::fault::Fault;
use std::alloc::Global;
use std::sync::Wait;
use std::sync::atomic::{AtomicU64, Ordering};
use std::thread;
use std::thread::{Threads, map_vec};
use std::time::{Clock, Instant};

/// What came out: how many numbers, and their sum.
#[derive(Clone, Copy, PartialEq, Drop)]
pub struct Passed {
    pub count: u64,
    pub sum: u64,
}

impl Passed {
    /// Nothing.
    pub const NONE: Passed = Passed { count: 0, sum: 0 };

    /// With one more number.
    pub fn with(self, number: u64) -> Passed {
        Passed {
            count: self.count.wrapping_add(1),
            sum: self.sum.wrapping_add(number),
        }
    }

    /// Both together.
    pub fn and(self, other: Passed) -> Passed {
        Passed {
            count: self.count.wrapping_add(other.count),
            sum: self.sum.wrapping_add(other.sum),
        }
    }
}

/// The numbers below this one, each once.
pub fn numbers_below(end: u64) -> Passed
    ensures count { result.count ≡ end }
    ensures sum { end < 2 ^ 32 → result.sum ≡ end * (end - 1) / 2 }
{
    Passed {
        count: end,
        sum: end.saturating_mul(end.saturating_sub(1)) / 2,
    }
}

/// What a run takes: threads that may wait, and a clock that they share.
pub trait Machine: Threads + Wait + Clock + Sync {}

impl<R: Threads + Wait + Clock + Sync> Machine for R {}

/// What one thread does in a run.
pub trait Job: Send + Drop {
    /// Does it, and returns what came out.
    fn work<R: Wait + Clock>(&mut self, rt: &R) -> Passed;
}

/// One thread's part of a run.
#[derive(Clone, Copy, Drop)]
struct Lap {
    begun: Instant,
    ended: Instant,
    passed: Passed,
}

/// What is added to the number of threads that have come by one that gave up.
const GIVEN_UP: u64 = 1 << 32;

/// How often a thread looks for the others before it gives up.
const LOOKS: u64 = 100_000_000;

/// Waits until this many threads have come. Returns whether all did.
fn meet(come: &AtomicU64, threads: u64) -> bool {
    come.fetch_add(1, Ordering::SeqCst);
    for _ in 0..LOOKS {
        let seen = come.load(Ordering::SeqCst);
        if seen >= GIVEN_UP {
            return false;
        }
        if seen >= threads {
            return true;
        }
        thread::yield_now();
    }
    come.fetch_add(GIVEN_UP, Ordering::SeqCst);
    false
}

/// One thread's part: it meets the others, and works.
fn timed<R: Wait + Clock, J: Job>(
    rt: &R,
    come: &AtomicU64,
    threads: u64,
    job: &mut J,
) -> Result<Lap, Fault> {
    if !meet(come, threads) {
        return Err(Fault::Threads);
    }
    let Ok(begun) = Instant::now(rt) else {
        return Err(Fault::Clock);
    };
    let passed = job.work(rt);
    let Ok(ended) = Instant::now(rt) else {
        return Err(Fault::Clock);
    };
    Ok(Lap {
        begun,
        ended,
        passed,
    })
}

/// The run of these parts: from the first begin to the last end.
fn whole(laps: &[Result<Lap, Fault>]) -> Result<Lap, Fault> {
    let Some((first, others)) = laps.split_last() else {
        return Err(Fault::Lost);
    };
    let mut all = (*first)?;
    for lap in others {
        let lap = (*lap)?;
        all = Lap {
            begun: all.begun.min(lap.begun),
            ended: all.ended.max(lap.ended),
            passed: all.passed.and(lap.passed),
        };
    }
    Ok(all)
}

/// The time of a run, if exactly what is expected came out.
fn nanos_of(lap: Lap, expected: Passed) -> Result<u64, Fault>
    ensures { IfOk result (λ _. lap.passed ≡ expected) }
{
    if lap.passed != expected {
        return Err(Fault::Lost);
    }
    match u64::try_from(lap.ended.duration_since(lap.begun).as_nanos()) {
        Ok(nanos) => Ok(nanos),
        Err(_) => Err(Fault::Clock),
    }
}

/// Does all jobs, each in a thread of its own, and returns the nanoseconds that they took together. `Lost` if another
/// count or sum than expected comes out.
pub fn run_all<R: Machine, J: Job>(rt: &R, jobs: Vec<J>, expected: Passed) -> Result<u64, Fault> {
    let threads = jobs.len() as u64;
    let come = AtomicU64::new(0);
    let here = &come;
    let part = move |mut job: J| -> Result<Lap, Fault> { timed(rt, here, threads, &mut job) };
    let laps = map_vec(rt, jobs, &part)?;
    nanos_of(whole(laps.as_slice())?, expected)
}

/// Does this job in a thread of its own, and returns as `run_all` does.
pub fn run_one<R: Machine, J: Job>(
    rt: &R,
    alloc: Global,
    job: J,
    expected: Passed,
) -> Result<u64, Fault> {
    let mut jobs = Vec::new(alloc);
    jobs.push(job)?;
    run_all(rt, jobs, expected)
}
