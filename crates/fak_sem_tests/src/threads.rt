//! Downs and ups at once.

ghost use Rattle.std.specs.Prelude.{◌≡◌, All};

use super::bounded::{down_by_steps, up_by_steps};
use super::steps::{joined, leaves_nothing, open};
use fak_sem::{SemSeat, Semaphore};
use std::alloc::Global;
use std::process::Abort;
use std::sync::atomic::{AtomicUsize, Ordering};
use std::sync::{Mutex, Wait};
use std::thread::{Threads, map_vec};

/// The number of threads that have come, and all numbers that passed or were woken.
#[derive(Drop)]
struct Turnout {
    come: AtomicUsize,
    all: Mutex<Vec<u64>>,
}

/// How the calls are performed: they wait, they go by steps, or every other pair of threads goes by steps.
#[derive(Clone, Copy, Drop)]
enum Way {
    Waiting,
    Steps,
    Both,
}

impl Way {
    /// Whether the threads of this pair go by steps.
    fn goes_by_steps(self, pair: u64) -> bool {
        match self {
            Way::Waiting => false,
            Way::Steps => true,
            Way::Both => pair % 2 == 0,
        }
    }
}

/// Performs fifty downs of the numbers after `base`; those that pass go into the list.
fn downs<R: Wait>(
    rt: &R,
    semaphore: &Semaphore<u64>,
    mut seat: SemSeat<u64>,
    base: u64,
    into: &mut Vec<u64>,
) -> SemSeat<u64>
    requires { seat.object ≡ semaphore.now.object }
    ensures { result.object ≡ semaphore.now.object }
{
    for i in 1..51u64 {
        if let Ok(Some(who)) = semaphore.down(rt, &mut seat, base.wrapping_add(i)) {
            let _ = into.push(who);
        }
    }
    seat
}

/// Performs fifty ups; the items that they wake go into the list.
fn ups<R: Wait>(
    rt: &R,
    semaphore: &Semaphore<u64>,
    mut seat: SemSeat<u64>,
    into: &mut Vec<u64>,
) -> SemSeat<u64>
    requires { seat.object ≡ semaphore.now.object }
    ensures { result.object ≡ semaphore.now.object }
{
    for _ in 0..50 {
        if let Ok(Some(who)) = semaphore.up(rt, &mut seat) {
            let _ = into.push(who);
        }
    }
    seat
}

/// As `downs`, by steps.
fn downs_by_steps(
    rt: &impl Abort,
    semaphore: &Semaphore<u64>,
    mut seat: SemSeat<u64>,
    base: u64,
    into: &mut Vec<u64>,
) -> SemSeat<u64>
    requires { seat.object ≡ semaphore.now.object }
    ensures { result.object ≡ semaphore.now.object }
{
    for i in 1..51u64 {
        let (after, passed) = down_by_steps(rt, semaphore, seat, base.wrapping_add(i));
        seat = after;
        if let Some(who) = passed {
            let _ = into.push(who);
        }
    }
    seat
}

/// As `ups`, by steps.
fn ups_by_steps(
    rt: &impl Abort,
    semaphore: &Semaphore<u64>,
    mut seat: SemSeat<u64>,
    into: &mut Vec<u64>,
) -> SemSeat<u64>
    requires { seat.object ≡ semaphore.now.object }
    ensures { result.object ≡ semaphore.now.object }
{
    for _ in 0..50 {
        let (after, woken) = up_by_steps(rt, semaphore, seat);
        seat = after;
        if let Some(who) = woken {
            let _ = into.push(who);
        }
    }
    seat
}

fn add_all(all: &mut Vec<u64>, list: Vec<u64>) {
    for who in list {
        let _ = all.push(who);
    }
}

/// The work of one thread: downs if it is the first, third and so on to come, with the numbers after a base of its own;
/// otherwise ups.
fn work<R: Abort + Wait>(
    rt: &R,
    alloc: Global,
    semaphore: &Semaphore<u64>,
    turnout: &Turnout,
    work_of: (Way, u64),
    seat: SemSeat<u64>,
) -> SemSeat<u64>
    requires { seat.object ≡ semaphore.now.object }
    ensures { result.object ≡ semaphore.now.object }
{
    let (way, base) = work_of;
    let turn = turnout.come.fetch_add(1, Ordering::SeqCst) as u64;
    let mut list = Vec::new(alloc);
    let pair = turn / 2;
    let own = base.wrapping_add(pair.wrapping_mul(1000));
    let seat = match (turn % 2 == 0, way.goes_by_steps(pair)) {
        (true, false) => downs(rt, semaphore, seat, own, &mut list),
        (true, true) => downs_by_steps(rt, semaphore, seat, own, &mut list),
        (false, false) => ups(rt, semaphore, seat, &mut list),
        (false, true) => ups_by_steps(rt, semaphore, seat, &mut list),
    };
    add_all(&mut turnout.all.lock(rt), list);
    seat
}

/// Lets all seats work at once.
fn work_all<R: Abort + Threads + Wait + Sync>(
    rt: &R,
    alloc: Global,
    semaphore: &Semaphore<u64>,
    turnout: &Turnout,
    work_of: (Way, u64),
    seats: Vec<SemSeat<u64>>,
) -> Vec<SemSeat<u64>>
    requires { All (λ s. s.object ≡ semaphore.now.object) seats.items }
    ensures { All (λ s. s.object ≡ semaphore.now.object) result.items }
{
    let part = move |seat: SemSeat<u64>| -> SemSeat<u64>
        requires { seat.object ≡ semaphore.now.object }
        ensures { result.object ≡ semaphore.entry.now.object }
    { work(rt, alloc, semaphore, turnout, work_of, seat) };
    let Ok(seats) = map_vec(rt, seats, &part) else {
        panic!(rt; "memory for the threads")
    };
    seats
}

/// Whether the list has, exactly once each, the fifty numbers after each of `pairs` bases, which are 1,000 apart.
fn are_all(rt: &impl Abort, mut list: Vec<u64>, base: u64, pairs: u64) -> bool {
    list.sort().expect(rt, "memory to sort");
    let mut place = 0usize;
    for p in 0..pairs {
        for i in 1..51u64 {
            let who = base.wrapping_add(p.wrapping_mul(1000)).wrapping_add(i);
            if list.get(place).copied() != Some(who) {
                return false;
            }
            place = place.wrapping_add(1);
        }
    }
    place == list.len()
}

/// Runs this many pairs of threads at once, one with fifty downs and one with fifty ups. Checks that nothing is left.
fn storm<R: Abort + Threads + Wait + Sync>(
    rt: &R,
    alloc: Global,
    size: u64,
    work_of: (Way, u64),
    pairs: u64,
) {
    let (_, base) = work_of;
    let turnout = Turnout {
        come: AtomicUsize::new(0),
        all: Mutex::new(Vec::new(alloc)),
    };
    let (semaphore, seats) = open(rt, alloc, (0, size, pairs.wrapping_mul(2), 100));
    let seats = work_all(rt, alloc, &semaphore, &turnout, work_of, seats);
    let tally = joined(rt, &semaphore, seats);
    leaves_nothing(rt, semaphore, tally);
    let Turnout { come: _, all } = turnout;
    assert!(rt; are_all(rt, all.into_inner(), base, pairs));
}

#[test]
fn two_threads(rt: HostRuntime) {
    storm(&rt, rt.alloc(), 64, (Way::Waiting, 0), 1);
}

#[test]
fn a_storm_of_one_pair(rt: HostRuntime) {
    storm(&rt, rt.alloc(), 4096, (Way::Waiting, 1000), 1);
}

#[test]
fn a_storm_of_two_pairs(rt: HostRuntime) {
    storm(&rt, rt.alloc(), 4096, (Way::Waiting, 1000), 2);
}

#[test]
fn a_storm_of_four_pairs(rt: HostRuntime) {
    storm(&rt, rt.alloc(), 4096, (Way::Waiting, 1000), 4);
}

#[test]
fn two_threads_by_steps(rt: HostRuntime) {
    storm(&rt, rt.alloc(), 64, (Way::Steps, 1000), 1);
}

#[test]
fn steps_through_a_wait_queue_of_one_cell(rt: HostRuntime) {
    storm(&rt, rt.alloc(), 1, (Way::Steps, 1000), 1);
}

#[test]
fn steps_beside_calls_that_wait(rt: HostRuntime) {
    storm(&rt, rt.alloc(), 4096, (Way::Both, 1000), 2);
}
