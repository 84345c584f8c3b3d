//! Four threads, each with one seat, that take turns.

ghost use Rattle.std.specs.Prelude.{◌≡◌, All};

use super::assertions::assert_case;
use super::joined::{CELLS_WAIT, leaves_two};
use super::steps::open;
use fak_queue::{Queue, Seat};
use std::process::Abort;
use std::sync::atomic::{AtomicUsize, Ordering};
use std::sync::{Condvar, Mutex, Wait};
use std::thread::{Threads, map_vec};

/// How many threads have come, and which row is next.
#[derive(Drop)]
struct Turns {
    come: AtomicUsize,
    now: Mutex<usize>,
    changed: Condvar,
}

impl Turns {
    /// Waits for this turn.
    fn wait_for<R: Wait>(&self, rt: &R, turn: usize) {
        let _now = self
            .changed
            .wait_while(rt, self.now.lock(rt), |now| *now < turn);
    }

    /// Begins this turn.
    fn begin<R: Wait>(&self, rt: &R, turn: usize) {
        let mut now = self.now.lock(rt);
        *now = turn;
        self.changed.notify_all();
    }
}

/// Makes the steps of one of the four, each in its turn.
fn take_turns<R: Abort + Wait>(
    rt: &R,
    turns: &Turns,
    queue: &Queue<u64>,
    mut seat: Seat<u64>,
) -> Seat<u64>
    requires { seat.object ≡ queue.now.object }
    ensures { result.object ≡ queue.now.object }
{
    let name = turns.come.fetch_add(1, Ordering::SeqCst);
    for (row, (of, step)) in CELLS_WAIT.iter().enumerate() {
        if *of == name {
            turns.wait_for(rt, row);
            assert_case(rt, &row, step.is_met(rt, queue, &mut seat));
            turns.begin(rt, row.wrapping_add(1));
        }
    }
    seat
}

/// Makes all steps, those of each seat in a thread of its own.
fn run_all<R: Abort + Threads + Wait + Sync>(
    rt: &R,
    queue: &Queue<u64>,
    seats: Vec<Seat<u64>>,
) -> Vec<Seat<u64>>
    requires { All (λ s. s.object ≡ queue.now.object) seats.items }
    ensures { All (λ s. s.object ≡ queue.now.object) result.items }
{
    let turns = Turns {
        come: AtomicUsize::new(0),
        now: Mutex::new(0),
        changed: Condvar::new(),
    };
    let here = &turns;
    let part = move |seat: Seat<u64>| -> Seat<u64>
        requires { seat.object ≡ queue.now.object }
        ensures { result.object ≡ queue.entry.now.object }
    { take_turns(rt, here, queue, seat) };
    map_vec(rt, seats, &part).expect(rt, "memory for the threads")
}

#[test]
fn four_threads_that_take_turns(rt: HostRuntime) {
    let (queue, seats) = open(&rt, (3, 4, 100));
    let seats = run_all(&rt, &queue, seats);
    leaves_two(&rt, queue, seats);
}
