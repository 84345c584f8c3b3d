//! Lines of text that two threads send and a third counts: a program to copy, for items and weights of your own. An
//! item owns its text. Lines and bytes are counted at once, and both are those that were sent (`count_lines`).
#![tactic(auto)]

ghost use Rattle.std.specs.Prelude.{◌≡◌, ◌+◌, [], ◌∷◌, IfSome, IsTrue, vec_len};
ghost use Rattle.std.specs.List.{sum_by};
ghost use Rattle.std.specs.Thread.{IsSync};
ghost use Rattle.fak_queue.specs.Queues.{IsIdleSeat};
ghost use Rattle.fak_queue.specs.Sums.{Adds, Balances};
ghost use Rattle.example_lines.specs.Lines.{Received, Sent, Stands, bytes, one};

use fak_queue::{LONGEST_STINT, Queue, Seat, Tally};
use std::alloc::{AllocError, Global};
use std::io;
use std::sync::Wait;
use std::thread::{Threads, join};

/// A line of text, which is moved and never copied.
#[derive(Drop)]
pub struct Line {
    /// Which line it is.
    pub number: u64,
    /// What it says.
    pub text: String,
}

/// Puts a line into the queue, and returns whether it was accepted.
fn put<R: Wait>(rt: &R, queue: &Queue<Line>, seat: &mut Seat<Line>, line: Line) -> bool
    requires { IsIdleSeat queue.now.object seat.old }
    ensures idle { IsIdleSeat queue.now.object seat.new }
    ensures lines { IsTrue result → Adds one 1 0 seat.old seat.new }
    ensures bytes { IsTrue result → Adds bytes (bytes line) 0 seat.old seat.new }
{
    queue.wait_insert(rt, seat, line).is_ok()
}

/// Takes the oldest line out of the queue; `None` if the seat has drawn all its tickets.
fn take<R: Wait>(rt: &R, queue: &Queue<Line>, seat: &mut Seat<Line>) -> Option<Line>
    requires { IsIdleSeat queue.now.object seat.old }
    ensures idle { IsIdleSeat queue.now.object seat.new }
    ensures lines { IfSome result (λ _. Adds one 0 1 seat.old seat.new) }
    ensures bytes { IfSome result (λ line. Adds bytes 0 (bytes line) seat.old seat.new) }
{
    match queue.wait_delete(rt, seat) {
        Ok((_, line)) => Some(line),
        Err(_) => None,
    }
}

type Seats = (Seat<Line>, Seat<Line>, Seat<Line>);

type Sender = (Seat<Line>, bool);

type Receiver = (Seat<Line>, Option<(u64, u64)>);

/// Sends all lines. Returns whether none was refused.
fn send<R: Wait>(rt: &R, queue: &Queue<Line>, mut seat: Seat<Line>, lines: Vec<Line>) -> Sender
    requires { Stands queue.now.object 0 0 0 0 seat }
    ensures { Sent queue.now.object lines.items result.0 result.1 }
{
    for line in lines {
        if !put(rt, queue, &mut seat, line) {
            return (seat, false);
        }
    }
    (seat, true)
}

/// Receives this many lines, and counts them and their bytes. `None` if the seat is worn or a number does not fit.
fn receive<R: Wait>(rt: &R, queue: &Queue<Line>, mut seat: Seat<Line>, count: usize) -> Receiver
    requires { Stands queue.now.object 0 0 0 0 seat }
    ensures { Received queue.now.object result.0 result.1 }
{
    let (mut lines, mut bytes) = (0u64, 0u64);
    for _ in 0..count {
        let Some(line) = take(rt, queue, &mut seat) else {
            return (seat, None);
        };
        let size = line.text.len() as u64;
        let (Some(more), Some(longer)) = (lines.checked_add(1), bytes.checked_add(size)) else {
            return (seat, None);
        };
        lines = more;
        bytes = longer;
    }
    (seat, Some((lines, bytes)))
}

/// All three threads at once: two that send, and one that receives this many lines.
fn run_all<R: Threads + Wait + Sync>(
    rt: &R,
    queue: &Queue<Line>,
    seats: Seats,
    first: Vec<Line>,
    second: Vec<Line>,
    count: usize,
) -> (Sender, (Sender, Receiver))
    requires { Stands queue.now.object 0 0 0 0 seats.0 × Stands queue.now.object 0 0 0 0 seats.1
        × Stands queue.now.object 0 0 0 0 seats.2 }
    ensures first { Sent queue.now.object first.items result.0.0 result.0.1 }
    ensures second { Sent queue.now.object second.items result.1.0.0 result.1.0.1 }
    ensures received { Received queue.now.object result.1.1.0 result.1.1.1 }
{
    let (a, b, c) = seats;
    join(
        rt,
        move || -> Sender
            requires { Stands queue.now.object 0 0 0 0 a }
            ensures { Sent queue.entry.now.object first.items result.0 result.1 }
        { send(rt, queue, a, first) },
        move || -> (Sender, Receiver)
            requires sync { IsSync R.row }
            requires fresh { Stands queue.now.object 0 0 0 0 b × Stands queue.now.object 0 0 0 0 c }
            ensures second { Sent queue.entry.now.object second.items result.0.0 result.0.1 }
            ensures received { Received queue.entry.now.object result.1.0 result.1.1 }
        {
            join(
                rt,
                move || -> Sender
                    requires { Stands queue.now.object 0 0 0 0 b }
                    ensures { Sent queue.entry.now.object second.items result.0 result.1 }
                { send(rt, queue, b, second) },
                move || -> Receiver
                    requires { Stands queue.now.object 0 0 0 0 c }
                    ensures { Received queue.entry.now.object result.0 result.1 }
                { receive(rt, queue, c, count) },
            )
        },
    )
}

/// An empty queue and its three seats.
fn open_queue(alloc: Global) -> Option<(Queue<Line>, Seats)>
    ensures fresh { IfSome result (λ r. Stands r.0.object 0 0 0 0 r.1.0 × Stands r.0.object 0 0 0 0 r.1.1
        × Stands r.0.object 0 0 0 0 r.1.2) }
    ensures three { IfSome result (λ r. r.0.object.seats ≡ 3) }
{
    let Ok((queue, mut seats)) = Queue::<Line>::open(alloc, 16, 3, LONGEST_STINT) else {
        return None;
    };
    let Some(a) = seats.pop() else { unreachable!() };
    let Some(b) = seats.pop() else { unreachable!() };
    let Some(c) = seats.pop() else { unreachable!() };
    Some((queue, (a, b, c)))
}

/// Closes the queue, and returns whether all seats are back and nothing is left in it.
fn is_empty(queue: Queue<Line>, a: Seat<Line>, b: Seat<Line>, c: Seat<Line>) -> bool
    requires seats { IsIdleSeat queue.object a × IsIdleSeat queue.object b × IsIdleSeat queue.object c }
    requires three { queue.object.seats ≡ 3 }
    ensures { IsTrue result → Balances one (c ∷ b ∷ a ∷ []) [] × Balances bytes (c ∷ b ∷ a ∷ []) [] }
{
    let two = queue.join(Tally::of(a), b);
    let tally = queue.join(two, c);
    let whole = tally.is_whole();
    if !whole {
        return false;
    }
    queue.close(tally).next().is_none()
}

/// Sends the first lines from one thread and the second from another, and counts lines and bytes in a third. `None` if
/// there was no memory, a line was refused, or a number does not fit.
pub fn count_lines<R: Threads + Wait + Sync>(
    rt: &R,
    alloc: Global,
    first: Vec<Line>,
    second: Vec<Line>,
) -> Option<(u64, u64)>
    ensures lines { IfSome result (λ r. r.0 ≡ vec_len first + vec_len second) }
    ensures bytes { IfSome result (λ r. r.1 ≡ sum_by bytes first.items + sum_by bytes second.items) }
{
    let (queue, seats) = open_queue(alloc)?;
    let count = first.len() + second.len();
    let ((a, sent), ((b, sent_too), (c, totals))) = run_all(
        rt, &queue, seats, first, second, count,
    );
    let emptied = is_empty(queue, a, b, c);
    if !sent || !sent_too || !emptied {
        return None;
    }
    totals
}

/// The lines with these numbers, from one below the other.
fn some_lines(alloc: Global, from: u64, below: u64) -> Result<Vec<Line>, AllocError> {
    let mut lines = Vec::new(alloc);
    for number in from..below {
        let text = format!(in alloc; "this is line {number}")?;
        lines.push(Line { number, text })?;
    }
    Ok(lines)
}

fn main(rt: HostRuntime) -> io::Result<()> {
    let first = some_lines(rt.alloc(), 1, 51)?;
    let second = some_lines(rt.alloc(), 51, 121)?;
    match count_lines(&rt, rt.alloc(), first, second) {
        Some((lines, bytes)) => println!(rt; "{lines} lines, {bytes} bytes"),
        None => println!(rt; "the lines were not counted"),
    }
}
