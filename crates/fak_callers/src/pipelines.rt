//! A pipeline of three threads over two queues and a semaphore. Each thread has ports, so that no function states anything and
//! none has a proof.
//!
//! The semaphore bounds how many numbers are on their way. A number that it holds back enters the pipeline once another has left.

use fak_queue::{Port, Queue};
use fak_sem::{SemPort, Semaphore};
use std::alloc::Global;
use std::sync::Wait;
use std::thread::{Threads, join};

/// How many numbers may be on their way.
const ON_THEIR_WAY: u64 = 3;

/// The calls that a seat may make.
const STINT: u64 = 1 << 40;

/// The first thread: sends the numbers below `count` through the semaphore. False if one was refused.
fn send<R: Wait>(
    rt: &R,
    mut permits: SemPort<'_, u64>,
    mut numbers: Port<'_, u64>,
    count: u64,
) -> bool {
    let mut sent = true;
    for number in 0..count {
        sent &= match permits.down(rt, number) {
            Ok(Some(number)) => numbers.wait_insert(rt, number).is_ok(),
            Ok(None) => true,
            Err(_) => false,
        };
    }
    sent
}

/// The second thread: squares this many numbers. False if a call was refused.
fn square<R: Wait>(
    rt: &R,
    mut numbers: Port<'_, u64>,
    mut squares: Port<'_, u64>,
    count: u64,
) -> bool {
    for _ in 0..count {
        let Ok((_ticket, number)) = numbers.wait_delete(rt) else {
            return false;
        };
        if squares
            .wait_insert(rt, number.wrapping_mul(number))
            .is_err()
        {
            return false;
        }
    }
    true
}

/// The third thread: adds this many squares up, and lets a number in for each. `None` if a call was refused.
fn sum<R: Wait>(
    rt: &R,
    mut squares: Port<'_, u64>,
    mut permits: SemPort<'_, u64>,
    mut numbers: Port<'_, u64>,
    count: u64,
) -> Option<u64> {
    let mut sum = 0u64;
    for _ in 0..count {
        let Ok((_ticket, square)) = squares.wait_delete(rt) else {
            return None;
        };
        sum = sum.wrapping_add(square);
        let Ok(woken) = permits.up(rt) else {
            return None;
        };
        if let Some(number) = woken {
            let Ok(_) = numbers.wait_insert(rt, number) else {
                return None;
            };
        }
    }
    Some(sum)
}

/// The sum of the squares of the numbers below `count`, by three threads. `None` if there is no memory.
pub fn sum_of_squares<R: Threads + Wait + Sync>(rt: &R, alloc: Global, count: u64) -> Option<u64> {
    let Ok((semaphore, mut seats)) = Semaphore::<u64>::open(alloc, ON_THEIR_WAY, 4, 2, STINT) else {
        return None;
    };
    let Some(a) = seats.pop() else { unreachable!() };
    let Some(b) = seats.pop() else { unreachable!() };
    let held_back = SemPort::new(&semaphore, a);
    let let_in = SemPort::new(&semaphore, b);
    let Ok((numbers, mut seats)) = Queue::<u64>::open(alloc, ON_THEIR_WAY, 3, STINT) else {
        return None;
    };
    let Some(a) = seats.pop() else { unreachable!() };
    let Some(b) = seats.pop() else { unreachable!() };
    let Some(c) = seats.pop() else { unreachable!() };
    let sent = Port::new(&numbers, a);
    let received = Port::new(&numbers, b);
    let sent_later = Port::new(&numbers, c);
    let Ok((squares, mut seats)) = Queue::<u64>::open(alloc, 1, 2, STINT) else {
        return None;
    };
    let Some(a) = seats.pop() else { unreachable!() };
    let Some(b) = seats.pop() else { unreachable!() };
    let squared = Port::new(&squares, a);
    let added = Port::new(&squares, b);
    let ((sent, squared), sum) = join(
        rt,
        move || -> (bool, bool) {
            join(
                rt,
                move || -> bool { send(rt, held_back, sent, count) },
                move || -> bool { square(rt, received, squared, count) },
            )
        },
        move || -> Option<u64> { sum(rt, added, let_in, sent_later, count) },
    );
    if sent && squared { sum } else { None }
}
