//! Semaphores of each size in range are opened with all their seats, and with starts and stints of every width. Whether
//! the first down passes or parks depends on the start.

use crate::assertions::assert_equal;
use crate::steps::{Step, open, walk};
use fak_sem::{LARGEST_BOUND, LARGEST_SIZE, LONGEST_STINT, MOST_SEATS};
use std::alloc::Global;
use std::process::Abort;
use std::sync::Wait;

/// The powers of two in turn, the numbers next to them, and drawn numbers, none above `most`.
fn spread(row: u64, most: u64) -> u64 {
    let power = 1u64 << (row % 41);
    let drawn = row.wrapping_mul(11_400_714_819_323_198_485) >> 24;
    let number = match row / 41 % 4 {
        0 => power,
        1 => power - 1,
        2 => power + 1,
        _ => drawn % power,
    };
    number.min(most)
}

/// Opens the semaphore with this start, size, number of seats and stint. The last seat performs a down and, if its
/// stint allows it, an up.
fn opens<R: Abort + Wait>(rt: &R, alloc: Global, limits: (u64, u64, u64, u64)) {
    let (start, _size, many, stint) = limits;
    let (semaphore, mut seats) = open::<u64>(rt, alloc, limits);
    assert_equal(rt, seats.len() as u64, many);
    let last = seats.len().saturating_sub(1);
    let (passed, woken) = if start > 0 {
        (Some(7), None)
    } else {
        (None, Some(7))
    };
    let steps = [
        (last, Step::Down(7, Ok(passed))),
        (last, Step::Up(Ok(woken))),
    ];
    let made = if stint > 1 { 2 } else { 1 };
    walk(rt, &semaphore, &mut seats, &steps[..made]);
}

#[test]
fn semaphores_of_each_size(rt: HostRuntime) {
    for size in 1..LARGEST_SIZE + 1 {
        let start = spread(size + 7, LARGEST_BOUND);
        let stint = spread(size, LONGEST_STINT).max(1);
        opens(&rt, rt.alloc(), (start, size, size % MOST_SEATS + 1, stint));
    }
}

#[test]
fn semaphores_of_each_number_of_seats(rt: HostRuntime) {
    for seats in 1..MOST_SEATS + 1 {
        for start in [0u64, 1, 1_000] {
            opens(&rt, rt.alloc(), (start, 5, seats, 9));
        }
    }
}

#[test]
fn semaphores_of_starts_and_stints_of_every_width(rt: HostRuntime) {
    for row in 0..164u64 {
        opens(&rt, rt.alloc(), (spread(row, LARGEST_BOUND), 5, 2, 9));
        opens(
            &rt,
            rt.alloc(),
            (0, 5, 2, spread(row, LONGEST_STINT).max(1)),
        );
        opens(
            &rt,
            rt.alloc(),
            (3, 64, 8, spread(row, LONGEST_STINT).max(1)),
        );
    }
}
