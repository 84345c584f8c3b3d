//! Random bursts of one thread, compared with a plain list.

ghost use Rattle.fak_queue.specs.BundleCalls.{IsIdleBundle};

use super::assertions::{assert_case, assert_equal};
use super::bundle_steps::{are_from, delete_numbers, granted, insert_numbers, open_bundle};
use fak_queue::{Bundle, BurstFault, DeleteFault, Queue};
use std::process::Abort;
use std::sync::Wait;

/// What a list of consecutive numbers would hold: the number at its front, and how many there are.
#[derive(Clone, Copy)]
struct Plain {
    size: u32,
    front: u64,
    count: u64,
}

/// The next of a row of random numbers.
fn next_random(random: u64) -> u64 {
    random
        .wrapping_mul(6364136223846793005)
        .wrapping_add(1442695040888963407)
}

/// A number from 1 to `most`.
fn some_of(random: u64, most: u64) -> u64 {
    (random >> 33) % most.max(1) + 1
}

/// Inserts this many of the next numbers, and updates the list.
fn insert_so_many<R: Abort + AllocGlobal + Wait>(
    rt: &R,
    queue: &Queue<u64>,
    bundle: &mut Bundle<u64>,
    plain: Plain,
    count: u64,
) -> Plain
    requires { IsIdleBundle queue.now.object bundle.old }
    ensures { IsIdleBundle queue.now.object bundle.new }
{
    let first = plain.front.wrapping_add(plain.count);
    let free = u64::from(plain.size).wrapping_sub(plain.count);
    let answer = insert_numbers(rt, queue, bundle, first, count);
    let wanted = match free {
        0 => Err(BurstFault::Full {
            upper: i64::from(plain.size),
        }),
        _ => Ok((first, count.min(free).min(bundle.seats()))),
    };
    assert_equal(rt, answer, wanted);
    Plain {
        count: plain.count.wrapping_add(granted(answer)),
        ..plain
    }
}

/// Deletes at most this many, and updates the list.
fn delete_so_many<R: Abort + AllocGlobal + Wait>(
    rt: &R,
    queue: &Queue<u64>,
    bundle: &mut Bundle<u64>,
    plain: Plain,
    most: u64,
) -> Plain
    requires { IsIdleBundle queue.now.object bundle.old }
    ensures { IsIdleBundle queue.now.object bundle.new }
{
    let (answer, items) = delete_numbers(rt, queue, bundle, most);
    let wanted = match plain.count {
        0 => Err(DeleteFault::Empty(0)),
        count => Ok((plain.front, most.min(count).min(bundle.seats()))),
    };
    assert_equal(rt, answer, wanted);
    let taken = granted(answer);
    assert_case(rt, &plain.front, are_from(items, plain.front, taken));
    Plain {
        front: plain.front.wrapping_add(taken),
        count: plain.count.wrapping_sub(taken),
        ..plain
    }
}

/// This many random bursts on a queue of this size, by a bundle of this many seats. The numbers are the tickets.
fn compare_with_a_list<R: Abort + AllocGlobal + Wait>(
    rt: &R,
    size: u32,
    bundled: u64,
    bursts: u64,
    seed: u64,
) {
    let (queue, mut bundle, _) = open_bundle(rt, u64::from(size), bundled, 1, 100000);
    let mut plain = Plain {
        size,
        front: 0,
        count: 0,
    };
    let mut random = seed;
    for _ in 0..bursts {
        random = next_random(random);
        let many = some_of(random, bundled.wrapping_add(3));
        plain = match random & 65536 {
            0 => insert_so_many(rt, &queue, &mut bundle, plain, many),
            _ => delete_so_many(rt, &queue, &mut bundle, plain, many),
        };
    }
}

#[test]
fn a_thousand_bursts_on_few_cells(rt: HostRuntime) {
    compare_with_a_list(&rt, 7, 5, 1000, 1);
}

#[test]
fn a_thousand_bursts_on_one_cell(rt: HostRuntime) {
    compare_with_a_list(&rt, 1, 4, 1000, 2);
}

#[test]
fn a_thousand_bursts_of_many_seats(rt: HostRuntime) {
    compare_with_a_list(&rt, 64, 40, 1000, 3);
}
