//! More callers than ends: each borrows an end and gives it back.

use super::assertions::assert_equal;
use super::steps::{open, soon};
use fak_channel::{
    End, Lender, LenderReceiveFault, LenderSendFault, Loan, ReceiveFault, SendFault,
};
use std::process::Abort;
use std::sync::Wait;
use std::thread::{Threads, map_vec};
use std::time::Clock;

/// The number of items that each sender sends.
const ITEMS: u64 = 200;

/// A lender of the last two of these ends.
fn lender_of_two<'c, R: Abort + AllocGlobal + Wait>(
    rt: &R,
    ends: &mut Vec<End<'c, u64>>,
) -> Lender<'c, u64> {
    let lender = Lender::new();
    for _ in 0..2 {
        let end = ends.pop().expect(rt, "an end");
        lender.add(rt, rt.alloc(), end).expect(rt, "memory");
    }
    lender
}

/// What a caller does. Returns the sum of its items.
fn call<R: Abort + Wait>(
    rt: &R,
    senders: &Lender<'_, u64>,
    receivers: &Lender<'_, u64>,
    number: u64,
) -> u64 {
    let mut sum = 0u64;
    if number % 2 == 0 {
        for item in 0..ITEMS {
            assert_equal(rt, senders.send(rt, item).is_ok(), true);
        }
        return sum;
    }
    for _ in 0..ITEMS {
        let item = receivers.receive(rt).ok().expect(rt, "an item");
        sum = sum.wrapping_add(item);
    }
    sum
}

#[test]
fn ten_callers_share_four_ends(rt: HostRuntime) {
    let (channel, seats) = open(&rt, 2, 4, 1 << 40);
    let mut ends = channel.ends(rt.alloc(), seats).expect(&rt, "memory");
    let senders = lender_of_two(&rt, &mut ends);
    let receivers = lender_of_two(&rt, &mut ends);
    let mut numbers = Vec::new(rt.alloc());
    for number in 0..10u64 {
        numbers.push(number).expect(&rt, "memory");
    }
    let sums = map_vec(
        &rt,
        numbers,
        &|number| call(&rt, &senders, &receivers, number),
    );
    let mut sum = 0u64;
    for part in sums.expect(&rt, "memory") {
        sum = sum.wrapping_add(part);
    }
    assert_equal(&rt, sum, 5 * (ITEMS * (ITEMS - 1) / 2));
}

#[test]
fn a_lender_makes_each_call(rt: HostRuntime) {
    let (channel, seats) = open(&rt, 1, 2, 100);
    let mut ends = channel.ends(rt.alloc(), seats).expect(&rt, "memory");
    let lender = lender_of_two(&rt, &mut ends);
    let fault = ReceiveFault::Empty;
    assert_equal(
        &rt,
        lender.try_receive(&rt),
        Err(LenderReceiveFault::Refused { fault }),
    );
    assert_equal(&rt, lender.send(&rt, 10), Ok(()));
    let fault = SendFault::Full { item: 11 };
    assert_equal(
        &rt,
        lender.try_send(&rt, 11),
        Err(LenderSendFault::Refused { fault }),
    );
    assert_equal(&rt, LenderSendFault::Refused { fault }.into_item(), 11);
    assert_equal(&rt, lender.receive(&rt), Ok(10));
    assert_equal(&rt, lender.try_send(&rt, 12), Ok(()));
    assert_equal(&rt, lender.close(&rt), Ok(true));
    assert_equal(&rt, lender.try_receive(&rt), Ok(12));
    assert_equal(&rt, lender.receive(&rt), Err(ReceiveFault::Closed));
    assert_equal(
        &rt,
        lender.send(&rt, 13),
        Err(SendFault::Closed { item: 13 }),
    );
    assert_equal(&rt, lender.close(&rt), Ok(false));
    let mut loan = lender.lend(&rt);
    let mut other = lender.lend(&rt);
    assert_equal(&rt, loan.end().is_closed(), true);
    assert_equal(&rt, other.end().len(), 0);
    lender.take_back(&rt, loan);
    lender.take_back(&rt, other);
}

/// Whether all ends are lent.
fn is_busy<R: Wait>(rt: &R, lender: &Lender<'_, u64>) -> bool {
    match lender.try_lend(rt) {
        Some(loan) => {
            lender.take_back(rt, loan);
            false
        }
        None => true,
    }
}

/// An end that the lender lends by this time, 60 seconds from now.
fn lent_soon<'c, R: Abort + Clock + Wait>(rt: &R, lender: &Lender<'c, u64>) -> Loan<'c, u64> {
    match lender.lend_deadline(rt, soon(rt, 60_000)) {
        Some(loan) => loan,
        None => panic!(rt; "an end"),
    }
}

#[test]
fn a_try_does_not_wait_for_an_end(rt: HostRuntime) {
    let (channel, seats) = open(&rt, 1, 2, 100);
    let mut ends = channel.ends(rt.alloc(), seats).expect(&rt, "memory");
    let lender = lender_of_two(&rt, &mut ends);
    assert_equal(&rt, is_busy(&rt, &lender), false);
    let loan = lender.lend(&rt);
    let other = lent_soon(&rt, &lender);
    assert_equal(&rt, is_busy(&rt, &lender), true);
    assert_equal(
        &rt,
        lender.try_send(&rt, 10),
        Err(LenderSendFault::Busy { item: 10 }),
    );
    assert_equal(&rt, LenderSendFault::Busy { item: 10u64 }.into_item(), 10);
    assert_equal(&rt, lender.try_receive(&rt), Err(LenderReceiveFault::Busy));
    if let Some(third) = lender.lend_deadline(&rt, soon(&rt, 1)) {
        lender.take_back(&rt, third);
        panic!(&rt; "no end is there");
    }
    lender.take_back(&rt, loan);
    assert_equal(&rt, lender.try_send(&rt, 11), Ok(()));
    lender.take_back(&rt, other);
    assert_equal(&rt, lender.try_receive(&rt), Ok(11));
}

/// Lends and gives back an end `ITEMS` times. Returns the number of looks.
fn borrow<R: Abort + Clock + Wait>(rt: &R, lender: &Lender<'_, u64>) -> u64 {
    let mut looks = 0u64;
    for _ in 0..ITEMS {
        let mut loan = lent_soon(rt, lender);
        if loan.end().is_empty() {
            looks = looks.wrapping_add(1);
        }
        lender.take_back(rt, loan);
    }
    looks
}

#[test]
fn a_borrower_wakes_up_before_its_deadline(rt: HostRuntime) {
    let (channel, seats) = open(&rt, 1, 2, 100);
    let mut ends = channel.ends(rt.alloc(), seats).expect(&rt, "memory");
    let lender = lender_of_two(&rt, &mut ends);
    let mut numbers = Vec::new(rt.alloc());
    for number in 0..6u64 {
        numbers.push(number).expect(&rt, "memory");
    }
    let looks = map_vec(&rt, numbers, &|_number: u64| borrow(&rt, &lender));
    for each in looks.expect(&rt, "memory") {
        assert_equal(&rt, each, ITEMS);
    }
}

#[test]
fn ends_are_taken_out_again(rt: HostRuntime) {
    let (channel, seats) = open(&rt, 4, 2, 100);
    let mut ends = channel.ends(rt.alloc(), seats).expect(&rt, "memory");
    let lender = lender_of_two(&rt, &mut ends);
    assert_equal(&rt, lender.send(&rt, 10), Ok(()));
    assert_equal(&rt, lender.send(&rt, 11), Ok(()));
    let mut first = lender.lend(&rt).into_end();
    let mut second = lender.lend(&rt).into_end();
    assert_equal(&rt, is_busy(&rt, &lender), true);
    assert_equal(&rt, first.close(&rt), Ok(true));
    assert_equal(&rt, second.receive(&rt), Ok(10));
    assert_equal(&rt, first.receive(&rt), Ok(11));
    assert_equal(&rt, second.receive(&rt), Err(ReceiveFault::Closed));
    let tally = first.channel.tally(first.into_seat());
    assert_equal(&rt, tally.is_whole(), false);
}
