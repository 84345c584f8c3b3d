//! Credits.

ghost use Rattle.std.specs.Prelude.{◌≡◌, ◌+◌, ◌<◌, min};
ghost use Rattle.std.specs.List.{All};
ghost use Rattle.fak_model.specs.Credit.{credits as credits_in, debits as debits_in, grants_made};

use super::assertions::assert_equal;
use fak_count::{Credit, CreditSeat, CreditTally, OpenFault, Worn};
use fak_model::laws::credit::a_credit_grants_what_it_can;
use std::test::*;
use std::thread::{Threads, join};

#[test]
fn one_seat_debits_and_credits(rt: HostRuntime) {
    let (credit, mut seats) = Credit::open(rt.alloc(), 1, 1, 4).expect(&rt, "open");
    let mut a = seats.pop().expect(&rt, "one seat");
    assert_equal(&rt, credit.debit(&mut a), Ok(1));
    assert_equal(&rt, credit.debit(&mut a), Ok(0));
    assert_equal(&rt, credit.credit(&mut a), Ok(-1));
    assert_equal(&rt, credit.value(&mut a), 0);
    assert_equal(&rt, a.left(), 1);
    assert_equal(&rt, credit.credit(&mut a), Ok(0));
    assert_equal(&rt, credit.credit(&mut a), Err(Worn));
    assert_equal(&rt, credit.debit(&mut a), Err(Worn));
    assert_equal(&rt, credit.value(&mut a), 1);
    assert_equal(&rt, CreditTally::of(a).is_whole(), true);
}

#[test]
fn a_value_is_what_all_seats_made(rt: HostRuntime) {
    let (credit, mut seats) = Credit::open(rt.alloc(), 1, 2, 4).expect(&rt, "open");
    let mut b = seats.pop().expect(&rt, "two seats");
    let mut a = seats.pop().expect(&rt, "two seats");
    assert_equal(&rt, credit.debit(&mut a), Ok(1));
    assert_equal(&rt, credit.value(&mut b), 0);
    assert_equal(&rt, credit.credit(&mut b), Ok(0));
    assert_equal(&rt, credit.value(&mut a), 1);
    let one = CreditTally::of(b);
    assert_equal(&rt, one.is_whole(), false);
    let all = credit.join(one, a);
    assert_equal(&rt, all.is_whole(), true);
}

#[test]
fn credits_out_of_range_are_not_opened(rt: HostRuntime) {
    for &(start, seats, stint, fault) in &[
        (4_294_967_297, 1, 1, OpenFault::BadSize),
        (4_294_967_297, 0, 0, OpenFault::BadSize),
        (0, 0, 0, OpenFault::BadSeats),
        (1, 65, 1, OpenFault::BadSeats),
        (1, 1, 0, OpenFault::BadStint),
        (1, 1, 1_099_511_627_777, OpenFault::BadStint),
    ] {
        let found = Credit::open(rt.alloc(), start, seats, stint).expect_err(&rt, "opened");
        assert_equal(&rt, found, fault);
    }
    let (_widest, seats) = Credit::open(rt.alloc(), 4_294_967_296, 64, 1_099_511_627_776).expect(
        &rt, "widest",
    );
    assert_equal(&rt, seats.len(), 64);
}

/// Whether all seats are joined. What the joined seats have seen grants the lesser of its debits, and of the start plus
/// its credits.
fn is_granted(tally: &CreditTally) -> bool
    ensures grants { grants_made 7 tally.now.seen ≡ min (debits_in tally.now.seen) (7 + credits_in tally.now.seen) }
    ensures named { All (λ m. m.seat < tally.now.object.seats) tally.now.seen }
{
    a_credit_grants_what_it_can();
    tally.is_whole()
}

/// Performs this many debits.
fn debits(credit: &Credit, mut seat: CreditSeat, count: usize) -> CreditSeat
    requires { seat.object ≡ credit.now.object }
    ensures { result.object ≡ credit.now.object }
{
    for _ in 0..count {
        let _ = credit.debit(&mut seat);
    }
    seat
}

/// Performs this many credits.
fn credits(credit: &Credit, mut seat: CreditSeat, count: usize) -> CreditSeat
    requires { seat.object ≡ credit.now.object }
    ensures { result.object ≡ credit.now.object }
{
    for _ in 0..count {
        let _ = credit.credit(&mut seat);
    }
    seat
}

#[test]
fn debits_and_credits_of_two_threads_cancel(rt: HostRuntime) {
    let (credit, mut seats) = Credit::open(rt.alloc(), 7, 3, 1000).expect(&rt, "open");
    let mut c = seats.pop().expect(&rt, "three seats");
    let b = seats.pop().expect(&rt, "three seats");
    let a = seats.pop().expect(&rt, "three seats");
    let credit = &credit;
    let (a, b) = join(
        &rt,
        move || -> CreditSeat
            requires { a.object ≡ credit.now.object }
            ensures { result.object ≡ credit.entry.now.object }
        { debits(credit, a, 1000) },
        move || -> CreditSeat
            requires { b.object ≡ credit.now.object }
            ensures { result.object ≡ credit.entry.now.object }
        { credits(credit, b, 1000) },
    );
    assert_equal(&rt, (a.left(), b.left()), (0, 0));
    assert_equal(&rt, credit.value(&mut c), 7);
    let all = credit.join(credit.join(CreditTally::of(c), a), b);
    assert_equal(&rt, is_granted(&all), true);
}
