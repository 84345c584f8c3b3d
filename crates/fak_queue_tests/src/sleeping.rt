//! Seats that can sleep: their calls on the queue, their steps on the bits, and two threads of which one sleeps.

ghost use Rattle.std.specs.Prelude.{◌≡◌};
ghost use Rattle.fak_channel_core.specs.SleeperSides.{Asleep, Awake, Registered};
ghost use Rattle.fak_queue.specs.declared.role.Role.TheVariants.{Receiver, Sender};
ghost use Rattle.fak_queue.specs.Queues.{IsIdleSeat};
ghost use Rattle.fak_queue.specs.Sleepers.{duty_as};
ghost use Rattle.fak_queue.specs.SleeperSeats.{account_of_seat, fresh_sleeper};

use super::assertions::{assert_case, assert_equal, assert_left, assert_written};
use super::steps::{close, in_use};
use fak_queue::{
    DeleteFault, InsertFault, LARGE_SEATS, LARGE_SIZE, LargeFault, NoRoom, Queue, Role, SeatState,
    SleeperSeat, Tally,
};
use std::process::Abort;
use std::sync::Wait;
use std::thread::join;

/// A queue of this size with two seats.
fn open_pair(
    rt: &(impl Abort + AllocGlobal),
    size: u64,
) -> (Queue<u64>, SleeperSeat<u64>, SleeperSeat<u64>)
    ensures first { result.1 ≡ fresh_sleeper result.0.object 100 0 }
    ensures second { result.2 ≡ fresh_sleeper result.0.object 100 1 }
{
    let opened = Queue::<u64>::open_sleepers(rt.alloc(), size, 2, 100);
    let (queue, mut undealt) = opened.expect(rt, "open_sleepers");
    let first = undealt.next(&queue).expect(rt, "a seat");
    let second = undealt.next(&queue).expect(rt, "a seat");
    (queue, first, second)
}

#[test]
fn the_limits_of_sleepers_are_tested(rt: HostRuntime) {
    const REFUSED: &[(u64, u64, u64, LargeFault)] = &[
        (0, 0, 0, LargeFault::BadSize),
        (LARGE_SIZE + 1, 1, 1, LargeFault::BadSize),
        (LARGE_SIZE, LARGE_SEATS + 1, 1, LargeFault::BadSeats),
        (1, 1, 0, LargeFault::BadStint),
    ];
    for &(size, seats, stint, fault) in REFUSED {
        let refused = Queue::<u64>::open_sleepers(rt.alloc(), size, seats, stint);
        assert_case(&rt, &(size, seats, stint), refused.err() == Some(fault));
    }
}

#[test]
fn seats_are_dealt_in_order(rt: HostRuntime) {
    let opened = Queue::<u64>::open_sleepers(rt.alloc(), 1, 3, 7);
    let (queue, mut undealt) = opened.expect(&rt, "open_sleepers");
    for number in 0..3u64 {
        let seat = undealt.next(&queue).expect(&rt, "a seat");
        assert_equal(&rt, seat.number(), number);
        assert_equal(&rt, seat.left(), 7);
    }
    assert_case(&rt, &"all are dealt", undealt.next(&queue).is_none());
    assert_written(&rt, &undealt, "UndealtSeats { next: 3, seats: 3, .. }");
}

#[test]
fn a_seat_that_can_sleep_makes_the_calls_of_a_queue(rt: HostRuntime) {
    let (queue, mut a, b) = open_pair(&rt, 2);
    a.set_pauses_in_calls(false);
    assert_equal(&rt, a.insert(&rt, &queue, 10), Ok(0));
    assert_equal(&rt, a.insert(&rt, &queue, 11), Ok(1));
    let full = InsertFault::Full { upper: 2, item: 12 };
    assert_equal(&rt, a.claim_insert(&queue, 12), Err(full));
    if a.state() == SeatState::Idle {
        a.pause(&queue);
        assert_equal(&rt, a.delete(&rt, &queue), Ok((0, 10)));
        assert_equal(&rt, a.shut(&queue), true);
        assert_equal(&rt, a.cells_in_use(&queue), in_use(1, true));
        assert_equal(&rt, a.items_ready(&queue), 1);
        assert_equal(&rt, a.is_drained(&queue), false);
        assert_equal(&rt, a.left(), 97);
        assert_written(
            &rt,
            &a,
            "SleeperSeat { name: 0, state: Idle, left: 97, .. }",
        );
        let tally = queue.join_sleeper(Tally::of_sleeper(b), a);
        assert_left(&rt, close(&rt, queue, tally), &[11]);
    }
}

/// Inserts the item in two parts, and takes one in two parts.
fn in_parts(rt: &impl Abort, queue: &Queue<u64>, seat: &mut SleeperSeat<u64>)
    requires { IsIdleSeat queue.now.object seat.old.seat }
{
    let Ok(ticket) = seat.claim_insert(queue, 10) else {
        panic!(rt; "no room")
    };
    assert_equal(rt, seat.state(), SeatState::Inserting(ticket));
    assert_equal(rt, seat.try_fill(queue), Some(ticket));
}

/// Takes an item in two parts.
fn out_in_parts(rt: &impl Abort, queue: &Queue<u64>, seat: &mut SleeperSeat<u64>)
    requires { IsIdleSeat queue.now.object seat.old.seat }
{
    let Ok(ticket) = seat.claim_delete(queue) else {
        panic!(rt; "no item")
    };
    assert_equal(rt, seat.state(), SeatState::Deleting(ticket));
    assert_equal(rt, seat.try_take(queue), Some((ticket, 10)));
}

#[test]
fn a_call_in_two_parts(rt: HostRuntime) {
    let (queue, mut a, mut b) = open_pair(&rt, 1);
    in_parts(&rt, &queue, &mut a);
    out_in_parts(&rt, &queue, &mut b);
    assert_equal(&rt, b.into_seat().left(), 99);
}

/// The second test of a sender, which finds a queue of one cell full.
fn falls_asleep_full(rt: &impl Abort, queue: &Queue<u64>, seat: &mut SleeperSeat<u64>)
    requires idle { IsIdleSeat queue.now.object seat.old.seat }
    requires registered { (duty_as Sender (account_of_seat seat.old)).stage ≡ Registered }
    ensures idle { IsIdleSeat queue.now.object seat.new.seat }
    ensures asleep { (duty_as Sender (account_of_seat seat.new)).stage ≡ Asleep }
{
    let Err(NoRoom::Full(1)) = seat.test_room_again(queue) else {
        panic!(rt; "not full")
    };
}

/// The second test of a receiver, which finds the queue empty and open.
fn falls_asleep_empty(rt: &impl Abort, queue: &Queue<u64>, seat: &mut SleeperSeat<u64>)
    requires idle { IsIdleSeat queue.now.object seat.old.seat }
    requires registered { (duty_as Receiver (account_of_seat seat.old)).stage ≡ Registered }
    ensures idle { IsIdleSeat queue.now.object seat.new.seat }
    ensures asleep { (duty_as Receiver (account_of_seat seat.new)).stage ≡ Asleep }
{
    let Err(0) = seat.test_item_again(queue) else {
        panic!(rt; "not empty")
    };
    if seat.test_drained_again(queue) {
        panic!(rt; "drained");
    }
}

/// A sender that sleeps finds its bit set.
fn sleeps_on(rt: &impl Abort, queue: &Queue<u64>, seat: &mut SleeperSeat<u64>)
    requires idle { IsIdleSeat queue.now.object seat.old.seat }
    requires asleep { (duty_as Sender (account_of_seat seat.old)).stage ≡ Asleep }
    ensures idle { IsIdleSeat queue.now.object seat.new.seat }
    ensures asleep { (duty_as Sender (account_of_seat seat.new)).stage ≡ Asleep }
{
    if !seat.see_bit(queue, Role::Sender) {
        panic!(rt; "woken");
    }
}

/// A sender that slept finds its bit clear, and gives up.
fn gives_up(rt: &impl Abort, queue: &Queue<u64>, seat: &mut SleeperSeat<u64>)
    requires idle { IsIdleSeat queue.now.object seat.old.seat }
    requires asleep { (duty_as Sender (account_of_seat seat.old)).stage ≡ Asleep }
{
    if seat.see_bit(queue, Role::Sender) {
        panic!(rt; "not woken");
    }
    seat.give_up(queue, Role::Sender);
}

#[test]
fn a_sender_sleeps_until_there_is_room(rt: HostRuntime) {
    let (queue, mut a, mut b) = open_pair(&rt, 1);
    assert_equal(&rt, b.insert(&rt, &queue, 10), Ok(0));
    assert_equal(&rt, b.look(&queue, Role::Sender, 0), 0);
    a.set_bit(&queue, Role::Sender);
    falls_asleep_full(&rt, &queue, &mut a);
    sleeps_on(&rt, &queue, &mut a);
    assert_equal(&rt, b.delete(&rt, &queue), Ok((0, 10)));
    assert_equal(&rt, b.look(&queue, Role::Sender, 0), 1);
    assert_equal(&rt, b.look(&queue, Role::Receiver, 0), 0);
    assert_equal(&rt, b.clear(&queue, Role::Sender, 0), true);
    assert_equal(&rt, b.clear(&queue, Role::Sender, 0), false);
    assert_equal(&rt, b.check_drained(&queue), false);
    gives_up(&rt, &queue, &mut a);
}

/// A receiver that sleeps takes its bit back: whether nobody has woken it.
fn takes_back(queue: &Queue<u64>, seat: &mut SleeperSeat<u64>) -> bool
    requires idle { IsIdleSeat queue.now.object seat.old.seat }
    requires asleep { (duty_as Receiver (account_of_seat seat.old)).stage ≡ Asleep }
{
    seat.take_back(queue, Role::Receiver)
}

#[test]
fn a_receiver_takes_its_bit_back(rt: HostRuntime) {
    let (queue, mut a, mut b) = open_pair(&rt, 1);
    a.set_bit(&queue, Role::Receiver);
    falls_asleep_empty(&rt, &queue, &mut a);
    assert_equal(&rt, b.look(&queue, Role::Receiver, 0), 1);
    assert_equal(&rt, takes_back(&queue, &mut a), true);
    assert_equal(&rt, b.look(&queue, Role::Receiver, 0), 0);
}

#[test]
fn a_receiver_is_woken_by_a_close(rt: HostRuntime) {
    let (queue, mut a, mut b) = open_pair(&rt, 1);
    a.set_bit(&queue, Role::Receiver);
    falls_asleep_empty(&rt, &queue, &mut a);
    assert_equal(&rt, b.shut(&queue), true);
    assert_equal(&rt, b.check_drained(&queue), true);
    assert_equal(&rt, b.clear(&queue, Role::Receiver, 0), true);
    assert_equal(&rt, takes_back(&queue, &mut a), false);
}

/// A sender that finds room does not fall asleep, nor does a receiver that finds the queue shut and empty.
#[test]
fn nobody_falls_asleep_beside_a_close(rt: HostRuntime) {
    let (queue, mut a, mut b) = open_pair(&rt, 1);
    a.set_bit(&queue, Role::Sender);
    b.set_bit(&queue, Role::Receiver);
    assert_equal(&rt, a.test_room_again(&queue), Ok(()));
    let Err(0) = b.test_item_again(&queue) else {
        panic!(rt; "an item")
    };
    assert_equal(&rt, a.shut(&queue), true);
    assert_equal(&rt, b.test_drained_again(&queue), true);
}

/// Sleeps until another seat clears the bit.
fn sleeps<R: Wait>(rt: &R, queue: &Queue<u64>, seat: &mut SleeperSeat<u64>)
    requires idle { IsIdleSeat queue.now.object seat.old.seat }
    requires asleep { (duty_as Receiver (account_of_seat seat.old)).stage ≡ Asleep }
    ensures idle { IsIdleSeat queue.now.object seat.new.seat }
{
    for _ in rt.forever() {
        if !seat.see_bit(queue, Role::Receiver) {
            return;
        }
    }
    unreachable!()
}

/// Registers as a receiver, sleeps if the queue is empty, and takes an item.
fn receives<R: Abort + Wait>(rt: &R, queue: &Queue<u64>, mut seat: SleeperSeat<u64>) -> u64
    requires idle { IsIdleSeat queue.now.object seat.seat }
    requires awake { (duty_as Receiver (account_of_seat seat)).stage ≡ Awake }
{
    seat.set_bit(queue, Role::Receiver);
    if let Err(_) = seat.test_item_again(queue) {
        if !seat.test_drained_again(queue) {
            sleeps(rt, queue, &mut seat);
        }
    }
    let (_, item) = seat.delete(rt, queue).expect(rt, "an item");
    item
}

/// Inserts an item, and wakes the seat 0 once it has registered.
fn sends<R: Abort + Wait>(rt: &R, queue: &Queue<u64>, mut seat: SleeperSeat<u64>) -> bool
    requires { IsIdleSeat queue.now.object seat.seat }
{
    let sent = seat.insert(rt, queue, 7).is_ok();
    for _ in rt.forever() {
        if seat.look(queue, Role::Receiver, 0) == 1 {
            return sent && seat.clear(queue, Role::Receiver, 0);
        }
    }
    unreachable!()
}

#[test]
fn one_thread_wakes_the_other(rt: HostRuntime) {
    let (queue, a, b) = open_pair(&rt, 1);
    let (queue, rt) = (&queue, &rt);
    let answers = join(
        rt,
        move || -> u64 { receives(rt, queue, a) },
        move || -> bool { sends(rt, queue, b) },
    );
    assert_equal(rt, answers, (7, true));
}
