//! Ports: a semaphore and one of its seats as one value. The calls of a port require nothing, so their callers state nothing.

use super::assertions::{assert_equal, assert_written};
use super::steps::{leaves_nothing, open, take};
use fak_sem::{DownFault, SemPort, SemTally, SemWorn, StepPort, StepState, UpFault, Worn};
use std::process::Abort;
use std::sync::Wait;
use std::thread::join;

/// A step of a port, and what it should return.
#[derive(Drop)]
enum Call {
    Down(u64, Result<Option<u64>, DownFault<u64>>),
    Park(Option<bool>),
    Up(Result<bool, UpFault>),
    Wake(Option<Option<u64>>),
}

/// Takes the step. Returns whether it returned this and left the seat in this state, with this many calls left.
fn meets(port: &mut StepPort<'_, u64>, call: &Call, stands: StepState, left: u64) -> bool {
    let met = match call {
        Call::Down(who, returned) => port.claim_down(*who) == *returned,
        Call::Park(returned) => port.try_park() == *returned,
        Call::Up(returned) => port.claim_up() == *returned,
        Call::Wake(returned) => port.try_wake() == *returned,
    };
    met && port.state() == stands && port.left() == left
}

#[test]
fn a_port_makes_downs_and_ups(rt: HostRuntime) {
    let (semaphore, mut seats) = open::<u64>(&rt, rt.alloc(), (1, 4, 1, 4));
    let mut port = SemPort::new(&semaphore, take(&rt, &semaphore, &mut seats));
    assert_equal(&rt, port.down(&rt, 5), Ok(Some(5)));
    assert_equal(&rt, port.down(&rt, 6), Ok(None));
    assert_equal(&rt, port.left(), 2);
    assert_equal(&rt, port.up(&rt), Ok(Some(6)));
    assert_equal(&rt, port.up(&rt), Ok(None));
    assert_equal(&rt, port.up(&rt), Err(Worn));
    assert_equal(&rt, port.down(&rt, 7), Err(SemWorn(7)));
    assert_equal(&rt, port.left(), 0);
    let tally = SemTally::of(port.into_seat());
    leaves_nothing(&rt, semaphore, tally);
}

#[test]
fn a_port_goes_by_steps(rt: HostRuntime) {
    use Call::{Down, Park, Up, Wake};
    use StepState::{Idle, Parking, Waking};
    const ROWS: &[(Call, StepState, u64)] = &[
        (Park(None), Idle, 5),
        (Wake(None), Idle, 5),
        (Down(5, Ok(Some(5))), Idle, 4),
        (Down(6, Ok(None)), Parking, 3),
        (Down(7, Err(DownFault::InCall { item: 7 })), Parking, 3),
        (Up(Err(UpFault::InCall)), Parking, 3),
        (Wake(None), Parking, 3),
        (Park(Some(true)), Idle, 3),
        (Up(Ok(true)), Waking, 2),
        (Up(Err(UpFault::InCall)), Waking, 2),
        (Down(7, Err(DownFault::InCall { item: 7 })), Waking, 2),
        (Park(None), Waking, 2),
        (Wake(Some(Some(6))), Idle, 2),
        (Up(Ok(false)), Idle, 1),
        (Up(Ok(false)), Idle, 0),
        (Up(Err(UpFault::Worn)), Idle, 0),
        (Down(8, Err(DownFault::Worn { item: 8 })), Idle, 0),
    ];
    let (semaphore, mut seats) = open::<u64>(&rt, rt.alloc(), (1, 1, 1, 5));
    let mut port = StepPort::new(&semaphore, take(&rt, &semaphore, &mut seats));
    for (row, (call, stands, left)) in ROWS.iter().enumerate() {
        if !meets(&mut port, call, *stands, *left) {
            panic!(rt; "row {row}")
        }
    }
    let Ok(seat) = port.into_seat() else {
        panic!(rt; "a call is open")
    };
    assert_equal(&rt, SemTally::of(seat).is_whole(), true);
}

#[test]
fn steps_of_two_ports(rt: HostRuntime) {
    let (semaphore, mut seats) = open::<u64>(&rt, rt.alloc(), (0, 1, 2, 3));
    let mut a = StepPort::new(&semaphore, take(&rt, &semaphore, &mut seats));
    let mut b = StepPort::new(&semaphore, take(&rt, &semaphore, &mut seats));
    assert_equal(&rt, a.claim_down(1), Ok(None));
    assert_equal(&rt, b.claim_up(), Ok(true));
    // the item is not in its cell yet, so there is none to claim
    assert_equal(&rt, b.try_wake(), Some(None));
    let Err(mut a) = a.into_seat() else {
        panic!(rt; "a seat in mid-down")
    };
    assert_equal(&rt, a.try_park(), Some(true));
    assert_equal(&rt, b.try_wake(), Some(None));
    assert_equal(&rt, b.try_wake(), Some(Some(1)));
    let Ok(seat) = a.into_seat() else {
        panic!(rt; "a call is open")
    };
    assert_equal(&rt, SemPort::new(&semaphore, seat).left(), 2);
}

#[test]
fn ports_print_their_semaphore_and_their_seat(rt: HostRuntime) {
    let (semaphore, mut seats) = open::<u64>(&rt, rt.alloc(), (3, 4, 2, 9));
    let waits = SemPort::new(&semaphore, take(&rt, &semaphore, &mut seats));
    let steps = StepPort::new(&semaphore, take(&rt, &semaphore, &mut seats));
    let text = "SemPort { semaphore: Semaphore { .. }, seat: SemSeat { start: 3, left: 9, .. } }";
    assert_written(&rt, &waits, text);
    let text =
        "StepPort { semaphore: Semaphore { .. }, seat: StepSeat { start: 3, left: 9, state: Idle, .. } }";
    assert_written(&rt, &steps, text);
}

/// Performs downs of the numbers below `count`. Returns the sum of those that passed.
fn down_below<R: Abort + Wait>(rt: &R, mut port: SemPort<'_, u64>, count: u64) -> u64 {
    let mut sum = 0u64;
    for item in 0..count {
        if let Some(passed) = port.down(rt, item).expect(rt, "a down") {
            sum = sum.wrapping_add(passed);
        }
    }
    sum
}

/// Performs this many ups. Returns the sum of the items that were woken.
fn up_often<R: Abort + Wait>(rt: &R, mut port: SemPort<'_, u64>, count: u64) -> u64 {
    let mut sum = 0u64;
    for _ in 0..count {
        if let Some(woken) = port.up(rt).expect(rt, "an up") {
            sum = sum.wrapping_add(woken);
        }
    }
    sum
}

#[test]
fn ports_of_two_threads(rt: HostRuntime) {
    let (semaphore, mut seats) = open::<u64>(&rt, rt.alloc(), (0, 2, 2, 1000));
    let first = SemPort::new(&semaphore, take(&rt, &semaphore, &mut seats));
    let second = SemPort::new(&semaphore, take(&rt, &semaphore, &mut seats));
    let rt = &rt;
    let (passed, woken) = join(
        rt,
        move || -> u64 { down_below(rt, first, 1000) },
        move || -> u64 { up_often(rt, second, 1000) },
    );
    // each item passed or was woken, and none did both
    assert_equal(rt, passed.wrapping_add(woken), 499_500);
}
