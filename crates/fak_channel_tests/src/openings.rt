//! Which channels are opened, and what they leave.

ghost use Rattle.std.specs.List.{All};
ghost use Rattle.fak_channel.specs.Standings.{IsSeatOf};

use super::assertions::assert_equal;
use fak_channel::{
    Channel, ChannelSeat, End, LARGE_SEATS, LARGE_SIZE, LARGE_TICKETS, LargeFault, Tally,
};
use std::process::Abort;

/// Why no channel of these numbers is opened.
fn fault_of(
    rt: &(impl Abort + AllocGlobal),
    size: u64,
    ends: u64,
    stint: u64,
) -> Option<LargeFault> {
    Channel::<u64>::open(rt.alloc(), size, ends, stint).err()
}

#[test]
fn channels_on_both_sides_of_each_limit(rt: HostRuntime) {
    const ROWS: &[(u64, u64, u64, Option<LargeFault>)] = &[
        (1, 1, 1, None),
        (0, 1, 1, Some(LargeFault::BadSize)),
        (LARGE_SIZE + 1, 0, 0, Some(LargeFault::BadSize)),
        (4097, 2, 9, None),
        (1, 0, 1, Some(LargeFault::BadSeats)),
        (1, LARGE_SEATS, 1, None),
        (1, LARGE_SEATS + 1, 0, Some(LargeFault::BadSeats)),
        (1, 1, 0, Some(LargeFault::BadStint)),
        (1, 2, LARGE_TICKETS / 2, None),
        (1, 2, LARGE_TICKETS / 2 + 1, Some(LargeFault::BadStint)),
    ];
    for (size, ends, stint, fault) in ROWS {
        assert_equal(&rt, fault_of(&rt, *size, *ends, *stint), *fault);
    }
}

/// Takes the last of the seats.
fn take_seat<T>(
    rt: &impl Abort,
    channel: &Channel<T>,
    seats: &mut Vec<ChannelSeat<T>>,
) -> ChannelSeat<T>
    requires { All (IsSeatOf channel.now) seats.old.items }
    ensures others { All (IsSeatOf channel.now) seats.new.items }
    ensures seat { IsSeatOf channel.now result }
{
    let _channel = channel;
    seats.pop().expect(rt, "a seat")
}

#[test]
fn items_that_nobody_received_are_left(rt: HostRuntime) {
    let Ok((channel, mut seats)) = Channel::open(rt.alloc(), 4, 1, 100) else {
        panic!(&rt; "a channel")
    };
    let mut end = End::new(&channel, take_seat(&rt, &channel, &mut seats));
    assert_equal(&rt, end.send(&rt, 10), Ok(()));
    assert_equal(&rt, end.send(&rt, 11), Ok(()));
    assert_equal(&rt, end.send(&rt, 12), Ok(()));
    assert_equal(&rt, end.receive(&rt), Ok(10));
    let tally = channel.tally(end.into_seat());
    let mut rest = channel.into_rest(tally);
    assert_equal(&rt, rest.next(), Some(11));
    assert_equal(&rt, rest.next(), Some(12));
    assert_equal(&rt, rest.next(), None);
}

#[test]
fn seats_are_joined(rt: HostRuntime) {
    let Ok((channel, mut seats)) = Channel::<u64>::open(rt.alloc(), 4, 2, 100) else {
        panic!(&rt; "a channel")
    };
    let second = take_seat(&rt, &channel, &mut seats);
    let first = take_seat(&rt, &channel, &mut seats);
    let tally: Tally<u64> = channel.tally(first);
    assert_equal(&rt, tally.is_whole(), false);
    let tally = channel.join(tally, second);
    assert_equal(&rt, tally.is_whole(), true);
}
