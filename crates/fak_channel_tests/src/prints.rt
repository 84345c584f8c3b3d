//! What faults and values print.

use super::assertions::{assert_shown, assert_written};
use super::steps::open;
use fak_channel::{
    ChannelWorn, Lender, LenderReceiveFault, LenderSendFault, ReceiveFault, SendFault,
};

#[test]
fn faults_say_what_was_wrong(rt: HostRuntime) {
    assert_shown(&rt, &SendFault::Worn { item: 1 }, "the stint is used up");
    assert_shown(&rt, &SendFault::Closed { item: 1 }, "the channel is closed");
    assert_shown(&rt, &SendFault::Full { item: 1 }, "the channel is full");
    assert_shown(
        &rt,
        &SendFault::TimedOut { item: 1 },
        "the channel was full until the deadline",
    );
    assert_shown(&rt, &ReceiveFault::Worn, "the stint is used up");
    assert_shown(
        &rt,
        &ReceiveFault::Closed,
        "the channel is closed, and has no item left",
    );
    assert_shown(&rt, &ReceiveFault::Empty, "the channel is empty");
    assert_shown(
        &rt,
        &ReceiveFault::TimedOut,
        "the channel was empty until the deadline",
    );
    assert_shown(&rt, &ChannelWorn, "the stint is used up");
}

#[test]
fn faults_of_a_lender_say_what_was_wrong(rt: HostRuntime) {
    assert_shown(&rt, &LenderSendFault::Busy { item: 1 }, "all ends are lent");
    let fault = SendFault::Full { item: 1 };
    assert_shown(
        &rt,
        &LenderSendFault::Refused { fault },
        "the channel is full",
    );
    assert_shown(&rt, &LenderReceiveFault::Busy, "all ends are lent");
    let fault = ReceiveFault::Empty;
    assert_shown(
        &rt,
        &LenderReceiveFault::Refused { fault },
        "the channel is empty",
    );
}

#[test]
fn values_are_written(rt: HostRuntime) {
    let (channel, seats) = open::<u64>(&rt, 4, 1, 100);
    let mut ends = channel.ends(rt.alloc(), seats).expect(&rt, "memory");
    let end = ends.pop().expect(&rt, "an end");
    assert_written(
        &rt,
        &channel,
        "Channel { queue: Queue { size: 4, .. }, .. }",
    );
    assert_written(
        &rt,
        &end,
        "End { channel: Channel { queue: Queue { size: 4, .. }, .. }, \
         seat: ChannelSeat { queue: SleeperSeat { name: 0, state: Idle, left: 100, .. }, state: Idle, .. } }",
    );
    assert_written(&rt, &SendFault::Full { item: 1 }, "Full { item: 1 }");
    let lender = Lender::new();
    lender.add(&rt, rt.alloc(), end).expect(&rt, "memory");
    assert_written(&rt, &lender, "Lender { .. }");
    let loan = lender.lend(&rt);
    assert_written(
        &rt,
        &loan,
        "Loan { end: End { channel: Channel { queue: Queue { size: 4, .. }, .. }, \
         seat: ChannelSeat { queue: SleeperSeat { name: 0, state: Idle, left: 100, .. }, state: Idle, .. } } }",
    );
    lender.take_back(&rt, loan);
}
