//! Calls of one thread, in order.

use super::steps::{A, B, C, Step, walk};
use fak_channel::{ReceiveFault, SendFault};

#[test]
fn items_come_out_in_their_order(rt: HostRuntime) {
    const STEPS: &[(usize, Step)] = &[
        (A, Step::Len(0)),
        (A, Step::IsEmpty(true)),
        (A, Step::IsClosed(false)),
        (A, Step::Send(10, Ok(()))),
        (B, Step::TrySend(11, Ok(()))),
        (C, Step::SendSoon(12, Ok(()))),
        (A, Step::Len(3)),
        (B, Step::IsEmpty(false)),
        (C, Step::Receive(Ok(10))),
        (C, Step::TryReceive(Ok(11))),
        (B, Step::ReceiveSoon(Ok(12))),
        (B, Step::Len(0)),
    ];
    walk(&rt, 3, 100, STEPS);
}

#[test]
fn a_full_channel_gives_the_item_back(rt: HostRuntime) {
    const STEPS: &[(usize, Step)] = &[
        (A, Step::Send(10, Ok(()))),
        (A, Step::TrySend(11, Err(SendFault::Full { item: 11 }))),
        (A, Step::SendSoon(12, Err(SendFault::TimedOut { item: 12 }))),
        (B, Step::SendSoon(13, Err(SendFault::TimedOut { item: 13 }))),
        (A, Step::SendSoon(14, Err(SendFault::TimedOut { item: 14 }))),
        (B, Step::TrySend(15, Err(SendFault::Full { item: 15 }))),
        (C, Step::Len(1)),
        (C, Step::Receive(Ok(10))),
        (B, Step::Send(16, Ok(()))),
        (A, Step::SendSoon(17, Err(SendFault::TimedOut { item: 17 }))),
        (A, Step::Receive(Ok(16))),
        (A, Step::TrySend(18, Ok(()))),
        (A, Step::Receive(Ok(18))),
    ];
    walk(&rt, 1, 100, STEPS);
}

#[test]
fn an_empty_channel_has_nothing(rt: HostRuntime) {
    const STEPS: &[(usize, Step)] = &[
        (A, Step::TryReceive(Err(ReceiveFault::Empty))),
        (A, Step::ReceiveSoon(Err(ReceiveFault::TimedOut))),
        (B, Step::ReceiveSoon(Err(ReceiveFault::TimedOut))),
        (A, Step::ReceiveSoon(Err(ReceiveFault::TimedOut))),
        (C, Step::Send(10, Ok(()))),
        (C, Step::TryReceive(Ok(10))),
        (C, Step::Send(11, Ok(()))),
        (A, Step::Receive(Ok(11))),
        (B, Step::ReceiveSoon(Err(ReceiveFault::TimedOut))),
        (B, Step::Send(12, Ok(()))),
        (B, Step::ReceiveSoon(Ok(12))),
        (B, Step::TryReceive(Err(ReceiveFault::Empty))),
    ];
    walk(&rt, 2, 100, STEPS);
}

#[test]
fn a_closed_channel_is_drained(rt: HostRuntime) {
    const STEPS: &[(usize, Step)] = &[
        (A, Step::Send(10, Ok(()))),
        (A, Step::Send(11, Ok(()))),
        (B, Step::ReceiveSoon(Ok(10))),
        (A, Step::Send(12, Ok(()))),
        (B, Step::Close(Ok(true))),
        (B, Step::IsClosed(true)),
        (A, Step::Close(Ok(false))),
        (A, Step::Send(13, Err(SendFault::Closed { item: 13 }))),
        (C, Step::TrySend(14, Err(SendFault::Closed { item: 14 }))),
        (C, Step::SendSoon(15, Err(SendFault::Closed { item: 15 }))),
        (C, Step::Len(2)),
        (C, Step::Receive(Ok(11))),
        (A, Step::TryReceive(Ok(12))),
        (A, Step::Receive(Err(ReceiveFault::Closed))),
        (B, Step::TryReceive(Err(ReceiveFault::Closed))),
        (B, Step::ReceiveSoon(Err(ReceiveFault::Closed))),
        (A, Step::Receive(Err(ReceiveFault::Closed))),
        (A, Step::Send(16, Err(SendFault::Closed { item: 16 }))),
        (C, Step::Receive(Err(ReceiveFault::Closed))),
    ];
    walk(&rt, 2, 100, STEPS);
}

#[test]
fn a_channel_that_is_closed_empty_is_over(rt: HostRuntime) {
    const STEPS: &[(usize, Step)] = &[
        (A, Step::ReceiveSoon(Err(ReceiveFault::TimedOut))),
        (B, Step::Close(Ok(true))),
        (A, Step::Receive(Err(ReceiveFault::Closed))),
        (C, Step::Receive(Err(ReceiveFault::Closed))),
        (A, Step::ReceiveSoon(Err(ReceiveFault::Closed))),
    ];
    walk(&rt, 2, 100, STEPS);
}

#[test]
fn an_end_whose_stint_is_used_up(rt: HostRuntime) {
    const STEPS: &[(usize, Step)] = &[
        (A, Step::Send(10, Ok(()))),
        (B, Step::Receive(Ok(10))),
        (A, Step::Send(11, Ok(()))),
        (A, Step::Send(12, Err(SendFault::Worn { item: 12 }))),
        (A, Step::TrySend(13, Err(SendFault::Worn { item: 13 }))),
        (A, Step::SendSoon(14, Err(SendFault::Worn { item: 14 }))),
        (A, Step::Receive(Err(ReceiveFault::Worn))),
        (A, Step::TryReceive(Err(ReceiveFault::Worn))),
        (A, Step::ReceiveSoon(Err(ReceiveFault::Worn))),
        (A, Step::Len(1)),
        (A, Step::Close(Ok(true))),
        (A, Step::IsClosed(true)),
        (B, Step::Receive(Ok(11))),
    ];
    walk(&rt, 2, 2, STEPS);
}
