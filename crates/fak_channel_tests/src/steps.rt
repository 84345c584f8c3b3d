//! Steps of ends, as rows of tests: which end performs which call, and what it returns.

ghost use Rattle.std.specs.Prelude.{All};
ghost use Rattle.fak_channel.specs.Standings.{IsSeatOf};

use fak_channel::{Channel, ChannelSeat, ChannelWorn, End, ReceiveFault, SendFault};
use std::process::Abort;
use std::sync::Wait;
use std::time::{Clock, Duration, Instant};

/// The ends of a test, by their numbers.
pub(crate) const A: usize = 0;

/// The second end.
pub(crate) const B: usize = 1;

/// The third end.
pub(crate) const C: usize = 2;

/// What a send returns.
pub(crate) type Sent = Result<(), SendFault<u64>>;

/// What a receive returns.
pub(crate) type Received = Result<u64, ReceiveFault>;

/// A call with its result. `Soon` is a call whose deadline is a millisecond later.
#[derive(Debug)]
pub(crate) enum Step {
    Send(u64, Sent),
    TrySend(u64, Sent),
    SendSoon(u64, Sent),
    Receive(Received),
    TryReceive(Received),
    ReceiveSoon(Received),
    Close(Result<bool, ChannelWorn>),
    Len(u64),
    IsEmpty(bool),
    IsClosed(bool),
}

/// The time `millis` milliseconds from now.
pub(crate) fn soon<R: Abort + Clock>(rt: &R, millis: u64) -> Instant {
    let now = Instant::now(rt).ok().expect(rt, "a clock");
    now.checked_add(Duration::from_millis(millis))
        .expect(rt, "a time")
}

/// Performs the call. Returns whether the result was the expected one.
pub(crate) fn meets<R: Abort + Wait + Clock>(rt: &R, end: &mut End<'_, u64>, step: &Step) -> bool {
    match step {
        Step::Send(item, answer) => end.send(rt, *item) == *answer,
        Step::TrySend(item, answer) => end.try_send(rt, *item) == *answer,
        Step::SendSoon(item, answer) => end.send_deadline(rt, *item, soon(rt, 1)) == *answer,
        Step::Receive(answer) => end.receive(rt) == *answer,
        Step::TryReceive(answer) => end.try_receive(rt) == *answer,
        Step::ReceiveSoon(answer) => end.receive_deadline(rt, soon(rt, 1)) == *answer,
        Step::Close(answer) => end.close(rt) == *answer,
        Step::Len(answer) => end.len() == *answer,
        Step::IsEmpty(answer) => end.is_empty() == *answer,
        Step::IsClosed(answer) => end.is_closed() == *answer,
    }
}

/// A channel of `size` cells, with seats for `ends` ends, of this stint.
pub(crate) fn open<T: Drop>(
    rt: &(impl Abort + AllocGlobal),
    size: u64,
    ends: u64,
    stint: u64,
) -> (Channel<T>, Vec<ChannelSeat<T>>)
    ensures { All (λ s. IsSeatOf result.0 s) result.1.items }
{
    match Channel::open(rt.alloc(), size, ends, stint) {
        Ok((channel, seats)) => (channel, seats),
        Err(_) => panic!(rt; "a channel"),
    }
}

/// Opens a channel of `size` cells with three ends and this stint, in which the ends perform the calls in their order.
pub(crate) fn walk<R: Abort + AllocGlobal + Wait + Clock>(
    rt: &R,
    size: u64,
    stint: u64,
    steps: &[(usize, Step)],
) {
    let (channel, seats) = open(rt, size, 3, stint);
    let mut ends = channel.ends(rt.alloc(), seats).expect(rt, "memory");
    for (row, (who, step)) in steps.iter().enumerate() {
        let end = ends.get_mut(*who).expect(rt, "an end");
        let holds = meets(rt, end, step);
        assert!(rt; holds, "row {row}: {step:?}");
    }
}
