//! A producer and a consumer, each in a thread of its own.

ghost use Rattle.std.specs.Prelude.{◌≡◌, [], IfSome, IsTrue};
ghost use Rattle.std.specs.List.{sum_by};
ghost use Rattle.example_backpressure.specs.Passing.{AreEnds, AreSame, Moves, nothing};

use crate::channel::{Buffer, Channel, Ends};
use crate::opening::{is_empty, open_channel};
use std::alloc::Global;
use std::sync::Wait;
use std::thread::{Threads, join};

/// Sends all buffers. Returns whether none was lost.
fn produce<R: Wait>(rt: &R, channel: &Channel, ends: &mut Ends, buffers: Vec<Buffer>) -> bool
    requires { AreEnds channel.now.queue.object channel.now.semaphore.object ends.old }
    ensures ends { AreEnds channel.now.queue.object channel.now.semaphore.object ends.new }
    ensures sent { IsTrue result → Moves (λ w. sum_by w buffers.items) nothing ends.old ends.new }
{
    for buffer in buffers {
        if !ends.send(rt, channel, buffer) {
            return false;
        }
    }
    true
}

/// Receives this many buffers, into this list. Returns whether none was lost.
fn consume<R: Wait>(
    rt: &R,
    channel: &Channel,
    ends: &mut Ends,
    count: usize,
    into: &mut Vec<Buffer>,
) -> bool
    requires ends { AreEnds channel.now.queue.object channel.now.semaphore.object ends.old }
    requires empty { into.old.items ≡ [] }
    ensures ends { AreEnds channel.now.queue.object channel.now.semaphore.object ends.new }
    ensures received { IsTrue result → Moves nothing (λ w. sum_by w into.new.items) ends.old ends.new }
{
    for _ in 0..count {
        let Some(buffer) = ends.receive(rt, channel) else {
            return false;
        };
        let Ok(()) = into.push(buffer) else {
            return false;
        };
        if !ends.make_room(rt, channel) {
            return false;
        }
    }
    true
}

/// Both at once.
fn run_both<R: Threads + Wait + Sync>(
    rt: &R,
    channel: &Channel,
    ends: (Ends, Ends),
    buffers: Vec<Buffer>,
    mut into: Vec<Buffer>,
) -> ((Ends, bool), (Ends, Vec<Buffer>, bool))
    requires first { AreEnds channel.now.queue.object channel.now.semaphore.object ends.0 }
    requires second { AreEnds channel.now.queue.object channel.now.semaphore.object ends.1 }
    requires empty { into.items ≡ [] }
    ensures first { AreEnds channel.now.queue.object channel.now.semaphore.object result.0.0 }
    ensures second { AreEnds channel.now.queue.object channel.now.semaphore.object result.1.0 }
    ensures sent { IsTrue result.0.1 → Moves (λ w. sum_by w buffers.items) nothing ends.0 result.0.0 }
    ensures received { IsTrue result.1.2 → Moves nothing (λ w. sum_by w result.1.1.items) ends.1 result.1.0 }
{
    let (mut a, mut b) = ends;
    let count = buffers.len();
    join(
        rt,
        move || -> (Ends, bool)
            requires { AreEnds channel.now.queue.object channel.now.semaphore.object a }
            ensures ends { AreEnds channel.entry.now.queue.object channel.entry.now.semaphore.object result.0 }
            ensures sent { IsTrue result.1 → Moves (λ w. sum_by w buffers.items) nothing a result.0 }
        {
            let sent = produce(rt, channel, &mut a, buffers);
            (a, sent)
        },
        move || -> (Ends, Vec<Buffer>, bool)
            requires { AreEnds channel.now.queue.object channel.now.semaphore.object b × (into.items ≡ []) }
            ensures ends { AreEnds channel.entry.now.queue.object channel.entry.now.semaphore.object result.0 }
            ensures received { IsTrue result.2 → Moves nothing (λ w. sum_by w result.1.items) b result.0 }
        {
            let all = consume(rt, channel, &mut b, count, &mut into);
            (b, into, all)
        },
    )
}

/// Sends all buffers from one thread and receives them in another, with this many on their way at once. What is received is
/// what was sent.
///
/// `None` if there was no memory, or `room` is above 4,294,967,296.
pub fn pass<R: Threads + Wait + Sync>(
    rt: &R,
    alloc: Global,
    buffers: Vec<Buffer>,
    room: u64,
) -> Option<Vec<Buffer>>
    ensures { IfSome result (λ received. AreSame received.items buffers.items) }
{
    let (channel, a, b) = open_channel(alloc, room)?;
    let ((a, sent), (b, received, all)) = run_both(rt, &channel, (a, b), buffers, Vec::new(alloc));
    if !sent || !all {
        drop(channel);
        drop(a);
        drop(b);
        return None;
    }
    if !is_empty(channel, a, b) {
        return None;
    }
    Some(received)
}
