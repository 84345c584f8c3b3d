//! Seats that come back together, and what their objects leave.

ghost use Rattle.std.specs.Prelude.{◌≡◌};
ghost use Rattle.fak_queue.specs.BundleCalls.{IsIdleBundle};
ghost use Rattle.fak_queue.specs.Queues.{IsIdleSeat};

use super::sentinels::{begin, end};
use fak_channel::Channel;
use fak_count::{Credit, CreditTally, Room, RoomTally};
use fak_files::{FileTable, FileTally};
use fak_queue::laws::new_seats_are_idle;
use fak_queue::{Bundle, Queue, Seat, Tally};
use fak_sem::{SemTally, Semaphore};
use std::sync::Wait;

/// The seats of a room, and those of a credit.
pub(super) fn join_counts(rt: &(impl Print + AllocGlobal)) -> bool {
    let Ok((room, mut rooms)) = Room::open(rt.alloc(), 5, 2, 2) else {
        return false;
    };
    let Ok((credit, mut credits)) = Credit::open(rt.alloc(), 5, 2, 2) else {
        return false;
    };
    let (Some(second), Some(first)) = (rooms.pop(), rooms.pop()) else {
        unreachable!()
    };
    begin(rt);
    let tally = room.join(RoomTally::of(first), second);
    let is_whole_room = tally.is_whole();
    let (Some(second), Some(first)) = (credits.pop(), credits.pop()) else {
        unreachable!()
    };
    let tally = credit.join(CreditTally::of(first), second);
    end(
        rt,
        "RoomTally, CreditTally: of, join, is_whole",
        is_whole_room && tally.is_whole(),
    );
    true
}

/// Closes the queue, if the tally has all its seats. Says whether it leaves this item, and then none.
fn leaves(queue: Queue<u64>, tally: Tally<u64>, item: Option<u64>) -> bool
    requires { tally.object ≡ queue.object }
{
    if !tally.is_whole() {
        return false;
    }
    let mut rest = queue.close(tally);
    rest.next() == item && rest.next() == None
}

/// Inserts an item by a queue's first seat. Says whether it is what the queue leaves.
fn insert_and_close<R: Wait>(
    rt: &R,
    queue: Queue<u64>,
    mut first: Seat<u64>,
    second: Seat<u64>,
) -> bool
    requires first { IsIdleSeat queue.object first }
    requires second { IsIdleSeat queue.object second }
{
    let inserted = queue.insert(rt, &mut first, 10);
    let tally = queue.join(Tally::of(first), second);
    leaves(queue, tally, Some(10)) && inserted == Ok(0)
}

/// The seats of a queue.
pub(super) fn join_queue(rt: &(impl Print + AllocGlobal + Wait)) -> bool {
    let Ok((queue, mut seats)) = Queue::<u64>::open(rt.alloc(), 1, 2, 10) else {
        return false;
    };
    let Some(second) = seats.pop() else {
        unreachable!()
    };
    let Some(first) = seats.pop() else {
        unreachable!()
    };
    begin(rt);
    let are_as_expected = insert_and_close(rt, queue, first, second);
    end(
        rt,
        "Tally: of, join, is_whole, close; Rest: next",
        are_as_expected,
    );
    true
}

/// Whether a queue with this seat and this bundle leaves nothing.
fn close_with_bundle(queue: Queue<u64>, seat: Seat<u64>, bundle: Bundle<u64>) -> bool
    requires seat { IsIdleSeat queue.object seat }
    requires bundle { IsIdleBundle queue.object bundle }
{
    let tally = queue.join_bundle(Tally::of(seat), bundle);
    leaves(queue, tally, None)
}

/// A seat and a bundle of a queue, and a bundle of all seats of another.
pub(super) fn join_bundles(rt: &(impl Print + AllocGlobal)) -> bool {
    let alloc = rt.alloc();
    new_seats_are_idle::<u64>();
    let Ok((queue, mut seats)) = Queue::<u64>::open(alloc, 4, 3, 10) else {
        return false;
    };
    let Some(seat) = seats.pop() else {
        unreachable!()
    };
    let Ok(bundle) = Bundle::of(alloc, &queue, seats) else {
        return false;
    };
    let Ok((other, seats)) = Queue::<u64>::open(alloc, 4, 3, 10) else {
        return false;
    };
    let Ok(whole) = Bundle::of(alloc, &other, seats) else {
        return false;
    };
    begin(rt);
    let is_closed = close_with_bundle(queue, seat, bundle);
    let tally = Tally::of_bundle(&other, whole);
    end(
        rt,
        "Tally: of_bundle, join_bundle",
        is_closed && tally.is_whole(),
    );
    true
}

/// The seats of a semaphore.
pub(super) fn join_semaphore(rt: &(impl Print + AllocGlobal)) -> bool {
    let Ok((semaphore, mut seats)) = Semaphore::<u64>::open(rt.alloc(), 1, 4, 2, 10) else {
        return false;
    };
    let Some(second) = seats.pop() else {
        unreachable!()
    };
    let Some(first) = seats.pop() else {
        unreachable!()
    };
    begin(rt);
    let tally = semaphore.join(SemTally::of(first), second);
    let are_as_expected = tally.is_whole() && semaphore.close(tally).next() == None;
    end(rt, "SemTally: of, join, is_whole, close", are_as_expected);
    true
}

/// The seats of a file table.
pub(super) fn join_table(rt: &(impl Print + AllocGlobal)) -> bool {
    let Ok((table, mut seats)) = FileTable::open(rt.alloc(), 1, 2, 10) else {
        return false;
    };
    let Some(second) = seats.pop() else {
        unreachable!()
    };
    let Some(first) = seats.pop() else {
        unreachable!()
    };
    begin(rt);
    let tally = table.join(FileTally::of(first), second);
    let are_as_expected = tally.is_whole() && table.close(tally).get(0).inode == 0;
    end(
        rt,
        "FileTally: of, join, is_whole, close; FileRest: get",
        are_as_expected,
    );
    true
}

/// The seats of a channel.
pub(super) fn join_channel(rt: &(impl Print + AllocGlobal)) -> bool {
    let Ok((channel, mut seats)) = Channel::<u64>::open(rt.alloc(), 4, 2, 10) else {
        return false;
    };
    let Some(second) = seats.pop() else {
        unreachable!()
    };
    let Some(first) = seats.pop() else {
        unreachable!()
    };
    begin(rt);
    let tally = channel.join(channel.tally(first), second);
    let are_as_expected = tally.is_whole() && channel.into_rest(tally).next() == None;
    end(rt, "Channel: tally, join, into_rest", are_as_expected);
    true
}

/// The seats of a channel that are dealt one by one.
pub(super) fn deal_seats(rt: &(impl Print + AllocGlobal)) -> bool {
    let Ok((_channel, mut undealt)) = Channel::<u64>::open_undealt(rt.alloc(), 4, 2, 10) else {
        return false;
    };
    begin(rt);
    let are_as_expected = undealt.next().is_some()
        && undealt.next().is_some()
        && undealt.next().is_none();
    end(rt, "UndealtSeats: next", are_as_expected);
    true
}
