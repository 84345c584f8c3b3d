//! Calls of a processor on a queue.

ghost use Rattle.std.specs.Prelude.{◌≡◌, ◌+◌, [], ◌∷◌, MatchOption, IfOk, IfErr, IfSome};
ghost use Rattle.fak_queue.specs.Queues.{IsIdleSeat};
ghost use Rattle.fak_processor.specs.OnlyQueues.{IsOnlySeat, Enters, Bounces, TakesFirst, FindsNone, Shuts};
ghost use Rattle.fak_model.specs.declared.queue.Kind.TheVariants.{Close};
ghost use Rattle.fak_model.specs.Queue.{queue_rules};
ghost use Rattle.fak_processor.specs.Holding.{queue_kind};
ghost use Rattle.fak_processor.specs.Turning.{Grows};
ghost use Rattle.fak_processor.specs.Asking.{looks_of};
ghost use Rattle.fak_processor.specs.Faults.{IsSpent};
ghost use Rattle.fak_processor.specs.Moving.{GrowsAtLast, GrowsEmpty, GrowsIn, GrowsOut, GrowsShut};

use crossbeam_utils::Backoff;
use fak_count::Worn;
use fak_queue::{DeleteFault, InsertFault, Queue, Seat};
use std::sync::Wait;

/// Inserts the item, and waits while the queue is full. Returns the item if the queue is shut.
///
/// # Errors
///
/// `Worn`, if the seat has no calls left.
pub fn enter<T: Drop, R: Wait>(
    queue: &Queue<T>,
    rt: &R,
    seat: &mut Seat<T>,
    item: T,
) -> Result<Option<T>, Worn>
    requires seat { IsIdleSeat queue.now.object seat.old }
    ensures seat { IsIdleSeat queue.now.object seat.new }
    ensures same { IfOk result (λ back. IfSome back (λ x. x ≡ item)) }
    ensures grows { IfOk result (λ back. MatchOption back (GrowsIn queue.now.size item seat.old seat.new)
        (λ _. GrowsShut queue.now.size seat.old seat.new)) }
    ensures only { IsOnlySeat seat.old → IfOk result
        (λ back. MatchOption back (Enters item seat.old seat.new) (λ x. (x ≡ item) × Bounces seat.old seat.new)) }
    ensures looks { IfOk result (λ _. looks_of seat.new ≡ looks_of seat.old) }
    ensures spent { IfErr result (λ _. IsSpent seat.new) }
{
    match queue.wait_insert(rt, seat, item) {
        Ok(_) => Ok(None),
        Err(InsertFault::Worn { item: _ }) => Err(Worn),
        Err(InsertFault::Closed { item }) => Ok(Some(item)),
        Err(InsertFault::Full { upper: _, item: _ }) => unreachable!(),
    }
}

/// Inserts the item, and waits while the queue is full or shut. Nobody shuts the free queue, but no call can say so: a
/// seat knows only its own marks, and those of others that it has seen.
///
/// # Errors
///
/// `Worn`, if the seat has no calls left.
pub fn put<T: Drop, R: Wait>(
    queue: &Queue<T>,
    rt: &R,
    seat: &mut Seat<T>,
    item: T,
) -> Result<(), Worn>
    requires seat { IsIdleSeat queue.now.object seat.old }
    ensures seat { IsIdleSeat queue.now.object seat.new }
    ensures grows { IfOk result (λ _. GrowsAtLast queue.now.size item seat.old seat.new) }
    ensures only { IsOnlySeat seat.old → IfOk result (λ _. Enters item seat.old seat.new) }
    ensures spent { IfErr result (λ _. IsSpent seat.new) }
{
    let backoff = Backoff::new();
    let mut waiting = item;
    for _ in rt.forever() {
        match enter(queue, rt, seat, waiting) {
            Ok(None) => return Ok(()),
            Err(worn) => return Err(worn),
            Ok(Some(back)) => waiting = back,
        }
        backoff.snooze();
    }
    unreachable!()
}

/// Deletes the oldest item, if there is one.
///
/// # Errors
///
/// `Worn`, if the seat has no calls left.
pub fn take<T: Drop, R: Wait>(
    queue: &Queue<T>,
    rt: &R,
    seat: &mut Seat<T>,
) -> Result<Option<T>, Worn>
    requires seat { IsIdleSeat queue.now.object seat.old }
    ensures seat { IsIdleSeat queue.now.object seat.new }
    ensures grows { IfOk result (λ found. MatchOption found
        (GrowsEmpty queue.now.size seat.old seat.new) (λ x. GrowsOut queue.now.size x seat.old seat.new)) }
    ensures only { IsOnlySeat seat.old → IfOk result
        (λ found. MatchOption found (FindsNone seat.old seat.new) (λ x. TakesFirst x seat.old seat.new)) }
    ensures looks { IfOk result (λ _. looks_of seat.new ≡ looks_of seat.old + 1) }
    ensures spent { IfErr result (λ _. IsSpent seat.new) }
{
    match queue.delete(rt, seat) {
        Ok((_, item)) => Ok(Some(item)),
        Err(DeleteFault::Worn) => Err(Worn),
        Err(DeleteFault::Empty(_)) => Ok(None),
    }
}

/// Shuts the queue.
pub fn shut<T: Drop>(queue: &Queue<T>, seat: &mut Seat<T>)
    requires seat { IsIdleSeat queue.now.object seat.old }
    ensures seat { IsIdleSeat queue.now.object seat.new }
    ensures grows { Grows (queue_rules queue.now.size) queue_kind seat.old seat.new (Close ∷ []) }
    ensures looks { looks_of seat.new ≡ looks_of seat.old }
    ensures only { IsOnlySeat seat.old → Shuts seat.old seat.new }
{
    queue.shut(seat);
}
