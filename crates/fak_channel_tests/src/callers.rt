//! What callers can conclude from the clauses of an end, in public terms.

ghost use Rattle.std.specs.Prelude.{◌≡◌, ℕ, [], Some, IfErr, IfOk};
ghost use Rattle.fak_model.specs.Queue.{contents, item_at, items_put};

#[cfg(test)]
use super::assertions::assert_equal;
#[cfg(test)]
use super::steps::open;
use fak_channel::{End, ReceiveFault};
use fak_queue::laws::a_drained_queue_stays_empty;
use std::sync::Wait;

/// Receives an item. If the channel is closed and drained, the end has seen that nothing is left in it.
pub fn next<R: Wait>(rt: &R, end: &mut End<'_, u64>) -> Result<u64, ReceiveFault>
    ensures { result ≡ Err ReceiveFault.Closed → contents end.new.seat.queue.seat.seen ≡ [] }
{
    a_drained_queue_stays_empty::<u64>();
    end.receive(rt)
}

/// Sends the item, or gives it back.
pub fn offer<R: Wait>(rt: &R, end: &mut End<'_, u64>, item: u64) -> Result<(), u64>
    ensures sent { IfOk result (λ _. (k : ℕ) × (item_at (items_put end.new.seat.queue.seat.seen) k ≡ Some item)) }
    ensures back { IfErr result (λ x. x ≡ item) }
{
    match end.send(rt, item) {
        Ok(()) => Ok(()),
        Err(fault) => Err(fault.into_item()),
    }
}

#[test]
fn an_offer_comes_back_from_a_closed_channel(rt: HostRuntime) {
    let (channel, seats) = open::<u64>(&rt, 1, 1, 100);
    let mut ends = channel.ends(rt.alloc(), seats).expect(&rt, "memory");
    let mut end = ends.pop().expect(&rt, "an end");
    assert_equal(&rt, offer(&rt, &mut end, 10), Ok(()));
    assert_equal(&rt, end.close(&rt), Ok(true));
    assert_equal(&rt, offer(&rt, &mut end, 11), Err(11));
    assert_equal(&rt, next(&rt, &mut end), Ok(10));
    assert_equal(&rt, next(&rt, &mut end), Err(ReceiveFault::Closed));
}
