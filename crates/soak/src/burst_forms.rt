//! Bursts in each of their forms. A burst by steps is claimed by one call, and ended by the calls that follow.

ghost use Rattle.std.specs.Prelude.{◌≡◌, ◌<◌, ◌≤◌, length};
ghost use Rattle.std.specs.VecDeque.{deque_capacity, deque_len};
ghost use Rattle.fak_queue.specs.BundleCalls.{IsIdleBundle};

use crate::forms::Form;
use crate::items::Arrivals;
use fak_queue::{Bundle, BundleState, Burst, Queue};
use std::collections::VecDeque;
use std::sync::Wait;

/// The number of items of a burst; none if it was refused.
fn granted<E: Drop>(burst: Result<Burst, E>) -> u64 {
    match burst {
        Ok(burst) => burst.count,
        Err(_) => 0,
    }
}

/// Inserts the first of these numbers by a burst of this form. Returns how many were granted.
fn begin_insert<R: Wait>(
    rt: &R,
    queue: &Queue<u64>,
    bundle: &mut Bundle<u64>,
    form: Form,
    items: &mut VecDeque<u64>,
) -> u64
    requires idle { IsIdleBundle queue.now.object bundle.old }
    requires some { 0 < length items.old.items }
    ensures { bundle.new.object ≡ queue.now.object }
{
    match form {
        Form::Waiting => granted(queue.wait_insert_burst(rt, bundle, items)),
        Form::Attempts => granted(queue.insert_burst(rt, bundle, items)),
        Form::Steps => granted(queue.claim_insert_burst(bundle, items)),
    }
}

/// Performs one call of a bundle that inserts: a try if its burst is open, otherwise a burst of this form if there are numbers.
/// Returns how many were granted.
pub fn insert_some<R: Wait>(
    rt: &R,
    queue: &Queue<u64>,
    bundle: &mut Bundle<u64>,
    form: Form,
    items: &mut VecDeque<u64>,
) -> u64
    requires { bundle.old.object ≡ queue.now.object }
    ensures { bundle.new.object ≡ queue.now.object }
{
    match bundle.state() {
        BundleState::Idle if !items.is_empty() => begin_insert(rt, queue, bundle, form, items),
        BundleState::Inserting {
            ticket: _,
            ended: _,
            granted: _,
        } => {
            queue.try_fill_burst(bundle);
            0
        }
        _ => 0,
    }
}

/// Deletes at most this many numbers by a burst of this form. Returns how many were granted.
fn begin_delete<R: Wait>(
    rt: &R,
    queue: &Queue<u64>,
    bundle: &mut Bundle<u64>,
    form: Form,
    most: u64,
    items: &mut VecDeque<u64>,
) -> u64
    requires idle { IsIdleBundle queue.now.object bundle.old }
    requires some { 0 < most }
    requires room { (deque_len items.old ≡ 0) × (most ≤ deque_capacity items.old) }
    ensures { bundle.new.object ≡ queue.now.object }
{
    match form {
        Form::Waiting => granted(queue.wait_delete_burst(rt, bundle, most, items)),
        Form::Attempts => granted(queue.delete_burst(rt, bundle, most, items)),
        Form::Steps => granted(queue.claim_delete_burst(bundle, most)),
    }
}

/// Performs one call of a bundle that deletes: a try if its burst is open, otherwise a burst of this form, of at most this many
/// numbers and no more than the list has room for. Returns how many were granted.
pub fn delete_some<R: Wait>(
    rt: &R,
    queue: &Queue<u64>,
    bundle: &mut Bundle<u64>,
    form: Form,
    most: u64,
    items: &mut VecDeque<u64>,
) -> u64
    requires object { bundle.old.object ≡ queue.now.object }
    requires none { deque_len items.old ≡ 0 }
    ensures { bundle.new.object ≡ queue.now.object }
{
    let room = items.capacity() as u64;
    let most = most.min(room);
    match bundle.state() {
        BundleState::Idle if most > 0 => begin_delete(rt, queue, bundle, form, most, items),
        BundleState::Deleting {
            ticket: _,
            ended,
            granted,
        } if granted.wrapping_sub(ended) <= room => {
            queue.try_take_burst(bundle, items);
            0
        }
        _ => 0,
    }
}

/// Takes the numbers out of the list, and adds them to those that have come.
pub fn drain(items: &mut VecDeque<u64>, arrivals: &mut Arrivals)
    ensures { deque_len items.new ≡ 0 }
{
    while let Some(item) = items.pop_front() {
        arrivals.add(item);
    }
}
