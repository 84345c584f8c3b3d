//! Bursts of a bundle, and calls of seats next to it, whose results a test knows. Items are consecutive numbers.

ghost use Rattle.std.specs.Prelude.{◌≡◌, ◌≤◌, All};
ghost use Rattle.std.specs.VecDeque.{deque_capacity, deque_len};
ghost use Rattle.fak_queue.specs.BundleCalls.{IsIdleBundle};

use super::assertions::assert_case;
use super::items::add;
use super::steps::{Step, close, meets, open, take};
use fak_queue::{Bundle, BundleState, Burst, BurstFault, DeleteFault, Queue, Rest, Seat, Tally};
use std::collections::VecDeque;
use std::process::Abort;
use std::sync::Wait;

/// A call of a bundle, or of a seat next to it, and what it must return.
#[derive(Drop)]
pub enum BurstStep {
    /// This many items from the first on: the first ticket, and how many were granted.
    Insert(u64, u64, Result<(u64, u64), BurstFault>),
    /// The same by a call that waits.
    WaitInsert(u64, u64, Result<(u64, u64), BurstFault>),
    /// The same by a claim.
    Claim(u64, u64, Result<(u64, u64), BurstFault>),
    /// How many insertions are left.
    TryFill(u64),
    /// At most this many items: the first ticket, and how many there were; and the first item.
    Delete(u64, Result<(u64, u64), DeleteFault>, u64),
    /// The same by a call that waits.
    WaitDelete(u64, Result<(u64, u64), DeleteFault>, u64),
    /// The same by a claim, which hands out no item.
    ClaimOut(u64, Result<(u64, u64), DeleteFault>),
    /// How many deletions are left; the first item that came out, and how many did.
    TryTake(u64, u64, u64),
    /// The state of the bundle.
    State(BundleState),
    /// The tickets that are left.
    Left(u64),
    /// A step of the seat of this number.
    Of(usize, Step<u64>),
}

/// Adds the number at the back.
pub fn push(rt: &impl Abort, items: &mut VecDeque<u64>, item: u64) {
    let Ok(()) = items.push_back(item) else {
        panic!(rt; "no memory for an item")
    };
}

/// This many numbers from the first on.
pub fn numbers(rt: &(impl Abort + AllocGlobal), first: u64, count: u64) -> VecDeque<u64> {
    let mut items = VecDeque::new(rt.alloc());
    for i in 0..count {
        push(rt, &mut items, first.wrapping_add(i));
    }
    items
}

/// Room for this many numbers.
pub fn room_for(rt: &(impl Abort + AllocGlobal), count: u64) -> VecDeque<u64>
    ensures { (deque_len result ≡ 0) × (count ≤ deque_capacity result) }
{
    let Ok(items) = VecDeque::with_capacity(rt.alloc(), count as usize) else {
        panic!(rt; "no memory for items")
    };
    items
}

/// Whether these are this many numbers from the first on, in their order.
pub fn are_from(mut items: VecDeque<u64>, first: u64, count: u64) -> bool {
    if items.len() as u64 != count {
        return false;
    }
    for i in 0..count {
        if items.pop_front() != Some(first.wrapping_add(i)) {
            return false;
        }
    }
    true
}

/// The tickets of a burst, as a row has them. If the burst was refused, the fault.
fn row_of<E>(answer: Result<Burst, E>) -> Result<(u64, u64), E> {
    match answer {
        Ok(burst) => Ok((burst.ticket, burst.count)),
        Err(fault) => Err(fault),
    }
}

/// The number of items that this result grants.
pub fn granted<E: Drop>(answer: Result<(u64, u64), E>) -> u64 {
    match answer {
        Ok((_, count)) => count,
        Err(_) => 0,
    }
}

/// Inserts this many numbers from the first on. Those that are not granted must stay, in their order.
pub fn insert_numbers<R: Abort + AllocGlobal + Wait>(
    rt: &R,
    queue: &Queue<u64>,
    bundle: &mut Bundle<u64>,
    first: u64,
    count: u64,
) -> Result<(u64, u64), BurstFault>
    requires { IsIdleBundle queue.now.object bundle.old }
    ensures { IsIdleBundle queue.now.object bundle.new }
{
    let mut items = numbers(rt, first, count);
    if items.is_empty() {
        panic!(rt; "a burst of no items")
    }
    let answer = row_of(queue.insert_burst(rt, bundle, &mut items));
    assert_stay(rt, items, first, count, granted(answer));
    answer
}

/// The same by a call that waits.
fn wait_insert_numbers<R: Abort + AllocGlobal + Wait>(
    rt: &R,
    queue: &Queue<u64>,
    bundle: &mut Bundle<u64>,
    first: u64,
    count: u64,
) -> Result<(u64, u64), BurstFault>
    requires { IsIdleBundle queue.now.object bundle.old }
    ensures { IsIdleBundle queue.now.object bundle.new }
{
    let mut items = numbers(rt, first, count);
    if items.is_empty() {
        panic!(rt; "a burst of no items")
    }
    let answer = row_of(queue.wait_insert_burst(rt, bundle, &mut items));
    assert_stay(rt, items, first, count, granted(answer));
    answer
}

/// The same by a claim.
fn claim_numbers<R: Abort + AllocGlobal>(
    rt: &R,
    queue: &Queue<u64>,
    bundle: &mut Bundle<u64>,
    first: u64,
    count: u64,
) -> Result<(u64, u64), BurstFault>
    requires { IsIdleBundle queue.now.object bundle.old }
    ensures { bundle.new.object ≡ queue.now.object }
{
    let mut items = numbers(rt, first, count);
    if items.is_empty() {
        panic!(rt; "a burst of no items")
    }
    let answer = row_of(queue.claim_insert_burst(bundle, &mut items));
    assert_stay(rt, items, first, count, granted(answer));
    answer
}

/// Stops unless exactly the numbers after the granted ones stay.
fn assert_stay(rt: &impl Abort, items: VecDeque<u64>, first: u64, count: u64, granted: u64) {
    let last = first.wrapping_add(granted);
    assert_case(
        rt,
        &first,
        are_from(items, last, count.wrapping_sub(granted)),
    );
}

/// Deletes at most this many items. Returns the tickets with the items.
pub fn delete_numbers<R: Abort + AllocGlobal + Wait>(
    rt: &R,
    queue: &Queue<u64>,
    bundle: &mut Bundle<u64>,
    most: u64,
) -> (Result<(u64, u64), DeleteFault>, VecDeque<u64>)
    requires { IsIdleBundle queue.now.object bundle.old }
    ensures { IsIdleBundle queue.now.object bundle.new }
{
    if most == 0 {
        panic!(rt; "a burst of no items")
    }
    let mut out = room_for(rt, most);
    let answer = row_of(queue.delete_burst(rt, bundle, most, &mut out));
    (answer, out)
}

/// The same by a call that waits.
pub fn wait_delete_numbers<R: Abort + AllocGlobal + Wait>(
    rt: &R,
    queue: &Queue<u64>,
    bundle: &mut Bundle<u64>,
    most: u64,
) -> (Result<(u64, u64), DeleteFault>, VecDeque<u64>)
    requires { IsIdleBundle queue.now.object bundle.old }
    ensures { IsIdleBundle queue.now.object bundle.new }
{
    if most == 0 {
        panic!(rt; "a burst of no items")
    }
    let mut out = room_for(rt, most);
    let answer = row_of(queue.wait_delete_burst(rt, bundle, most, &mut out));
    (answer, out)
}

/// Whether the claim of at most this many items returns this.
fn claims_out<R: Abort>(
    rt: &R,
    queue: &Queue<u64>,
    bundle: &mut Bundle<u64>,
    most: u64,
    answer: &Result<(u64, u64), DeleteFault>,
) -> bool
    requires { IsIdleBundle queue.now.object bundle.old }
    ensures { bundle.new.object ≡ queue.now.object }
{
    if most == 0 {
        panic!(rt; "a burst of no items")
    }
    row_of(queue.claim_delete_burst(bundle, most)) == *answer
}

impl BurstStep {
    /// Performs the call. Returns whether its result is the wanted one.
    fn is_met<R: Abort + AllocGlobal + Wait>(
        &self,
        rt: &R,
        queue: &Queue<u64>,
        bundle: &mut Bundle<u64>,
    ) -> bool
        requires { bundle.old.object ≡ queue.now.object }
        ensures { bundle.new.object ≡ queue.now.object }
    {
        match (bundle.state(), self) {
            (BundleState::Idle, BurstStep::Insert(first, count, answer)) => {
                insert_numbers(rt, queue, bundle, *first, *count) == *answer
            }
            (BundleState::Idle, BurstStep::WaitInsert(first, count, answer)) => {
                wait_insert_numbers(rt, queue, bundle, *first, *count) == *answer
            }
            (BundleState::Idle, BurstStep::Claim(first, count, answer)) => {
                claim_numbers(rt, queue, bundle, *first, *count) == *answer
            }
            (
                BundleState::Inserting {
                    ticket: _,
                    ended: _,
                    granted: _,
                },
                BurstStep::TryFill(left),
            ) => { queue.try_fill_burst(bundle) == *left }
            (BundleState::Idle, BurstStep::Delete(most, answer, first)) => {
                let (found, items) = delete_numbers(rt, queue, bundle, *most);
                found == *answer && are_from(items, *first, granted(found))
            }
            (BundleState::Idle, BurstStep::WaitDelete(most, answer, first)) => {
                let (found, items) = wait_delete_numbers(rt, queue, bundle, *most);
                found == *answer && are_from(items, *first, granted(found))
            }
            (BundleState::Idle, BurstStep::ClaimOut(most, answer)) => {
                claims_out(rt, queue, bundle, *most, answer)
            }
            (
                BundleState::Deleting {
                    ticket: _,
                    ended,
                    granted,
                },
                BurstStep::TryTake(left, first, count),
            ) => {
                let mut out = room_for(rt, granted.wrapping_sub(ended));
                queue.try_take_burst(bundle, &mut out) == *left && are_from(out, *first, *count)
            }
            (state, BurstStep::State(wanted)) => state == *wanted,
            (_, BurstStep::Left(left)) => bundle.left() == *left,
            _ => false,
        }
    }
}

/// Walks the steps in their order.
pub fn walk_bursts<R: Abort + AllocGlobal + Wait>(
    rt: &R,
    queue: &Queue<u64>,
    bundle: &mut Bundle<u64>,
    seats: &mut Vec<Seat<u64>>,
    steps: &[BurstStep],
)
    requires bundle { bundle.old.object ≡ queue.now.object }
    requires seats { All (λ s. s.object ≡ queue.now.object) seats.old.items }
    ensures bundle { bundle.new.object ≡ queue.now.object }
    ensures seats { All (λ s. s.object ≡ queue.now.object) seats.new.items }
{
    for (row, step) in steps.iter().enumerate() {
        let holds = match step {
            BurstStep::Of(name, step) => meets(rt, queue, seats, *name, step),
            step => step.is_met(rt, queue, bundle),
        };
        assert_case(rt, &row, holds);
    }
}

/// The bundle of this many of the seats, the last ones.
pub fn bundle_of<T: Drop>(
    rt: &(impl Abort + AllocGlobal),
    queue: &Queue<T>,
    seats: &mut Vec<Seat<T>>,
    count: u64,
) -> Bundle<T>
    requires { All (λ s. s.object ≡ queue.now.object) seats.old.items }
    ensures bundle { IsIdleBundle queue.now.object result }
    ensures seats { All (λ s. s.object ≡ queue.now.object) seats.new.items }
{
    let mut own = Vec::new(rt.alloc());
    for _ in 0..count {
        add(rt, &mut own, take(rt, queue, seats));
    }
    Bundle::of(rt.alloc(), queue, own).expect(rt, "a bundle")
}

/// A queue with a bundle of this many seats, and with this many seats next to it.
pub fn open_bundle(
    rt: &(impl Abort + AllocGlobal),
    size: u64,
    bundled: u64,
    beside: u64,
    stint: u64,
) -> (Queue<u64>, Bundle<u64>, Vec<Seat<u64>>)
    ensures bundle { IsIdleBundle result.0.object result.1 }
    ensures seats { All (λ s. s.object ≡ result.0.object) result.2.items }
{
    let (queue, mut seats) = open(rt, (size, bundled.wrapping_add(beside), stint));
    let bundle = bundle_of(rt, &queue, &mut seats, bundled);
    (queue, bundle, seats)
}

/// Stops if the bundle has an open burst.
pub fn assert_idle_bundle<T: Drop>(rt: &impl Abort, queue: &Queue<T>, bundle: &Bundle<T>)
    requires { bundle.now.object ≡ queue.now.object }
    ensures { IsIdleBundle queue.now.object bundle.now }
{
    let BundleState::Idle = bundle.state() else {
        panic!(rt; "a bundle in mid-burst")
    };
}

/// The items that are left, if these are all the seats.
pub fn close_with_bundle<T: Drop>(
    rt: &impl Abort,
    queue: Queue<T>,
    bundle: Bundle<T>,
    mut seats: Vec<Seat<T>>,
) -> Rest<T>
    requires bundle { bundle.object ≡ queue.object }
    requires seats { All (λ s. s.object ≡ queue.object) seats.items }
{
    assert_idle_bundle(rt, &queue, &bundle);
    let mut tally = Tally::of_bundle(&queue, bundle);
    for _ in 0..seats.len() {
        tally = queue.join(tally, take(rt, &queue, &mut seats));
    }
    close(rt, queue, tally)
}
