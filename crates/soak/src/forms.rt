//! Insertions and deletions in each of their forms.

ghost use Rattle.std.specs.Prelude.{◌≡◌, ℕ};
ghost use Rattle.fak_queue.specs.declared.state.SeatState.TheVariants.{Deleting, Inserting};
ghost use Rattle.fak_queue.specs.Queues.{IsIdleSeat, state_of};

use crossbeam_utils::Backoff;
use fak_queue::{DeleteFault, InsertFault, Queue, Seat};
use std::sync::Wait;

/// The form of a call.
#[derive(Clone, Copy, Drop)]
pub enum Form {
    /// A call that waits.
    Waiting,
    /// An attempt, which is repeated if it is refused.
    Attempts,
    /// A claim, which is repeated if it is refused, and then a step, which is repeated until it is done.
    Steps,
}

impl Form {
    /// The form of this number: each form in turn.
    pub fn of(number: u64) -> Form {
        match number % 3 {
            0 => Form::Waiting,
            1 => Form::Attempts,
            _ => Form::Steps,
        }
    }
}

/// Inserts the item in this form. Returns false if the seat is worn or the queue is shut.
pub fn put<T: Drop, R: Wait>(
    rt: &R,
    queue: &Queue<T>,
    seat: &mut Seat<T>,
    form: Form,
    item: T,
) -> bool
    requires { IsIdleSeat queue.now.object seat.old }
    ensures { IsIdleSeat queue.now.object seat.new }
{
    match form {
        Form::Waiting => queue.wait_insert(rt, seat, item).is_ok(),
        Form::Attempts => insert_again(rt, queue, seat, item),
        Form::Steps => claim_and_fill(rt, queue, seat, item),
    }
}

/// Deletes an item in this form. Returns `None` if the seat is worn.
pub fn take<T: Drop, R: Wait>(rt: &R, queue: &Queue<T>, seat: &mut Seat<T>, form: Form) -> Option<T>
    requires { IsIdleSeat queue.now.object seat.old }
    ensures { IsIdleSeat queue.now.object seat.new }
{
    match form {
        Form::Waiting => match queue.wait_delete(rt, seat) {
            Ok((_, item)) => Some(item),
            Err(_) => None,
        },
        Form::Attempts => delete_again(rt, queue, seat),
        Form::Steps => claim_and_empty(rt, queue, seat),
    }
}

/// Inserts the item by attempts, until the queue is not full. Returns false if the seat is worn or the queue is shut.
fn insert_again<T: Drop, R: Wait>(rt: &R, queue: &Queue<T>, seat: &mut Seat<T>, item: T) -> bool
    requires { IsIdleSeat queue.now.object seat.old }
    ensures { IsIdleSeat queue.now.object seat.new }
{
    let backoff = Backoff::new();
    let mut waiting = item;
    for _ in rt.forever() {
        match queue.insert(rt, seat, waiting) {
            Err(InsertFault::Full { upper: _, item }) => waiting = item,
            answer => return answer.is_ok(),
        }
        backoff.snooze();
    }
    unreachable!()
}

/// Deletes an item by attempts, until the queue is not empty. Returns `None` if the seat is worn.
fn delete_again<T: Drop, R: Wait>(rt: &R, queue: &Queue<T>, seat: &mut Seat<T>) -> Option<T>
    requires { IsIdleSeat queue.now.object seat.old }
    ensures { IsIdleSeat queue.now.object seat.new }
{
    let backoff = Backoff::new();
    for _ in rt.forever() {
        match queue.delete(rt, seat) {
            Ok((_, item)) => return Some(item),
            Err(DeleteFault::Worn) => return None,
            Err(DeleteFault::Empty(_)) => backoff.snooze(),
        }
    }
    unreachable!()
}

/// Claims room, again and again while the queue is full, and moves the item into its cell.
fn claim_and_fill<T: Drop, R: Wait>(rt: &R, queue: &Queue<T>, seat: &mut Seat<T>, item: T) -> bool
    requires { IsIdleSeat queue.now.object seat.old }
    ensures { IsIdleSeat queue.now.object seat.new }
{
    let backoff = Backoff::new();
    let mut waiting = item;
    for _ in rt.forever() {
        match queue.claim_insert(seat, waiting) {
            Ok(_) => {
                fill(rt, queue, seat);
                return true;
            }
            Err(InsertFault::Full { upper: _, item }) => waiting = item,
            Err(_) => return false,
        }
        backoff.snooze();
    }
    unreachable!()
}

/// Tries to fill the cell until it is the cell's turn.
fn fill<T: Drop, R: Wait>(rt: &R, queue: &Queue<T>, seat: &mut Seat<T>)
    requires object { seat.old.object ≡ queue.now.object }
    requires inserting { (k : ℕ) × (state_of seat.old ≡ Inserting k) }
    ensures { IsIdleSeat queue.now.object seat.new }
{
    let backoff = Backoff::new();
    for _ in rt.forever() {
        if queue.try_fill(seat).is_some() {
            return;
        }
        backoff.snooze();
    }
    unreachable!()
}

/// Claims an item, again and again while the queue is empty, and moves it out of its cell.
fn claim_and_empty<T: Drop, R: Wait>(rt: &R, queue: &Queue<T>, seat: &mut Seat<T>) -> Option<T>
    requires { IsIdleSeat queue.now.object seat.old }
    ensures { IsIdleSeat queue.now.object seat.new }
{
    let backoff = Backoff::new();
    for _ in rt.forever() {
        match queue.claim_delete(seat) {
            Ok(_) => return Some(empty(rt, queue, seat)),
            Err(DeleteFault::Worn) => return None,
            Err(DeleteFault::Empty(_)) => backoff.snooze(),
        }
    }
    unreachable!()
}

/// Tries to empty the cell until it is the cell's turn.
fn empty<T: Drop, R: Wait>(rt: &R, queue: &Queue<T>, seat: &mut Seat<T>) -> T
    requires object { seat.old.object ≡ queue.now.object }
    requires deleting { (k : ℕ) × (state_of seat.old ≡ Deleting k) }
    ensures { IsIdleSeat queue.now.object seat.new }
{
    let backoff = Backoff::new();
    for _ in rt.forever() {
        if let Some((_, item)) = queue.try_take(seat) {
            return item;
        }
        backoff.snooze();
    }
    unreachable!()
}
