//! The results of the calls of a seat of a queue as numbers.

ghost use Rattle.std.specs.Prelude.{◌≡◌};
ghost use Rattle.fak_handles.specs.queue.Calls.{delete_code, delete_fault_code, delete_once_code, drawn_or, drawn_once_or, insert_code, insert_fault_code, insert_once_code, open_or, shut_code, shut_or, state_code, taken_or, taken_once_or, try_code};

use crate::code::{CLOSED, EMPTY, FULL, NOT_YET, OK, WORN, WRONG_STATE};
use fak_queue::{DeleteFault, InsertFault, SeatState};

fn of_insert_fault(fault: &InsertFault<u64>) -> i32
    ensures { result ≡ insert_fault_code fault.now }
{
    match fault {
        InsertFault::Worn { item: _ } => WORN,
        InsertFault::Closed { item: _ } => CLOSED,
        InsertFault::Full { upper: _, item: _ } => FULL,
    }
}

fn of_delete_fault(fault: &DeleteFault) -> i32
    ensures { result ≡ delete_fault_code fault.now }
{
    match fault {
        DeleteFault::Worn => WORN,
        DeleteFault::Empty(_) => EMPTY,
    }
}

pub fn of_insert(claimed: &Option<Result<u64, InsertFault<u64>>>, ticket: &mut u64) -> i32
    ensures code { result ≡ insert_code claimed.now }
    ensures ticket { ticket.new ≡ drawn_or ticket.old claimed.now }
{
    match claimed {
        None => WRONG_STATE,
        Some(Ok(drawn)) => {
            *ticket = *drawn;
            OK
        }
        Some(Err(fault)) => of_insert_fault(fault),
    }
}

pub fn of_delete(claimed: &Option<Result<u64, DeleteFault>>, ticket: &mut u64) -> i32
    ensures code { result ≡ delete_code claimed.now }
    ensures ticket { ticket.new ≡ drawn_or ticket.old claimed.now }
{
    match claimed {
        None => WRONG_STATE,
        Some(Ok(drawn)) => {
            *ticket = *drawn;
            OK
        }
        Some(Err(fault)) => of_delete_fault(fault),
    }
}

pub fn of_fill(tried: &Option<Option<u64>>) -> i32
    ensures { result ≡ try_code tried.now }
{
    match tried {
        None => WRONG_STATE,
        Some(None) => NOT_YET,
        Some(Some(_)) => OK,
    }
}

pub fn of_take(tried: &Option<Option<(u64, u64)>>, item: &mut u64) -> i32
    ensures code { result ≡ try_code tried.now }
    ensures item { item.new ≡ taken_or item.old tried.now }
{
    match tried {
        None => WRONG_STATE,
        Some(None) => NOT_YET,
        Some(Some((_, taken))) => {
            *item = *taken;
            OK
        }
    }
}

pub fn of_shut(shut: Option<bool>, was_open: &mut bool) -> i32
    ensures code { result ≡ shut_code shut }
    ensures open { was_open.new ≡ shut_or was_open.old shut }
{
    match shut {
        None => WRONG_STATE,
        Some(first) => {
            *was_open = first;
            OK
        }
    }
}

pub fn of_state(stands: SeatState, state: &mut u32, ticket: &mut u64)
    ensures state { state.new ≡ state_code stands }
    ensures ticket { ticket.new ≡ open_or ticket.old stands }
{
    match stands {
        SeatState::Idle => *state = 0,
        SeatState::Inserting(drawn) => {
            *state = 1;
            *ticket = drawn;
        }
        SeatState::Deleting(drawn) => {
            *state = 2;
            *ticket = drawn;
        }
    }
}

pub fn of_insert_once(made: &Option<Result<(u64, bool), InsertFault<u64>>>, ticket: &mut u64) -> i32
    ensures code { result ≡ insert_once_code made.now }
    ensures ticket { ticket.new ≡ drawn_once_or ticket.old made.now }
{
    match made {
        None => WRONG_STATE,
        Some(Ok((drawn, filled))) => {
            *ticket = *drawn;
            if *filled { OK } else { NOT_YET }
        }
        Some(Err(fault)) => of_insert_fault(fault),
    }
}

pub fn of_delete_once(
    made: &Option<Result<(u64, Option<u64>), DeleteFault>>,
    ticket: &mut u64,
    item: &mut u64,
) -> i32
    ensures code { result ≡ delete_once_code made.now }
    ensures ticket { ticket.new ≡ drawn_once_or ticket.old made.now }
    ensures item { item.new ≡ taken_once_or item.old made.now }
{
    match made {
        None => WRONG_STATE,
        Some(Ok((drawn, None))) => {
            *ticket = *drawn;
            NOT_YET
        }
        Some(Ok((drawn, Some(out)))) => {
            *ticket = *drawn;
            *item = *out;
            OK
        }
        Some(Err(fault)) => of_delete_fault(fault),
    }
}
