//! The results of a bundle's calls as numbers.

ghost use Rattle.std.specs.Prelude.{◌≡◌};
ghost use Rattle.fak_handles.specs.bundle.Calls.{burst_fault_code, burst_out_fault_code, came_or, count_or, delete_burst_code, fill_burst_code, insert_burst_code, left_code, still_or, take_burst_code, taken_to_or, ticket_or, waiting_or};

use crate::code::{CLOSED, EMPTY, FULL, NOT_YET, OK, WORN, WRONG_STATE};
use fak_queue::{BundleState, Burst, BurstFault, DeleteFault};

fn of_burst_fault(fault: &BurstFault) -> i32
    ensures { result ≡ burst_fault_code fault.now }
{
    match fault {
        BurstFault::Worn => WORN,
        BurstFault::Closed => CLOSED,
        BurstFault::Full { upper: _ } => FULL,
    }
}

fn of_burst_out_fault(fault: &DeleteFault) -> i32
    ensures { result ≡ burst_out_fault_code fault.now }
{
    match fault {
        DeleteFault::Worn => WORN,
        DeleteFault::Empty(_) => EMPTY,
    }
}

fn of_left(left: u64) -> i32
    ensures { result ≡ left_code left }
{
    if left == 0 { OK } else { NOT_YET }
}

pub fn of_insert_burst(
    made: &Option<Result<(Burst, u64), BurstFault>>,
    ticket: &mut u64,
    count: &mut u64,
) -> i32
    ensures code { result ≡ insert_burst_code made.now }
    ensures ticket { ticket.new ≡ ticket_or ticket.old made.now }
    ensures count { count.new ≡ count_or count.old made.now }
{
    match made {
        None => WRONG_STATE,
        Some(Ok((burst, left))) => {
            *ticket = burst.ticket;
            *count = burst.count;
            of_left(*left)
        }
        Some(Err(fault)) => of_burst_fault(fault),
    }
}

pub fn of_delete_burst(
    made: &Option<Result<(Burst, u64), DeleteFault>>,
    ticket: &mut u64,
    count: &mut u64,
    taken: &mut u64,
) -> i32
    ensures code { result ≡ delete_burst_code made.now }
    ensures ticket { ticket.new ≡ ticket_or ticket.old made.now }
    ensures count { count.new ≡ count_or count.old made.now }
    ensures taken { taken.new ≡ came_or taken.old made.now }
{
    match made {
        None => WRONG_STATE,
        Some(Ok((burst, came))) => {
            *ticket = burst.ticket;
            *count = burst.count;
            *taken = *came;
            if *came == burst.count { OK } else { NOT_YET }
        }
        Some(Err(fault)) => of_burst_out_fault(fault),
    }
}

pub fn of_fill_burst(tried: Option<u64>, left: &mut u64) -> i32
    ensures code { result ≡ fill_burst_code tried }
    ensures left { left.new ≡ still_or left.old tried }
{
    match tried {
        None => WRONG_STATE,
        Some(still) => {
            *left = still;
            of_left(still)
        }
    }
}

pub fn of_take_burst(tried: Option<(u64, u64)>, taken: &mut u64, left: &mut u64) -> i32
    ensures code { result ≡ take_burst_code tried }
    ensures taken { taken.new ≡ taken_to_or taken.old tried }
    ensures left { left.new ≡ waiting_or left.old tried }
{
    match tried {
        None => WRONG_STATE,
        Some((came, still)) => {
            *taken = came;
            *left = still;
            of_left(still)
        }
    }
}
