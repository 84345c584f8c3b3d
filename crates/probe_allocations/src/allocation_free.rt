//! Calls that allocate nothing. Those of each kind are made between two allocations of sizes that nothing else has. A kind whose
//! objects could not be opened is tried a second time.

mod bundles;
mod channel_ends;
mod channel_steps;
mod counts;
mod file_tables;
mod lenders;
mod plain_data;
mod queues;
mod semaphores;
mod sentinels;
mod sleepers;
mod tallies;

use std::marker::Sync;
use std::sync::Wait;
use std::thread::Threads;
use std::time::Clock;

/// Makes the calls on plain data, and by the objects that no thread sleeps at. False if there was no memory, twice.
fn call_without_sleep(rt: &(impl Print + AllocGlobal + Wait)) -> bool {
    plain_data::call_model(rt)
        && (plain_data::call_room_core(rt) || plain_data::call_room_core(rt))
        && (plain_data::call_queue_core(rt) || plain_data::call_queue_core(rt))
        && (plain_data::call_script(rt) || plain_data::call_script(rt))
        && (counts::call_room(rt) || counts::call_room(rt))
        && (counts::call_credit(rt) || counts::call_credit(rt))
        && (queues::call_ports(rt) || queues::call_ports(rt))
        && (queues::call_seats(rt) || queues::call_seats(rt))
        && (bundles::call_bursts(rt) || bundles::call_bursts(rt))
        && (bundles::call_claims(rt) || bundles::call_claims(rt))
        && (semaphores::call_ports(rt) || semaphores::call_ports(rt))
        && (semaphores::call_steps(rt) || semaphores::call_steps(rt))
        && (file_tables::call_ports(rt) || file_tables::call_ports(rt))
}

/// Brings seats back together. False if there was no memory, twice.
fn join_seats(rt: &(impl Print + AllocGlobal + Wait)) -> bool {
    (tallies::join_counts(rt) || tallies::join_counts(rt))
        && (tallies::join_queue(rt) || tallies::join_queue(rt))
        && (tallies::join_bundles(rt) || tallies::join_bundles(rt))
        && (tallies::join_semaphore(rt) || tallies::join_semaphore(rt))
        && (tallies::join_table(rt) || tallies::join_table(rt))
        && (tallies::join_channel(rt) || tallies::join_channel(rt))
        && (tallies::deal_seats(rt) || tallies::deal_seats(rt))
}

/// Makes each call, and prints which were made. False if there was no memory, twice.
pub(crate) fn make_calls(
    rt: &(impl Print + Eprint + AllocGlobal + Threads + Wait + Clock + Sync),
) -> bool {
    call_without_sleep(rt)
        && join_seats(rt)
        && (channel_ends::call_ends(rt) || channel_ends::call_ends(rt))
        && (channel_ends::time_out(rt) || channel_ends::time_out(rt))
        && (lenders::call_lender(rt) || lenders::call_lender(rt))
        && (channel_steps::call_steps(rt) || channel_steps::call_steps(rt))
        && (sleepers::call_in_two_threads(rt) || sleepers::call_in_two_threads(rt))
}
