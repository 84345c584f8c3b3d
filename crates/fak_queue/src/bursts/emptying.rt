//! A bundle empties the cells of its tickets.

ghost use Rattle.std.specs.Prelude.{◌≡◌, List, ◌+◌, ◌-◌, ◌<◌, ◌≤◌, length, reverse};
ghost use Rattle.std.specs.VecDeque.{deque_capacity, deque_len};
ghost use Rattle.fak_model.specs.Limits.{large_seats};
ghost use Rattle.fak_model.specs.declared.queue.Kind.TheVariants.{EndOut, Fill};
ghost use Rattle.fak_model.specs.Queue.{Has};
ghost use Rattle.fak_model.specs.Seats.{Begins};
ghost use Rattle.fak_core.specs.QueueBlocks.{AreApart};
ghost use Rattle.fak_queue.specs.Bundles.{EmptiedOn, EmptiesOn, Emptying, FoundEmpty, LastEnds};
ghost use Rattle.fak_queue.specs.Shown.{QueueHolder};
ghost use Rattle.fak_queue.specs.BurstTokens.{IsBundleToken, IsWorkToken, TellsAll};

use crate::bursts::deletion::end_out_burst;
use crate::bursts::progress::Progress;
use crate::bursts::turns::{has_item, take};
use crate::steps::{QueueToken, QueueWords};
use std::collections::VecDeque;
use std::marker::Brand;

/// Empties the cells of the names that wait into `out`, in the order of their tickets, until one's turn has not come. Returns how
/// many names have emptied their cells.
fn take_while_ready<T: Drop>(
    words: &QueueWords<T>,
    token: &mut QueueToken<T>,
    at: &Progress<'_>,
    out: &mut VecDeque<T>,
) -> u64
    requires token { IsWorkToken words.now.table_id words.now.key at.now.cells.now.size at.now.names.now
        (λ me. Emptying at.now.names.now at.now.ticket at.now.done at.now.done at.now.granted me.0) token.old }
    requires room { deque_len out.old + (at.now.granted - at.now.done) ≤ deque_capacity out.old }
    ensures range { (at.now.done ≤ result) × (result ≤ at.now.granted) }
    ensures told { TellsAll token.old token.new (λ after. EmptiesOn words.now.table_id.slots words.now.key.seats
        at.now.names.now at.now.ticket at.now.done result at.now.granted out.old.items out.new.items token.old.me after) }
    ensures capacity { deque_capacity out.new ≡ deque_capacity out.old }
    ensures len { deque_len out.new ≡ deque_len out.old + (result - at.now.done) }
    ensures early { result < at.now.granted → Has (Fill (at.now.ticket + result)) (reverse token.new.me.0.seen) → ⊥ }
{
    for index in at.done..at.granted {
        let name = at.names[index as usize];
        let place = at.cells.place(at.ticket + index);
        if !has_item(words, token, place, name) {
            return index;
        }
        out.push_back_reserved(take(words, token, place, name));
    }
    at.granted
}

/// Ends the deletions of the names that have emptied their cells.
fn end_taken<T>(words: &QueueWords<T>, token: &mut QueueToken<T>, at: &Progress<'_>, taken: u64)
    requires token { IsBundleToken words.now.table_id words.now.key words.now.key.seats (λ me. (was : List T)
        × (got : List T) × (m : QueueHolder T) × EmptiesOn words.now.table_id.slots words.now.key.seats at.now.names.now
        at.now.ticket at.now.done taken at.now.granted was got m me) token.old }
    requires names { AreApart at.now.names.now × (length at.now.names.now ≤ large_seats) }
    requires some { at.now.done < taken }
    ensures told { TellsAll token.old token.new (λ after. (was got : List T) (m : QueueHolder T)
        → EmptiesOn words.now.table_id.slots words.now.key.seats at.now.names.now at.now.ticket at.now.done taken
        at.now.granted was got m token.old.me → EmptiedOn words.now.table_id.slots words.now.key.seats at.now.names.now
        at.now.ticket at.now.done taken at.now.granted was got m after) }
    ensures begins { Begins (reverse token.old.me.0.seen) (reverse token.new.me.0.seen) }
    ensures last { LastEnds EndOut at.now.names.now at.now.done taken token.new.me }
{
    let part = &at.names[at.done as usize..taken as usize];
    end_out_burst::<T, Brand>(words, token, part, at.ticket + at.done, taken >= at.granted);
}

/// Empties the cells of the names that wait into `out`, in the order of their tickets, until one's turn has not come, and ends these
/// deletions. Returns how many names have ended theirs.
pub(crate) fn take_ready<T: Drop>(
    words: &QueueWords<T>,
    token: &mut QueueToken<T>,
    at: &Progress<'_>,
    out: &mut VecDeque<T>,
) -> u64
    requires token { IsWorkToken words.now.table_id words.now.key at.now.cells.now.size at.now.names.now
        (λ me. Emptying at.now.names.now at.now.ticket at.now.done at.now.done at.now.granted me.0) token.old }
    requires room { deque_len out.old + (at.now.granted - at.now.done) ≤ deque_capacity out.old }
    ensures range { (at.now.done ≤ result) × (result ≤ at.now.granted) }
    ensures told { TellsAll token.old token.new (λ after. EmptiedOn words.now.table_id.slots words.now.key.seats
        at.now.names.now at.now.ticket at.now.done result at.now.granted out.old.items out.new.items token.old.me after) }
    ensures capacity { deque_capacity out.new ≡ deque_capacity out.old }
    ensures len { deque_len out.new ≡ deque_len out.old + (result - at.now.done) }
    ensures early { result < at.now.granted → FoundEmpty (at.now.ticket + result) (reverse token.old.me.0.seen)
        (reverse token.new.me.0.seen) }
    ensures last { LastEnds EndOut at.now.names.now at.now.done result token.new.me }
{
    let taken = take_while_ready(words, token, at, out);
    if taken > at.done {
        end_taken(words, token, at, taken);
    }
    taken
}
