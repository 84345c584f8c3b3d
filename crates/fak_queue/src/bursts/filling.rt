//! A bundle fills the cells of its tickets.

ghost use Rattle.std.specs.Prelude.{◌≡◌, List, ◌+◌, ◌<◌, ◌≤◌, length, reverse};
ghost use Rattle.std.specs.VecDeque.{deque_capacity};
ghost use Rattle.fak_model.specs.Limits.{large_seats};
ghost use Rattle.fak_model.specs.declared.queue.Kind.TheVariants.{EndIn};
ghost use Rattle.fak_model.specs.Seats.{Begins};
ghost use Rattle.fak_core.specs.QueueBlocks.{AreApart};
ghost use Rattle.fak_queue.specs.Bundles.{FilledOn, Filling, FillsOn, FoundFull, IsEarly, LastEnds};
ghost use Rattle.fak_queue.specs.Shown.{QueueHolder};
ghost use Rattle.fak_queue.specs.BurstTokens.{IsBundleToken, IsWorkToken, TellsAll};

use crate::bursts::insertion::end_burst;
use crate::bursts::progress::Progress;
use crate::bursts::turns::{fill, has_room};
use crate::cells::Cells;
use crate::steps::{QueueToken, QueueWords};
use std::collections::VecDeque;
use std::marker::Brand;

/// Fills the cells of the names that wait, in the order of their tickets, until one's turn has not come. Returns how many names have
/// filled their cells.
fn fill_while_ready<T: Drop>(
    words: &QueueWords<T>,
    token: &mut QueueToken<T>,
    at: &Progress<'_>,
    kept: &mut VecDeque<T>,
) -> u64
    requires token { IsWorkToken words.now.table_id words.now.key at.now.cells.now.size at.now.names.now
        (λ me. Filling at.now.names.now at.now.ticket at.now.done at.now.done at.now.granted kept.old.items me.0)
        token.old }
    ensures range { (at.now.done ≤ result) × (result ≤ at.now.granted) }
    ensures told { TellsAll token.old token.new (λ after. FillsOn words.now.table_id.slots words.now.key.seats
        at.now.names.now at.now.ticket at.now.done result at.now.granted kept.old.items kept.new.items token.old.me
        after) }
    ensures early { result < at.now.granted → IsEarly words.now.table_id.slots (at.now.ticket + result) token.new.me }
    ensures capacity { deque_capacity kept.new ≡ deque_capacity kept.old }
{
    for index in at.done..at.granted {
        let name = at.names[index as usize];
        let place = at.cells.place(at.ticket + index);
        if !has_room(words, token, place, name) {
            return index;
        }
        let Some(item) = kept.pop_front() else {
            unreachable!()
        };
        fill(words, token, place, name, item);
    }
    at.granted
}

/// Ends the insertions of the names that have filled their cells.
fn end_filled<T>(words: &QueueWords<T>, token: &mut QueueToken<T>, at: &Progress<'_>, filled: u64)
    requires token { IsBundleToken words.now.table_id words.now.key words.now.key.seats (λ me. (was : List T)
        × (kept : List T) × (m : QueueHolder T) × FillsOn words.now.table_id.slots words.now.key.seats at.now.names.now
        at.now.ticket at.now.done filled at.now.granted was kept m me) token.old }
    requires names { AreApart at.now.names.now × (length at.now.names.now ≤ large_seats) }
    requires some { at.now.done < filled }
    ensures told { TellsAll token.old token.new (λ after. (was kept : List T) (m : QueueHolder T)
        → FillsOn words.now.table_id.slots words.now.key.seats at.now.names.now at.now.ticket at.now.done filled
        at.now.granted was kept m token.old.me → FilledOn words.now.table_id.slots words.now.key.seats at.now.names.now
        at.now.ticket at.now.done filled at.now.granted was kept m after) }
    ensures begins { Begins (reverse token.old.me.0.seen) (reverse token.new.me.0.seen) }
    ensures last { LastEnds EndIn at.now.names.now at.now.done filled token.new.me }
{
    let part = &at.names[at.done as usize..filled as usize];
    end_burst::<T, Brand>(
        words,
        token,
        part,
        at.ticket + at.done,
        filled >= at.granted,
    );
}

/// Fills the cells of the names that wait, in the order of their tickets, until one's turn has not come, and ends these insertions.
/// Returns how many names have ended theirs.
pub(crate) fn fill_ready<T: Drop>(
    words: &QueueWords<T>,
    token: &mut QueueToken<T>,
    at: &Progress<'_>,
    kept: &mut VecDeque<T>,
) -> u64
    requires token { IsWorkToken words.now.table_id words.now.key at.now.cells.now.size at.now.names.now
        (λ me. Filling at.now.names.now at.now.ticket at.now.done at.now.done at.now.granted kept.old.items me.0)
        token.old }
    ensures range { (at.now.done ≤ result) × (result ≤ at.now.granted) }
    ensures told { TellsAll token.old token.new (λ after. FilledOn words.now.table_id.slots words.now.key.seats
        at.now.names.now at.now.ticket at.now.done result at.now.granted kept.old.items kept.new.items token.old.me
        after) }
    ensures early { result < at.now.granted → FoundFull words.now.table_id.slots (at.now.ticket + result)
        (reverse token.old.me.0.seen) (reverse token.new.me.0.seen) }
    ensures capacity { deque_capacity kept.new ≡ deque_capacity kept.old }
    ensures last { LastEnds EndIn at.now.names.now at.now.done result token.new.me }
{
    let filled = fill_while_ready(words, token, at, kept);
    if filled > at.done {
        end_filled(words, token, at, filled);
    }
    filled
}
