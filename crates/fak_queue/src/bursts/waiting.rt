//! A bundle fills or empties all the cells of its tickets, and waits if one's turn has not come.

ghost use Rattle.std.specs.Prelude.{◌≡◌, ◌+◌, ◌-◌, ◌<◌, ◌≤◌};
ghost use Rattle.std.specs.VecDeque.{deque_capacity, deque_len};
ghost use Rattle.fak_model.specs.declared.queue.Kind.TheVariants.{EndIn, EndOut};
ghost use Rattle.fak_queue.specs.Bundles.{EmptiedOn, Emptying, FilledOn, Filling, LastEnds};
ghost use Rattle.fak_queue.specs.BurstTokens.{IsWorkToken, TellsAll};

use crate::bursts::emptying::take_ready;
use crate::bursts::filling::fill_ready;
use crate::bursts::progress::Progress;
use crate::steps::{QueueToken, QueueWords};
use crossbeam_utils::Backoff;
use std::collections::VecDeque;
use std::sync::Wait;

/// Fills the cells of all names that wait, in the order of their tickets, and ends these insertions. If a cell's turn has not come,
/// those before it are ended first, and the bundle waits.
pub(crate) fn fill_all<T: Drop, R: Wait>(
    rt: &R,
    words: &QueueWords<T>,
    token: &mut QueueToken<T>,
    at: &Progress<'_>,
    kept: &mut VecDeque<T>,
)
    requires token { IsWorkToken words.now.table_id words.now.key at.now.cells.now.size at.now.names.now
        (λ me. Filling at.now.names.now at.now.ticket at.now.done at.now.done at.now.granted kept.old.items me.0)
        token.old }
    ensures told { TellsAll token.old token.new (λ after. FilledOn words.now.table_id.slots words.now.key.seats
        at.now.names.now at.now.ticket at.now.done at.now.granted at.now.granted kept.old.items kept.new.items
        token.old.me after) }
    ensures capacity { deque_capacity kept.new ≡ deque_capacity kept.old }
    ensures last { LastEnds EndIn at.now.names.now at.now.done at.now.granted token.new.me }
{
    let backoff = Backoff::new();
    let mut done = at.done;
    for _ in rt.forever() {
        let now = Progress {
            names: at.names,
            cells: at.cells,
            ticket: at.ticket,
            done,
            granted: at.granted,
        };
        let ended = fill_ready(words, token, &now, kept);
        if ended == at.granted {
            return;
        }
        done = ended;
        backoff.snooze();
    }
    unreachable!()
}

/// Empties the cells of all names that wait into `out`, in the order of their tickets, and ends these deletions. If a cell's turn
/// has not come, those before it are ended first, and the bundle waits.
pub(crate) fn take_all<T: Drop, R: Wait>(
    rt: &R,
    words: &QueueWords<T>,
    token: &mut QueueToken<T>,
    at: &Progress<'_>,
    out: &mut VecDeque<T>,
)
    requires token { IsWorkToken words.now.table_id words.now.key at.now.cells.now.size at.now.names.now
        (λ me. Emptying at.now.names.now at.now.ticket at.now.done at.now.done at.now.granted me.0) token.old }
    requires room { deque_len out.old + (at.now.granted - at.now.done) ≤ deque_capacity out.old }
    ensures told { TellsAll token.old token.new (λ after. EmptiedOn words.now.table_id.slots words.now.key.seats
        at.now.names.now at.now.ticket at.now.done at.now.granted at.now.granted out.old.items out.new.items
        token.old.me after) }
    ensures capacity { deque_capacity out.new ≡ deque_capacity out.old }
    ensures last { LastEnds EndOut at.now.names.now at.now.done at.now.granted token.new.me }
{
    let backoff = Backoff::new();
    let mut done = at.done;
    for _ in rt.forever() {
        let now = Progress {
            names: at.names,
            cells: at.cells,
            ticket: at.ticket,
            done,
            granted: at.granted,
        };
        let ended = take_ready(words, token, &now, out);
        if ended == at.granted {
            return;
        }
        done = ended;
        backoff.snooze();
    }
    unreachable!()
}
