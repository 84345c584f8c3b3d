//! The atomic steps of a queue. Each is a function of the value that it finds in its word, and its comment states what
//! it must follow and why.

ghost use Rattle.std.specs.Prelude.{◌≡◌, ◌+◌, ◌≤◌, ◌<◌, ◌^◌};
ghost use Rattle.fak_core.specs.QueueFields.{IsSmall};
ghost use Rattle.fak_core.specs.QueueMoves as table;

use crate::line::CoreMove;
use crate::queue::phase::Phase;
use crate::queue::step::{Found, QueueMove, Write};
use fak_model::{Kind, cell_of, round_of};

/// A step that only loads and leaves no mark.
fn quiet(step: CoreMove, found: Found<u64>, phase: Phase<u64>) -> QueueMove<u64>
    ensures { result ≡ table.quiet step found phase }
{
    QueueMove {
        step,
        found,
        mark: None,
        write: Write::Nothing,
        phase,
    }
}

/// A step that leaves a mark.
fn marked(
    step: CoreMove,
    found: Found<u64>,
    kind: Kind<u64>,
    write: Write<u64>,
    phase: Phase<u64>,
) -> QueueMove<u64>
    ensures { result ≡ table.marked step found kind write phase }
{
    QueueMove {
        step,
        found,
        mark: Some(kind),
        write,
        phase,
    }
}

/// The load of the upper count, before the add: an insertion that finds the queue full or shut raises no count. Without
/// it, refused insertions could keep the upper count at the size or above it, and so keep out others although there is
/// room.
pub fn test_up(size: u64, shut: bool, found: i64, x: u64) -> QueueMove<u64>
    requires { size ≤ 4096 }
    ensures { result ≡ table.test_up size shut found x }
{
    let step = CoreMove::TestUp;
    let count = Found::Count(found);
    let has_room = found < size as i64;
    if shut {
        marked(step, count, Kind::Closed, Write::Nothing, Phase::Idle)
    } else if has_room {
        quiet(step, count, Phase::AddUp(x))
    } else {
        marked(step, count, Kind::NoRoom, Write::Nothing, Phase::Idle)
    }
}

/// The fetch-and-add of 1 to the upper count, which claims a cell. What it finds is tested again: other insertions may
/// have claimed since `test_up`, or the queue may be shut. A refused add must be withdrawn by `back_up`.
pub fn add_up(size: u64, shut: bool, found: i64, x: u64) -> QueueMove<u64>
    requires size { size ≤ 4096 }
    requires small { IsSmall found }
    ensures { result ≡ table.add_up size shut found x }
{
    let step = CoreMove::AddUp;
    let count = Found::Count(found);
    let raised = Write::Upper(found + 1);
    let granted = Phase::TicketIn(x);
    let refused = Phase::BackUp(x);
    let still_has_room = found < size as i64;
    if shut {
        marked(step, count, Kind::LateIn, raised, refused)
    } else if still_has_room {
        marked(step, count, Kind::ClaimIn, raised, granted)
    } else {
        marked(step, count, Kind::OverIn, raised, refused)
    }
}

/// The fetch-and-subtract of 1 that withdraws an insertion, after an add that was refused. Until then the upper count
/// is too high by 1, and another insertion may be refused although there is room.
pub fn back_up(found: i64) -> QueueMove<u64>
    requires { IsSmall found }
    ensures { result ≡ table.back_up found }
{
    let withdrawn = Write::Upper(found - 1);
    marked(
        CoreMove::BackUp,
        Found::Count(found),
        Kind::BackIn,
        withdrawn,
        Phase::Idle,
    )
}

/// The draw of an insertion's ticket, which gives it a cell and its place among all insertions. It comes after a
/// granted claim: so the deletion of the round before at this cell, if any, has drawn its ticket. `turn_in` then waits
/// only for an open call.
pub fn ticket_in(found: u64, x: u64) -> QueueMove<u64>
    requires { found < 2 ^ 63 }
    ensures { result ≡ table.ticket_in found x }
{
    let ticket = Found::Word(found);
    let drawn = Write::DrawsIn(found + 1);
    let next = Phase::TurnIn(found, x);
    marked(CoreMove::TicketIn, ticket, Kind::Put(x), drawn, next)
}

/// The load of the turn word of a ticket's cell, for an insertion. It is repeated until the word shows that the cell is
/// free: only then has the deletion of the round before loaded its item.
pub fn turn_in(size: u64, found: u64, k: u64, x: u64) -> QueueMove<u64>
    requires size { 1 ≤ size }
    requires ticket { k + 1 < 2 ^ 63 }
    ensures { result ≡ table.turn_in size found k x }
{
    let step = CoreMove::TurnIn;
    let turn = Found::Word(found);
    let may_fill = found == 2 * round_of(k, size);
    if may_fill {
        quiet(step, turn, Phase::StoreItem(k, x))
    } else {
        quiet(step, turn, Phase::TurnIn(k, x))
    }
}

/// The store of the item. It comes after `turn_in` found the cell free, since before that it would overwrite the item
/// of the round before.
pub fn store_item(size: u64, k: u64, x: u64) -> QueueMove<u64>
    requires { 1 ≤ size }
    ensures { result ≡ table.store_item size k x }
{
    QueueMove {
        step: CoreMove::StoreItem,
        found: Found::Item(Some(x)),
        mark: None,
        write: Write::Cell(cell_of(k, size), x),
        phase: Phase::SetFull(k, x),
    }
}

/// The store of the turn word that makes a cell full. The deletion of the same ticket may load the item from here on,
/// so this comes after `store_item`.
pub fn set_full(size: u64, k: u64) -> QueueMove<u64>
    requires size { 1 ≤ size }
    requires ticket { k + 1 < 2 ^ 63 }
    ensures { result ≡ table.set_full size k }
{
    let turn = 2 * round_of(k, size) + 1;
    let full = Write::Turn(cell_of(k, size), turn);
    marked(
        CoreMove::SetFull,
        Found::Word(turn),
        Kind::Fill(k),
        full,
        Phase::EndInsert(k),
    )
}

/// The fetch-and-add of 1 to the lower count, which ends an insertion. A deletion may claim the item from here on, so
/// this comes after `set_full`.
pub fn end_in(found: i64) -> QueueMove<u64>
    requires { IsSmall found }
    ensures { result ≡ table.end_in found }
{
    let raised = Write::Lower(found + 1);
    marked(
        CoreMove::EndIn,
        Found::Count(found),
        Kind::EndIn,
        raised,
        Phase::Idle,
    )
}

/// The load of the lower count, before the subtraction: a deletion that finds the queue empty lowers no count. Without
/// it, refused deletions could keep the lower count below 1, and so keep out others although there is an item.
pub fn test_low(found: i64) -> QueueMove<u64>
    ensures { result ≡ table.test_low found }
{
    let step = CoreMove::TestLow;
    let count = Found::Count(found);
    let has_item = found >= 1;
    if has_item {
        quiet(step, count, Phase::SubLow)
    } else {
        marked(step, count, Kind::NoItem, Write::Nothing, Phase::Idle)
    }
}

/// The fetch-and-subtract of 1 from the lower count, which claims an item. What it finds is tested again: other
/// deletions may have claimed since `test_low`. A refused subtraction must be withdrawn by `back_low`.
pub fn sub_low(found: i64) -> QueueMove<u64>
    requires { IsSmall found }
    ensures { result ≡ table.sub_low found }
{
    let step = CoreMove::SubLow;
    let count = Found::Count(found);
    let lowered = Write::Lower(found - 1);
    let still_has_item = found >= 1;
    if still_has_item {
        marked(step, count, Kind::ClaimOut, lowered, Phase::TicketOut)
    } else {
        marked(step, count, Kind::OverOut, lowered, Phase::BackLow)
    }
}

/// The fetch-and-add of 1 that withdraws a deletion, after a subtraction that was refused. Until then the lower count
/// is too low by 1, and another deletion may be refused although there is an item.
pub fn back_low(found: i64) -> QueueMove<u64>
    requires { IsSmall found }
    ensures { result ≡ table.back_low found }
{
    let raised = Write::Lower(found + 1);
    marked(
        CoreMove::BackLow,
        Found::Count(found),
        Kind::BackOut,
        raised,
        Phase::Idle,
    )
}

/// The draw of a deletion's ticket, and with it of the item that was put under that ticket. It comes after a granted
/// claim: so the insertion of the same ticket has drawn it, and `turn_out` waits only for an open call. `None` never
/// occurs then.
pub fn ticket_out(found: u64, drawn: Option<u64>) -> QueueMove<u64>
    requires { found < 2 ^ 63 }
    ensures { result ≡ table.ticket_out found drawn }
{
    let step = CoreMove::TicketOut;
    match drawn {
        Some(x) => {
            let next = Write::DrawsOut(found + 1);
            marked(
                step,
                Found::Word(found),
                Kind::Got(x),
                next,
                Phase::TurnOut(found),
            )
        }
        None => quiet(step, Found::Word(found), Phase::TicketOut),
    }
}

/// The load of the turn word of a ticket's cell, for a deletion. It is repeated until the word shows that the cell is
/// full: only then has the insertion of the same ticket stored its item.
pub fn turn_out(size: u64, found: u64, k: u64) -> QueueMove<u64>
    requires size { 1 ≤ size }
    requires ticket { k + 1 < 2 ^ 63 }
    ensures { result ≡ table.turn_out size found k }
{
    let step = CoreMove::TurnOut;
    let turn = Found::Word(found);
    let may_take = found == 2 * round_of(k, size) + 1;
    if may_take {
        quiet(step, turn, Phase::LoadItem(k))
    } else {
        quiet(step, turn, Phase::TurnOut(k))
    }
}

/// The load of the item. It comes after `turn_out` found the cell full, since before that the cell does not have the
/// item of this ticket.
pub fn load_item(content: Option<u64>, k: u64) -> QueueMove<u64>
    ensures { result ≡ table.load_item content k }
{
    quiet(CoreMove::LoadItem, Found::Item(content), Phase::SetFree(k))
}

/// The store of the turn word that makes a cell free for the next round. The insertion of the next round may overwrite
/// the item from here on, so this comes after `load_item`.
pub fn set_free(size: u64, k: u64) -> QueueMove<u64>
    requires size { 1 ≤ size }
    requires ticket { k + 1 < 2 ^ 63 }
    ensures { result ≡ table.set_free size k }
{
    let turn = 2 * round_of(k, size) + 2;
    let free = Write::Turn(cell_of(k, size), turn);
    marked(
        CoreMove::SetFree,
        Found::Word(turn),
        Kind::Take(k),
        free,
        Phase::EndDelete(k),
    )
}

/// The fetch-and-subtract of 1 from the upper count, which ends a deletion. An insertion may claim the cell from here
/// on, so this comes after `set_free`.
pub fn end_out(found: i64) -> QueueMove<u64>
    requires { IsSmall found }
    ensures { result ≡ table.end_out found }
{
    let lowered = Write::Upper(found - 1);
    marked(
        CoreMove::EndOut,
        Found::Count(found),
        Kind::EndOut,
        lowered,
        Phase::Idle,
    )
}

/// The fetch-and-or that sets the shut bit. The bit is in the word of the upper count, so every later `test_up` and
/// `add_up` finds it and is refused. Insertions that were granted before it still complete.
pub fn set_shut(found: i64) -> QueueMove<u64>
    ensures { result ≡ table.set_shut found }
{
    marked(
        CoreMove::Shut,
        Found::Count(found),
        Kind::Close,
        Write::Shut,
        Phase::Idle,
    )
}
