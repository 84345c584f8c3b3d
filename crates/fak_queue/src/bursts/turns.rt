//! One name of a bundle at its cell: it looks whether its turn has come, and moves its item. Only the proof uses the name.

ghost use Rattle.std.specs.Prelude.{◌≡◌, [], ◌∷◌, None, Some};
ghost use Rattle.fak_core.specs.declared.queue.phase.Phase.TheVariants.{LoadItem, StoreItem, TurnIn, TurnOut};
ghost use Rattle.fak_queue.specs.Bundles.{FillsIt, LooksAtIn, LooksAtOut, SaysOf, TakesIt};
ghost use Rattle.fak_queue.specs.BurstTokens.{IsNameAt, TellsAll};

use crate::bursts::deletion::{free_burst, turn_out_burst};
use crate::bursts::insertion::{fill_burst, turn_burst};
use crate::steps::{QueueToken, QueueWords};
use crate::ticket_cell::TicketCell;
use std::marker::Brand;

/// Whether it is the ticket's turn to fill its cell. Then the name has the cell's slot.
pub(crate) fn has_room<T>(
    words: &QueueWords<T>,
    token: &mut QueueToken<T>,
    place: TicketCell,
    name: u64,
) -> bool
    requires { IsNameAt words.now.table_id words.now.key words.now.key.seats place name (λ me. (x : T)
        × SaysOf me.0 name (TurnIn place.ticket x)) token.old }
    ensures { TellsAll token.old token.new (λ after. (x : T) → SaysOf token.old.me.0 name (TurnIn place.ticket x)
        → LooksAtIn words.now.table_id.slots words.now.key.seats name place.ticket x result token.old.me after) }
{
    turn_burst::<T, Brand>(words, token, place, name) == 2 * place.round
}

/// Moves the item into the cell whose slot the name has.
pub(crate) fn fill<T>(
    words: &QueueWords<T>,
    token: &mut QueueToken<T>,
    place: TicketCell,
    name: u64,
    item: T,
)
    requires token { IsNameAt words.now.table_id words.now.key words.now.key.seats place name (λ me. SaysOf me.0 name
        (StoreItem place.ticket item)) token.old }
    requires slot { token.old.me.1 ≡ (place.cell, None) ∷ [] }
    ensures { TellsAll token.old token.new (λ after. FillsIt words.now.table_id.slots words.now.key.seats name
        place.ticket token.old.me after) }
{
    match words.exchange(token, place.cell, Some(item)) {
        None => {}
        Some(_) => unreachable!(),
    }
    fill_burst::<T, Brand>(words, token, place, name);
}

/// Whether it is the ticket's turn to empty its cell. Then the name has the cell's slot.
pub(crate) fn has_item<T>(
    words: &QueueWords<T>,
    token: &mut QueueToken<T>,
    place: TicketCell,
    name: u64,
) -> bool
    requires { IsNameAt words.now.table_id words.now.key words.now.key.seats place name (λ me. SaysOf me.0 name
        (TurnOut place.ticket)) token.old }
    ensures { TellsAll token.old token.new (λ after. LooksAtOut words.now.table_id.slots words.now.key.seats name
        place.ticket result token.old.me after) }
{
    turn_out_burst::<T, Brand>(words, token, place, name) == 2 * place.round + 1
}

/// Moves the item out of the cell whose slot the name has.
pub(crate) fn take<T>(
    words: &QueueWords<T>,
    token: &mut QueueToken<T>,
    place: TicketCell,
    name: u64,
) -> T
    requires token { IsNameAt words.now.table_id words.now.key words.now.key.seats place name (λ me. SaysOf me.0 name
        (LoadItem place.ticket)) token.old }
    requires slot { (x : T) × (token.old.me.1 ≡ (place.cell, Some x) ∷ []) }
    ensures item { token.old.me.1 ≡ (place.cell, Some result) ∷ [] }
    ensures told { TellsAll token.old token.new (λ after. TakesIt words.now.table_id.slots words.now.key.seats name
        place.ticket token.old.me after) }
{
    let taken = words.exchange(token, place.cell, None);
    free_burst::<T, Brand>(words, token, place, name);
    match taken {
        Some(item) => item,
        None => unreachable!(),
    }
}
