//! The atomic steps of a burst of insertions, on the token of a bundle.

ghost use Rattle.std.specs.Prelude.{◌≡◌, ◌⊎◌, true, ◌≤◌, ◌++◌, ◌∷◌, ℕ, List, Option, Some, length};
ghost use Rattle.fak_model.specs.Limits.{large_seats};
ghost use Rattle.fak_core.specs.declared.queue.phase.Phase.TheVariants.{AddUp, BackUp, EndInsert, Idle, StoreItem, TicketIn, TurnIn};
ghost use Rattle.fak_core.specs.QueueBlocks.{AreApart, Posts, all_at, names_of};
ghost use Rattle.fak_queue.specs.declared.phases.Phases.TheVariants.{Each};
ghost use Rattle.fak_queue.specs.Bursts.{AddedBurst, AllIn, PostsAreIdle, BackBurst, DrewBurst, EndedBurst};
ghost use Rattle.fak_queue.specs.Bursts.{FillsCellInBurst, Says, SaysAfter, TestedBurst, TurnsBurst};
ghost use Rattle.fak_queue.specs.Shown.{IsPost};
ghost use Rattle.fak_model.specs.Seats.{In};
ghost use Rattle.fak_core.specs.declared.queue.phase.Phase.{Phase};
ghost use Rattle.fak_queue.specs.Bundles.{SaysOf};
ghost use Rattle.fak_queue.specs.StepTokens.{StandsAt};
ghost use Rattle.fak_queue.specs.BurstTokens.{IsBundleToken, IsBurstToken, IsNameAt, TellsAll};

use crate::bursts::first_items::FirstItems;
use crate::bursts::plays::{
    AddBurstPlay, BackBurstPlay, BurstOfInsertions, DrawBurstPlay, EndBurstPlay, EndsOfBurst,
    FillBurstPlay, OneName, TestBurstPlay, TurnBurstPlay,
};
use crate::steps::{QueueToken, QueueWords};
use crate::ticket_cell::TicketCell;
use crate::words::{DRAWS_IN, LOWER, TURNS, UPPER};

/// Tests the upper count for the burst's names, and returns its word. It comes first, so that a burst that finds no room
/// changes no count.
pub(crate) fn test_burst<T, J: BurstOfInsertions<T>>(
    words: &QueueWords<T>,
    token: &mut QueueToken<T>,
    _names: &[u64],
    _items: &FirstItems<T>,
) -> u64
    requires token { IsBurstToken words.now.table_id words.now.key J.seats J.items J.others (StandsAt Idle) token.old }
    requires all { AllIn token.old.me.0.names (names_of J.items ++ names_of J.others) }
    requires idle { PostsAreIdle J.others }
    ensures { TellsAll token.old token.new (λ after. TestedBurst words.now.table_id.slots J.seats J.items J.others
        token.old.me result after) }
{
    words.load::<TestBurstPlay<J>>(token, UPPER)
}

/// Adds the number of the burst's names to the upper count, and returns what it was before. It follows a `test_burst` that
/// found room; what it returns decides how many names are granted.
pub(crate) fn add_burst<T, J: BurstOfInsertions<T>>(
    words: &QueueWords<T>,
    token: &mut QueueToken<T>,
    count: u64,
    _names: &[u64],
    _items: &FirstItems<T>,
) -> u64
    requires token { IsBurstToken words.now.table_id words.now.key J.seats J.items J.others
        (λ me. Says me.0 (all_at (λ x. AddUp x) J.items ++ J.others)) token.old }
    requires count { (count ≡ length J.items) × (count ≤ large_seats) }
    ensures { TellsAll token.old token.new (λ after. AddedBurst words.now.table_id.slots J.seats J.items J.others
        token.old.me result after) }
{
    words.fetch_add::<AddBurstPlay<J>>(token, UPPER, count)
}

/// Takes back what was added for these names. It follows an `add_burst` that left no room for them; until then others may
/// be refused.
pub(crate) fn back_burst<T, J: BurstOfInsertions<T>>(
    words: &QueueWords<T>,
    token: &mut QueueToken<T>,
    count: u64,
    _names: &[u64],
    _items: &FirstItems<T>,
)
    requires token { IsBurstToken words.now.table_id words.now.key J.seats J.items J.others
        (λ me. Says me.0 (all_at (λ x. BackUp x) J.items ++ J.others)) token.old }
    requires count { (count ≡ length J.items) × (count ≤ large_seats) }
    requires then { SaysAfter token.old.me.0.names (all_at (λ x. Idle) J.items ++ J.others) J.then }
    ensures { TellsAll token.old token.new (λ after. BackBurst words.now.table_id.slots J.seats J.items J.others J.then
        token.old.me after) }
{
    words.fetch_sub::<BackBurstPlay<J>>(token, UPPER, count);
}

/// Draws a ticket for each of the burst's names, and returns the first. It follows `add_burst`, and draws only for the
/// names that this granted: one step, so that the burst's tickets follow one another.
pub(crate) fn draw_burst<T, J: BurstOfInsertions<T>>(
    words: &QueueWords<T>,
    token: &mut QueueToken<T>,
    count: u64,
    _names: &[u64],
    _items: &FirstItems<T>,
) -> u64
    requires token { IsBurstToken words.now.table_id words.now.key J.seats J.items J.others
        (λ me. Says me.0 (all_at (λ x. TicketIn x) J.items ++ J.others)) token.old }
    requires count { (count ≡ length J.items) × (count ≤ large_seats) }
    requires left { count ≤ token.old.me.0.left }
    ensures { TellsAll token.old token.new (λ after. DrewBurst words.now.table_id.slots J.seats J.items J.others
        token.old.me result after) }
{
    words.fetch_add::<DrawBurstPlay<J>>(token, DRAWS_IN, count)
}

/// Loads the turn of the cell of one name's ticket. It follows `draw_burst`, whose tickets determine the cells; if the turn
/// has come, the load gives the name the slot. Only the proof uses the name.
pub(crate) fn turn_burst<T, J: OneName>(
    words: &QueueWords<T>,
    token: &mut QueueToken<T>,
    place: TicketCell,
    _name: u64,
) -> u64
    requires { IsNameAt words.now.table_id words.now.key J.seats place J.name (λ me. (all : Posts T)
        × (me.0.phase ≡ Some (Each all)) × ((x : T) × IsPost J.name (TurnIn place.ticket x) all)) token.old }
    ensures { TellsAll token.old token.new (λ after. TurnsBurst words.now.table_id.slots J.seats J.name token.old.me
        result after) }
{
    words.load::<TurnBurstPlay<J>>(token, place.cell + TURNS)
}

/// Gives one name's slot back with its item, and makes its cell full. It follows the move of the item into the slot, which
/// the deletion of the same ticket may take from here on.
pub(crate) fn fill_burst<T, J: OneName>(
    words: &QueueWords<T>,
    token: &mut QueueToken<T>,
    place: TicketCell,
    _name: u64,
)
    requires { IsNameAt words.now.table_id words.now.key J.seats place J.name (λ me. (all : Posts T)
        × (me.0.phase ≡ Some (Each all)) × ((x : T) × IsPost J.name (StoreItem place.ticket x) all
        × ((others : List (ℕ × Option T)) × (me.1 ≡ (place.cell, Some x) ∷ others)))) token.old }
    ensures { TellsAll token.old token.new (λ after. FillsCellInBurst words.now.table_id.slots J.seats J.name token.old.me
        after) }
{
    words.store::<FillBurstPlay<J>>(token, place.cell + TURNS, 2 * place.round + 1);
}

/// Adds the number of these names to the lower count, which ends their insertions. It follows `fill_burst` for each of
/// them, since deletions may claim all their items from here on.
pub(crate) fn end_burst<T, J: EndsOfBurst>(
    words: &QueueWords<T>,
    token: &mut QueueToken<T>,
    names: &[u64],
    _first: u64,
    _rests: bool,
)
    requires token { IsBundleToken words.now.table_id words.now.key J.seats (λ me. (all : Posts T)
        × (me.0.phase ≡ Some (Each all))) token.old }
    requires count { (length names.now ≡ length J.items) × (length names.now ≤ large_seats) }
    requires names { AreApart (names_of J.items) × AllIn (names_of J.items) token.old.me.0.names }
    requires ends { (n : ℕ) (p : Phase T) → IsPost n p (all_at (λ k. EndInsert k) J.items) → SaysOf token.old.me.0 n p }
    requires rest { J.rests ≡ true → (n : ℕ) → In n token.old.me.0.names
        → In n (names_of J.items) ⊎ SaysOf token.old.me.0 n Idle }
    ensures { TellsAll token.old token.new (λ after. EndedBurst words.now.table_id.slots J.seats J.items J.rests
        token.old.me after) }
{
    let count = names.len() as u64;
    words.fetch_add::<EndBurstPlay<J>>(token, LOWER, count);
}
