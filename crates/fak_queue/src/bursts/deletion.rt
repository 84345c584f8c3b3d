//! The atomic steps of a burst of deletions, on the token of a bundle.

ghost use Rattle.std.specs.Prelude.{◌≡◌, ◌⊎◌, true, ◌≤◌, ◌++◌, ◌∷◌, ℕ, List, None, Option, Some, length};
ghost use Rattle.fak_model.specs.Limits.{large_seats};
ghost use Rattle.fak_core.specs.declared.queue.phase.Phase.TheVariants.{BackLow, EndDelete, Idle, LoadItem, SubLow, TicketOut, TurnOut};
ghost use Rattle.fak_core.specs.QueueBlocks.{AreApart, Posts, all_at, names_of};
ghost use Rattle.fak_queue.specs.declared.phases.Phases.TheVariants.{Each};
ghost use Rattle.fak_queue.specs.Bursts.{AllIn, PostsAreIdle, BackLowBurst, DrewOutBurst, EndedOutBurst};
ghost use Rattle.fak_queue.specs.Bursts.{FreesBurst, Says, SaysAfter, SubbedBurst, TestedLowBurst, TurnsOutBurst};
ghost use Rattle.fak_queue.specs.Shown.{IsPost};
ghost use Rattle.fak_model.specs.Seats.{In};
ghost use Rattle.fak_core.specs.declared.queue.phase.Phase.{Phase};
ghost use Rattle.fak_queue.specs.Bundles.{SaysOf};
ghost use Rattle.fak_queue.specs.StepTokens.{StandsAt};
ghost use Rattle.fak_queue.specs.BurstTokens.{IsBundleToken, IsBurstToken, IsNameAt, TellsAll};

use crate::bursts::plays::{
    BackLowBurstPlay, BurstOfDeletions, DrawOutBurstPlay, EndOutBurstPlay, EndsOfBurst,
    FreeBurstPlay, OneName, SubBurstPlay, TestLowBurstPlay, TurnOutBurstPlay,
};
use crate::steps::{QueueToken, QueueWords};
use crate::ticket_cell::TicketCell;
use crate::words::{DRAWS_OUT, LOWER, TURNS, UPPER};

/// Tests the lower count for the burst's names, and returns its word. It comes first, so that a burst that finds no item
/// changes no count. Only the proof uses the names and the number of those that take part.
pub(crate) fn test_low_burst<T, J: BurstOfDeletions<T>>(
    words: &QueueWords<T>,
    token: &mut QueueToken<T>,
    _names: &[u64],
    _part: u64,
) -> u64
    requires token { IsBurstToken words.now.table_id words.now.key J.seats J.items J.others (StandsAt Idle) token.old }
    requires all { AllIn token.old.me.0.names (names_of J.items ++ names_of J.others) }
    requires idle { PostsAreIdle J.others }
    ensures { TellsAll token.old token.new (λ after. TestedLowBurst words.now.table_id.slots J.seats J.items J.others
        token.old.me result after) }
{
    words.load::<TestLowBurstPlay<J>>(token, LOWER)
}

/// Subtracts the number of the burst's names from the lower count, and returns what it was before. It follows a
/// `test_low_burst` that found an item; what it returns decides how many names are granted.
pub(crate) fn sub_burst<T, J: BurstOfDeletions<T>>(
    words: &QueueWords<T>,
    token: &mut QueueToken<T>,
    count: u64,
    _names: &[u64],
    _part: u64,
) -> u64
    requires token { IsBurstToken words.now.table_id words.now.key J.seats J.items J.others
        (λ me. Says me.0 (all_at (λ x. SubLow) J.items ++ J.others)) token.old }
    requires count { (count ≡ length J.items) × (count ≤ large_seats) }
    ensures { TellsAll token.old token.new (λ after. SubbedBurst words.now.table_id.slots J.seats J.items J.others
        token.old.me result after) }
{
    words.fetch_sub::<SubBurstPlay<J>>(token, LOWER, count)
}

/// Gives back what was subtracted for these names. It follows a `sub_burst` that left no items for them; until then others
/// may be refused.
pub(crate) fn back_low_burst<T, J: BurstOfDeletions<T>>(
    words: &QueueWords<T>,
    token: &mut QueueToken<T>,
    count: u64,
    _names: &[u64],
    _part: u64,
)
    requires token { IsBurstToken words.now.table_id words.now.key J.seats J.items J.others
        (λ me. Says me.0 (all_at (λ x. BackLow) J.items ++ J.others)) token.old }
    requires count { (count ≡ length J.items) × (count ≤ large_seats) }
    requires then { SaysAfter token.old.me.0.names (all_at (λ x. Idle) J.items ++ J.others) J.then }
    ensures { TellsAll token.old token.new (λ after. BackLowBurst words.now.table_id.slots J.seats J.items J.others
        J.then token.old.me after) }
{
    words.fetch_add::<BackLowBurstPlay<J>>(token, LOWER, count);
}

/// Draws a deletion's ticket for each of the burst's names, and returns the first. It follows `sub_burst`, and draws only
/// for the names that this granted: one step, so that the burst's tickets follow one another.
pub(crate) fn draw_out_burst<T, J: BurstOfDeletions<T>>(
    words: &QueueWords<T>,
    token: &mut QueueToken<T>,
    count: u64,
    _names: &[u64],
    _part: u64,
) -> u64
    requires token { IsBurstToken words.now.table_id words.now.key J.seats J.items J.others
        (λ me. Says me.0 (all_at (λ x. TicketOut) J.items ++ J.others)) token.old }
    requires count { (count ≡ length J.items) × (count ≤ large_seats) }
    requires left { count ≤ token.old.me.0.left }
    ensures { TellsAll token.old token.new (λ after. DrewOutBurst words.now.table_id.slots J.seats J.items J.others
        token.old.me result after) }
{
    words.fetch_add::<DrawOutBurstPlay<J>>(token, DRAWS_OUT, count)
}

/// Loads the turn of the cell of one name's ticket. It follows `draw_out_burst`, whose tickets determine the cells; if the
/// turn has come, the load gives the name the slot with the item. Only the proof uses the name.
pub(crate) fn turn_out_burst<T, J: OneName>(
    words: &QueueWords<T>,
    token: &mut QueueToken<T>,
    place: TicketCell,
    _name: u64,
) -> u64
    requires { IsNameAt words.now.table_id words.now.key J.seats place J.name (λ me. (all : Posts T)
        × (me.0.phase ≡ Some (Each all)) × IsPost J.name (TurnOut place.ticket) all) token.old }
    ensures { TellsAll token.old token.new (λ after. TurnsOutBurst words.now.table_id.slots J.seats J.name token.old.me
        result after) }
{
    words.load::<TurnOutBurstPlay<J>>(token, place.cell + TURNS)
}

/// Gives one name's slot back empty, and makes its cell free for the next round. It follows the move of the item out of the
/// slot, which the next round's insertion may take from here on.
pub(crate) fn free_burst<T, J: OneName>(
    words: &QueueWords<T>,
    token: &mut QueueToken<T>,
    place: TicketCell,
    _name: u64,
)
    requires token { IsNameAt words.now.table_id words.now.key J.seats place J.name (λ me. (all : Posts T)
        × (me.0.phase ≡ Some (Each all)) × IsPost J.name (LoadItem place.ticket) all) token.old }
    requires slot { (others : List (ℕ × Option T)) × (token.old.me.1 ≡ (place.cell, None) ∷ others) }
    ensures { TellsAll token.old token.new (λ after. FreesBurst words.now.table_id.slots J.seats J.name token.old.me
        after) }
{
    words.store::<FreeBurstPlay<J>>(token, place.cell + TURNS, 2 * place.round + 2);
}

/// Subtracts the number of these names from the upper count, which ends their deletions. It follows `free_burst` for each
/// of them, since insertions may claim all their cells from here on.
pub(crate) fn end_out_burst<T, J: EndsOfBurst>(
    words: &QueueWords<T>,
    token: &mut QueueToken<T>,
    names: &[u64],
    _first: u64,
    _rests: bool,
)
    requires token { IsBundleToken words.now.table_id words.now.key J.seats (λ me. (all : Posts T)
        × (me.0.phase ≡ Some (Each all))) token.old }
    requires count { (length names.now ≡ length J.items) × (length names.now ≤ large_seats) }
    requires names { AreApart (names_of J.items) × AllIn (names_of J.items) token.old.me.0.names }
    requires ends { (n : ℕ) (p : Phase T) → IsPost n p (all_at (λ k. EndDelete k) J.items) → SaysOf token.old.me.0 n p }
    requires rest { J.rests ≡ true → (n : ℕ) → In n token.old.me.0.names
        → In n (names_of J.items) ⊎ SaysOf token.old.me.0 n Idle }
    ensures { TellsAll token.old token.new (λ after. EndedOutBurst words.now.table_id.slots J.seats J.items J.rests
        token.old.me after) }
{
    let count = names.len() as u64;
    words.fetch_sub::<EndOutBurstPlay<J>>(token, UPPER, count);
}
