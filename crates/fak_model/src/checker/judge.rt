//! Whether a mark may follow the marks before it.

ghost use Rattle.std.specs.Prelude.{ℕ, ◌≡◌, ◌+◌, ◌<◌, ◌^◌, ◌↔◌, ◌++◌, ◌∷◌, [], IsTrue, List, length, reverse};
ghost use Rattle.fak_model.specs.Checker.{AreBelow, AreCounts, counts_with};
ghost use Rattle.fak_model.specs.QueuePast.{HasCell, IsFair, IsNext, IsOldest, MayFollow};

use super::counts::Counts;
use super::look_back::{next_put, stage_of, was_filled, was_taken};
use crate::queue::{Kind, Mark, Stage};

/// Whether a mark of this kind may be the next mark of a seat at this stage.
fn is_next(stage: Stage<u64>, kind: &Kind<u64>) -> bool
    ensures { IsTrue result ↔ IsNext stage kind.now }
{
    match kind {
        Kind::BackIn => matches!(stage, Stage::Withdrawing),
        Kind::Put(_) => matches!(stage, Stage::Claimed),
        Kind::Fill(k) => matches!(stage, Stage::Putting(ticket, _) if ticket == *k),
        Kind::EndIn => matches!(stage, Stage::Filled(_)),
        Kind::BackOut => matches!(stage, Stage::WithdrawingOut),
        Kind::Got(_) => matches!(stage, Stage::ClaimedOut),
        Kind::Take(k) => matches!(stage, Stage::Getting(ticket) if ticket == *k),
        Kind::EndOut => matches!(stage, Stage::Taken(_)),
        _ => matches!(stage, Stage::Idle),
    }
}

/// Whether the upper count is below the size.
fn has_room(size: u64, counts: &Counts) -> bool
    ensures { IsTrue result ↔ (counts.now.upper_raises < size + counts.now.upper_drops) }
{
    counts.upper_raises < counts.upper_drops || counts.upper_raises - counts.upper_drops < size
}

/// Whether the lower count is at least 1.
fn has_item(counts: &Counts) -> bool
    ensures { IsTrue result ↔ (counts.now.lower_drops < counts.now.lower_raises) }
{
    counts.lower_drops < counts.lower_raises
}

/// Whether the counts allow a mark of this kind. Before a close, an insertion is granted only if there is room, and
/// refused only if there is none. From a close on, it can only be late. A deletion is granted only if there is an item,
/// and refused only if there is none.
fn is_fair(size: u64, counts: &Counts, kind: &Kind<u64>) -> bool
    ensures { (past : List (Mark ℕ)) → AreCounts past counts.now
        → (IsTrue result ↔ IsFair size (reverse past) kind.now) }
{
    match kind {
        Kind::NoRoom | Kind::OverIn => !has_room(size, counts) && !counts.is_shut,
        Kind::ClaimIn => has_room(size, counts) && !counts.is_shut,
        Kind::Closed | Kind::LateIn => counts.is_shut,
        Kind::NoItem | Kind::OverOut => !has_item(counts),
        Kind::ClaimOut => has_item(counts),
        _ => true,
    }
}

/// Whether a `Got` has the oldest item left. True for any other kind.
fn is_oldest(past: &[Mark<u64>], counts: &Counts, kind: &Kind<u64>) -> bool
    requires { AreCounts past.now counts.now }
    ensures { IsTrue result ↔ IsOldest (reverse past.now) kind.now }
{
    match kind {
        Kind::Got(x) => {
            match next_put(past, counts.oldest) {
                Some((_, item)) => item == *x,
                None => false,
            }
        }
        _ => true,
    }
}

/// Whether the cell is ready: free for a `Fill`, full for a `Take`. True for any other kind.
fn has_cell(size: u64, past: &[Mark<u64>], kind: &Kind<u64>) -> bool
    ensures { IsTrue result ↔ HasCell size (reverse past.now) kind.now }
{
    match kind {
        Kind::Fill(k) => *k < size || was_taken(past, *k - size),
        Kind::Take(k) => was_filled(past, *k),
        _ => true,
    }
}

/// Whether the mark may follow the marks before it.
pub(crate) fn may_follow(size: u64, past: &[Mark<u64>], counts: &Counts, m: &Mark<u64>) -> bool
    requires { AreCounts past.now counts.now }
    ensures { IsTrue result ↔ MayFollow size (reverse past.now) m.now.seat m.now.kind }
{
    let next = is_next(stage_of(past, counts.puts, counts.gots, m.seat), &m.kind);
    let fair = is_fair(size, counts, &m.kind);
    let oldest = is_oldest(past, counts, &m.kind);
    let cell = has_cell(size, past, &m.kind);
    next && fair && oldest && cell
}

/// The counts after one more mark of this kind, except for the index of the oldest item left.
fn counted_with(counts: Counts, kind: &Kind<u64>) -> Counts
    requires { AreBelow counts (2 ^ 63) }
    ensures { result ≡ counts_with counts kind.now }
{
    let mut after = counts;
    match kind {
        Kind::ClaimIn | Kind::OverIn | Kind::LateIn => after.upper_raises += 1,
        Kind::BackIn | Kind::EndOut => after.upper_drops += 1,
        Kind::EndIn | Kind::BackOut => after.lower_raises += 1,
        Kind::ClaimOut | Kind::OverOut => after.lower_drops += 1,
        Kind::Put(_) => after.puts += 1,
        Kind::Got(_) => after.gots += 1,
        Kind::Close => after.is_shut = true,
        _ => {}
    }
    after
}

/// All counts after one more mark, which may follow the marks before it.
pub(crate) fn counts_after(past: &[Mark<u64>], counts: Counts, m: &Mark<u64>) -> Counts
    requires few { length past.now < 2 ^ 63 }
    requires counts { AreCounts past.now counts }
    requires oldest { IsOldest (reverse past.now) m.now.kind }
    ensures { AreCounts (past.now ++ m.now ∷ []) result }
{
    let after = counted_with(counts, &m.kind);
    if let Kind::Got(_) = m.kind {
        if let Some((i, _)) = next_put(past, counts.oldest) {
            return Counts {
                oldest: i + 1,
                ..after
            };
        }
    }
    after
}
