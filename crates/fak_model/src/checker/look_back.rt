//! What the checker looks up in the marks that it has read, from the newest back.

ghost use Rattle.std.specs.Prelude.{◌≡◌, ◌≤◌, ◌↔◌, IsTrue, length, reverse};
ghost use Rattle.fak_model.specs.Checker.{IsNextPut, stage_with};
ghost use Rattle.fak_model.specs.declared.queue.Kind.TheVariants.{Fill, Take};
ghost use Rattle.fak_model.specs.Queue.{Has, count, gots, puts};
ghost use Rattle.fak_model.specs.QueuePast.{stage};

use crate::queue::{Kind, Mark, Stage};

/// 1 for a `Put`, else 0.
fn puts_by(kind: &Kind<u64>) -> u64
    ensures { result ≡ puts kind.now }
{
    u64::from(matches!(kind, Kind::Put(_)))
}

/// 1 for a `Got`, else 0.
fn gots_by(kind: &Kind<u64>) -> u64
    ensures { result ≡ gots kind.now }
{
    u64::from(matches!(kind, Kind::Got(_)))
}

/// The stage of a seat whose newest mark has this kind, if this many `Put`s and `Got`s come before that mark.
fn stage_after(puts_before: u64, gots_before: u64, kind: &Kind<u64>) -> Stage<u64>
    ensures { result ≡ stage_with puts_before gots_before kind.now }
{
    match kind {
        Kind::ClaimIn => Stage::Claimed,
        Kind::OverIn | Kind::LateIn => Stage::Withdrawing,
        Kind::Put(x) => Stage::Putting(puts_before, *x),
        Kind::Fill(k) => Stage::Filled(*k),
        Kind::ClaimOut => Stage::ClaimedOut,
        Kind::OverOut => Stage::WithdrawingOut,
        Kind::Got(_) => Stage::Getting(gots_before),
        Kind::Take(k) => Stage::Taken(*k),
        _ => Stage::Idle,
    }
}

/// The stage of a seat's open call, as its newest mark shows it. The number of draws before that mark gives the ticket:
/// all draws so far, minus those from that mark on.
pub(crate) fn stage_of(
    past: &[Mark<u64>],
    puts_so_far: u64,
    gots_so_far: u64,
    seat: u64,
) -> Stage<u64>
    requires puts { puts_so_far ≡ count puts (reverse past.now) }
    requires gots { gots_so_far ≡ count gots (reverse past.now) }
    ensures { result ≡ stage (reverse past.now) seat }
{
    let mut puts_before = puts_so_far;
    let mut gots_before = gots_so_far;
    for i in (0..past.len()).rev() {
        let m = &past[i];
        puts_before -= puts_by(&m.kind);
        gots_before -= gots_by(&m.kind);
        if m.seat == seat {
            return stage_after(puts_before, gots_before, &m.kind);
        }
    }
    Stage::Idle
}

/// Whether the cell of this ticket was filled for it.
pub(crate) fn was_filled(past: &[Mark<u64>], ticket: u64) -> bool
    ensures { IsTrue result ↔ Has (Fill ticket) (reverse past.now) }
{
    for i in (0..past.len()).rev() {
        if let Kind::Fill(k) = past[i].kind {
            if k == ticket {
                return true;
            }
        }
    }
    false
}

/// Whether the item of this ticket was taken from its cell.
pub(crate) fn was_taken(past: &[Mark<u64>], ticket: u64) -> bool
    ensures { IsTrue result ↔ Has (Take ticket) (reverse past.now) }
{
    for i in (0..past.len()).rev() {
        if let Kind::Take(k) = past[i].kind {
            if k == ticket {
                return true;
            }
        }
    }
    false
}

/// The first `Put` at this index or later, with its item.
pub(crate) fn next_put(past: &[Mark<u64>], from: usize) -> Option<(usize, u64)>
    requires { from ≤ length past.now }
    ensures { IsNextPut past.now from result }
{
    for i in from..past.len() {
        if let Kind::Put(x) = past[i].kind {
            return Some((i, x));
        }
    }
    None
}
