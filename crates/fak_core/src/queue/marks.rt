//! The marks of a queue core, and the items put, by ticket.

ghost use Rattle.std.specs.Prelude.{◌≡◌, ◌++◌, [], ◌∷◌, IfErr, IsSome, OnErr, OnOk, reverse, slice_get};
ghost use Rattle.fak_core.specs.QueueFields.{item_left};
ghost use Rattle.fak_core.specs.QueueMoves.{past_after};
ghost use Rattle.fak_core.specs.declared.fault.CoreFault.TheVariants.{Memory};
ghost use Rattle.fak_model.specs.declared.queue.Kind.TheVariants as mark;

use crate::fault::CoreFault;
use fak_model::{Kind, Mark};

/// Appends the mark of a step of this seat, if it leaves one, and the item if the mark is a Put.
pub fn keep_mark(
    marks: &mut Vec<Mark<u64>>,
    items: &mut Vec<u64>,
    seat: u64,
    mark: Option<Kind<u64>>,
) -> Result<(), CoreFault>
    ensures ok { OnOk result (reverse marks.new.items ≡ past_after seat mark (reverse marks.old.items)) }
    ensures items { OnOk result (items.new.items ≡ items.old.items ++ item_left mark) }
    ensures err { OnErr result (marks.new.items ≡ marks.old.items) }
    ensures err_items { OnErr result (items.new.items ≡ items.old.items) }
    ensures fault { IfErr result (λ fault. (fault ≡ Memory) × IsSome mark) }
{
    match mark {
        None => Ok(()),
        Some(Kind::Put(item)) => keep_put(marks, items, seat, item),
        Some(kind) => push_mark(marks, seat, kind),
    }
}

/// Appends a Put and its item.
fn keep_put(
    marks: &mut Vec<Mark<u64>>,
    items: &mut Vec<u64>,
    seat: u64,
    item: u64,
) -> Result<(), CoreFault>
    ensures ok { OnOk result (reverse marks.new.items ≡ record { seat = seat; kind = mark.Put item }
        ∷ reverse marks.old.items) }
    ensures items { OnOk result (items.new.items ≡ items.old.items ++ item ∷ []) }
    ensures err { OnErr result (marks.new.items ≡ marks.old.items) }
    ensures err_items { OnErr result (items.new.items ≡ items.old.items) }
    ensures fault { IfErr result (λ fault. fault ≡ Memory) }
{
    if items.push(item).is_err() {
        return Err(CoreFault::Memory);
    }
    if let Err(fault) = push_mark(marks, seat, Kind::Put(item)) {
        items.pop();
        return Err(fault);
    }
    Ok(())
}

/// Appends a mark.
#[tactic(auto, using(fak_model::proofs::Reversing::reverse_push))]
fn push_mark(marks: &mut Vec<Mark<u64>>, seat: u64, kind: Kind<u64>) -> Result<(), CoreFault>
    ensures ok { OnOk result (reverse marks.new.items ≡ record { seat = seat; kind = kind } ∷ reverse marks.old.items) }
    ensures err { OnErr result (marks.new.items ≡ marks.old.items) }
    ensures fault { IfErr result (λ fault. fault ≡ Memory) }
{
    if marks.push(Mark { seat, kind }).is_err() {
        return Err(CoreFault::Memory);
    }
    Ok(())
}

/// The item that was put under a ticket, if that ticket was drawn.
pub fn item_put(items: &[u64], ticket: u64) -> Option<u64>
    ensures { result ≡ slice_get items.now ticket }
{
    items.get(ticket as usize).copied()
}
