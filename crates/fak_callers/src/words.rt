//! What the words of laws say of known histories.

ghost use Rattle.std.specs.Prelude.{[], ◌∷◌, ◌++◌};
ghost use Rattle.fak_files.specs.Versions.{KeepsHold};
ghost use Rattle.fak_model.specs.Checker.{FirstFault};
ghost use Rattle.fak_model.specs.Examples.{by, deleted, file_by, inserted};
ghost use Rattle.fak_model.specs.QueueOrder.{DeletionEnded, Insertion, InsertionEnded, KeepsCallOrder};
ghost use Rattle.fak_model.specs.declared.file.FileKind.TheVariants.{Give};
ghost use Rattle.fak_model.specs.declared.queue.Kind.TheVariants.{ClaimIn, ClaimOut, EndIn, Got};

use fak_model::laws::examples::queue::the_cells_of_a_queue_are_judged;
use fak_model::laws::queue::{
    a_beginning_of_a_queue_history_is_one, a_legal_history_is_legal_mark_by_mark,
    a_queue_keeps_the_order_of_its_calls,
};

/// If 7, 8 and 9 were put one after another, and 9 is got first, the order of calls is broken. It is kept if 7 was got before
/// 8, though the deletion of 8 has ended and that of 7 has not.
pub fn a_deletion_out_of_order_is_told()
    ensures told { KeepsCallOrder (inserted 0 7 0 ++ inserted 0 8 1 ++ inserted 0 9 2 ++ deleted 1 9 2) → ⊥ }
    ensures keeps { KeepsCallOrder
        (inserted 0 7 0 ++ inserted 0 8 1 ++ by 1 ClaimOut ∷ by 1 (Got 7) ∷ [] ++ deleted 2 8 1) }
    ensures met { (second : Insertion
        (inserted 0 7 0 ++ inserted 0 8 1 ++ by 1 ClaimOut ∷ by 1 (Got 7) ∷ [] ++ deleted 2 8 1) 1)
        × InsertionEnded second.claim.before 0
        × DeletionEnded (inserted 0 7 0 ++ inserted 0 8 1 ++ by 1 ClaimOut ∷ by 1 (Got 7) ∷ [] ++ deleted 2 8 1) 1 }
{
    a_beginning_of_a_queue_history_is_one::<u64>();
    a_queue_keeps_the_order_of_its_calls::<u64>();
    the_cells_of_a_queue_are_judged();
}

/// A mark that may come is no fault, and the second of two faults is not the first.
pub fn the_first_fault_is_one_and_the_first()
    ensures lawful { FirstFault 1 (by 0 ClaimIn ∷ []) 0 → ⊥ }
    ensures first { FirstFault 1 (by 0 EndIn ∷ by 0 EndIn ∷ []) 0 }
    ensures second { FirstFault 1 (by 0 EndIn ∷ by 0 EndIn ∷ []) 1 → ⊥ }
{
    a_legal_history_is_legal_mark_by_mark::<u64>();
}

/// The give of another seat ends no hold of this one, and its own does.
pub fn a_hold_ends_with_its_own_give()
    ensures other { KeepsHold 0 (file_by 1 Give ∷ []) }
    ensures own { KeepsHold 0 (file_by 0 Give ∷ []) → ⊥ }
{}
