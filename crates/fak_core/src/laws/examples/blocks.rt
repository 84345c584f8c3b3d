//! Known cases on both sides of the definitions of blocks.

ghost use Rattle.std.specs.Prelude.{◌≡◌, ℕ, pos, Some, true, [], ◌∷◌};
ghost use Rattle.fak_core.specs.BlockExamples.{added, drawn, first_two, last_one, one_left, three, to_add};
ghost use Rattle.fak_core.specs.declared.queue.phase.Phase.TheVariants.{AddUp, Idle, TurnIn, TurnOut};
ghost use Rattle.fak_core.specs.QueueBlocks.{AreApart, AreDrawnOut, ArePut, Changes, Grants, GrantsLow, LeadTo, Stand, all_at, deletion_tests, insertion_tests, marks_back, names_of, next_steps, tested_low, turns_from, turns_out_from};
ghost use Rattle.fak_core.specs.QueueMoves.{history_of, with_at};
ghost use Rattle.fak_core.specs.QueueSchedule.{Advances, Deletes, Inserts, opening};
ghost use Rattle.fak_model.specs.Examples.{by};
ghost use Rattle.fak_model.specs.declared.queue.Kind.TheVariants.{BackIn, ClaimIn, NoItem, OverIn, Put};

/// Three seats with an item each: their phases, the tickets that they draw from 4 on, and their marks, newest first. A
/// list in which a name occurs twice is not distinct. After 10 and 11 were put, the first two deletions get 10 and 11.
pub fn the_seats_of_a_block_are_judged()
    ensures names { names_of three ≡ 0 ∷ 1 ∷ 2 ∷ [] }
    ensures apart { AreApart (0 ∷ 1 ∷ 2 ∷ []) × (AreApart (0 ∷ 1 ∷ 0 ∷ []) → ⊥) × (AreApart (0 ∷ 1 ∷ 1 ∷ []) → ⊥) }
    ensures at { all_at (λ x. AddUp x) three ≡ (0, AddUp 10) ∷ (1, AddUp 11) ∷ (2, AddUp 12) ∷ [] }
    ensures turns { turns_from 4 three ≡ (0, TurnIn 4 10) ∷ (1, TurnIn 5 11) ∷ (2, TurnIn 6 12) ∷ [] }
    ensures turns_out { turns_out_from {A = ℕ} 4 three ≡ (0, TurnOut 4) ∷ (1, TurnOut 5) ∷ (2, TurnOut 6) ∷ [] }
    ensures marks { marks_back (λ x. Put x) three ≡ by 2 (Put 12) ∷ by 1 (Put 11) ∷ by 0 (Put 10) ∷ [] }
    ensures stand { Stand to_add ((0, AddUp 10) ∷ (1, AddUp 11) ∷ (2, AddUp 12) ∷ []) }
    ensures first_else { Stand to_add ((0, AddUp 11) ∷ (1, AddUp 11) ∷ []) → ⊥ }
    ensures last_else { Stand to_add ((0, AddUp 10) ∷ (1, Idle) ∷ []) → ⊥ }
    ensures put { ArePut drawn.past 0 first_two }
    ensures next { ArePut drawn.past 1 first_two → ⊥ }
    ensures beyond { ArePut drawn.past 0 three → ⊥ }
    ensures got { (both : AreDrawnOut {B = ℕ} 2 drawn ((4, 0) ∷ (5, 0) ∷ [])) → both.items ≡ (4, 10) ∷ (5, 11) ∷ [] }
{}

/// One load for three insertions, one add of 3 with two free cells, the withdrawal of the third, and the draws of the
/// others: the counts after each, and the marks, oldest first. The events are those of the schedule, in its order.
pub fn the_steps_of_a_block_are_judged()
    ensures tests { (to_add.upper ≡ pos 0) × (to_add.past ≡ []) }
    ensures adds { (added.upper ≡ pos 3) × (history_of added ≡ by 0 ClaimIn ∷ by 1 ClaimIn ∷ by 2 OverIn ∷ []) }
    ensures draws { (drawn.upper ≡ pos 2) × (drawn.draws_in ≡ 2) × (history_of drawn ≡
        by 0 ClaimIn ∷ by 1 ClaimIn ∷ by 2 OverIn ∷ by 2 BackIn ∷ by 0 (Put 10) ∷ by 1 (Put 11) ∷ []) }
    ensures tests_low { history_of (tested_low 2 opening three) ≡ by 0 NoItem ∷ by 1 NoItem ∷ by 2 NoItem ∷ [] }
    ensures steps { next_steps {A = ℕ} (0 ∷ 1 ∷ []) ≡ Advances 0 ∷ Advances 1 ∷ [] }
    ensures insertions { insertion_tests first_two ≡ Inserts 0 10 ∷ Advances 0 ∷ Inserts 1 11 ∷ Advances 1 ∷ [] }
    ensures deletions { deletion_tests {A = ℕ} (0 ∷ 1 ∷ []) ≡ Deletes 0 ∷ Advances 0 ∷ Deletes 1 ∷ Advances 1 ∷ [] }
    ensures lead { LeadTo 2 opening (insertion_tests three) to_add }
    ensures astray { LeadTo 2 opening (insertion_tests first_two) to_add → ⊥ }
{}

/// In an empty queue of two cells exactly the first two of three adds are granted, and none if the queue is shut. With
/// one item, the first of two subtractions is granted.
pub fn the_grants_of_a_block_are_judged()
    ensures two { Grants 2 to_add first_two last_one }
    ensures three { Grants 2 to_add three [] → ⊥ }
    ensures none { Grants 2 to_add [] three → ⊥ }
    ensures shut { Grants 2 (record to_add { shut = true }) first_two last_one → ⊥ }
    ensures low { GrantsLow one_left last_one first_two }
    ensures low_two { GrantsLow one_left first_two last_one → ⊥ }
    ensures low_none { GrantsLow one_left [] three → ⊥ }
{}

/// A change that differs in one part is another change: in a count, a ticket counter, a turn, a cell, the shut bit or
/// the marks; or in the phase of a seat, whether or not it is in the block.
pub fn the_changes_of_a_block_are_judged()
    ensures same { Changes {A = ℕ} opening opening [] (pos 0) (pos 0) 0 0 ((0, Idle) ∷ []) }
    ensures upper { Changes {A = ℕ} opening (record opening { upper = pos 1 }) [] (pos 0) (pos 0) 0 0 [] → ⊥ }
    ensures lower { Changes {A = ℕ} opening (record opening { lower = pos 1 }) [] (pos 0) (pos 0) 0 0 [] → ⊥ }
    ensures draws_in { Changes {A = ℕ} opening (record opening { draws_in = 1 }) [] (pos 0) (pos 0) 0 0 [] → ⊥ }
    ensures draws_out { Changes {A = ℕ} opening (record opening { draws_out = 1 }) [] (pos 0) (pos 0) 0 0 [] → ⊥ }
    ensures turn { Changes {A = ℕ} opening (record opening { turn = λ c. 1 }) [] (pos 0) (pos 0) 0 0 [] → ⊥ }
    ensures cell { Changes {A = ℕ} opening (record opening { cell = λ c. Some 5 }) [] (pos 0) (pos 0) 0 0 [] → ⊥ }
    ensures shut { Changes {A = ℕ} opening (record opening { shut = true }) [] (pos 0) (pos 0) 0 0 [] → ⊥ }
    ensures past { Changes {A = ℕ} opening (record opening { past = by 0 ClaimIn ∷ [] }) [] (pos 0) (pos 0) 0 0 [] → ⊥ }
    ensures stand { Changes {A = ℕ} opening opening [] (pos 0) (pos 0) 0 0 ((0, AddUp 10) ∷ []) → ⊥ }
    ensures other { Changes {A = ℕ} opening (record opening { phase = with_at opening.phase 1 (AddUp 10) }) []
        (pos 0) (pos 0) 0 0 ((0, Idle) ∷ []) → ⊥ }
    ensures own { Changes {A = ℕ} opening (record opening { phase = with_at opening.phase 1 (AddUp 10) }) []
        (pos 0) (pos 0) 0 0 ((1, AddUp 10) ∷ []) }
{}
