//! Blocks: steps of several seats in a row, one step of each seat, for every size and state and items of any type. A
//! block of d seats changes a count as one fetch-and-add of d does.

ghost use Rattle.std.specs.Prelude.{◌≡◌, ℕ, ◌-◌, ◌<◌, ◌<ℤ◌, ◌≤ℤ◌, ◌++◌, List, [], drop, false, pos, take, true};
ghost use Rattle.fak_core.specs.declared.queue.phase.Phase.TheVariants.{AddUp, Idle, SubLow, TicketOut};
ghost use Rattle.fak_core.specs.QueueBlocks.{AreAdded, AreApart, AreDrawn, AreDrawnOut, AreEnded, AreEndedOut, AreLate, AreSubtracted, AreTested, AreTestedLow, AreWithdrawn, AreWithdrawnOut, Grants, GrantsLow, LeadTo, Posts, Stand, all_at, block, deletion_tests, insertion_tests, marks_back, names_of, next_steps, tested, tested_low};
ghost use Rattle.fak_core.specs.QueueMoves.{QueueState};
ghost use Rattle.fak_core.specs.QueueSchedule.{IsReached};
ghost use Rattle.fak_model.specs.declared.queue.Kind.TheVariants.{Closed, NoItem, NoRoom};

/// A block is part of a schedule: the next steps of its seats, in their order. If seats are tested together, these
/// events are the begin and the first step of each seat. So a block leads from a reached state to a reached state.
pub fn a_block_is_part_of_a_schedule<T, B>()
    ensures steps { (size : ℕ) (st : QueueState T) (seats : Posts T) → AreApart (names_of seats) → Stand st seats
        → LeadTo size st (next_steps (names_of seats)) (block size st seats) }
    ensures insertions { (size : ℕ) (st : QueueState T) (seats : List (ℕ × T)) → AreApart (names_of seats)
        → Stand st (all_at (λ x. Idle) seats) → LeadTo size st (insertion_tests seats) (tested size st seats) }
    ensures deletions { (size : ℕ) (st : QueueState T) (seats : List (ℕ × B)) → AreApart (names_of seats)
        → Stand st (all_at (λ x. Idle) seats)
        → LeadTo size st (deletion_tests (names_of seats)) (tested_low size st seats) }
{}

/// One load of the upper count tests for several insertions. If there is room, all go on; otherwise all are refused.
pub fn one_load_tests_several_insertions<T>()
    ensures room { (size : ℕ) (st : QueueState T) (seats : List (ℕ × T)) → AreApart (names_of seats) → st.shut ≡ false
        → st.upper <ℤ pos size → AreTested size st seats [] (λ x. AddUp x) }
    ensures full { (size : ℕ) (st : QueueState T) (seats : List (ℕ × T)) → AreApart (names_of seats) → st.shut ≡ false
        → pos size ≤ℤ st.upper → AreTested size st seats (marks_back (λ x. NoRoom) seats) (λ x. Idle) }
    ensures shut { (size : ℕ) (st : QueueState T) (seats : List (ℕ × T)) → AreApart (names_of seats) → st.shut ≡ true
        → AreTested size st seats (marks_back (λ x. Closed) seats) (λ x. Idle) }
{}

/// One add of d to the upper count claims for d insertions. The first ones are granted, as many as there is room for;
/// the others are refused. If the add finds the count u, the first size - u are granted. In a shut queue all are late.
pub fn one_add_claims_several_insertions<T>()
    ensures some { (size : ℕ) (st : QueueState T) (granted over : List (ℕ × T)) → AreApart (names_of (granted ++ over))
        → Grants size st granted over → AreAdded size st granted over }
    ensures first { (size u : ℕ) (st : QueueState T) (seats : List (ℕ × T)) → AreApart (names_of seats)
        → st.shut ≡ false → st.upper ≡ pos u → AreAdded size st (take (size - u) seats) (drop (size - u) seats) }
    ensures late { (size : ℕ) (st : QueueState T) (seats : List (ℕ × T)) → AreApart (names_of seats) → st.shut ≡ true
        → AreLate size st seats }
{}

/// One subtraction from the upper count withdraws several insertions. One add draws consecutive tickets for several
/// insertions, and one add to the lower count ends several insertions.
pub fn one_add_moves_several_insertions_on<T>()
    ensures backs { (size : ℕ) (st : QueueState T) (seats : List (ℕ × T)) → AreApart (names_of seats)
        → AreWithdrawn size st seats }
    ensures draws { (size : ℕ) (st : QueueState T) (seats : List (ℕ × T)) → AreApart (names_of seats)
        → AreDrawn size st seats }
    ensures ends { (size : ℕ) (st : QueueState T) (seats : List (ℕ × ℕ)) → AreApart (names_of seats)
        → AreEnded size st seats }
{}

/// One load of the lower count tests for several deletions. If there is an item, all go on; otherwise all are refused.
pub fn one_load_tests_several_deletions<T, B>()
    ensures stock { (size : ℕ) (st : QueueState T) (seats : List (ℕ × B)) → AreApart (names_of seats)
        → pos 1 ≤ℤ st.lower → AreTestedLow size st seats [] (λ x. SubLow) }
    ensures empty { (size : ℕ) (st : QueueState T) (seats : List (ℕ × B)) → AreApart (names_of seats)
        → st.lower ≤ℤ pos 0
        → AreTestedLow size st seats (marks_back (λ x. NoItem) seats) (λ x. Idle) }
{}

/// One subtraction of d from the lower count claims for d deletions. The first ones are granted, as many as there are
/// items; the others are refused. If the subtraction finds the count l, the first l are granted, and none if l is below
/// 1.
pub fn one_subtraction_claims_several_deletions<T, B>()
    ensures some { (size : ℕ) (st : QueueState T) (granted over : List (ℕ × B)) → AreApart (names_of (granted ++ over))
        → GrantsLow st granted over → AreSubtracted size st granted over }
    ensures first { (size l : ℕ) (st : QueueState T) (seats : List (ℕ × B)) → AreApart (names_of seats)
        → st.lower ≡ pos l → AreSubtracted size st (take l seats) (drop l seats) }
    ensures none { (size : ℕ) (st : QueueState T) (seats : List (ℕ × B)) → AreApart (names_of seats)
        → st.lower ≤ℤ pos 0 → AreSubtracted size st [] seats }
{}

/// One add to the lower count withdraws several deletions. One add draws consecutive tickets for several deletions,
/// each with the item that was put under its ticket. One subtraction from the upper count ends several deletions.
pub fn one_add_moves_several_deletions_on<T, B>()
    ensures backs { (size : ℕ) (st : QueueState T) (seats : List (ℕ × B)) → AreApart (names_of seats)
        → AreWithdrawnOut size st seats }
    ensures draws { (size : ℕ) (st : QueueState T) (seats : List (ℕ × B)) → 0 < size → IsReached size st
        → AreApart (names_of seats) → Stand st (all_at (λ x. TicketOut) seats) → AreDrawnOut size st seats }
    ensures ends { (size : ℕ) (st : QueueState T) (seats : List (ℕ × ℕ)) → AreApart (names_of seats)
        → AreEndedOut size st seats }
{}
