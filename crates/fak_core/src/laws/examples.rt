//! Known cases on both sides of the definitions of progress and of blocks.

pub mod blocks;
pub mod room;

ghost use Rattle.std.specs.Prelude.{◌≡◌, ◌<◌, ℕ, [], ◌∷◌};
ghost use Rattle.fak_core.specs.declared.queue.phase.Phase.TheVariants.{EndDelete, EndInsert, SetFree, SetFull, TicketIn, TicketOut};
ghost use Rattle.fak_core.specs.ProgressExamples.{begun, held_up, rounds_of_two, waiting};
ghost use Rattle.fak_core.specs.QueueProgress.{AreIdleFrom, HoldsTicketOf, IsAdvance, IsIdleWithin, IsRound, MakesProgress, SomeHolderMoves, SomeSeatMoves, after_rounds, drawn_seats, has_drawn, round_robin};
ghost use Rattle.fak_core.specs.QueueSchedule.{Advances, Deletes};

/// A deletion waits for the insertion of its ticket. That insertion holds a ticket of the same cell and does not wait.
/// Once the cell is full or free, a call no longer holds its ticket.
pub fn the_seats_that_wait_are_judged()
    ensures waits { MakesProgress 2 waiting 2 → ⊥ }
    ensures moves { MakesProgress 2 waiting 0 }
    ensures held { HoldsTicketOf 2 (waiting.phase 2) 0 × HoldsTicketOf 2 (waiting.phase 0) 0 }
    ensures not_held { HoldsTicketOf 2 (waiting.phase 2) 1 → ⊥ }
    ensures full { HoldsTicketOf {A = ℕ} 2 (SetFull 5 10) 1 × (HoldsTicketOf {A = ℕ} 2 (EndInsert 5) 1 → ⊥) }
    ensures free { HoldsTicketOf {A = ℕ} 2 (SetFree 5) 1 × (HoldsTicketOf {A = ℕ} 2 (EndDelete 5) 1 → ⊥) }
{}

/// If a seat waits for the second seat, the first seat cannot move, but one of the first two can. Both have drawn
/// tickets, as many as the queue has cells. A call counts as having drawn from its draw up to its end.
pub fn the_seats_that_move_are_judged()
    ensures beyond { SomeSeatMoves 2 1 held_up → ⊥ }
    ensures among { SomeSeatMoves 2 2 held_up }
    ensures holder_beyond { SomeHolderMoves 2 1 held_up 0 → ⊥ }
    ensures holder { SomeHolderMoves 2 2 held_up 0 }
    ensures no_holder { SomeHolderMoves 2 2 held_up 1 → ⊥ }
    ensures drawn { (drawn_seats held_up 3 ≡ 2) × (drawn_seats held_up 1 ≡ 1) }
    ensures ends { (has_drawn {A = ℕ} (EndInsert 5) ≡ 1) × (has_drawn {A = ℕ} (EndDelete 5) ≡ 1) }
    ensures draws { (has_drawn {A = ℕ} (TicketIn 10) ≡ 0) × (has_drawn {A = ℕ} TicketOut ≡ 0) }
{}

/// In a round each of the given seats steps, and no other seat does anything. On a queue of one cell a call may need
/// all of the seven rounds that the law allows: after six rounds it is still open.
pub fn the_rounds_of_a_queue_are_judged()
    ensures round { IsRound {A = ℕ} 2 (Advances 1 ∷ Deletes 0 ∷ Advances 0 ∷ []) }
    ensures each { IsRound {A = ℕ} 2 (Advances 0 ∷ []) → ⊥ }
    ensures within { IsRound {A = ℕ} 2 (Advances 0 ∷ Advances 1 ∷ Deletes 2 ∷ []) → ⊥ }
    ensures six { IsIdleWithin 1 (rounds_of_two 6) begun 0 → ⊥ }
    ensures seven { IsIdleWithin 1 (rounds_of_two 7) begun 0 }
    ensures rest { AreIdleFrom 0 (after_rounds 1 (rounds_of_two 7) begun) }
    ensures no_rest { AreIdleFrom 0 (after_rounds 1 (rounds_of_two 6) begun) → ⊥ }
    ensures idle { AreIdleFrom 1 begun × (AreIdleFrom 0 begun → ⊥) }
    ensures advance { IsAdvance {A = ℕ} (Advances 0) × (IsAdvance {A = ℕ} (Deletes 0) → ⊥) }
    ensures in_turn { round_robin {A = ℕ} 3 ≡ Advances 2 ∷ Advances 1 ∷ Advances 0 ∷ [] }
{}
