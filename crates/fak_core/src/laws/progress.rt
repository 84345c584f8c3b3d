//! Progress: the calls of a queue core move forward and end, for every size above 0, every schedule and items of any
//! type.

ghost use Rattle.std.specs.Prelude.{◌≡◌, ◌≢◌, ◌⊎◌, ℕ, ◌+◌, ◌-◌, ◌*◌, ◌<◌, ◌≤◌, List, Some, length, min, replicate, slice_get};
ghost use Rattle.std.specs.List.{All};
ghost use Rattle.fak_core.specs.declared.queue.phase.Phase.{Phase};
ghost use Rattle.fak_core.specs.declared.queue.phase.Phase.TheVariants.{BackLow, BackUp, Idle};
ghost use Rattle.fak_core.specs.QueueProgress.{AreIdleFrom, EachSteps, HoldsTicketOf, IsAdvance, IsIdleWithin, IsRound, MakesProgress, SomeHolderMoves, SomeSeatMoves, after_rounds, drawn_seats, round_robin, steps_left, steps_made};
ghost use Rattle.fak_core.specs.QueueSchedule.{Advances, QueueEvent, reached, stepped};

/// A queue never locks up: while a call is open, some seat's next step moves its call forward. Only a call that holds a
/// ticket can wait, and then some seat that holds a ticket of the same cell can move forward. If only the first seats
/// have calls, it is one of these.
pub fn a_queue_never_locks_up<T>()
    ensures call { (size : ℕ) (schedule : List (QueueEvent T)) (s : ℕ) → 0 < size
        → (reached size schedule).phase s ≢ Idle → (t : ℕ) × MakesProgress size (reached size schedule) t }
    ensures cell { (size : ℕ) (schedule : List (QueueEvent T)) (s c : ℕ) → 0 < size
        → HoldsTicketOf size ((reached size schedule).phase s) c
        → (t : ℕ) × HoldsTicketOf size ((reached size schedule).phase t) c
        × MakesProgress size (reached size schedule) t }
    ensures ticketless { (size : ℕ) (schedule : List (QueueEvent T)) (s : ℕ) → 0 < size
        → (reached size schedule).phase s ≢ Idle
        → ((c : ℕ) → HoldsTicketOf size ((reached size schedule).phase s) c → ⊥)
        → MakesProgress size (reached size schedule) s }
    ensures among { (size seats : ℕ) (schedule : List (QueueEvent T)) (s : ℕ) → 0 < size
        → AreIdleFrom seats (reached size schedule) → (reached size schedule).phase s ≢ Idle
        → SomeSeatMoves size seats (reached size schedule) }
    ensures holders { (size seats : ℕ) (schedule : List (QueueEvent T)) (s c : ℕ) → 0 < size
        → AreIdleFrom seats (reached size schedule) → HoldsTicketOf size ((reached size schedule).phase s) c
        → SomeHolderMoves size seats (reached size schedule) c }
{}

/// However many seats there are, at most `size` of them are between the draw of a ticket and the end of their call.
pub fn few_seats_have_drawn<T>()
    ensures { (size n : ℕ) (schedule : List (QueueEvent T)) → 0 < size → drawn_seats (reached size schedule) n ≤ size }
{}

/// If a seat's next step would move its call forward, it still would after any step of another seat.
pub fn a_turn_that_has_come_stays<T>()
    ensures { (size : ℕ) (schedule : List (QueueEvent T)) (s t : ℕ) → 0 < size → s ≢ t
        → MakesProgress size (reached size schedule) s → MakesProgress size (stepped size (reached size schedule) t) s }
{}

/// A call takes at most seven steps, not counting loads of a turn that has not come. A refused call whose claim is
/// withdrawn takes three.
pub fn a_call_has_few_steps<T>()
    ensures most { (p : Phase T) → steps_made p + steps_left p ≤ 7 }
    ensures withdrawn { (x : T) → (steps_made (BackUp x) + steps_left (BackUp x) ≡ 3)
        × (steps_made {A = T} BackLow + steps_left {A = T} BackLow ≡ 3) }
    ensures none { (p : Phase T) → steps_left p ≡ 0 → p ≡ Idle }
    ensures counted { (size : ℕ) (schedule : List (QueueEvent T)) (s : ℕ) → 0 < size
        → MakesProgress size (reached size schedule) s
        → ((stepped size (reached size schedule) s).phase s ≡ Idle)
        ⊎ (steps_made ((stepped size (reached size schedule) s).phase s) ≡ steps_made
        ((reached size schedule).phase s) + 1) }
    ensures fewer { (size : ℕ) (schedule : List (QueueEvent T)) (s : ℕ) → 0 < size
        → MakesProgress size (reached size schedule) s
        → steps_left ((stepped size (reached size schedule) s).phase s) < steps_left ((reached size schedule).phase s) }
{}

/// Every open call ends, even while new calls keep beginning. In a round each of n seats steps at least once, in any
/// order. After 3 min(size, n) + 4 such rounds each call that was open has ended.
pub fn every_open_call_ends<T>()
    ensures { (size seats : ℕ) (schedule : List (QueueEvent T)) (rounds : List (List (QueueEvent T))) (s : ℕ) → 0 < size
        → AreIdleFrom seats (reached size schedule) → All (IsRound seats) rounds
        → 3 * min size seats + 4 ≤ length rounds → IsIdleWithin size rounds (reached size schedule) s }
{}

/// A seat that stops forever holds up only the calls that share its cell. A call with a ticket ends within 3 size + 1
/// rounds. In each round every seat that holds a ticket of its cell at the start steps at least once; no other seat
/// needs to step.
pub fn a_stopped_seat_holds_up_its_cell_alone<T>()
    ensures { (size : ℕ) (schedule : List (QueueEvent T)) (rounds : List (List (QueueEvent T))) (s c : ℕ) → 0 < size
        → HoldsTicketOf size ((reached size schedule).phase s) c
        → All (EachSteps (λ t. HoldsTicketOf size ((reached size schedule).phase t) c)) rounds
        → 3 * size + 1 ≤ length rounds
        → IsIdleWithin size rounds (reached size schedule) s }
{}

/// If no new call begins, all seats are idle after 3 min(size, n) + 4 rounds. The rounds of a round-robin scheduler, in
/// which each seat takes one step, are enough.
pub fn a_queue_comes_to_rest<T>()
    ensures rounds { (size seats : ℕ) (schedule : List (QueueEvent T)) (rounds : List (List (QueueEvent T))) → 0 < size
        → AreIdleFrom seats (reached size schedule) → All (IsRound seats) rounds
        → All (λ (r : List (QueueEvent T)). All (IsAdvance {A = T}) r) rounds
        → 3 * min size seats + 4 ≤ length rounds → AreIdleFrom 0 (after_rounds size rounds (reached size schedule)) }
    ensures in_turn { (size seats n : ℕ) (schedule : List (QueueEvent T)) → 0 < size
        → AreIdleFrom seats (reached size schedule) → 3 * min size seats + 4 ≤ n
        → AreIdleFrom 0 (after_rounds size (replicate n (round_robin seats)) (reached size schedule)) }
{}

/// A round of a round-robin scheduler of n seats has n events. The event at n - 1 - s is the step of seat s.
pub fn a_round_robin_steps_each_seat_once<T>()
    ensures long { (n : ℕ) → length (round_robin {A = T} n) ≡ n }
    ensures each { (n s : ℕ) → s < n → slice_get (round_robin {A = T} n) (n - 1 - s) ≡ Some (Advances s) }
{}
