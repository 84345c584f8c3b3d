//! What follows of the progress of a queue core and of a room core, over every schedule, with the numbers written out.

ghost use Rattle.std.specs.Prelude.{◌≡◌, ◌≢◌, ℕ, ◌+◌, ◌*◌, ◌<◌, ◌≤◌, List, Some, length, min, replicate, slice_get};
ghost use Rattle.std.specs.List.{All};
ghost use Rattle.fak_core.specs.declared.queue.phase.Phase.TheVariants.{BackLow, BackUp, Idle};
ghost use Rattle.fak_core.specs.declared.room.phase.CoreSeat.{CoreSeat};
ghost use Rattle.fak_core.specs.declared.room.phase.RoomPhase.TheVariants.{Backing, Releasing};
ghost use Rattle.fak_core.specs.QueueProgress.{AreIdleFrom, EachSteps, HoldsTicketOf, IsAdvance, IsIdleWithin, IsRound, after_rounds, drawn_seats, round_robin, steps_left, steps_made};
ghost use Rattle.fak_core.specs.QueueSchedule.{Advances, QueueEvent, reached, stepped};
ghost use Rattle.fak_core.specs.Room.{opening};
ghost use Rattle.fak_core.specs.RoomProgress.{IsIdleOnce, own_steps};
ghost use Rattle.fak_core.specs.RoomSchedule.{RoomEvent, run};

use fak_core::laws::progress::{
    a_call_has_few_steps, a_queue_comes_to_rest, a_queue_never_locks_up,
    a_round_robin_steps_each_seat_once, a_stopped_seat_holds_up_its_cell_alone,
    a_turn_that_has_come_stays, every_open_call_ends, few_seats_have_drawn,
};
use fak_core::laws::room::a_room_call_ends_in_three_steps;

/// While a call is open, the next steps of all seats do not leave every seat at its phase. The same holds for the seats
/// that hold a ticket of the call's cell. A call without a ticket moves at its own next step.
pub fn never_all_wait<T>()
    ensures call { (size : ℕ) (schedule : List (QueueEvent T)) (s : ℕ) → 0 < size
        → (reached size schedule).phase s ≢ Idle
        → ((t : ℕ) → (stepped size (reached size schedule) t).phase t ≡ (reached size schedule).phase t) → ⊥ }
    ensures cell { (size : ℕ) (schedule : List (QueueEvent T)) (s c : ℕ) → 0 < size
        → HoldsTicketOf size ((reached size schedule).phase s) c
        → ((t : ℕ) → HoldsTicketOf size ((reached size schedule).phase t) c
        → (stepped size (reached size schedule) t).phase t ≡ (reached size schedule).phase t) → ⊥ }
    ensures own { (size : ℕ) (schedule : List (QueueEvent T)) (s : ℕ) → 0 < size
        → (reached size schedule).phase s ≢ Idle
        → (stepped size (reached size schedule) s).phase s ≡ (reached size schedule).phase s
        → (((c : ℕ) → HoldsTicketOf size ((reached size schedule).phase s) c → ⊥) → ⊥) }
{
    a_queue_never_locks_up::<T>();
}

/// If only the first seats have calls, not all of these stay. Nor do all of these that hold a ticket of the call's cell.
pub fn never_all_seats_wait<T>()
    ensures call { (size seats : ℕ) (schedule : List (QueueEvent T)) (s : ℕ) → 0 < size
        → AreIdleFrom seats (reached size schedule) → (reached size schedule).phase s ≢ Idle
        → ((t : ℕ) → t < seats
        → (stepped size (reached size schedule) t).phase t ≡ (reached size schedule).phase t) → ⊥ }
    ensures cell { (size seats : ℕ) (schedule : List (QueueEvent T)) (s c : ℕ) → 0 < size
        → AreIdleFrom seats (reached size schedule) → HoldsTicketOf size ((reached size schedule).phase s) c
        → ((t : ℕ) → t < seats → HoldsTicketOf size ((reached size schedule).phase t) c
        → (stepped size (reached size schedule) t).phase t ≡ (reached size schedule).phase t) → ⊥ }
{
    a_queue_never_locks_up::<T>();
}

/// No step of another seat makes a seat stay that would have moved.
pub fn keeps_its_turn<T>()
    ensures { (size : ℕ) (schedule : List (QueueEvent T)) (s t : ℕ) → 0 < size → s ≢ t
        → (stepped size (reached size schedule) s).phase s ≢ (reached size schedule).phase s
        → (stepped size (stepped size (reached size schedule) t) s).phase s ≡
        (stepped size (reached size schedule) t).phase s → ⊥ }
{
    a_turn_that_has_come_stays::<T>();
}

/// The number of seats that have drawn a ticket and not ended their call is at most the number of cells.
pub fn drawn_at_once<T>()
    ensures { (size n : ℕ) (schedule : List (QueueEvent T)) → 0 < size
        → size < drawn_seats (reached size schedule) n → ⊥ }
{
    few_seats_have_drawn::<T>();
}

/// The seventh step that moves a call ends it, and each such step lowers the number of steps left. A claim that is
/// withdrawn has taken two steps and has one left.
pub fn ends_at_its_seventh_step<T>()
    ensures seventh { (size : ℕ) (schedule : List (QueueEvent T)) (s : ℕ) → 0 < size
        → steps_made ((reached size schedule).phase s) ≡ 6
        → (stepped size (reached size schedule) s).phase s ≢ (reached size schedule).phase s
        → (stepped size (reached size schedule) s).phase s ≡ Idle }
    ensures fewer { (size : ℕ) (schedule : List (QueueEvent T)) (s : ℕ) → 0 < size
        → (stepped size (reached size schedule) s).phase s ≢ (reached size schedule).phase s
        → steps_left ((stepped size (reached size schedule) s).phase s) + 1 ≤ steps_left
        ((reached size schedule).phase s) }
    ensures withdrawn { (x : T) → (steps_made (BackUp x) + steps_left (BackUp x) ≡ 3)
        × (steps_made {A = T} BackLow + steps_left {A = T} BackLow ≡ 3) }
{
    a_call_has_few_steps::<T>();
}

/// Each call that is open has ended after 3 min(size, n) + 4 rounds of n seats. In a queue of one cell, these are seven.
pub fn ends_within_its_rounds<T>()
    ensures rounds { (size seats : ℕ) (schedule : List (QueueEvent T)) (rounds : List (List (QueueEvent T))) (s : ℕ)
        → 0 < size → AreIdleFrom seats (reached size schedule) → All (IsRound seats) rounds
        → length rounds ≡ 3 * min size seats + 4 → IsIdleWithin size rounds (reached size schedule) s }
    ensures one_cell { (seats : ℕ) (schedule : List (QueueEvent T)) (rounds : List (List (QueueEvent T))) (s : ℕ)
        → AreIdleFrom seats (reached 1 schedule) → All (IsRound seats) rounds
        → length rounds ≡ 7 → IsIdleWithin 1 rounds (reached 1 schedule) s }
{
    every_open_call_ends::<T>();
}

/// A call with a ticket has ended after 3 size + 1 rounds of the seats that hold a ticket of its cell. In a queue of one
/// cell, these are four.
pub fn ends_by_the_seats_of_its_cell<T>()
    ensures rounds { (size : ℕ) (schedule : List (QueueEvent T)) (rounds : List (List (QueueEvent T))) (s c : ℕ)
        → 0 < size → HoldsTicketOf size ((reached size schedule).phase s) c
        → All (EachSteps (λ t. HoldsTicketOf size ((reached size schedule).phase t) c)) rounds
        → length rounds ≡ 3 * size + 1 → IsIdleWithin size rounds (reached size schedule) s }
    ensures one_cell { (schedule : List (QueueEvent T)) (rounds : List (List (QueueEvent T))) (s c : ℕ)
        → HoldsTicketOf 1 ((reached 1 schedule).phase s) c
        → All (EachSteps (λ t. HoldsTicketOf 1 ((reached 1 schedule).phase t) c)) rounds
        → length rounds ≡ 4 → IsIdleWithin 1 rounds (reached 1 schedule) s }
{
    a_stopped_seat_holds_up_its_cell_alone::<T>();
}

/// If no call begins, all seats are idle after 3 min(size, n) + 4 rounds, which may be those of a round robin. In a queue
/// of one cell, these are seven.
pub fn rests_after_its_rounds<T>()
    ensures rounds { (size seats : ℕ) (schedule : List (QueueEvent T)) (rounds : List (List (QueueEvent T))) (s : ℕ)
        → 0 < size → AreIdleFrom seats (reached size schedule) → All (IsRound seats) rounds
        → All (λ (r : List (QueueEvent T)). All (IsAdvance {A = T}) r) rounds → length rounds ≡ 3 * min size seats + 4
        → (after_rounds size rounds (reached size schedule)).phase s ≡ Idle }
    ensures in_turn { (size seats s : ℕ) (schedule : List (QueueEvent T)) → 0 < size
        → AreIdleFrom seats (reached size schedule)
        → (after_rounds size (replicate (3 * min size seats + 4) (round_robin seats))
        (reached size schedule)).phase s ≡ Idle }
    ensures one_cell { (seats s : ℕ) (schedule : List (QueueEvent T)) → AreIdleFrom seats (reached 1 schedule)
        → (after_rounds 1 (replicate 7 (round_robin seats)) (reached 1 schedule)).phase s ≡ Idle }
{
    a_queue_comes_to_rest::<T>();
}

/// A round of a round-robin scheduler of n seats has n events, and no seat takes its step at two places.
pub fn steps_once_in_a_round<T>()
    ensures long { (n : ℕ) → length (round_robin {A = T} n) ≡ n }
    ensures once { (n i s : ℕ) → i < n → slice_get (round_robin {A = T} n) i ≡ Some (Advances s) → i + s + 1 ≡ n }
{
    a_round_robin_steps_each_seat_once::<T>();
}

/// After any schedule of a room, a call of a seat ends within three more steps of that seat. A release or a withdrawal
/// ends at its next step.
pub fn claims_within_three_steps()
    ensures claim { (bound seats i : ℕ) (schedule events : List RoomEvent) (seat : CoreSeat)
        → slice_get (run schedule (opening bound seats)).seats i ≡ Some seat
        → own_steps i events ≡ 3 → IsIdleOnce events (run schedule (opening bound seats)) i }
    ensures release { (bound seats i d : ℕ) (schedule events : List RoomEvent) (seat : CoreSeat)
        → slice_get (run schedule (opening bound seats)).seats i ≡ Some seat → seat.phase ≡ Releasing d
        → own_steps i events ≡ 1 → IsIdleOnce events (run schedule (opening bound seats)) i }
    ensures back { (bound seats i d : ℕ) (schedule events : List RoomEvent) (seat : CoreSeat)
        → slice_get (run schedule (opening bound seats)).seats i ≡ Some seat → seat.phase ≡ Backing d
        → own_steps i events ≡ 1 → IsIdleOnce events (run schedule (opening bound seats)) i }
{
    a_room_call_ends_in_three_steps();
}
