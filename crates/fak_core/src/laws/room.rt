//! The laws of the room core, for every bound, number of seats and schedule with amounts 1 to 1,024.

ghost use Rattle.std.specs.Prelude.{ℕ, ◌≡◌, ◌⊎◌, ◌≤◌, List, All, Some, slice_get};
ghost use Rattle.fak_core.specs.declared.room.phase.CoreSeat.{CoreSeat};
ghost use Rattle.fak_core.specs.declared.room.phase.RoomPhase.TheVariants.{Backing, Releasing};
ghost use Rattle.fak_core.specs.Room.{RoomState, history_of, opening};
ghost use Rattle.fak_core.specs.RoomProgress.{IsIdleOnce, own_steps};
ghost use Rattle.fak_core.specs.RoomSchedule.{IsEvent, RoomEvent, run};
ghost use Rattle.fak_model.specs.Room.{IsRoomHistory, amount_held, value};

/// The marks of every schedule are a lawful history of a room of that bound.
pub fn every_room_schedule_is_lawful()
    ensures { (bound seats : ℕ) (schedule : List RoomEvent) → All IsEvent schedule
        → IsRoomHistory bound (history_of (run schedule (opening bound seats))) }
{}

/// After every schedule the count is the value of the marks.
pub fn every_room_schedule_counts_its_marks()
    ensures { (bound seats : ℕ) (schedule : List RoomEvent) → All IsEvent schedule
        → (run schedule (opening bound seats)).count ≡ value (history_of (run schedule (opening bound seats))) }
{}

/// After every schedule each seat holds the amount that its marks give: its Ups less its Releases.
pub fn every_room_schedule_keeps_what_is_held()
    ensures { (bound seats : ℕ) (schedule : List RoomEvent) (i : ℕ) (seat : CoreSeat) → All IsEvent schedule
        → slice_get (run schedule (opening bound seats)).seats i ≡ Some seat
        → seat.held ≡ amount_held i (history_of (run schedule (opening bound seats))) }
{}

/// A room's claim ends within three steps of its own seat, and a release in one, whatever the other seats do in
/// between. A claim whose add found no room ends in one more step.
pub fn a_room_call_ends_in_three_steps()
    ensures claim { (s : RoomState) (events : List RoomEvent) (i : ℕ) (seat : CoreSeat) → slice_get s.seats i ≡ Some seat
        → 3 ≤ own_steps i events → IsIdleOnce events s i }
    ensures release { (s : RoomState) (events : List RoomEvent) (i : ℕ) (seat : CoreSeat) (d : ℕ)
        → slice_get s.seats i ≡ Some seat → (seat.phase ≡ Releasing d) ⊎ (seat.phase ≡ Backing d)
        → 1 ≤ own_steps i events → IsIdleOnce events s i }
{}
