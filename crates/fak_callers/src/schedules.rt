//! What follows of the marks that schedules of a queue core and of a room core leave.

ghost use Rattle.std.specs.Prelude.{◌≡◌, ◌≢◌, ℕ, ◌%◌, ◌<◌, ◌≤◌, List, All, None, Some, length, slice_get};
ghost use Rattle.fak_core.specs.declared.queue.phase.Phase.TheVariants.{LoadItem, TicketOut};
ghost use Rattle.fak_core.specs.declared.room.phase.CoreSeat.{CoreSeat};
ghost use Rattle.fak_core.specs.QueueMoves as queue;
ghost use Rattle.fak_core.specs.QueueSchedule.{InCell, QueueEvent, reached};
ghost use Rattle.fak_core.specs.Room as room;
ghost use Rattle.fak_core.specs.RoomSchedule.{IsEvent, RoomEvent, run};
ghost use Rattle.fak_model.specs.declared.queue.Kind.TheVariants.{Got};
ghost use Rattle.fak_model.specs.Histories.{AreNamed, sum_below};
ghost use Rattle.fak_model.specs.Queue.{Drew, IsQueueHistory, contents, count, gots, item_at, items_put, puts};
ghost use Rattle.fak_model.specs.Room.{IsRoomHistory, amount_held, room_rules, value};

use fak_core::laws::queue::{
    a_cell_has_one_owner, a_deletion_loads_the_item_of_its_ticket,
    a_granted_deletion_draws_an_item, every_queue_schedule_is_legal,
};
use fak_core::laws::room::{
    every_room_schedule_counts_its_marks, every_room_schedule_is_lawful,
    every_room_schedule_keeps_what_is_held,
};
use fak_model::laws::queue::a_queue_holds_no_more_than_its_size;
use fak_model::laws::room::amounts_held_in_a_room_fit;

/// What every schedule of a queue leaves is legal: no more was got than was put, and no more is left than the queue has
/// cells.
pub fn leaves_what_fits<T>()
    ensures history { (size : ℕ) (schedule : List (QueueEvent T)) → 0 < size
        → IsQueueHistory size (queue.history_of (reached size schedule)) }
    ensures got { (size : ℕ) (schedule : List (QueueEvent T)) → 0 < size
        → count gots (queue.history_of (reached size schedule)) ≤ count puts
        (queue.history_of (reached size schedule)) }
    ensures left { (size : ℕ) (schedule : List (QueueEvent T)) → 0 < size
        → length (contents (queue.history_of (reached size schedule))) ≤ size }
{
    every_queue_schedule_is_legal::<T>();
    a_queue_holds_no_more_than_its_size::<T>();
}

/// Two seats are never in one cell.
pub fn cells_apart<T>()
    ensures { (size : ℕ) (schedule : List (QueueEvent T)) (s t c : ℕ) → 0 < size → s ≢ t
        → InCell size ((reached size schedule).phase s) c → InCell size ((reached size schedule).phase t) c → ⊥ }
{
    a_cell_has_one_owner::<T>();
}

/// What a deletion is about to load is the item that was put under its own ticket, and that its Got bears.
pub fn loads_what_was_put<T>()
    ensures { (size : ℕ) (schedule : List (QueueEvent T)) (s k : ℕ) → 0 < size
        → (reached size schedule).phase s ≡ LoadItem k
        → (item : T) × ((reached size schedule).cell (k % size) ≡ Some item)
        × (item_at (items_put (queue.history_of (reached size schedule))) k ≡ Some item)
        × Drew (queue.history_of (reached size schedule)) s (Got item) gots k }
{
    a_deletion_loads_the_item_of_its_ticket::<T>();
}

/// If no item was put under the next ticket of a deletion, no deletion is about to draw it.
pub fn draws_no_empty_ticket<T>()
    ensures { (size : ℕ) (schedule : List (QueueEvent T)) (s : ℕ) → 0 < size
        → item_at (items_put (queue.history_of (reached size schedule))) (reached size schedule).draws_out ≡ None
        → (reached size schedule).phase s ≢ TicketOut }
{
    a_granted_deletion_draws_an_item::<T>();
}

/// What every schedule of a room leaves is lawful: what its seats hold by their marks fits the bound.
pub fn holds_what_fits()
    ensures history { (bound seats : ℕ) (schedule : List RoomEvent) → All IsEvent schedule
        → IsRoomHistory bound (room.history_of (run schedule (room.opening bound seats))) }
    ensures fits { (bound seats : ℕ) (schedule : List RoomEvent) → All IsEvent schedule
        → AreNamed (room_rules bound) seats (room.history_of (run schedule (room.opening bound seats)))
        → sum_below (λ seat. amount_held seat (room.history_of (run schedule (room.opening bound seats)))) seats ≤ bound }
{
    every_room_schedule_is_lawful();
    amounts_held_in_a_room_fit();
}

/// Two schedules of a room that leave the same marks lead to the same count, and a seat holds the same after both.
pub fn same_marks_same_room()
    ensures count { (bound seats : ℕ) (first second : List RoomEvent) → All IsEvent first → All IsEvent second
        → room.history_of (run first (room.opening bound seats)) ≡ room.history_of
        (run second (room.opening bound seats))
        → (run first (room.opening bound seats)).count ≡ (run second (room.opening bound seats)).count }
    ensures held { (bound seats i : ℕ) (first second : List RoomEvent) (a b : CoreSeat) → All IsEvent first
        → All IsEvent second → room.history_of (run first (room.opening bound seats)) ≡ room.history_of
        (run second (room.opening bound seats))
        → slice_get (run first (room.opening bound seats)).seats i ≡ Some a
        → slice_get (run second (room.opening bound seats)).seats i ≡ Some b → a.held ≡ b.held }
    ensures value { (bound seats : ℕ) (schedule : List RoomEvent) → All IsEvent schedule
        → (run schedule (room.opening bound seats)).count ≡ value
        (room.history_of (run schedule (room.opening bound seats))) }
    ensures amount { (bound seats i : ℕ) (schedule : List RoomEvent) (seat : CoreSeat) → All IsEvent schedule
        → slice_get (run schedule (room.opening bound seats)).seats i ≡ Some seat
        → amount_held i (room.history_of (run schedule (room.opening bound seats))) ≡ seat.held }
{
    every_room_schedule_counts_its_marks();
    every_room_schedule_keeps_what_is_held();
}
