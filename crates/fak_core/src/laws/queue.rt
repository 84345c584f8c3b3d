//! The laws of the queue core, for every size, schedule and type of items.

ghost use Rattle.std.specs.Prelude.{◌≡◌, ℕ, ◌<◌, IsSome, List};
ghost use Rattle.fak_model.specs.Queue.{IsQueueHistory, item_at, items_put};
ghost use Rattle.fak_core.specs.declared.queue.phase.Phase.TheVariants.{LoadItem, TicketOut};
ghost use Rattle.fak_core.specs.QueueMoves.{history_of};
ghost use Rattle.fak_core.specs.QueueSchedule.{QueueEvent, InCell, LoadsItsItem, reached};

/// The marks of every schedule are a legal history of a queue of that size.
pub fn every_queue_schedule_is_legal<T>()
    ensures { (size : ℕ) (schedule : List (QueueEvent T)) → 0 < size
        → IsQueueHistory size (history_of (reached size schedule)) }
{}

/// At most one seat at a time is in a cell: between the load that found its turn there and the store that hands the
/// cell on.
pub fn a_cell_has_one_owner<T>()
    ensures { (size : ℕ) (schedule : List (QueueEvent T)) (s t c : ℕ) → 0 < size
        → InCell size ((reached size schedule).phase s) c → InCell size ((reached size schedule).phase t) c → s ≡ t }
{}

/// A deletion that is about to load its item finds in its cell the item of the Put with its own ticket. Its Got has
/// that item.
pub fn a_deletion_loads_the_item_of_its_ticket<T>()
    ensures { (size : ℕ) (schedule : List (QueueEvent T)) (s k : ℕ) → 0 < size
        → (reached size schedule).phase s ≡ LoadItem k → LoadsItsItem size (reached size schedule) s k }
{}

/// A granted deletion draws a ticket under which an item was put.
pub fn a_granted_deletion_draws_an_item<T>()
    ensures { (size : ℕ) (schedule : List (QueueEvent T)) (s : ℕ) → 0 < size
        → (reached size schedule).phase s ≡ TicketOut
        → IsSome (item_at (items_put (history_of (reached size schedule))) (reached size schedule).draws_out) }
{}
