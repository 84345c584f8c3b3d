//! What follows of the blocks of a queue core for known seats, counts and sizes: one load, add or subtraction for two or three
//! seats. Marks are listed with the newest first.

ghost use Rattle.std.specs.Prelude.{◌≡◌, ℕ, ◌<◌, List, Some, [], ◌∷◌, false, pos, true};
ghost use Rattle.fak_core.specs.QueueBlocks.{AreApart, Posts, Stand, block, names_of, tested, tested_low};
ghost use Rattle.fak_core.specs.QueueMoves.{QueueState, history_of};
ghost use Rattle.fak_core.specs.QueueSchedule.{Advances, Deletes, Inserts, IsReached, QueueEvent, reached, run};
ghost use Rattle.fak_core.specs.declared.queue.phase.Phase.TheVariants.{AddUp, BackLow, BackUp, EndDelete, EndInsert, Idle, SubLow, TicketIn, TicketOut, TurnIn, TurnOut};
ghost use Rattle.fak_model.specs.Queue.{IsQueueHistory, item_at, items_put};
ghost use Rattle.fak_model.specs.declared.queue.Kind.TheVariants.{BackIn, BackOut, ClaimIn, ClaimOut, Closed, EndIn, EndOut, Got, LateIn, NoItem, NoRoom, OverIn, OverOut, Put};

use fak_core::laws::blocks::{
    a_block_is_part_of_a_schedule, one_add_claims_several_insertions,
    one_add_moves_several_deletions_on, one_add_moves_several_insertions_on,
    one_load_tests_several_deletions, one_load_tests_several_insertions,
    one_subtraction_claims_several_deletions,
};
use fak_core::laws::queue::every_queue_schedule_is_legal;

/// Whatever block follows a schedule, the marks are a legal history. The block of seats 3 and 5 is a step of seat 3 and then
/// one of seat 5; if they are tested together, each begins just before its step.
pub fn stays_legal<T>()
    ensures legal { (size : ℕ) (schedule : List (QueueEvent T)) (seats : Posts T) → 0 < size
        → AreApart (names_of seats) → Stand (reached size schedule) seats
        → IsQueueHistory size (history_of (block size (reached size schedule) seats)) }
    ensures steps { (size : ℕ) (st : QueueState T) (x y : T) → st.phase 3 ≡ AddUp x → st.phase 5 ≡ AddUp y
        → block size st ((3, AddUp x) ∷ (5, AddUp y) ∷ []) ≡ run size (Advances 3 ∷ Advances 5 ∷ []) st }
    ensures insertions { (size : ℕ) (st : QueueState T) (x y : T) → st.phase 3 ≡ Idle → st.phase 5 ≡ Idle
        → tested size st ((3, x) ∷ (5, y) ∷ []) ≡ run size (Inserts 3 x ∷ Advances 3 ∷ Inserts 5 y ∷ Advances 5 ∷ []) st }
    ensures deletions { (size : ℕ) (st : QueueState T) → st.phase 3 ≡ Idle → st.phase 5 ≡ Idle
        → tested_low size st ((3, tt {0}) ∷ (5, tt {0}) ∷ []) ≡ run size (Deletes 3 ∷ Advances 3 ∷ Deletes 5 ∷ Advances 5 ∷ []) st }
{
    a_block_is_part_of_a_schedule::<T, ()>();
    every_queue_schedule_is_legal::<T>();
}

/// Seats 1 and 2 test a queue of four cells at once. At count 3 both go on, at 4 neither has room, and both hear of a close.
pub fn two_look_for_room<T>()
    ensures room { (st : QueueState T) (x y : T) → st.shut ≡ false → st.upper ≡ pos 3
        → let after = tested 4 st ((1, x) ∷ (2, y) ∷ []) in
        (after.upper ≡ pos 3) × (after.past ≡ st.past) × (after.phase 1 ≡ AddUp x) × (after.phase 2 ≡ AddUp y) }
    ensures full { (st : QueueState T) (x y : T) → st.shut ≡ false → st.upper ≡ pos 4
        → let after = tested 4 st ((1, x) ∷ (2, y) ∷ []) in
        (after.past ≡ record { seat = 2; kind = NoRoom } ∷ record { seat = 1; kind = NoRoom } ∷ st.past)
        × (after.phase 1 ≡ Idle) × (after.phase 2 ≡ Idle) }
    ensures shut { (st : QueueState T) (x y : T) → st.shut ≡ true
        → let after = tested 4 st ((1, x) ∷ (2, y) ∷ []) in
        (after.past ≡ record { seat = 2; kind = Closed } ∷ record { seat = 1; kind = Closed } ∷ st.past)
        × (after.phase 1 ≡ Idle) × (after.phase 2 ≡ Idle) }
{
    one_load_tests_several_insertions::<T>();
}

/// Seats 1, 2 and 5 add 3 at once to the count 3 of four cells, which is 6 then: the first is granted, and the others are over.
/// Seat 7 does not move. At the count 2 the first two are granted. In a shut queue all three are late.
pub fn three_claim_one_place<T>()
    ensures one { (st : QueueState T) (x y z : T) → st.shut ≡ false → st.upper ≡ pos 3
        → let after = block 4 st ((1, AddUp x) ∷ (2, AddUp y) ∷ (5, AddUp z) ∷ []) in
        (after.upper ≡ pos 6) × (after.past ≡ record { seat = 5; kind = OverIn } ∷ record { seat = 2; kind = OverIn }
        ∷ record { seat = 1; kind = ClaimIn } ∷ st.past) × (after.phase 1 ≡ TicketIn x) × (after.phase 2 ≡ BackUp y)
        × (after.phase 5 ≡ BackUp z) × (after.phase 7 ≡ st.phase 7) }
    ensures two { (st : QueueState T) (x y z : T) → st.shut ≡ false → st.upper ≡ pos 2
        → let after = block 4 st ((1, AddUp x) ∷ (2, AddUp y) ∷ (5, AddUp z) ∷ []) in
        (after.upper ≡ pos 5) × (after.past ≡ record { seat = 5; kind = OverIn } ∷ record { seat = 2; kind = ClaimIn }
        ∷ record { seat = 1; kind = ClaimIn } ∷ st.past) × (after.phase 2 ≡ TicketIn y) × (after.phase 5 ≡ BackUp z) }
    ensures late { (st : QueueState T) (x y z : T) → st.shut ≡ true → st.upper ≡ pos 3
        → let after = block 4 st ((1, AddUp x) ∷ (2, AddUp y) ∷ (5, AddUp z) ∷ []) in
        (after.upper ≡ pos 6) × (after.past ≡ record { seat = 5; kind = LateIn } ∷ record { seat = 2; kind = LateIn }
        ∷ record { seat = 1; kind = LateIn } ∷ st.past) × (after.phase 1 ≡ BackUp x) }
{
    one_add_claims_several_insertions::<T>();
}

/// Two insertions are withdrawn at once, and the count 6 is 4 then. Two draw at once after seven had drawn: they hold tickets 7
/// and 8, and their items come in this order. Two end at once, and the lower count grows from 1 to 3.
pub fn two_draw_in_a_row<T>()
    ensures backs { (st : QueueState T) (x y : T) → st.upper ≡ pos 6
        → let after = block 4 st ((2, BackUp x) ∷ (5, BackUp y) ∷ []) in
        (after.upper ≡ pos 4) × (after.past ≡ record { seat = 5; kind = BackIn } ∷ record { seat = 2; kind = BackIn } ∷ st.past)
        × (after.phase 2 ≡ Idle) × (after.phase 5 ≡ Idle) }
    ensures draws { (st : QueueState T) (x y : T) → st.draws_in ≡ 7
        → let after = block 4 st ((1, TicketIn x) ∷ (2, TicketIn y) ∷ []) in
        (after.draws_in ≡ 9) × (after.past ≡ record { seat = 2; kind = Put y } ∷ record { seat = 1; kind = Put x } ∷ st.past)
        × (after.phase 1 ≡ TurnIn 7 x) × (after.phase 2 ≡ TurnIn 8 y) }
    ensures ends { (st : QueueState T) → st.lower ≡ pos 1
        → let after = block 4 st ((1, EndInsert 7) ∷ (2, EndInsert 8) ∷ []) in
        (after.lower ≡ pos 3) × (after.past ≡ record { seat = 2; kind = EndIn } ∷ record { seat = 1; kind = EndIn } ∷ st.past)
        × (after.phase 1 ≡ Idle) × (after.phase 2 ≡ Idle) }
{
    one_add_moves_several_insertions_on::<T>();
}

/// Seats 1 and 2 test the lower count at once. At count 1 both go on, and at 0 neither has an item.
pub fn two_look_for_items<T>()
    ensures stock { (st : QueueState T) → st.lower ≡ pos 1
        → let after = tested_low 4 st ((1, tt {0}) ∷ (2, tt {0}) ∷ []) in
        (after.lower ≡ pos 1) × (after.past ≡ st.past) × (after.phase 1 ≡ SubLow) × (after.phase 2 ≡ SubLow) }
    ensures empty { (st : QueueState T) → st.lower ≡ pos 0
        → let after = tested_low 4 st ((1, tt {0}) ∷ (2, tt {0}) ∷ []) in
        (after.past ≡ record { seat = 2; kind = NoItem } ∷ record { seat = 1; kind = NoItem } ∷ st.past)
        × (after.phase 1 ≡ Idle) × (after.phase 2 ≡ Idle) }
{
    one_load_tests_several_deletions::<T, ()>();
}

/// Seats 1, 2 and 5 subtract 3 at once from the lower count 2: the first two are granted, and the third is over. From the count
/// 0 all are over.
pub fn three_claim_two_items<T>()
    ensures two { (st : QueueState T) → st.lower ≡ pos 2
        → let after = block 4 st ((1, SubLow) ∷ (2, SubLow) ∷ (5, SubLow) ∷ []) in
        (after.past ≡ record { seat = 5; kind = OverOut } ∷ record { seat = 2; kind = ClaimOut }
        ∷ record { seat = 1; kind = ClaimOut } ∷ st.past) × (after.phase 1 ≡ TicketOut) × (after.phase 2 ≡ TicketOut)
        × (after.phase 5 ≡ BackLow) × (after.phase 7 ≡ st.phase 7) }
    ensures none { (st : QueueState T) → st.lower ≡ pos 0
        → let after = block 4 st ((1, SubLow) ∷ (2, SubLow) ∷ (5, SubLow) ∷ []) in
        (after.past ≡ record { seat = 5; kind = OverOut } ∷ record { seat = 2; kind = OverOut }
        ∷ record { seat = 1; kind = OverOut } ∷ st.past) × (after.phase 1 ≡ BackLow) }
{
    one_subtraction_claims_several_deletions::<T, ()>();
}

/// Two deletions are withdrawn at once, and the lower count grows from 0 to 2. Two draw at once after seven had drawn: seat 1
/// gets the item that was put under ticket 7, and seat 2 the one under ticket 8. Two end at once, and the upper count 4 is 2 then.
pub fn two_get_in_a_row<T>()
    ensures backs { (st : QueueState T) → st.lower ≡ pos 0
        → let after = block 4 st ((2, BackLow) ∷ (5, BackLow) ∷ []) in
        (after.lower ≡ pos 2) × (after.past ≡ record { seat = 5; kind = BackOut } ∷ record { seat = 2; kind = BackOut } ∷ st.past)
        × (after.phase 2 ≡ Idle) × (after.phase 5 ≡ Idle) }
    ensures draws { (st : QueueState T) → IsReached 4 st → st.draws_out ≡ 7 → st.phase 1 ≡ TicketOut
        → st.phase 2 ≡ TicketOut → let after = block 4 st ((1, TicketOut) ∷ (2, TicketOut) ∷ []) in
        (x : T) × (y : T) × (item_at (items_put (history_of st)) 7 ≡ Some x)
        × (item_at (items_put (history_of st)) 8 ≡ Some y)
        × (after.past ≡ record { seat = 2; kind = Got y } ∷ record { seat = 1; kind = Got x } ∷ st.past)
        × (after.draws_out ≡ 9) × (after.phase 1 ≡ TurnOut 7) × (after.phase 2 ≡ TurnOut 8) }
    ensures ends { (st : QueueState T) → st.upper ≡ pos 4
        → let after = block 4 st ((1, EndDelete 7) ∷ (2, EndDelete 8) ∷ []) in
        (after.upper ≡ pos 2) × (after.past ≡ record { seat = 2; kind = EndOut } ∷ record { seat = 1; kind = EndOut } ∷ st.past)
        × (after.phase 1 ≡ Idle) × (after.phase 2 ≡ Idle) }
{
    one_add_moves_several_deletions_on::<T, ()>();
}
