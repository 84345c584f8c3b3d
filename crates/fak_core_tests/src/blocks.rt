//! Blocks on a queue, step by step: the result of one load, add or subtraction for three seats.

use super::queues::{Stretch, plays};
use fak_core::{CoreMove, QueueCall};
use fak_model::Kind;

#[test]
fn three_insert_and_delete_at_once_in_a_queue_of_two_cells(rt: HostRuntime) {
    const SCHEDULE: &[Stretch] = &[
        // one load
        (0, QueueCall::Insert(10), &[(0, CoreMove::TestUp, 0, None)]),
        (1, QueueCall::Insert(11), &[(1, CoreMove::TestUp, 0, None)]),
        (
            2,
            QueueCall::Insert(12),
            &[
                (2, CoreMove::TestUp, 0, None),
                // one add of 3, and the subtraction of the 1 that is too much
                (0, CoreMove::AddUp, 0, Some(Kind::ClaimIn)),
                (1, CoreMove::AddUp, 1, Some(Kind::ClaimIn)),
                (2, CoreMove::AddUp, 2, Some(Kind::OverIn)),
                (2, CoreMove::BackUp, 3, Some(Kind::BackIn)),
                // one draw of 2
                (0, CoreMove::TicketIn, 0, Some(Kind::Put(10))),
                (1, CoreMove::TicketIn, 1, Some(Kind::Put(11))),
                (0, CoreMove::TurnIn, 0, None),
                (0, CoreMove::StoreItem, 10, None),
                (0, CoreMove::SetFull, 1, Some(Kind::Fill(0))),
                (1, CoreMove::TurnIn, 0, None),
                (1, CoreMove::StoreItem, 11, None),
                (1, CoreMove::SetFull, 1, Some(Kind::Fill(1))),
                // one end of 2
                (0, CoreMove::EndIn, 0, Some(Kind::EndIn)),
                (1, CoreMove::EndIn, 1, Some(Kind::EndIn)),
            ],
        ),
        // one load
        (0, QueueCall::Delete, &[(0, CoreMove::TestLow, 2, None)]),
        (1, QueueCall::Delete, &[(1, CoreMove::TestLow, 2, None)]),
        (
            2,
            QueueCall::Delete,
            &[
                (2, CoreMove::TestLow, 2, None),
                // one subtraction of 3, and the add of the 1 that is too much
                (0, CoreMove::SubLow, 2, Some(Kind::ClaimOut)),
                (1, CoreMove::SubLow, 1, Some(Kind::ClaimOut)),
                (2, CoreMove::SubLow, 0, Some(Kind::OverOut)),
                (2, CoreMove::BackLow, -1, Some(Kind::BackOut)),
                // one draw of 2
                (0, CoreMove::TicketOut, 0, Some(Kind::Got(10))),
                (1, CoreMove::TicketOut, 1, Some(Kind::Got(11))),
                (0, CoreMove::TurnOut, 1, None),
                (0, CoreMove::LoadItem, 10, None),
                (0, CoreMove::SetFree, 2, Some(Kind::Take(0))),
                (1, CoreMove::TurnOut, 1, None),
                (1, CoreMove::LoadItem, 11, None),
                (1, CoreMove::SetFree, 2, Some(Kind::Take(1))),
                // one end of 2
                (0, CoreMove::EndOut, 2, Some(Kind::EndOut)),
                (1, CoreMove::EndOut, 1, Some(Kind::EndOut)),
            ],
        ),
    ];
    plays(&rt, 2, 3, SCHEDULE);
}
