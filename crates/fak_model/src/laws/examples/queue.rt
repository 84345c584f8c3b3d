//! What may and may not come next in a queue's history, on both sides of each part of the definition.

ghost use Rattle.std.specs.Prelude.{[], ◌∷◌, ◌++◌};
ghost use Rattle.fak_model.specs.declared.queue.Kind.TheVariants.{ClaimIn, OverIn, BackIn, NoRoom, Put, Fill, EndIn, ClaimOut, OverOut, BackOut, NoItem, Got, Take, EndOut, Close, Closed, LateIn};
ghost use Rattle.fak_model.specs.Queue.{IsQueueHistory};
ghost use Rattle.fak_model.specs.Examples.{Parts, by, deleted, inserted};

/// The marks of a seat are whole calls; the last call may be cut short. Each mark is the next one of its call, or
/// begins a call. A `Fill` or `Take` outside a call is illegal: it has no ticket.
pub fn the_calls_of_a_queue_are_judged()
    ensures back_in { Parts (IsQueueHistory 1) (inserted 0 7 0) (by 1 OverIn ∷ by 1 BackIn ∷ []) (by 1 BackIn ∷ []) }
    ensures put { Parts (IsQueueHistory 1) [] (by 0 ClaimIn ∷ by 0 (Put 7) ∷ []) (by 0 (Put 7) ∷ []) }
    ensures fill { Parts (IsQueueHistory 2) (by 0 ClaimIn ∷ by 0 (Put 7) ∷ []) (by 0 (Fill 0) ∷ by 0 EndIn ∷ [])
        (by 0 (Fill 0) ∷ by 0 (Fill 0) ∷ []) }
    ensures end_in { Parts (IsQueueHistory 1) (by 0 ClaimIn ∷ by 0 (Put 7) ∷ []) (by 0 (Fill 0) ∷ by 0 EndIn ∷ [])
        (by 0 EndIn ∷ []) }
    ensures back_out { Parts (IsQueueHistory 1) [] (by 0 OverOut ∷ by 0 BackOut ∷ []) (by 0 BackOut ∷ []) }
    ensures got { Parts (IsQueueHistory 1) (inserted 0 7 0) (by 1 ClaimOut ∷ by 1 (Got 7) ∷ []) (by 1 (Got 7) ∷ []) }
    ensures take { Parts (IsQueueHistory 1) (inserted 0 7 0 ++ by 1 ClaimOut ∷ []) (by 1 (Got 7) ∷ by 1 (Take 0) ∷ [])
        (by 1 (Take 0) ∷ []) }
    ensures end_out { Parts (IsQueueHistory 1) (inserted 0 7 0 ++ by 1 ClaimOut ∷ by 1 (Got 7) ∷ [])
        (by 1 (Take 0) ∷ by 1 EndOut ∷ []) (by 1 EndOut ∷ []) }
    ensures refusal { Parts (IsQueueHistory 1) (by 0 ClaimIn ∷ []) (by 1 NoItem ∷ []) (by 0 NoItem ∷ []) }
    ensures close { Parts (IsQueueHistory 1) (by 0 ClaimIn ∷ []) (by 1 Close ∷ []) (by 0 Close ∷ []) }
    ensures late { Parts (IsQueueHistory 1) (by 0 Close ∷ by 1 LateIn ∷ []) (by 1 BackIn ∷ by 1 Closed ∷ [])
        (by 1 Closed ∷ []) }
    ensures over { Parts (IsQueueHistory 1) (by 0 OverOut ∷ []) (by 0 BackOut ∷ by 0 NoItem ∷ []) (by 0 NoItem ∷ []) }
    ensures insertion { Parts (IsQueueHistory 2) (inserted 0 7 0 ++ by 1 ClaimIn ∷ []) (by 1 (Put 8) ∷ [])
        (by 1 (Got 7) ∷ []) }
    ensures deletion { Parts (IsQueueHistory 2) (inserted 0 7 0 ++ by 1 ClaimOut ∷ []) (by 1 (Got 7) ∷ [])
        (by 1 (Put 8) ∷ []) }
{}

/// Each outcome is fair. Before a close, an insertion is granted if there is room and refused if there is none. After a
/// close it is late. A deletion is granted if there is an item and refused if there is none.
pub fn the_answers_of_a_queue_are_judged()
    ensures no_room { Parts (IsQueueHistory 1) (inserted 0 7 0) (by 1 NoRoom ∷ []) (deleted 1 7 0 ++ by 1 NoRoom ∷ []) }
    ensures no_room_open { Parts (IsQueueHistory 1) (inserted 0 7 0) (by 1 NoRoom ∷ by 0 Close ∷ [])
        (by 0 Close ∷ by 1 NoRoom ∷ []) }
    ensures over_in { Parts (IsQueueHistory 1) (inserted 0 7 0) (by 1 OverIn ∷ []) (deleted 1 7 0 ++ by 1 OverIn ∷ []) }
    ensures over_in_open { Parts (IsQueueHistory 1) (inserted 0 7 0) (by 1 OverIn ∷ by 0 Close ∷ [])
        (by 0 Close ∷ by 1 OverIn ∷ []) }
    ensures claim_in { Parts (IsQueueHistory 1) (inserted 0 7 0) (deleted 1 7 0 ++ by 1 ClaimIn ∷ [])
        (by 1 ClaimIn ∷ []) }
    ensures claim_in_open { Parts (IsQueueHistory 1) [] (by 1 ClaimIn ∷ by 0 Close ∷ [])
        (by 0 Close ∷ by 1 ClaimIn ∷ []) }
    ensures closed { Parts (IsQueueHistory 1) [] (by 0 Close ∷ by 1 Closed ∷ []) (by 1 Closed ∷ []) }
    ensures late_in { Parts (IsQueueHistory 1) [] (by 0 Close ∷ by 1 LateIn ∷ []) (by 1 LateIn ∷ []) }
    ensures no_item { Parts (IsQueueHistory 1) [] (by 1 NoItem ∷ [] ++ inserted 0 7 0)
        (inserted 0 7 0 ++ by 1 NoItem ∷ []) }
    ensures over_out { Parts (IsQueueHistory 1) [] (by 1 OverOut ∷ [] ++ inserted 0 7 0)
        (inserted 0 7 0 ++ by 1 OverOut ∷ []) }
    ensures claim_out { Parts (IsQueueHistory 1) (by 0 ClaimIn ∷ by 0 (Put 7) ∷ by 0 (Fill 0) ∷ [])
        (by 0 EndIn ∷ by 1 ClaimOut ∷ []) (by 1 ClaimOut ∷ []) }
    ensures claim_out_again { Parts (IsQueueHistory 2) (inserted 0 7 0 ++ by 1 ClaimOut ∷ [])
        (inserted 0 8 1 ++ by 2 ClaimOut ∷ []) (by 2 ClaimOut ∷ []) }
    ensures claim_out_shut { Parts (IsQueueHistory 1) (by 0 Close ∷ []) (by 1 NoItem ∷ []) (by 1 ClaimOut ∷ []) }
{}

/// A mark that raised a count has its effect until it is undone. A claim, even one that was refused as too much or too
/// late, counts until its withdrawal or until the deletion ends.
pub fn the_counts_of_a_queue_are_judged()
    ensures over_in { Parts (IsQueueHistory 1) (inserted 0 7 0 ++ by 1 OverIn ∷ [] ++ deleted 2 7 0) (by 3 NoRoom ∷ [])
        (by 1 BackIn ∷ by 3 NoRoom ∷ []) }
    ensures end_out { Parts (IsQueueHistory 1) (inserted 0 7 0 ++ by 1 ClaimOut ∷ by 1 (Got 7) ∷ by 1 (Take 0) ∷ [])
        (by 2 NoRoom ∷ []) (by 1 EndOut ∷ by 2 NoRoom ∷ []) }
    ensures over_out { Parts (IsQueueHistory 1) (by 1 OverOut ∷ [] ++ inserted 0 7 0) (by 2 NoItem ∷ [])
        (by 1 BackOut ∷ by 2 NoItem ∷ []) }
    ensures end_in { Parts (IsQueueHistory 1) (by 0 ClaimIn ∷ by 0 (Put 7) ∷ by 0 (Fill 0) ∷ []) (by 1 NoItem ∷ [])
        (by 0 EndIn ∷ by 1 NoItem ∷ []) }
{}

/// The j-th item got is the j-th item put.
pub fn the_items_of_a_queue_are_judged()
    ensures first { Parts (IsQueueHistory 2) (inserted 0 7 0 ++ inserted 0 8 1 ++ by 1 ClaimOut ∷ [])
        (by 1 (Got 7) ∷ []) (by 1 (Got 8) ∷ []) }
    ensures second { Parts (IsQueueHistory 2)
        (inserted 0 7 0 ++ inserted 0 8 1 ++ by 1 ClaimOut ∷ by 2 ClaimOut ∷ by 1 (Got 7) ∷ [])
        (by 2 (Got 8) ∷ []) (by 2 (Got 7) ∷ []) }
    ensures another { Parts (IsQueueHistory 1) (inserted 0 7 0 ++ by 1 ClaimOut ∷ []) (by 1 (Got 7) ∷ [])
        (by 1 (Got 9) ∷ []) }
{}

/// A `Fill` and a `Take` have the ticket of their call. A cell is filled only after the item of the round before was
/// taken from it, and taken from only after it was filled.
pub fn the_cells_of_a_queue_are_judged()
    ensures fill_ticket { Parts (IsQueueHistory 2) (by 0 ClaimIn ∷ by 1 ClaimIn ∷ by 0 (Put 7) ∷ by 1 (Put 8) ∷ [])
        (by 1 (Fill 1) ∷ []) (by 1 (Fill 0) ∷ []) }
    ensures fill_ticket_ahead { Parts (IsQueueHistory 2) (by 0 ClaimIn ∷ by 0 (Put 7) ∷ []) (by 0 (Fill 0) ∷ [])
        (by 0 (Fill 1) ∷ []) }
    ensures take_ticket { Parts (IsQueueHistory 2)
        (inserted 0 7 0 ++ inserted 0 8 1 ++ by 1 ClaimOut ∷ by 1 (Got 7) ∷ [])
        (by 1 (Take 0) ∷ []) (by 1 (Take 1) ∷ []) }
    ensures fill { Parts (IsQueueHistory 2)
        (inserted 0 7 0 ++ inserted 0 8 1 ++ by 1 ClaimOut ∷ by 1 (Got 7) ∷ [] ++ deleted 2 8 1 ++ by 0 ClaimIn ∷ by 0
        (Put 9) ∷ [])
        (by 1 (Take 0) ∷ by 0 (Fill 2) ∷ []) (by 0 (Fill 2) ∷ []) }
    ensures take { Parts (IsQueueHistory 2)
        (by 0 ClaimIn ∷ by 0 (Put 7) ∷ [] ++ inserted 1 8 1 ++ by 2 ClaimOut ∷ by 2 (Got 7) ∷ [])
        (by 0 (Fill 0) ∷ by 2 (Take 0) ∷ []) (by 2 (Take 0) ∷ []) }
{}
