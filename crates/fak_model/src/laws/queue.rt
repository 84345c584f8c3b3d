//! The laws of a bounded queue's histories, for items of any type.

ghost use Rattle.std.specs.Prelude.{◌≡◌, ◌↔◌, ℕ, ◌+◌, ◌++◌, ◌∷◌, [], ◌<◌, ◌≤◌, List, length, pos, reverse};
ghost use Rattle.std.specs.List.{sum_by};
ghost use Rattle.fak_model.specs.declared.queue.Kind.TheVariants.{Fill, Put, Take};
ghost use Rattle.fak_model.specs.Histories.{AreNamed, IsAtRest, Owes, seat_words};
ghost use Rattle.fak_model.specs.Queue.{Drew, Has, IsQueueHistory, contents, count, gots, lower_count, puts, queue_rules, upper_count, words_of_call};
ghost use Rattle.fak_model.specs.QueueOrder.{KeepsCallOrder};
ghost use Rattle.fak_model.specs.QueuePast.{IsLegalPast};
ghost use Rattle.fak_model.specs.Weights.{close_of, closed_of, got_of, put_of};

use crate::queue::Mark;

/// No more items were got than were put, and the items left fit into the queue.
pub fn a_queue_holds_no_more_than_its_size<T>()
    ensures { (size : ℕ) (h : List (Mark T)) → IsQueueHistory size h
        → (count gots h ≤ count puts h) × (length (contents h) ≤ size) }
{}

/// If no call is cut short, both counts are the number of items left.
pub fn a_queue_at_rest_counts_its_items<T>()
    ensures { (size : ℕ) (h : List (Mark T)) → IsQueueHistory size h → IsAtRest (queue_rules size) h
        → (upper_count h ≡ pos (length (contents h))) × (lower_count h ≡ pos (length (contents h))) }
{}

/// Let the insertion with ticket p complete before the insertion with ticket q starts. Then the deletion with ticket q
/// completes only after the deletion with ticket p has started (Gottlieb, Lubachevsky and Rudolph, TOPLAS 5(2), 1983).
pub fn a_queue_keeps_the_order_of_its_calls<T>()
    ensures { (size : ℕ) (h : List (Mark T)) → IsQueueHistory size h → KeepsCallOrder h }
{}

/// Under every weight of items, what was put is what was got plus what is left. So no more is left than was put, and
/// nothing is left if as many items were got as were put.
pub fn a_queue_weighs_what_was_put<T>()
    ensures weighs { (size : ℕ) (weight : T → ℕ) (h : List (Mark T)) → IsQueueHistory size h
        → count (put_of weight) h ≡ count (got_of weight) h + sum_by weight (contents h) }
    ensures puts { (h : List (Mark T)) → count (put_of (λ (x : T). 1)) h ≡ count puts h }
    ensures gots { (h : List (Mark T)) → count (got_of (λ (x : T). 1)) h ≡ count gots h }
    ensures few { (h : List (Mark T)) → length (contents h) ≤ count puts h }
    ensures none { (h : List (Mark T)) → count puts h ≤ count gots h → contents h ≡ [] }
{}

/// An insertion finds the queue shut only after a `Close`.
pub fn a_queue_is_found_shut_after_a_close<T>()
    ensures { (size : ℕ) (h : List (Mark T)) → IsQueueHistory size h → 0 < count closed_of h → 0 < count close_of h }
{}

/// A `Fill` comes after its seat's `Put`, which drew its ticket, and a `Take` after the `Fill` of its ticket.
pub fn a_cell_is_put_then_filled_then_taken<T>()
    ensures filled { (size k : ℕ) (h before after : List (Mark T)) (m : Mark T) → IsQueueHistory size h
        → before ++ m ∷ after ≡ h
        → m.kind ≡ Fill k → ((x : T) × Drew before m.seat (Put x) puts k) × (k < count puts before) }
    ensures taken { (size k : ℕ) (h before after : List (Mark T)) (m : Mark T) → IsQueueHistory size h
        → before ++ m ∷ after ≡ h → m.kind ≡ Take k → Has (Fill k) before }
{}

/// A seat that never began a call may be added. A history is legal whatever the number of seats. Its seats are also
/// below any larger number, and if the seats that it names are at rest, then all are.
pub fn a_seat_without_a_call_keeps_a_queue_history<T>()
    ensures named { (size seats more : ℕ) (h : List (Mark T)) → AreNamed (queue_rules size) seats h → seats ≤ more
        → AreNamed (queue_rules size) more h }
    ensures free { (size seats seat : ℕ) (h : List (Mark T)) → AreNamed (queue_rules size) seats h → seats ≤ seat
        → seat_words (queue_rules size) seat h ≡ [] }
    ensures rest { (size seats : ℕ) (h : List (Mark T)) → AreNamed (queue_rules size) seats h
        → ((seat : ℕ) → seat < seats → Owes words_of_call (seat_words (queue_rules size) seat h) [])
        → IsAtRest (queue_rules size) h }
{}

/// Every prefix of a queue's history is a history.
pub fn a_beginning_of_a_queue_history_is_one<T>()
    ensures { (size : ℕ) (h rest : List (Mark T)) → IsQueueHistory size (h ++ rest) → IsQueueHistory size h }
{}

/// A history is legal exactly if each mark may follow the stages and counts that the marks before it leave. This is the
/// definition as a machine that reads the list with the newest mark first; the proofs use it.
pub fn a_legal_history_is_legal_mark_by_mark<T>()
    ensures { (size : ℕ) (h : List (Mark T)) → IsQueueHistory size h ↔ IsLegalPast size (reverse h) }
{}
