//! Known schedules of a channel whose sleepers are bits, on both sides of the definitions.

ghost use Rattle.std.specs.Prelude.{ℕ, ◌≡◌, ◌∷◌, ◌++◌, [], false, true};
ghost use Rattle.fak_model.specs.Queue.{contents};
ghost use Rattle.fak_core.specs.QueueMoves.{history_of};
ghost use Rattle.fak_core.specs.QueueProgress.{IsRound};
ghost use Rattle.fak_core.specs.QueueSchedule.{Advances};
ghost use Rattle.fak_channel_core.specs.SleeperExamples.{advances, after_schedule, as_receiver, bit_of, busy_end_signs, close_owes, close_wakes_receiver, close_wakes_sender, closed_twice, deadline_comes, deadline_is_late, deletion_withdraws, insertion_begins, insertion_begins_again, insertion_withdraws, item_is_missing, last_deletion_ends, late_insertion_withdraws, looker_signs, one_look, receiver_ends, receiver_is_told, receiver_owes, receiver_sleeps, receiver_takes_back, receiver_tests, receiver_tests_drained, receiver_wakes, rounds_of_three, sender_ends, sender_is_told, sender_owes, sender_sleeps, sender_tests, sender_tests_closed, sender_wakes, sleeper_signs, stranger_signs, two_looks, wake_is_passed_on, woken_end_registers, woken_receiver_claims_too_much, woken_sender_claims_too_late, woken_sender_claims_too_much, woken_sender_is_refused, woken_sender_tests};
ghost use Rattle.fak_channel_core.specs.SleeperProgress.{ComesOn, EndsCallWithin, steps_to_rest};
ghost use Rattle.fak_channel_core.specs.SleeperSchedule.{AllEndsRest, IsResting, ReceiverSleeps, SenderSleeps, queue_events};
ghost use Rattle.fak_model.specs.declared.note.Sign.TheVariants.{FindsBit, FindsWord, PassesWord, Registers, WakesEnd};
ghost use Rattle.fak_channel_core.specs.SleeperMoves.{receiver_side};
ghost use Rattle.fak_channel_core.specs.SleeperSides.{Awake, Duty, PastLower, Registered, Woken, after_sign, is_clear, may_sign, owes_look};

/// A receiver sleeps on the empty channel, and all ends rest. After a send there is an item, and it sleeps still, but the
/// sender owes a look. The look wakes the receiver, which takes the item.
pub fn a_send_wakes_a_receiver()
    ensures sleeps { ReceiverSleeps (after_schedule receiver_sleeps) 0 }
    ensures rest { AllEndsRest 3 (after_schedule receiver_sleeps) }
    ensures beside { ReceiverSleeps (after_schedule sender_owes) 0
        × (contents (history_of (after_schedule sender_owes).queue) ≡ 7 ∷ []) }
    ensures owes { ((after_schedule sender_owes).accounts 1).receiver.looks ≡ 1 }
    ensures busy { AllEndsRest 3 (after_schedule sender_owes) → ⊥ }
    ensures woken { ReceiverSleeps (after_schedule sender_wakes) 0 → ⊥ }
    ensures paid { IsResting (after_schedule sender_wakes) 1 }
    ensures ends { AllEndsRest 3 (after_schedule receiver_ends) }
    ensures empty { contents (history_of (after_schedule receiver_ends).queue) ≡ [] }
{}

/// A sender sleeps while the channel is full. A receive owes a look, which wakes it, and it sends its item.
pub fn a_receive_wakes_a_sender()
    ensures sleeps { SenderSleeps (after_schedule sender_sleeps) 2 }
    ensures rest { AllEndsRest 3 (after_schedule sender_sleeps) }
    ensures full { contents (history_of (after_schedule sender_sleeps).queue) ≡ 7 ∷ [] }
    ensures owes { (((after_schedule receiver_owes).accounts 0).sender.looks ≡ 1)
        × (((after_schedule receiver_owes).accounts 0).checks ≡ true) }
    ensures busy { AllEndsRest 3 (after_schedule receiver_owes) → ⊥ }
    ensures woken { SenderSleeps (after_schedule receiver_wakes) 2 → ⊥ }
    ensures paid { IsResting (after_schedule receiver_wakes) 0 }
    ensures ends { AllEndsRest 3 (after_schedule sender_ends) }
    ensures sent { contents (history_of (after_schedule sender_ends).queue) ≡ 9 ∷ [] }
{}

/// Between the set of its bit and its sleep an end tests again. If it finds what it waits for, it does not sleep.
pub fn an_end_tests_again_before_it_sleeps()
    ensures receiver { ((after_schedule receiver_tests).accounts 0).receiver.stage ≡ Registered }
    ensures back { (((after_schedule receiver_takes_back).accounts 0).receiver.stage ≡ Awake)
        × ((after_schedule receiver_takes_back).receivers 0 ≡ false) }
    ensures drained { ((after_schedule receiver_tests_drained).accounts 0).receiver.stage ≡ PastLower }
    ensures sender { ((after_schedule sender_tests).accounts 2).sender.stage ≡ Registered }
    ensures closed { ((after_schedule sender_tests_closed).accounts 2).sender.stage ≡ Registered }
{}

/// A deadline clears the own bit. If the bit was set, nothing is owed. If another end had cleared it, the end passes the
/// wake on by a look.
pub fn a_deadline_loses_no_wake_up()
    ensures out { IsResting (after_schedule deadline_comes) 0 × ((after_schedule deadline_comes).receivers 0 ≡ false) }
    ensures late { (((after_schedule deadline_is_late).accounts 0).receiver.stage ≡ Awake)
        × (((after_schedule deadline_is_late).accounts 0).receiver.looks ≡ 1) }
    ensures passed { IsResting (after_schedule wake_is_passed_on) 0
        × ((after_schedule wake_is_passed_on).receivers 2 ≡ false) }
{}

/// A close owes a look for a sender, and a check; in a drained channel the check owes a look for a receiver. An end that is
/// told of the close owes a look for the next of its kind. A second close owes the same.
pub fn a_close_wakes_either_side()
    ensures owes { (((after_schedule close_owes).accounts 1).sender.looks ≡ 1)
        × (((after_schedule close_owes).accounts 1).checks ≡ true) }
    ensures receiver { (ReceiverSleeps (after_schedule close_wakes_receiver) 0 → ⊥)
        × IsResting (after_schedule close_wakes_receiver) 1 }
    ensures told { (((after_schedule receiver_is_told).accounts 0).receiver.stage ≡ Awake)
        × (((after_schedule receiver_is_told).accounts 0).receiver.looks ≡ 1) }
    ensures sender { (SenderSleeps (after_schedule close_wakes_sender) 2 → ⊥)
        × IsResting (after_schedule close_wakes_sender) 0 }
    ensures refused { (((after_schedule sender_is_told).accounts 2).sender.stage ≡ Awake)
        × (((after_schedule sender_is_told).accounts 2).sender.looks ≡ 1) }
    ensures twice { (((after_schedule closed_twice).accounts 2).sender.looks ≡ 1)
        × (((after_schedule closed_twice).accounts 2).checks ≡ true) }
{}

/// A call that withdraws gives back a cell or an item, and owes a look. A withdrawal or the last deletion may leave a shut
/// channel drained: then the check that it owes adds a look for a receiver.
pub fn a_withdrawal_and_a_last_deletion_owe_looks()
    ensures insertion { (((after_schedule insertion_withdraws).accounts 0).sender.looks ≡ 1)
        × (((after_schedule insertion_withdraws).accounts 0).checks ≡ true) }
    ensures deletion { ((after_schedule deletion_withdraws).accounts 0).receiver.looks ≡ 1 }
    ensures late { ReceiverSleeps (after_schedule late_insertion_withdraws) 0
        × (((after_schedule late_insertion_withdraws).accounts 1).receiver.looks ≡ 1) }
    ensures last { (((after_schedule last_deletion_ends).accounts 0).receiver.looks ≡ 1)
        × (((after_schedule last_deletion_ends).accounts 0).sender.looks ≡ 1) }
{}

/// The first mark of a woken end tells that it has tried again: it is awake then, and owes nothing for that wake. A test
/// that passes leaves no mark.
pub fn the_first_mark_of_a_woken_end_is_judged()
    ensures refused { ((after_schedule woken_sender_is_refused).accounts 2).sender.stage ≡ Awake }
    ensures over { ((after_schedule woken_sender_claims_too_much).accounts 2).sender.stage ≡ Awake }
    ensures late { ((after_schedule woken_sender_claims_too_late).accounts 2).sender.stage ≡ Awake }
    ensures none { ((after_schedule woken_receiver_claims_too_much).accounts 0).receiver.stage ≡ Awake }
    ensures test { ((after_schedule woken_sender_tests).accounts 2).sender.stage ≡ Woken }
    ensures checks { ((after_schedule item_is_missing).accounts 0).checks ≡ true }
{}

/// A sign that is not true of the state changes nothing. Nor does a sign during a call on the queue, or one of an end
/// beyond the first three.
pub fn a_sign_that_is_not_true_is_judged()
    ensures sleeper { ReceiverSleeps (after_schedule sleeper_signs) 0 }
    ensures woken { ((after_schedule woken_end_registers).accounts 0).receiver.stage ≡ Woken }
    ensures looker { ((after_schedule looker_signs).accounts 1).receiver.looks ≡ 1 }
    ensures busy { ((after_schedule busy_end_signs).receivers 0 ≡ false)
        × ((after_schedule busy_end_signs).senders 0 ≡ false) }
    ensures stranger { ((after_schedule stranger_signs).receivers 3 ≡ false)
        × ((after_schedule stranger_signs).senders 3 ≡ false) }
{}

/// What an end notes of a load is true of the bits: of one, or of a word of them. It changes no duty.
pub fn the_loads_of_bits_are_judged()
    ensures set { may_sign (receiver_side (after_schedule receiver_sleeps)) 0 (FindsBit 0 true) ≡ true }
    ensures not_clear { may_sign (receiver_side (after_schedule receiver_sleeps)) 1 (FindsBit 0 false) ≡ false }
    ensures clear { may_sign (receiver_side (after_schedule sender_wakes)) 1 (FindsBit 0 false) ≡ true }
    ensures not_set { may_sign (receiver_side (after_schedule sender_wakes)) 0 (FindsBit 0 true) ≡ false }
    ensures word { may_sign (receiver_side (after_schedule receiver_sleeps)) 1 (FindsWord 0 1) ≡ true }
    ensures one_more { may_sign (receiver_side (after_schedule receiver_sleeps)) 1 (FindsWord 0 3) ≡ false }
    ensures one_less { may_sign (receiver_side (after_schedule receiver_sleeps)) 1 (FindsWord 0 0) ≡ false }
    ensures other_word { may_sign (receiver_side (after_schedule receiver_sleeps)) 1 (FindsWord 1 1) ≡ false }
    ensures kept { (g : Duty) → (after_sign 3 (FindsBit 0 true) g ≡ g) × (after_sign 3 (FindsWord 0 1) g ≡ g) }
{}

/// 64 bits share a word. A look ends once it has passed the words of all names, in any order. A wake ends one look, and
/// the next starts afresh.
pub fn the_words_of_a_look_are_judged()
    ensures one { (after_sign 64 (PassesWord 0) one_look).looks ≡ 0 }
    ensures first { (after_sign 65 (PassesWord 0) one_look).looks ≡ 1 }
    ensures second { (after_sign 65 (PassesWord 1) (after_sign 65 (PassesWord 0) one_look)).looks ≡ 0 }
    ensures order { (after_sign 65 (PassesWord 0) (after_sign 65 (PassesWord 1) one_look)).looks ≡ 0 }
    ensures wake { (after_sign 65 (WakesEnd 1) two_looks).looks ≡ 1 }
    ensures afresh { (owes_look (after_sign 65 (PassesWord 0) one_look)).passed 0 ≡ false }
    ensures clear { (is_clear (bit_of 64) 0 ≡ true) × (is_clear (bit_of 64) 1 ≡ false) }
    ensures last { (is_clear (bit_of 63) 0 ≡ false) × (is_clear (bit_of 63) 1 ≡ true) }
{}

/// What an end still has to do is judged: nothing if it sleeps; with three ends, at most 4 steps for a look, 12 for a
/// check, 6 before or after a sleep, and 5 once it knows that it was woken.
pub fn the_steps_to_rest_are_judged()
    ensures asleep { steps_to_rest 3 (after_schedule receiver_sleeps) 0 ≡ 0 }
    ensures look { steps_to_rest 3 (after_schedule sender_owes) 1 ≡ 4 }
    ensures check { steps_to_rest 3 (after_schedule close_owes) 1 ≡ 16 }
    ensures before { steps_to_rest 3 (after_schedule receiver_tests) 0 ≡ 6 }
    ensures past { steps_to_rest 3 (after_schedule receiver_tests_drained) 0 ≡ 6 }
    ensures cleared { steps_to_rest 3 (after_schedule sender_wakes) 0 ≡ 6 }
    ensures woken { steps_to_rest 3 (after_schedule woken_end_registers) 0 ≡ 5 }
    ensures comes { ComesOn 3 1 (after_schedule sender_owes) 1 }
    ensures rests { ComesOn 3 1 (after_schedule receiver_sleeps) 0 → ⊥ }
{}

/// In a round each of the first ends takes a step of its call on the queue. What an end does with its bit, and what other
/// ends do, does not count. In a channel with one cell an insertion needs all of the seven rounds that the law allows: after
/// six it is open. A call has ended although the end begins another at once.
pub fn the_rounds_of_a_channel_are_judged()
    ensures round { IsRound {A = ℕ} 2 (queue_events 2 (advances 1 1 ++ as_receiver 0 (Registers ∷ []) ++ advances 0 1)) }
    ensures each { IsRound {A = ℕ} 2 (queue_events 2 (advances 0 1 ++ as_receiver 1 (Registers ∷ []))) → ⊥ }
    ensures others { queue_events 2 (advances 2 1 ++ advances 1 1) ≡ Advances 1 ∷ [] }
    ensures six { EndsCallWithin 3 1 (rounds_of_three 6) (after_schedule insertion_begins) 0 → ⊥ }
    ensures seven { EndsCallWithin 3 1 (rounds_of_three 7) (after_schedule insertion_begins) 0 }
    ensures again { EndsCallWithin 3 1 insertion_begins_again (after_schedule insertion_begins) 0 }
    ensures open { EndsCallWithin 3 1 [] (after_schedule insertion_begins) 0 → ⊥ }
    ensures idle { EndsCallWithin 3 1 [] (after_schedule insertion_begins) 1 }
{}
