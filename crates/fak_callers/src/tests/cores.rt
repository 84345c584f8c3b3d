//! What is said of the schedules of cores.

use crate::blocks::{
    stays_legal, three_claim_one_place, three_claim_two_items, two_draw_in_a_row, two_get_in_a_row,
    two_look_for_items, two_look_for_room,
};
use crate::progress::{
    claims_within_three_steps, drawn_at_once, ends_at_its_seventh_step,
    ends_by_the_seats_of_its_cell, ends_within_its_rounds, keeps_its_turn, never_all_seats_wait,
    never_all_wait, rests_after_its_rounds, steps_once_in_a_round,
};
use crate::schedules::{
    cells_apart, draws_no_empty_ticket, holds_what_fits, leaves_what_fits, loads_what_was_put,
    same_marks_same_room,
};

#[test]
fn queues_of_any_items() {
    leaves_what_fits::<u64>();
    cells_apart::<u64>();
    loads_what_was_put::<u64>();
    draws_no_empty_ticket::<u64>();
    never_all_wait::<u64>();
    never_all_seats_wait::<u64>();
    keeps_its_turn::<u64>();
    drawn_at_once::<u64>();
    ends_at_its_seventh_step::<u64>();
    ends_within_its_rounds::<u64>();
    ends_by_the_seats_of_its_cell::<u64>();
    rests_after_its_rounds::<u64>();
    steps_once_in_a_round::<u64>();
    stays_legal::<u64>();
    two_look_for_room::<u64>();
    three_claim_one_place::<u64>();
    two_draw_in_a_row::<u64>();
    two_look_for_items::<u64>();
    three_claim_two_items::<u64>();
    two_get_in_a_row::<u64>();
}

#[test]
fn rooms_of_any_bound() {
    holds_what_fits();
    same_marks_same_room();
    claims_within_three_steps();
}
