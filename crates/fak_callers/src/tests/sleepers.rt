//! The callers of the laws of seats and of ends that sleep.

use crate::channel_ends::{
    a_call_that_goes_on_is_open, a_drained_channel_has_handed_all_out,
    an_item_a_free_cell_and_a_close_keep_ends_awake, deal_an_end, take_a_step_of_a_try, take_steps,
    who_has_not_looked_does_not_sleep_on,
};
use crate::sleeper_seats::{
    an_item_a_free_cell_and_a_close_keep_seats_awake, two_words_pay_for_128_seats,
};
use crate::sleepers::{
    a_deletion_owes_a_look_and_a_check, an_item_a_free_cell_and_a_close_keep_awake,
    one_look_pays_for_an_insertion,
};
use fak_channel::{Channel, ChannelStep};

#[test]
fn the_callers_of_the_laws_are_called() {
    an_item_a_free_cell_and_a_close_keep_awake::<u64>();
    an_item_a_free_cell_and_a_close_keep_seats_awake::<u64>();
    an_item_a_free_cell_and_a_close_keep_ends_awake::<u64>();
    who_has_not_looked_does_not_sleep_on::<u64>();
    a_call_that_goes_on_is_open::<u64>();
    a_drained_channel_has_handed_all_out::<u64>();
    a_deletion_owes_a_look_and_a_check::<u64>();
    one_look_pays_for_an_insertion::<u64>();
    two_words_pay_for_128_seats();
}

#[test]
fn an_end_is_dealt_and_its_seat_takes_steps(rt: HostRuntime) {
    let (channel, undealt) = Channel::<u64>::open_undealt(rt.alloc(), 1, 1, 9).expect(&rt, "open");
    let mut undealt = undealt;
    let mut end = deal_an_end(&channel, &mut undealt).expect(&rt, "one end");
    assert!(rt; end.try_send(&rt, 7).is_ok());
    let seat = take_steps(&channel, end.into_seat());
    assert!(rt; seat.left() == 8);
}

#[test]
fn a_try_takes_a_step(rt: HostRuntime) {
    let (channel, undealt) = Channel::<u64>::open_undealt(rt.alloc(), 1, 1, 9).expect(&rt, "open");
    let mut undealt = undealt;
    let end = deal_an_end(&channel, &mut undealt).expect(&rt, "one end");
    let mut seat = channel.step_seat(end.into_seat());
    match channel.begin_try_send(&mut seat, 7) {
        Ok(()) => assert!(rt; take_a_step_of_a_try(&channel, &mut seat) == ChannelStep::GoesOn),
        Err(_) => panic!(&rt; "a free cell"),
    }
}
