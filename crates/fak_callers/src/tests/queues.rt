//! Queues, and what is said of their cells.

use crate::bursts::{bundle_up, insert_in_order, pass_on};
use crate::cells::{
    a_set_bit_has_its_close, a_slot_that_is_out_has_an_owner, never_all_stuck, owners_are_apart,
    who_calls_is_a_seat,
};
use crate::queues::{
    join_among_more, join_in_order, join_in_turn, join_mark_by_mark, join_open, join_within_size,
    shut_lawfully, tally_at_rest,
};
use fak_queue::{Burst, InsertFault, Queue};
use std::collections::VecDeque;
use std::sync::Wait;

#[test]
fn a_queue_is_shut_and_its_seats_are_joined(rt: HostRuntime) {
    let (queue, mut seats) = Queue::<u64>::open(rt.alloc(), 2, 2, 9).expect(&rt, "open");
    let mut b = seats.pop().expect(&rt, "two seats");
    let mut a = seats.pop().expect(&rt, "two seats");
    assert!(rt; matches!(queue.insert(&rt, &mut a, 7), Ok(0)));
    assert!(rt; shut_lawfully(&queue, &mut b));
    assert!(rt; !shut_lawfully(&queue, &mut a));
    assert!(rt;
        matches!(
            queue.insert(&rt, &mut a, 8),
            Err(InsertFault::Closed { item: 8 })
        )
    );
    assert!(rt; matches!(queue.delete(&rt, &mut b), Ok((0, 7))));
    assert!(rt; join_in_turn(&queue, a, b).is_whole());
}

#[test]
fn a_bundle_passes_items_on(rt: HostRuntime) {
    let Ok((queue, seats)) = Queue::<u64>::open(rt.alloc(), 4, 3, 9) else {
        panic!(&rt; "open")
    };
    let mut bundle = bundle_up(rt.alloc(), &queue, seats).expect(&rt, "a bundle");
    let mut items = VecDeque::with_capacity(rt.alloc(), 5).expect(&rt, "memory");
    let mut out = VecDeque::with_capacity(rt.alloc(), 1).expect(&rt, "memory");
    for item in 1..6u64 {
        items.push_back(item).expect(&rt, "memory");
    }
    assert!(rt; items.len() == 5);
    assert!(rt;
        matches!(
            insert_in_order(&rt, &queue, &mut bundle, &mut items),
            Some(Burst {
                ticket: 0,
                count: 3
            })
        )
    );
    assert!(rt; items.len() == 2);
    pass_on(&rt, &queue, &mut bundle, &mut items, &mut out);
    assert_eq!(rt;
        (items.len(), out.pop_front(), bundle.left()),
        (1, Some(1), 22)
    );
}

#[test]
fn an_only_seat_is_at_rest(rt: HostRuntime) {
    let (queue, mut seats) = Queue::<u64>::open(rt.alloc(), 1, 1, 9).expect(&rt, "open");
    let mut a = seats.pop().expect(&rt, "one seat");
    assert!(rt; matches!(queue.insert(&rt, &mut a, 7), Ok(0)));
    assert!(rt; tally_at_rest(a).is_whole());
}

#[test]
fn two_of_ten_seats_are_joined(rt: HostRuntime) {
    let (queue, mut seats) = Queue::<u64>::open(rt.alloc(), 1, 10, 9).expect(&rt, "open");
    let d = seats.pop().expect(&rt, "four seats");
    let c = seats.pop().expect(&rt, "four seats");
    let b = seats.pop().expect(&rt, "four seats");
    let a = seats.pop().expect(&rt, "four seats");
    assert!(rt; !join_in_order(&queue, a, b).is_whole());
    assert!(rt; !join_mark_by_mark(&queue, c, d).is_whole());
    let d = seats.pop().expect(&rt, "eight seats");
    let c = seats.pop().expect(&rt, "eight seats");
    let b = seats.pop().expect(&rt, "eight seats");
    let a = seats.pop().expect(&rt, "eight seats");
    assert!(rt; !join_within_size(&queue, a, b).is_whole());
    assert!(rt; !join_open(&queue, c, d).is_whole());
    let b = seats.pop().expect(&rt, "ten seats");
    let a = seats.pop().expect(&rt, "ten seats");
    assert!(rt; !join_among_more(&queue, a, b).is_whole());
}

#[test]
fn cells_of_any_items() {
    owners_are_apart::<u64>();
    a_slot_that_is_out_has_an_owner::<u64>();
    a_set_bit_has_its_close::<u64>();
    who_calls_is_a_seat::<u64>();
    never_all_stuck::<u64>();
}
