//! Cores of each size in range are opened, and each of their seats may begin a call.

use super::assertions::assert_equal;
use crate::{queues, rooms};
use fak_core::{CoreMove, Line, LineMark, QueueCall, QueueCore, RoomCall};
use fak_model::Kind;
use std::process::Abort;

/// Checks that a call or a step was not refused.
fn assert_made(rt: &impl Abort, made: bool, size: u64, seats: u64) {
    assert!(rt; made, "{size}, {seats}");
}

/// Opens the queue and lets each seat begin to insert an item: first all test, then all add.
fn opens_queue(rt: &(impl AllocGlobal + Abort), size: u64, seats: u64) {
    let mut core = queues::opened(rt, size, seats);
    for seat in 0..seats {
        queues::begins(rt, &mut core, seat, QueueCall::Insert(seat));
        assert_made(rt, core.advance(rt.alloc(), seat).is_ok(), size, seats);
    }
    adds_up(rt, &mut core, size, seats);
}

/// Lets each seat add in its insertion: as many as fit are granted, and the others are refused.
fn adds_up(rt: &(impl AllocGlobal + Abort), core: &mut QueueCore, size: u64, seats: u64) {
    for seat in 0..seats {
        let kind = if seat < size {
            Kind::ClaimIn
        } else {
            Kind::OverIn
        };
        let line = Line {
            seat,
            step: CoreMove::AddUp,
            found: seat as i128,
            mark: Some(LineMark::Queue(kind)),
        };
        assert_equal(rt, core.advance(rt.alloc(), seat), Ok(line));
    }
}

#[test]
fn queues_of_each_size(rt: HostRuntime) {
    for size in 1..4_097u64 {
        opens_queue(&rt, size, size % 64 + 1);
    }
    for seats in 1..65u64 {
        for size in [1u64, 2, 5, 64, 100, 4_096] {
            opens_queue(&rt, size, seats);
        }
    }
}

/// Opens the room and lets each seat claim the largest amount of a claim, if it fits.
fn opens_room(rt: &(impl AllocGlobal + Abort), bound: u64, seats: u64) {
    let mut core = rooms::opened(rt, bound, seats);
    let amount = bound.max(1).min(1_024);
    for seat in 0..seats {
        assert_made(
            rt,
            core.begin(seat, RoomCall::Tir(amount)).is_ok(),
            bound,
            seats,
        );
        assert_made(rt, core.advance(rt.alloc(), seat).is_ok(), bound, seats);
    }
    if bound > 0 {
        assert_made(rt, core.advance(rt.alloc(), 0).is_ok(), bound, seats);
        assert_equal(rt, core.value(), amount as i64);
    }
}

#[test]
fn rooms_of_every_width(rt: HostRuntime) {
    for bound in 0..1_100u64 {
        opens_room(&rt, bound, bound % 64 + 1);
    }
    let mut drawn = 1u64;
    for place in 10..33u32 {
        drawn = drawn
            .wrapping_mul(6_364_136_223_846_793_005)
            .wrapping_add(1_442_695_040_888_963_407);
        let power = 1u64 << place;
        for bound in [power - 1, power, power + 1, (drawn >> 20) % power] {
            opens_room(&rt, bound.min(1 << 32), place as u64 + 1);
        }
    }
    for seats in 1..65u64 {
        for bound in [0u64, 1, 5, 1_000_000] {
            opens_room(&rt, bound, seats);
        }
    }
}
