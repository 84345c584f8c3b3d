//! The calls on the free list, with what this program promises of them.

ghost use Rattle.std.specs.Prelude.{◌≡◌, ℕ, IfErr, IfOk, MatchOption};
ghost use Rattle.fak_queue.specs.Sums.{Adds};
ghost use Rattle.example_frames.specs.Frames.{is_number};

use crate::frame::Frame;
use fak_queue::{InsertFault, Port};
use std::sync::Wait;

/// Takes the frame that has been free for the longest time; `None` if the list is empty or the seat worn.
pub fn take<R: Wait>(rt: &R, free: &mut Port<'_, Frame>) -> Option<Frame>
    ensures list { free.new.queue ≡ free.old.queue }
    ensures adds { (n : ℕ) → MatchOption result (Adds (is_number n) 0 0 free.old.seat free.new.seat)
        (λ frame. Adds (is_number n) 0 (is_number n frame) free.old.seat free.new.seat) }
{
    match free.delete(rt) {
        Ok((_, frame)) => Some(frame),
        Err(_) => None,
    }
}

/// Gives a frame back. It comes back itself if the list is full or shut, or the seat worn.
pub fn give_back<R: Wait>(rt: &R, free: &mut Port<'_, Frame>, frame: Frame) -> Result<(), Frame>
    ensures list { free.new.queue ≡ free.old.queue }
    ensures adds { IfOk result (λ _. (n : ℕ) → Adds (is_number n) (is_number n frame) 0 free.old.seat free.new.seat) }
    ensures back { IfErr result (λ back. back ≡ frame) }
{
    match free.insert(rt, frame) {
        Ok(_) => Ok(()),
        Err(InsertFault::Worn { item }) => Err(item),
        Err(InsertFault::Closed { item }) => Err(item),
        Err(InsertFault::Full { upper: _, item }) => Err(item),
    }
}
