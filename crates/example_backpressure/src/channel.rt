//! A channel: a semaphore holds back what the queue of buffers after it should not hold yet.

ghost use Rattle.std.specs.Prelude.{IfSome, IsTrue};
ghost use Rattle.example_backpressure.specs.Passing.{AreEnds, Moves, nothing};

use fak_queue::{Queue, Seat};
use fak_sem::{SemSeat, Semaphore};
use std::sync::Wait;

/// A buffer, which is moved and never copied.
#[derive(Drop)]
pub struct Buffer {
    /// Its bytes.
    pub bytes: Vec<u8>,
}

/// The queue, and the semaphore before it: a semaphore that begins at the number of buffers that may be on their way.
#[derive(Drop)]
pub struct Channel {
    pub(crate) queue: Queue<Buffer>,
    pub(crate) semaphore: Semaphore<Buffer>,
}

/// What one thread holds of the channel: a seat of the queue and a seat of the semaphore.
#[derive(Drop)]
pub struct Ends {
    pub(crate) queue: Seat<Buffer>,
    pub(crate) semaphore: SemSeat<Buffer>,
}

impl Ends {
    /// Puts a buffer into the queue. Returns whether the seat was neither worn nor the queue shut.
    fn put<R: Wait>(&mut self, rt: &R, channel: &Channel, buffer: Buffer) -> bool
        requires { AreEnds channel.now.queue.object channel.now.semaphore.object self.old }
        ensures ends { AreEnds channel.now.queue.object channel.now.semaphore.object self.new }
        ensures moves { IsTrue result → Moves (λ w. w buffer) nothing self.old self.new }
    {
        match channel.queue.wait_insert(rt, &mut self.queue, buffer) {
            Ok(_) => true,
            Err(_) => false,
        }
    }

    /// Sends a buffer: through the semaphore into the queue, or else it is held back at the semaphore. Returns whether it was not lost.
    pub fn send<R: Wait>(&mut self, rt: &R, channel: &Channel, buffer: Buffer) -> bool
        requires { AreEnds channel.now.queue.object channel.now.semaphore.object self.old }
        ensures ends { AreEnds channel.now.queue.object channel.now.semaphore.object self.new }
        ensures moves { IsTrue result → Moves (λ w. w buffer) nothing self.old self.new }
    {
        match channel.semaphore.down(rt, &mut self.semaphore, buffer) {
            Ok(Some(buffer)) => self.put(rt, channel, buffer),
            Ok(None) => true,
            Err(_) => false,
        }
    }

    /// Makes room for one more buffer: one that was held back goes into the queue. Returns whether it was not lost.
    pub fn make_room<R: Wait>(&mut self, rt: &R, channel: &Channel) -> bool
        requires { AreEnds channel.now.queue.object channel.now.semaphore.object self.old }
        ensures ends { AreEnds channel.now.queue.object channel.now.semaphore.object self.new }
        ensures moves { IsTrue result → Moves nothing nothing self.old self.new }
    {
        match channel.semaphore.up(rt, &mut self.semaphore) {
            Ok(Some(buffer)) => self.put(rt, channel, buffer),
            Ok(None) => true,
            Err(_) => false,
        }
    }

    /// Receives the oldest buffer. `make_room` has to follow.
    pub fn receive<R: Wait>(&mut self, rt: &R, channel: &Channel) -> Option<Buffer>
        requires { AreEnds channel.now.queue.object channel.now.semaphore.object self.old }
        ensures ends { AreEnds channel.now.queue.object channel.now.semaphore.object self.new }
        ensures moves { IfSome result (λ buffer. Moves nothing (λ w. w buffer) self.old self.new) }
    {
        match channel.queue.wait_delete(rt, &mut self.queue) {
            Ok((_, buffer)) => Some(buffer),
            Err(_) => None,
        }
    }
}
