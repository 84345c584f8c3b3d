//! The parts of channels: two threads send numbers, and two receive them until the channel is closed and empty. Calls that sleep and
//! tries take turns. The sender that is done last closes the channel.

use crate::crew::{Crew, PAIRS, Seen, THREADS};
use crate::fault::Fault;
use crate::items::{Arrivals, item_of};
use crate::parts::{Job, Machine, run_all};
use crate::queues::note;
use crossbeam_utils::Backoff;
use fak_channel::{Channel, End, ReceiveFault, SendFault};
use fak_queue::LONGEST_STINT;
use std::alloc::{AllocError, Global};
use std::sync::Wait;
use std::sync::atomic::{AtomicU64, Ordering};

/// A thread with an end, which sends this many numbers of a lane, or receives.
#[derive(Drop)]
struct EndThread<'c, 'd> {
    end: End<'c, u64>,
    /// The number of senders that are done.
    done: &'d AtomicU64,
    lane: u64,
    numbers: u64,
}

impl<'c, 'd> EndThread<'c, 'd> {
    /// Sends the number by a call that sleeps, or by tries until the channel is not full. Returns whether it was sent.
    fn put<R: Wait>(&mut self, rt: &R, crew: &Crew, item: u64, sleeps: bool) -> bool {
        if sleeps {
            return self.end.send(rt, item).is_ok();
        }
        let backoff = Backoff::new();
        for _ in rt.forever() {
            match self.end.try_send(rt, item) {
                Err(SendFault::Full { item: back }) => crew.expect(back == item),
                sent => return sent.is_ok(),
            }
            backoff.snooze();
        }
        unreachable!()
    }

    /// Sends the lane.
    fn send_lane<R: Wait>(&mut self, rt: &R, crew: &Crew) {
        let mut seen = Seen::NONE;
        for number in 0..self.numbers {
            let item = item_of(self.lane, number);
            if self.put(rt, crew, item, number % 2 == 0) {
                seen = seen.with(item);
            }
        }
        crew.went_in.add(seen);
    }

    /// Closes the channel if all senders are done. Then the channel refuses a number, which comes back.
    fn close_if_last<R: Wait>(&mut self, rt: &R, crew: &Crew) {
        let before = self.done.fetch_add(1, Ordering::SeqCst);
        if before.wrapping_add(1) == PAIRS {
            crew.expect(self.end.close(rt) == Ok(true));
            let refused = SendFault::Closed { item: self.numbers };
            crew.expect(self.end.send(rt, self.numbers) == Err(refused));
        }
    }

    /// Receives a number by a call that sleeps, or by a try.
    fn get<R: Wait>(&mut self, rt: &R, sleeps: bool) -> Result<u64, ReceiveFault> {
        if sleeps {
            self.end.receive(rt)
        } else {
            self.end.try_receive(rt)
        }
    }

    /// Receives until the channel is closed and empty, or something is wrong.
    fn receive_share<R: Wait>(&mut self, rt: &R, crew: &Crew) {
        let backoff = Backoff::new();
        let mut arrivals = Arrivals::new();
        for number in 0..u64::MAX {
            match self.get(rt, number % 2 == 0) {
                Ok(item) => arrivals.add(item),
                Err(ReceiveFault::Empty) => backoff.snooze(),
                Err(fault) => {
                    crew.expect(fault == ReceiveFault::Closed);
                    break;
                }
            }
        }
        note(crew, &arrivals);
    }
}

impl<'c, 'd> Job for EndThread<'c, 'd> {
    fn work<R: Wait>(&mut self, rt: &R, crew: &Crew) {
        if self.lane < PAIRS {
            self.send_lane(rt, crew);
            self.close_if_last(rt, crew);
        } else {
            self.receive_share(rt, crew);
        }
    }
}

/// A thread for each end.
fn threads<'c, 'd>(
    alloc: Global,
    mut ends: Vec<End<'c, u64>>,
    done: &'d AtomicU64,
    numbers: u64,
) -> Result<Vec<EndThread<'c, 'd>>, AllocError> {
    let mut jobs = Vec::new(alloc);
    while let Some(end) = ends.pop() {
        jobs.push(EndThread {
            end,
            done,
            lane: ends.len() as u64,
            numbers,
        })?;
    }
    Ok(jobs)
}

/// Passes this many numbers of each sender through a channel of this many cells. At the end it is closed and empty.
pub fn channel_part<R: Machine>(
    rt: &R,
    alloc: Global,
    size: u64,
    numbers: u64,
) -> Result<(), Fault> {
    let Ok((channel, seats)) = Channel::<u64>::open(alloc, size, THREADS + 1, LONGEST_STINT) else {
        return Err(Fault::Memory);
    };
    let mut ends = channel.ends(alloc, seats)?;
    let Some(mut last) = ends.pop() else {
        return Err(Fault::Channel);
    };
    let crew = Crew::new();
    let done = AtomicU64::new(0);
    run_all(rt, &crew, threads(alloc, ends, &done, numbers)?)?;
    crew.expect(last.close(rt) == Ok(false));
    crew.expect(last.receive(rt) == Err(ReceiveFault::Closed));
    crew.verdict(PAIRS.wrapping_mul(numbers), Fault::Channel)
}
