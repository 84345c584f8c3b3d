//! The cases of channels: threads that pass numbers on, and sleep while they wait.

ghost use Rattle.std.specs.Prelude.{IfOk};
ghost use Rattle.std.specs.List.{All};
ghost use Rattle.fak_channel.specs.Standings.{IsSeatOf};

use crate::channel_handle::{KitEnd, LockedChannel, LockedEnd};
use crate::fault::Fault;
use crate::passing::{Passing, Workload};
use crate::queue_handle::QueueHandle;
use crate::queues::part_of;
use crate::run::{Job, Machine, Passed, numbers_below, run_all};
use crossbeam_channel::bounded;
use fak_channel::{Channel, ChannelSeat};
use fak_queue::LONGEST_STINT;
use std::alloc::{AllocError, Global};
use std::sync::Wait;
use std::time::Clock;

/// Which channel.
#[derive(Clone, Copy)]
pub enum ChannelKind {
    /// This repository's.
    Ends,
    /// The kit's.
    Kit,
    /// A row under a lock, with two condition variables.
    Lock,
}

/// Who uses the channels.
#[derive(Clone, Copy)]
pub enum Traffic {
    /// Two threads that pass one number to and fro, by a channel for each way.
    ToAndFro,
    /// This many pairs of a sender and a receiver at one channel.
    Pairs(u64),
    /// One sender and this many receivers, most of which sleep.
    Receivers(u64),
}

/// A channel of this many cells with these users.
#[derive(Clone, Copy)]
pub struct ChannelCase {
    pub channel_kind: ChannelKind,
    pub size: u64,
    pub traffic: Traffic,
}

/// One of two threads that pass a number to and fro, this many times.
#[derive(Drop)]
struct InTurn<P> {
    there: P,
    back: P,
    count: u64,
    begins: bool,
}

/// Sends each number, and receives what comes back.
fn serve<R: Wait, P: QueueHandle>(rt: &R, there: &mut P, back: &mut P, count: u64) -> Passed {
    let mut passed = Passed::NONE;
    for number in 0..count {
        if !there.put(rt, number) {
            return passed;
        }
        if let Some(number) = back.get(rt) {
            passed = passed.with(number);
        }
    }
    passed
}

/// Receives each number, and sends it back.
fn return_all<R: Wait, P: QueueHandle>(rt: &R, there: &mut P, back: &mut P, count: u64) {
    for _ in 0..count {
        let Some(number) = there.get(rt) else {
            return;
        };
        if !back.put(rt, number) {
            return;
        }
    }
}

impl<P: QueueHandle + Send> Job for InTurn<P> {
    /// Who begins counts.
    fn work<R: Wait + Clock>(&mut self, rt: &R) -> Passed {
        if self.begins {
            return serve(rt, &mut self.there, &mut self.back, self.count);
        }
        return_all(rt, &mut self.there, &mut self.back, self.count);
        Passed::NONE
    }
}

/// Two threads with the ends of two channels; a time for each way of a number.
fn run_to_and_fro<R: Machine, P: QueueHandle + Send>(
    rt: &R,
    alloc: Global,
    there: Vec<P>,
    back: Vec<P>,
    items: u64,
) -> Result<u64, Fault> {
    let mut jobs = Vec::new(alloc);
    let mut begins = true;
    let mut backs = back.into_iter();
    for there in there {
        let Some(back) = backs.next() else {
            return Err(Fault::Memory);
        };
        jobs.push(InTurn {
            there,
            back,
            count: items,
            begins,
        })?;
        begins = false;
    }
    let nanos = run_all(rt, jobs, numbers_below(items))?;
    Ok(nanos / 2 / items.max(1))
}

/// The same end this many times.
fn copies_of<P: Copy + Drop>(alloc: Global, end: P, count: u64) -> Result<Vec<P>, AllocError> {
    let mut ends = Vec::new(alloc);
    for _ in 0..count {
        ends.push(end)?;
    }
    Ok(ends)
}

impl Traffic {
    /// How many threads there are.
    fn threads(self) -> u64 {
        match self {
            Traffic::ToAndFro => 2,
            Traffic::Pairs(pairs) => pairs.saturating_mul(2),
            Traffic::Receivers(receivers) => receivers.saturating_add(1),
        }
    }

    /// How many items go through a channel, if each sender of a pair, or each receiver of many, has this many.
    fn total(self, items: u64) -> u64 {
        match self {
            Traffic::ToAndFro => items,
            Traffic::Pairs(pairs) => pairs.saturating_mul(items),
            Traffic::Receivers(receivers) => receivers.saturating_mul(self.share(items)),
        }
    }

    /// How many items a thread has.
    fn share(self, items: u64) -> u64 {
        match self {
            Traffic::ToAndFro | Traffic::Pairs(_) => items,
            Traffic::Receivers(receivers) => items / receivers.max(1),
        }
    }

    /// What the thread of this number does.
    fn part(self, number: u64, items: u64) -> Workload {
        match self {
            Traffic::ToAndFro => Workload::Both { count: items },
            Traffic::Pairs(pairs) => part_of(number, pairs, items),
            Traffic::Receivers(_) if number == 0 => Workload::Put {
                first: 0,
                end: self.total(items),
            },
            Traffic::Receivers(_) => Workload::Get {
                count: self.share(items),
            },
        }
    }
}

impl ChannelCase {
    /// One run over these ends of one channel, in nanoseconds for each item.
    fn over<R: Machine, P: QueueHandle + Send>(
        &self,
        rt: &R,
        alloc: Global,
        ends: Vec<P>,
        items: u64,
    ) -> Result<u64, Fault> {
        let total = self.traffic.total(items);
        let mut jobs = Vec::new(alloc);
        let mut number = 0u64;
        for handle in ends {
            let workload = self.traffic.part(number, items);
            jobs.push(Passing { handle, workload })?;
            number = number.wrapping_add(1);
        }
        let nanos = run_all(rt, jobs, numbers_below(total))?;
        Ok(nanos / total.max(1))
    }

    /// A channel of this repository with its seats.
    fn open_ends(&self, alloc: Global) -> Result<(Channel<u64>, Vec<ChannelSeat<u64>>), Fault>
        ensures { IfOk result (λ r. All (λ s. IsSeatOf r.0 s) r.1.items) }
    {
        let ends = self.traffic.threads();
        match Channel::<u64>::open(alloc, self.size, ends, LONGEST_STINT) {
            Ok(opened) => Ok(opened),
            Err(_) => Err(Fault::Memory),
        }
    }

    /// One run by the ends of these seats of one channel, or to and fro by those of both.
    fn over_ends<R: Machine>(
        &self,
        rt: &R,
        alloc: Global,
        there: (&Channel<u64>, Vec<ChannelSeat<u64>>),
        back: (&Channel<u64>, Vec<ChannelSeat<u64>>),
        items: u64,
    ) -> Result<u64, Fault>
        requires there { All (λ s. IsSeatOf there.0.now s) there.1.items }
        requires back { All (λ s. IsSeatOf back.0.now s) back.1.items }
    {
        let ends = there.0.ends(alloc, there.1)?;
        let Traffic::ToAndFro = self.traffic else {
            return self.over(rt, alloc, ends, items);
        };
        let backs = back.0.ends(alloc, back.1)?;
        run_to_and_fro(rt, alloc, ends, backs, items)
    }

    fn by_ends<R: Machine>(&self, rt: &R, alloc: Global, items: u64) -> Result<u64, Fault> {
        let (there, seats) = self.open_ends(alloc)?;
        let (back, others) = self.open_ends(alloc)?;
        self.over_ends(rt, alloc, (&there, seats), (&back, others), items)
    }

    fn by_kit<R: Machine>(&self, rt: &R, alloc: Global, items: u64) -> Result<u64, Fault> {
        let threads = self.traffic.threads();
        let there = bounded::<u64, Global>(alloc, self.size as usize)?;
        let back = bounded::<u64, Global>(alloc, self.size as usize)?;
        let end = KitEnd {
            sender: &there.0,
            receiver: &there.1,
        };
        let ends = copies_of(alloc, end, threads)?;
        let Traffic::ToAndFro = self.traffic else {
            return self.over(rt, alloc, ends, items);
        };
        let end = KitEnd {
            sender: &back.0,
            receiver: &back.1,
        };
        run_to_and_fro(rt, alloc, ends, copies_of(alloc, end, threads)?, items)
    }

    /// One run by users of one channel, or to and fro by users of both.
    fn over_locked<R: Machine>(
        &self,
        rt: &R,
        alloc: Global,
        there: &LockedChannel,
        back: &LockedChannel,
        items: u64,
    ) -> Result<u64, Fault> {
        let threads = self.traffic.threads();
        let ends = copies_of(alloc, LockedEnd { channel: there }, threads)?;
        let Traffic::ToAndFro = self.traffic else {
            return self.over(rt, alloc, ends, items);
        };
        let backs = copies_of(alloc, LockedEnd { channel: back }, threads)?;
        run_to_and_fro(rt, alloc, ends, backs, items)
    }

    fn by_lock<R: Machine>(&self, rt: &R, alloc: Global, items: u64) -> Result<u64, Fault> {
        let there = LockedChannel::open(alloc, self.size as usize)?;
        let back = LockedChannel::open(alloc, self.size as usize)?;
        self.over_locked(rt, alloc, &there, &back, items)
    }

    /// Runs it once, and returns the nanoseconds for each item, or for each way of a number.
    pub fn once<R: Machine>(&self, rt: &R, alloc: Global, items: u64) -> Result<u64, Fault> {
        match self.channel_kind {
            ChannelKind::Ends => self.by_ends(rt, alloc, items),
            ChannelKind::Kit => self.by_kit(rt, alloc, items),
            ChannelKind::Lock => self.by_lock(rt, alloc, items),
        }
    }
}
