//! How a channel is opened.

ghost use Rattle.std.specs.Prelude.{◌≡◌, All, IfOk, MatchResult};
ghost use Rattle.fak_model.specs.Limits.{IsInLargeRange, IsLargeFault};
ghost use Rattle.fak_queue.specs.Refusals.{IsLargeSize};
ghost use Rattle.fak_queue.specs.SleeperSeats.{fresh_sleeper, undealt_info};
ghost use Rattle.fak_channel.specs.Standings.{IsSeatOf};
ghost use Rattle.fak_channel.specs.Undealt.{AreUndealt, dealt, fresh_channel_seats};

use crate::channel::Channel;
use crate::parker::Parker;
use crate::seat::ChannelSeat;
use crate::undealt::UndealtSeats;
use fak_model::LargeFault;
use fak_queue::{Queue, SleeperSeat};
use std::alloc::{AllocError, Global};

impl<T: Drop> Channel<T> {
    /// Opens an empty channel of `size` cells, with a seat for each of its ends. A seat performs `stint` sends and receives.
    ///
    /// `size` is 1 to `LARGE_SIZE`, and `ends` 1 to `LARGE_SEATS`. `stint` is at least 1, and `ends` times `stint` at
    /// most `LARGE_TICKETS`.
    ///
    /// # Errors
    ///
    /// `BadSize`, `BadSeats`, `BadStint` or `Memory`, in this order.
    pub fn open(
        alloc: Global,
        size: u64,
        ends: u64,
        stint: u64,
    ) -> Result<(Channel<T>, Vec<ChannelSeat<T>>), LargeFault>
        ensures { MatchResult result (λ r. IsInLargeRange (IsLargeSize size) ends stint × (r.0.queue.size ≡ size)
            × (r.0.queue.object.seats ≡ ends) × (r.1.items ≡ fresh_channel_seats r.0 stint 0 ends)
            × All (λ s. IsSeatOf r.0 s) r.1.items) (IsLargeFault (IsLargeSize size) ends stint) }
    {
        let (channel, undealt) = match Channel::open_undealt(alloc, size, ends, stint) {
            Ok(opened) => opened,
            Err(fault) => return Err(fault),
        };
        match channel.seats(alloc, ends, stint, undealt) {
            Ok(seats) => Ok((channel, seats)),
            Err(_) => Err(LargeFault::Memory),
        }
    }

    /// As `open`, except that the seats are still to be dealt.
    ///
    /// # Errors
    ///
    /// As `open`.
    pub fn open_undealt(
        alloc: Global,
        size: u64,
        ends: u64,
        stint: u64,
    ) -> Result<(Channel<T>, UndealtSeats<T>), LargeFault>
        ensures { MatchResult result (λ r. IsInLargeRange (IsLargeSize size) ends stint × (r.0.queue.size ≡ size)
            × (r.0.queue.object.seats ≡ ends) × AreUndealt r.0 stint 0 ends r.1) (IsLargeFault (IsLargeSize size) ends stint) }
    {
        let (queue, rest) = match Queue::open_sleepers(alloc, size, ends, stint) {
            Ok(opened) => opened,
            Err(fault) => return Err(fault),
        };
        let Ok(parkers) = parkers(alloc, ends) else {
            return Err(LargeFault::Memory);
        };
        let Ok(seats) = deal(alloc, &queue, ends, stint, rest) else {
            return Err(LargeFault::Memory);
        };
        let channel = Channel {
            queue,
            parkers,
            size: size as i64,
            ends,
        };
        let undealt = UndealtSeats {
            queues: seats.into_iter(),
        };
        Ok((channel, undealt))
    }

    /// The seats, in a list.
    fn seats(
        &self,
        alloc: Global,
        ends: u64,
        stint: u64,
        undealt: UndealtSeats<T>,
    ) -> Result<Vec<ChannelSeat<T>>, AllocError>
        requires { AreUndealt self.now stint 0 ends undealt }
        ensures { IfOk result (λ r. r.items ≡ fresh_channel_seats self.now stint 0 ends) }
    {
        let _stint = stint;
        let mut rest = undealt;
        let mut seats = Vec::with_capacity(alloc, ends as usize)?;
        for _name in 0..ends {
            match rest.next() {
                Some(seat) => seats.push(seat)?,
                None => unreachable!(),
            }
        }
        Ok(seats)
    }
}

/// A word for each end, on which its thread sleeps.
fn parkers(alloc: Global, ends: u64) -> Result<Vec<Parker>, AllocError> {
    let mut parkers = Vec::with_capacity(alloc, ends as usize)?;
    for _end in 0..ends {
        parkers.push(Parker::new())?;
    }
    Ok(parkers)
}

/// The queue's seats, in a list.
fn deal<T: Drop>(
    alloc: Global,
    queue: &Queue<T>,
    ends: u64,
    stint: u64,
    undealt: fak_queue::UndealtSeats<T>,
) -> Result<Vec<SleeperSeat<T>>, AllocError>
    requires undealt { undealt ≡ undealt_info queue.now.object stint 0 }
    requires ends { queue.now.object.seats ≡ ends }
    ensures { IfOk result (λ r. r.items ≡ dealt (fresh_sleeper queue.now.object stint) 0 ends) }
{
    let _stint = stint;
    let mut rest = undealt;
    let mut seats = Vec::with_capacity(alloc, ends as usize)?;
    for _name in 0..ends {
        match rest.next(queue) {
            Some(seat) => seats.push(seat)?,
            None => unreachable!(),
        }
    }
    Ok(seats)
}
