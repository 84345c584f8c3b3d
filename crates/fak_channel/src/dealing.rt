//! How a channel's seats become ends.

ghost use Rattle.std.specs.Prelude.{◌≡◌, All, IfOk, map};
ghost use Rattle.fak_channel.specs.Standings.{IsSeatOf};

use crate::channel::Channel;
use crate::end::End;
use crate::seat::ChannelSeat;
use std::alloc::{AllocError, Global};

impl<T: Drop> Channel<T> {
    /// An end for each of the seats, in their order.
    pub fn ends(
        &self,
        alloc: Global,
        seats: Vec<ChannelSeat<T>>,
    ) -> Result<Vec<End<'_, T>>, AllocError>
        requires { All (λ s. IsSeatOf self.now s) seats.items }
        ensures seats { IfOk result (λ r. map (λ e. e.seat) r.items ≡ seats.items) }
        ensures channel { IfOk result (λ r. All (λ e. e.channel.now ≡ self.now) r.items) }
    {
        let mut ends = Vec::with_capacity(alloc, seats.len())?;
        let mut left = seats.into_iter();
        while let Some(seat) = left.next() {
            ends.push(End::new(self, seat))?;
        }
        Ok(ends)
    }
}
