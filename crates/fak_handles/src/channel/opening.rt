//! How channels are opened for C: each handle gets an end.

ghost use Rattle.std.specs.Prelude.{◌≡◌, IsTrue, length};
ghost use Rattle.std.specs.Arc.{arc_value};
ghost use Rattle.fak_channel.specs.Undealt.{AreUndealt};
ghost use Rattle.fak_handles.specs.Openings.{AreSeatedBelow, IsFreshChannel, OpensChannel};

use crate::channel::seat::{ChannelDesk, Item};
use crate::code::{BAD_LIMIT, MEMORY, OK};
use crate::desk::Desk;
use crate::opening::clear;
use crate::padded_handle::PaddedHandle;
use fak_channel::{Channel, UndealtSeats};
use fak_model::LargeFault;
use std::alloc::Global;
use std::sync::Arc;

/// Gives each handle one of the ends, with a share of the channel. False if memory ran out.
fn seat_channel(
    alloc: Global,
    channel: &Arc<Channel<Item>, Global>,
    stint: u64,
    undealt: UndealtSeats<Item>,
    handles: &mut [PaddedHandle],
) -> bool
    requires { AreUndealt (arc_value channel.now) stint 0 (length handles.old) undealt }
    ensures len { length handles.new ≡ length handles.old }
    ensures seated { IsTrue result → AreSeatedBelow (IsFreshChannel (arc_value channel.now) stint)
        (length handles.old) handles.new }
{
    let _stint = stint;
    let mut rest = undealt;
    for i in 0..handles.len() {
        let Some(seat) = rest.next() else {
            return false;
        };
        let Ok(share) = Arc::try_clone(channel) else {
            return false;
        };
        let end = ChannelDesk::of(share, channel.step_seat(seat));
        let Ok(inner) = Box::new(alloc, end) else {
            return false;
        };
        let Ok(desk) = Box::new(alloc, Desk::Channel(inner)) else {
            return false;
        };
        handles[i].put(desk);
    }
    true
}

/// Opens the channel with an end for each handle. What the handles held is given up.
pub fn open_channel(alloc: Global, handles: &mut [PaddedHandle], size: u64, stint: u64) -> i32
    ensures len { length handles.new ≡ length handles.old }
    ensures opens { OpensChannel result size stint handles.new }
{
    clear(alloc, handles);
    match Channel::<Item>::open_undealt(alloc, size, handles.len() as u64, stint) {
        Ok((channel, undealt)) => {
            let Ok(channel) = Arc::new(alloc, channel) else {
                return MEMORY;
            };
            if seat_channel(alloc, &channel, stint, undealt, handles) {
                OK
            } else {
                clear(alloc, handles);
                MEMORY
            }
        }
        Err(LargeFault::Memory) => MEMORY,
        Err(LargeFault::BadSize | LargeFault::BadSeats | LargeFault::BadStint) => BAD_LIMIT,
    }
}
