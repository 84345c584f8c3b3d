//! An end of a channel that goes by steps, with a share of the channel.

ghost use Rattle.std.specs.Prelude.{◌≡◌};
ghost use Rattle.std.specs.Arc.{arc_value};
ghost use Rattle.fak_channel.specs.Standings.{IsStepSeatOf};
ghost use Rattle.fak_channel.proofs.OneProof.{stands_prop};

use crate::desk::Desk;
use crate::seat_kind::SeatKind;
use fak_channel::{Channel, ChannelStepSeat};
use std::alloc::Global;
use std::sync::Arc;

/// What C declares as `fak_channel_item`: four words.
#[derive(Clone, Copy, Debug, PartialEq, Eq, Drop)]
#[repr(C)]
pub struct Item {
    pub word: [u64; 4],
}

/// An end with a share of its channel.
#[derive(Drop)]
#[repr(C)]
pub struct ChannelDesk {
    pub(crate) before: [u64; 8],
    pub(crate) channel: Arc<Channel<Item>, Global>,
    pub seat: ChannelStepSeat<Item>,
    pub(crate) after: [u64; 8],
    pub ghost stands: { IsStepSeatOf (arc_value channel) seat } by { stands_prop (arc_value channel) seat },
}

impl ChannelDesk {
    pub(crate) fn of(
        channel: Arc<Channel<Item>, Global>,
        seat: ChannelStepSeat<Item>,
    ) -> ChannelDesk
        requires stands { IsStepSeatOf (arc_value channel) seat }
        ensures object { arc_value result.channel ≡ arc_value channel }
        ensures seat { result.seat ≡ seat }
    {
        ChannelDesk {
            before: [0; 8],
            channel,
            seat,
            after: [0; 8],
        }
    }
}

impl SeatKind for ChannelDesk {
    ghost use Rattle.std.specs.Prelude.{refl};
    ghost use Rattle.fak_handles.specs.Kinds.{channel_in, with_channel};

    ghost seat_in = { channel_in };

    ghost with_seat = { with_channel };

    fn lend(desk: &mut Desk) -> Option<&mut ChannelDesk> {
        match desk {
            Desk::Channel(desk) => Some(desk.as_mut()),
            _ => None,
        }
    }

    ghost no_desk = { refl };
}
