//! The exported calls of ends of channels. None of them waits: an end whose call sleeps is woken by its thread's caller.

ghost use Rattle.std.specs.Prelude.{◌≡◌};
ghost use Rattle.fak_handles.specs.Calls.{Called};
ghost use Rattle.fak_handles.specs.channel.Calls.{BeginsClose, BeginsReceive, BeginsSend, BeginsTryReceive, BeginsTrySend, CountsItems, GivesUpCall, LooksAtEnd, SameChannel, StepsOn, TellsClosed};
ghost use Rattle.fak_handles.specs.Kinds.{Spares, channel_in};

use fak_handles::channel::codes::{
    of_begin_close, of_begin_receive, of_begin_send, of_channel_state, of_give_up, of_steps,
};
use fak_handles::channel::seat::{ChannelDesk, Item};
use fak_handles::code::{NO_SEAT, OK};
use fak_handles::padded_handle::PaddedHandle;

/// Begins to send the item.
///
/// `OK` if `fak_channel_step` is next; `WORN`, `NO_SEAT` or `WRONG_STATE`.
#[unsafe(no_mangle)]
pub extern "C" fn fak_channel_begin_send(end: &mut PaddedHandle, item: &Item) -> i32
    ensures call { Called result Unit SameChannel (BeginsSend result item.now)
        (channel_in end.old.handle.desk) (channel_in end.new.handle.desk) }
    ensures spares { Spares channel_in end.old.handle.desk end.new.handle.desk }
{
    let Some(desk) = end.lend::<ChannelDesk>() else {
        return NO_SEAT;
    };
    let begun = desk.begin_send(*item);
    of_begin_send(&begun)
}

/// Begins to receive an item.
///
/// `OK` if `fak_channel_step` is next; `WORN`, `NO_SEAT` or `WRONG_STATE`.
#[unsafe(no_mangle)]
pub extern "C" fn fak_channel_begin_receive(end: &mut PaddedHandle) -> i32
    ensures call { Called result Unit SameChannel (BeginsReceive result)
        (channel_in end.old.handle.desk) (channel_in end.new.handle.desk) }
    ensures spares { Spares channel_in end.old.handle.desk end.new.handle.desk }
{
    let Some(desk) = end.lend::<ChannelDesk>() else {
        return NO_SEAT;
    };
    let begun = desk.begin_receive();
    of_begin_receive(&begun)
}

/// Looks whether there is a free cell, and begins to send the item.
///
/// `OK` if `fak_channel_step` is next; `WORN`, `CLOSED`, `FULL`, `NO_SEAT` or `WRONG_STATE`.
#[unsafe(no_mangle)]
pub extern "C" fn fak_channel_begin_try_send(end: &mut PaddedHandle, item: &Item) -> i32
    ensures call { Called result Unit SameChannel (BeginsTrySend result item.now)
        (channel_in end.old.handle.desk) (channel_in end.new.handle.desk) }
    ensures spares { Spares channel_in end.old.handle.desk end.new.handle.desk }
{
    let Some(desk) = end.lend::<ChannelDesk>() else {
        return NO_SEAT;
    };
    let begun = desk.begin_try_send(*item);
    of_begin_send(&begun)
}

/// Looks whether there is an item, and begins to receive one.
///
/// `OK` if `fak_channel_step` is next; `WORN`, `CLOSED`, `EMPTY`, `NO_SEAT` or `WRONG_STATE`.
#[unsafe(no_mangle)]
pub extern "C" fn fak_channel_begin_try_receive(end: &mut PaddedHandle) -> i32
    ensures call { Called result Unit SameChannel (BeginsTryReceive result)
        (channel_in end.old.handle.desk) (channel_in end.new.handle.desk) }
    ensures spares { Spares channel_in end.old.handle.desk end.new.handle.desk }
{
    let Some(desk) = end.lend::<ChannelDesk>() else {
        return NO_SEAT;
    };
    let begun = desk.begin_try_receive();
    of_begin_receive(&begun)
}

/// Begins to close the channel.
///
/// `OK` if `fak_channel_step` is next; `NO_SEAT` or `WRONG_STATE`.
#[unsafe(no_mangle)]
pub extern "C" fn fak_channel_begin_close(end: &mut PaddedHandle) -> i32
    ensures call { Called result Unit SameChannel (BeginsClose result)
        (channel_in end.old.handle.desk) (channel_in end.new.handle.desk) }
    ensures spares { Spares channel_in end.old.handle.desk end.new.handle.desk }
{
    let Some(desk) = end.lend::<ChannelDesk>() else {
        return NO_SEAT;
    };
    let begun = desk.begin_close();
    of_begin_close(&begun)
}

/// Goes on with the open call, by some steps. Writes the item that came out or back, and the number of the end that is to be woken.
///
/// `OK` or `CLOSED` if the call is done; `NOT_YET`, `WAKES` or `SLEEPS` if it stays open; `NO_SEAT` or `WRONG_STATE`.
#[unsafe(no_mangle)]
pub extern "C" fn fak_channel_step(end: &mut PaddedHandle, item: &mut Item, number: &mut u64) -> i32
    ensures call { Called result ((item.new ≡ item.old) × (number.new ≡ number.old)) SameChannel
        (StepsOn result item.old item.new number.old number.new)
        (channel_in end.old.handle.desk) (channel_in end.new.handle.desk) }
    ensures spares { Spares channel_in end.old.handle.desk end.new.handle.desk }
{
    let Some(desk) = end.lend::<ChannelDesk>() else {
        return NO_SEAT;
    };
    let stepped = desk.steps();
    of_steps(&stepped, item, number)
}

/// Gives up the open call if it sleeps. Writes the item of a send.
///
/// `GAVE_UP` if the call is done; `NOT_YET` if it was woken before and stays open; `NO_SEAT` or `WRONG_STATE`.
#[unsafe(no_mangle)]
pub extern "C" fn fak_channel_give_up(end: &mut PaddedHandle, item: &mut Item) -> i32
    ensures call { Called result (item.new ≡ item.old) SameChannel (GivesUpCall result item.old item.new)
        (channel_in end.old.handle.desk) (channel_in end.new.handle.desk) }
    ensures spares { Spares channel_in end.old.handle.desk end.new.handle.desk }
{
    let Some(desk) = end.lend::<ChannelDesk>() else {
        return NO_SEAT;
    };
    let given = desk.give_up();
    of_give_up(&given, item)
}

/// Writes how many items no receiver has claimed.
///
/// `OK` or `NO_SEAT`.
#[unsafe(no_mangle)]
pub extern "C" fn fak_channel_len(end: &mut PaddedHandle, items: &mut u64) -> i32
    ensures call { Called result (items.new ≡ items.old) SameChannel (CountsItems result items.new)
        (channel_in end.old.handle.desk) (channel_in end.new.handle.desk) }
    ensures spares { Spares channel_in end.old.handle.desk end.new.handle.desk }
{
    let Some(desk) = end.lend::<ChannelDesk>() else {
        return NO_SEAT;
    };
    *items = desk.len();
    OK
}

/// Writes whether the channel was closed.
///
/// `OK` or `NO_SEAT`.
#[unsafe(no_mangle)]
pub extern "C" fn fak_channel_is_closed(end: &mut PaddedHandle, is_closed: &mut bool) -> i32
    ensures call { Called result (is_closed.new ≡ is_closed.old) SameChannel (TellsClosed result is_closed.new)
        (channel_in end.old.handle.desk) (channel_in end.new.handle.desk) }
    ensures spares { Spares channel_in end.old.handle.desk end.new.handle.desk }
{
    let Some(desk) = end.lend::<ChannelDesk>() else {
        return NO_SEAT;
    };
    *is_closed = desk.is_closed();
    OK
}

/// Writes the number of the end, its state, 0 idle, 1 in a call, 2 in a call that sleeps, and how many calls are left of its stint.
///
/// `OK` or `NO_SEAT`.
#[unsafe(no_mangle)]
pub extern "C" fn fak_channel_state(
    end: &mut PaddedHandle,
    number: &mut u64,
    state: &mut u32,
    left: &mut u64,
) -> i32
    ensures call { Called result ((number.new ≡ number.old) × (state.new ≡ state.old) × (left.new ≡ left.old)) SameChannel
        (LooksAtEnd result number.new state.new left.new)
        (channel_in end.old.handle.desk) (channel_in end.new.handle.desk) }
    ensures spares { Spares channel_in end.old.handle.desk end.new.handle.desk }
{
    let Some(desk) = end.lend::<ChannelDesk>() else {
        return NO_SEAT;
    };
    *number = desk.seat.number();
    *state = of_channel_state(desk.seat.state());
    *left = desk.seat.left();
    OK
}
