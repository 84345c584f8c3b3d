//! Channels: their openings, lists of ends, and a lender of ends.

use crate::printing::{show_count, tell_fault};
use crate::retrying::try_twice;
use fak_channel::{Channel, End, Lender};
use std::sync::Wait;

/// Opens a channel whose seats are dealt one by one.
fn open_undealt(rt: &(impl Print + Eprint + AllocGlobal)) -> bool {
    let (_channel, mut undealt) = try_twice!(
        rt,
        "Channel::open_undealt",
        Channel::<u64>::open_undealt(rt.alloc(), 8, 5, 100)
    );
    let mut dealt = 0usize;
    for _ in 0..9u8 {
        if undealt.next().is_some() {
            dealt = dealt.wrapping_add(1);
        }
    }
    show_count(rt, "Channel::open_undealt", dealt, "seats");
    true
}

/// Gives a lender two of the ends. A refusal drops an end, and the lender gets the next one.
fn lend_two(rt: &(impl Print + Eprint + AllocGlobal + Wait), ends: Vec<End<'_, u64>>) -> bool {
    let lender = Lender::new();
    let mut lent = 0usize;
    for end in ends {
        if lent < 2 {
            match lender.add(rt, rt.alloc(), end) {
                Ok(()) => lent += 1,
                Err(fault) => tell_fault(rt, "Lender::add", &fault),
            }
        }
    }
    show_count(rt, "Lender::add", lent, "ends");
    lent == 2
}

/// Opens a channel, makes a list of its ends, and has two of them lent. `None` if there is no memory for the channel or for the list.
fn open_once(rt: &(impl Print + Eprint + AllocGlobal + Wait)) -> Option<bool> {
    let (channel, seats) = match Channel::<u64>::open(rt.alloc(), 8, 3, 100) {
        Ok(opened) => opened,
        Err(fault) => {
            tell_fault(rt, "Channel::open", &fault);
            return None;
        }
    };
    match channel.ends(rt.alloc(), seats) {
        Ok(ends) => {
            show_count(rt, "Channel::open", ends.len(), "seats");
            show_count(rt, "Channel::ends", ends.len(), "ends");
            Some(lend_two(rt, ends))
        }
        Err(fault) => {
            tell_fault(rt, "Channel::ends", &fault);
            None
        }
    }
}

/// Does so a second time if there was no memory.
fn open_ends(rt: &(impl Print + Eprint + AllocGlobal + Wait)) -> bool {
    match open_once(rt) {
        Some(are_lent) => are_lent,
        None => open_once(rt).unwrap_or(false),
    }
}

/// Opens channels, and hands out their ends.
pub(super) fn open_all(rt: &(impl Print + Eprint + AllocGlobal + Wait)) -> bool {
    open_undealt(rt) && open_ends(rt)
}
