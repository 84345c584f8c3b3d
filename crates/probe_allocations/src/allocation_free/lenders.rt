//! Calls of a lender of ends.

use super::sentinels::{begin, end};
use fak_channel::{
    Channel, End, Lender, LenderReceiveFault, LenderSendFault, ReceiveFault, SendFault,
};
use std::sync::Wait;

/// Calls by ends that are borrowed, of a channel with one cell.
fn call_by_loans<R: Wait>(rt: &R, lender: &Lender<'_, u64>) -> bool {
    let empty = LenderReceiveFault::Refused {
        fault: ReceiveFault::Empty,
    };
    let full = LenderSendFault::Refused {
        fault: SendFault::Full { item: 11 },
    };
    lender.try_receive(rt) == Err(empty)
        && lender.send(rt, 10) == Ok(())
        && lender.try_send(rt, 11) == Err(full)
        && lender.receive(rt) == Ok(10)
        && lender.try_send(rt, 12) == Ok(())
        && lender.try_receive(rt) == Ok(12)
        && lender.close(rt) == Ok(true)
}

/// Whether both ends are lent, and come back.
fn lend_both<R: Wait>(rt: &R, lender: &Lender<'_, u64>) -> bool {
    let mut loan = lender.lend(rt);
    let mut other = lender.lend(rt);
    let are_closed = loan.end().is_closed() && other.end().is_closed();
    lender.take_back(rt, loan);
    lender.take_back(rt, other);
    are_closed
}

/// Calls of a lender that has two ends.
pub(super) fn call_lender(rt: &(impl Print + AllocGlobal + Wait)) -> bool {
    let Ok((channel, mut seats)) = Channel::<u64>::open(rt.alloc(), 1, 2, 100) else {
        return false;
    };
    let lender = Lender::new();
    let Some(seat) = seats.pop() else {
        unreachable!()
    };
    if lender
        .add(rt, rt.alloc(), End::new(&channel, seat))
        .is_err()
    {
        return false;
    }
    let Some(seat) = seats.pop() else {
        unreachable!()
    };
    if lender
        .add(rt, rt.alloc(), End::new(&channel, seat))
        .is_err()
    {
        return false;
    }
    begin(rt);
    let are_as_expected = call_by_loans(rt, &lender) && lend_both(rt, &lender);
    end(
        rt,
        "Lender: send, try_send, receive, try_receive, close, lend, take_back",
        are_as_expected,
    );
    true
}
