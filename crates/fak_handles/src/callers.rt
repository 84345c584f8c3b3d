//! Callers of the lending: each concludes something from the contracts of its calls.

ghost use Rattle.std.specs.Prelude.{IsTrue};
ghost use Rattle.fak_handles.specs.channel.Lending.{NobodyWaitsInVain};

use crate::channel::lending::{BorrowOutcome, Lending};

/// A call of a lending.
#[derive(Drop)]
pub enum LendingCall {
    Borrow { may_wait: bool },
    LookAgain { in_time: bool },
    GiveBack(u64),
    Retire(u64),
}

/// After any calls of an open lending, in any order, nobody waits in vain.
pub fn nobody_waits_in_vain_after_any_calls(
    lending: &mut Lending,
    count: u64,
    calls: &[LendingCall],
) -> bool
    ensures { IsTrue result → NobodyWaitsInVain lending.new }
{
    let is_open = lending.open(count);
    for call in calls {
        match call {
            LendingCall::Borrow { may_wait } => drop(lending.borrow(*may_wait)),
            LendingCall::LookAgain { in_time } => drop(lending.look_again(*in_time)),
            LendingCall::GiveBack(number) => drop(lending.give_back(*number)),
            LendingCall::Retire(number) => drop(lending.retire(*number)),
        }
    }
    is_open
}

/// The second caller waits for the only end. It is woken when the end comes back, and gets it. Once it has given it
/// back, all is at rest.
pub fn the_second_caller_gets_the_only_end(lending: &mut Lending) -> bool
    ensures { IsTrue result }
{
    if !lending.open(1) {
        return false;
    }
    let BorrowOutcome::Lent(number) = lending.borrow(false) else {
        return false;
    };
    let BorrowOutcome::Waits = lending.borrow(true) else {
        return false;
    };
    let Some(true) = lending.give_back(number) else {
        return false;
    };
    let (BorrowOutcome::Lent(again), false) = lending.look_again(true) else {
        return false;
    };
    let Some(false) = lending.give_back(again) else {
        return false;
    };
    lending.is_at_rest()
}

/// Two callers wait for the only end. Once it is worn, one of them is woken, and wakes the other.
pub fn a_worn_end_wakes_both_callers(lending: &mut Lending) -> bool
    ensures { IsTrue result }
{
    if !lending.open(1) {
        return false;
    }
    let BorrowOutcome::Lent(number) = lending.borrow(false) else {
        return false;
    };
    let (BorrowOutcome::Waits, BorrowOutcome::Waits) = (lending.borrow(true), lending.borrow(true))
    else {
        return false;
    };
    let Some(true) = lending.retire(number) else {
        return false;
    };
    let (BorrowOutcome::Worn, true) = lending.look_again(true) else {
        return false;
    };
    let (BorrowOutcome::Worn, false) = lending.look_again(true) else {
        return false;
    };
    true
}
