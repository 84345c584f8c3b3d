//! The exported calls that lend ends of a shared channel. None waits. Callers hold a lock, and park and wake each other themselves.

ghost use Rattle.std.specs.Prelude.{◌≡◌, ◌↔◌, pos, IsTrue};
ghost use Rattle.fak_handles.specs.channel.Lending.{EndsLoan, GivesBack, IsAtRest, LendsAfterPark, LendsAs, NobodyWaitsInVain, OpensLending, RetiresLent};

use fak_handles::channel::codes::{of_loan, of_return};
use fak_handles::channel::lending::Lending;
use fak_handles::code::{BAD_LIMIT, OK};

/// All of 1 to 1,024 ends are idle, and nobody waits.
///
/// `OK` or `BAD_LIMIT`.
#[unsafe(no_mangle)]
pub extern "C" fn fak_channel_lending_open(lending: &mut Lending, count: u64) -> i32
    ensures opens { OpensLending result count lending.old lending.new }
    ensures law { result ≡ pos 0 → NobodyWaitsInVain lending.new }
{
    if lending.open(count) { OK } else { BAD_LIMIT }
}

/// Lends an idle end, and writes its number. If none is idle and the caller may wait, it is counted as waiting.
///
/// `OK`; `WORN` if all ends are worn; `SLEEPS` if the caller waits, else `GAVE_UP`.
#[unsafe(no_mangle)]
pub extern "C" fn fak_channel_lending_borrow(
    lending: &mut Lending,
    may_wait: bool,
    number: &mut u64,
) -> i32
    ensures call { LendsAs result may_wait number.old number.new lending.old lending.new }
    ensures law { NobodyWaitsInVain lending.old → NobodyWaitsInVain lending.new }
{
    let loan = lending.borrow(may_wait);
    of_loan(&loan, number)
}

/// The same for a caller that waits, and comes back from its park. Writes whether another one is to be woken.
///
/// `OK`; `WORN` if all ends are worn; `SLEEPS` if the caller is in time and waits on, else `GAVE_UP`.
#[unsafe(no_mangle)]
pub extern "C" fn fak_channel_lending_look_again(
    lending: &mut Lending,
    in_time: bool,
    number: &mut u64,
    wakes: &mut bool,
) -> i32
    ensures call { LendsAfterPark result in_time number.old number.new wakes.new lending.old lending.new }
    ensures law { NobodyWaitsInVain lending.new }
{
    let (loan, is_due) = lending.look_again(in_time);
    *wakes = is_due;
    of_loan(&loan, number)
}

/// Gives back a lent end, which is idle then. Writes whether a waiting caller is to be woken.
///
/// `OK`, or `WRONG_STATE` if the end is not lent.
#[unsafe(no_mangle)]
pub extern "C" fn fak_channel_lending_give_back(
    lending: &mut Lending,
    number: u64,
    wakes: &mut bool,
) -> i32
    ensures call { EndsLoan (GivesBack number) result wakes.old wakes.new lending.old lending.new }
    ensures law { NobodyWaitsInVain lending.old → NobodyWaitsInVain lending.new }
{
    let answer = lending.give_back(number);
    of_return(answer, wakes)
}

/// Counts a lent end as worn, which is not lent again. Writes whether a waiting caller is to be woken.
///
/// `OK`, or `WRONG_STATE` if the end is not lent.
#[unsafe(no_mangle)]
pub extern "C" fn fak_channel_lending_retire(
    lending: &mut Lending,
    number: u64,
    wakes: &mut bool,
) -> i32
    ensures call { EndsLoan (RetiresLent number) result wakes.old wakes.new lending.old lending.new }
    ensures law { NobodyWaitsInVain lending.old → NobodyWaitsInVain lending.new }
{
    let answer = lending.retire(number);
    of_return(answer, wakes)
}

/// Writes whether each end is idle or worn, and nobody waits.
///
/// `OK`.
#[unsafe(no_mangle)]
pub extern "C" fn fak_channel_lending_is_at_rest(lending: &Lending, is_at_rest: &mut bool) -> i32
    ensures code { result ≡ pos 0 }
    ensures rest { IsTrue is_at_rest.new ↔ IsAtRest lending.now }
{
    *is_at_rest = lending.is_at_rest();
    OK
}
