//! The exported calls of seats of credits.

ghost use Rattle.std.specs.Prelude.{◌≡◌};
ghost use Rattle.fak_model.specs.declared.credit.CreditKind.TheVariants.{Credit as Credited, Debit};
ghost use Rattle.fak_handles.specs.Calls.{Called};
ghost use Rattle.fak_handles.specs.credit.Calls.{LoadsCredit, MovesCredit, SameCredit};
ghost use Rattle.fak_handles.specs.Kinds.{Spares, credit_in};

use fak_handles::code::{NO_SEAT, OK};
use fak_handles::credit::codes::of_credit;
use fak_handles::credit::seat::CreditDesk;
use fak_handles::padded_handle::PaddedHandle;

/// Subtracts 1, and writes the value before.
///
/// `OK`, `WORN` or `NO_SEAT`.
#[unsafe(no_mangle)]
pub extern "C" fn fak_c_credit_debit(seat: &mut PaddedHandle, found: &mut i64) -> i32
    ensures call { Called result (found.new ≡ found.old) SameCredit (MovesCredit Debit result found.old found.new)
        (credit_in seat.old.handle.desk) (credit_in seat.new.handle.desk) }
    ensures spares { Spares credit_in seat.old.handle.desk seat.new.handle.desk }
{
    let Some(desk) = seat.lend::<CreditDesk>() else {
        return NO_SEAT;
    };
    let moved = desk.debit();
    of_credit(&moved, found)
}

/// Adds 1, and writes the value before.
///
/// `OK`, `WORN` or `NO_SEAT`.
#[unsafe(no_mangle)]
pub extern "C" fn fak_c_credit_credit(seat: &mut PaddedHandle, found: &mut i64) -> i32
    ensures call { Called result (found.new ≡ found.old) SameCredit (MovesCredit Credited result found.old found.new)
        (credit_in seat.old.handle.desk) (credit_in seat.new.handle.desk) }
    ensures spares { Spares credit_in seat.old.handle.desk seat.new.handle.desk }
{
    let Some(desk) = seat.lend::<CreditDesk>() else {
        return NO_SEAT;
    };
    let moved = desk.credit();
    of_credit(&moved, found)
}

/// Writes the value, and how many calls are left of the stint.
///
/// `OK` or `NO_SEAT`.
#[unsafe(no_mangle)]
pub extern "C" fn fak_c_credit_value(
    seat: &mut PaddedHandle,
    value: &mut i64,
    left: &mut u64,
) -> i32
    ensures call { Called result ((value.new ≡ value.old) × (left.new ≡ left.old)) SameCredit
        (LoadsCredit result value.new left.new) (credit_in seat.old.handle.desk) (credit_in seat.new.handle.desk) }
    ensures spares { Spares credit_in seat.old.handle.desk seat.new.handle.desk }
{
    let Some(desk) = seat.lend::<CreditDesk>() else {
        return NO_SEAT;
    };
    *value = desk.value();
    *left = desk.seat.left();
    OK
}
