//! The exported calls of seats of semaphores.

ghost use Rattle.std.specs.Prelude.{◌≡◌};
ghost use Rattle.fak_handles.specs.Calls.{Called};
ghost use Rattle.fak_handles.specs.Kinds.{Spares, semaphore_in};
ghost use Rattle.fak_handles.specs.semaphore.Calls.{ClaimsDown, ClaimsUp, LooksAtSem, SameSemaphore, TriesToPark, TriesToWake};

use fak_handles::code::{NO_SEAT, OK};
use fak_handles::padded_handle::PaddedHandle;
use fak_handles::semaphore::codes::{of_down, of_park, of_step, of_up, of_wake};
use fak_handles::semaphore::seat::SemDesk;

/// Begins a down of the item.
///
/// `OK` if it passes; `PARKS` if `fak_c_sem_try_park` is next; `WORN`, `NO_SEAT` or `WRONG_STATE`.
#[unsafe(no_mangle)]
pub extern "C" fn fak_c_sem_claim_down(seat: &mut PaddedHandle, item: u64) -> i32
    ensures call { Called result Unit SameSemaphore (ClaimsDown result item) (semaphore_in seat.old.handle.desk)
        (semaphore_in seat.new.handle.desk) }
    ensures spares { Spares semaphore_in seat.old.handle.desk seat.new.handle.desk }
{
    let Some(desk) = seat.lend::<SemDesk>() else {
        return NO_SEAT;
    };
    let claimed = desk.claim_down(item);
    of_down(&claimed)
}

/// Goes on with a down that parks its item.
///
/// `OK` if the item is parked, `NOT_YET`, `NO_SEAT` or `WRONG_STATE`.
#[unsafe(no_mangle)]
pub extern "C" fn fak_c_sem_try_park(seat: &mut PaddedHandle) -> i32
    ensures call { Called result Unit SameSemaphore (TriesToPark result) (semaphore_in seat.old.handle.desk)
        (semaphore_in seat.new.handle.desk) }
    ensures spares { Spares semaphore_in seat.old.handle.desk seat.new.handle.desk }
{
    let Some(desk) = seat.lend::<SemDesk>() else {
        return NO_SEAT;
    };
    let tried = desk.try_park();
    of_park(tried)
}

/// Begins an up.
///
/// `OK` if it wakes no item; `WAKES` if `fak_c_sem_try_wake` is next; `WORN`, `NO_SEAT` or `WRONG_STATE`.
#[unsafe(no_mangle)]
pub extern "C" fn fak_c_sem_claim_up(seat: &mut PaddedHandle) -> i32
    ensures call { Called result Unit SameSemaphore (ClaimsUp result) (semaphore_in seat.old.handle.desk)
        (semaphore_in seat.new.handle.desk) }
    ensures spares { Spares semaphore_in seat.old.handle.desk seat.new.handle.desk }
{
    let Some(desk) = seat.lend::<SemDesk>() else {
        return NO_SEAT;
    };
    let claimed = desk.claim_up();
    of_up(&claimed)
}

/// Goes on with an up that owes a wake, and writes the woken item.
///
/// `OK`, `NOT_YET`, `NO_SEAT` or `WRONG_STATE`.
#[unsafe(no_mangle)]
pub extern "C" fn fak_c_sem_try_wake(seat: &mut PaddedHandle, item: &mut u64) -> i32
    ensures call { Called result (item.new ≡ item.old) SameSemaphore (TriesToWake result item.old item.new)
        (semaphore_in seat.old.handle.desk) (semaphore_in seat.new.handle.desk) }
    ensures spares { Spares semaphore_in seat.old.handle.desk seat.new.handle.desk }
{
    let Some(desk) = seat.lend::<SemDesk>() else {
        return NO_SEAT;
    };
    let tried = desk.try_wake();
    of_wake(&tried, item)
}

/// Writes the state of the seat, 0 idle, 1 parking, 2 waking, and how many calls are left of its stint.
///
/// `OK` or `NO_SEAT`.
#[unsafe(no_mangle)]
pub extern "C" fn fak_c_sem_state(seat: &mut PaddedHandle, state: &mut u32, left: &mut u64) -> i32
    ensures call { Called result ((state.new ≡ state.old) × (left.new ≡ left.old)) SameSemaphore
        (LooksAtSem result state.new left.new) (semaphore_in seat.old.handle.desk) (semaphore_in seat.new.handle.desk) }
    ensures spares { Spares semaphore_in seat.old.handle.desk seat.new.handle.desk }
{
    let Some(desk) = seat.lend::<SemDesk>() else {
        return NO_SEAT;
    };
    *state = of_step(desk.seat.state());
    *left = desk.seat.left();
    OK
}
