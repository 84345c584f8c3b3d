//! The results of the calls of a seat of a semaphore as numbers.

ghost use Rattle.std.specs.Prelude.{◌≡◌};
ghost use Rattle.fak_handles.specs.semaphore.Calls.{down_code, park_code, step_code, up_code, wake_code, woken_or};

use crate::code::{NOT_YET, OK, PARKS, WAKES, WORN, WRONG_STATE};
use fak_sem::{SemWorn, StepState, Worn};

pub fn of_down(claimed: &Option<Result<Option<u64>, SemWorn<u64>>>) -> i32
    ensures { result ≡ down_code claimed.now }
{
    match claimed {
        None => WRONG_STATE,
        Some(Ok(Some(_))) => OK,
        Some(Ok(None)) => PARKS,
        Some(Err(_)) => WORN,
    }
}

pub fn of_up(claimed: &Option<Result<bool, Worn>>) -> i32
    ensures { result ≡ up_code claimed.now }
{
    match claimed {
        None => WRONG_STATE,
        Some(Ok(false)) => OK,
        Some(Ok(true)) => WAKES,
        Some(Err(_)) => WORN,
    }
}

pub fn of_park(tried: Option<bool>) -> i32
    ensures { result ≡ park_code tried }
{
    match tried {
        None => WRONG_STATE,
        Some(true) => OK,
        Some(false) => NOT_YET,
    }
}

pub fn of_wake(tried: &Option<Option<u64>>, item: &mut u64) -> i32
    ensures code { result ≡ wake_code tried.now }
    ensures item { item.new ≡ woken_or item.old tried.now }
{
    match tried {
        None => WRONG_STATE,
        Some(None) => NOT_YET,
        Some(Some(woken)) => {
            *item = *woken;
            OK
        }
    }
}

pub fn of_step(stands: StepState) -> u32
    ensures { result ≡ step_code stands }
{
    match stands {
        StepState::Idle => 0,
        StepState::Parking => 1,
        StepState::Waking => 2,
    }
}
