//! The results of the calls of a seat of a room as numbers.

ghost use Rattle.std.specs.Prelude.{◌≡◌};
ghost use Rattle.fak_handles.specs.room.Calls.{found_or, release_code, tir_code, value_or};

use crate::code::{BAD_LIMIT, FULL, OK, WORN};
use fak_count::TirFault;

pub fn of_tir(claimed: &Option<Result<i64, TirFault>>, found: &mut i64) -> i32
    ensures code { result ≡ tir_code claimed.now }
    ensures found { found.new ≡ found_or found.old claimed.now }
{
    match claimed {
        None => BAD_LIMIT,
        Some(Ok(value)) => {
            *found = *value;
            OK
        }
        Some(Err(TirFault::AtBound(value))) => {
            *found = *value;
            FULL
        }
        Some(Err(TirFault::Worn)) => WORN,
    }
}

pub fn of_release(released: Option<i64>, found: &mut i64) -> i32
    ensures code { result ≡ release_code released }
    ensures found { found.new ≡ value_or found.old released }
{
    match released {
        None => BAD_LIMIT,
        Some(value) => {
            *found = value;
            OK
        }
    }
}
