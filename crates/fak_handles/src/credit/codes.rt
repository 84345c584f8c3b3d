//! The results of the calls of a seat of a credit as numbers.

ghost use Rattle.std.specs.Prelude.{◌≡◌};
ghost use Rattle.fak_handles.specs.credit.Calls.{old_or, worn_code};

use crate::code::{OK, WORN};
use fak_count::Worn;

pub fn of_credit(moved: &Result<i64, Worn>, found: &mut i64) -> i32
    ensures code { result ≡ worn_code moved.now }
    ensures found { found.new ≡ old_or found.old moved.now }
{
    match moved {
        Ok(value) => {
            *found = *value;
            OK
        }
        Err(Worn) => WORN,
    }
}
