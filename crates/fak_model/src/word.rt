//! How an unsigned word keeps a count that may be below 0.

ghost use Rattle.std.specs.Prelude.{◌≡◌, ◌^◌, ◌<◌, pos, ◌+ℤ◌, ◌-ℤ◌};
ghost use Rattle.fak_model.specs.Words.{bias};

/// What is added to a count to get its word, so that the count may be below 0.
pub const BIAS: u64 = 1 << 62;

/// The count that a word keeps: the word minus the bias. The word is below 2^63.
pub fn count_of(word: u64) -> i64
    requires { word < 2 ^ 63 }
    ensures sum { pos word ≡ pos bias +ℤ result }
    ensures difference { result ≡ pos word -ℤ pos bias }
{
    word as i64 - BIAS as i64
}
