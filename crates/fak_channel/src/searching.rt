//! How a look for a sleeper goes through the words of bits.

ghost use Rattle.std.specs.Prelude.{◌≡◌, ◌+◌, ◌*◌, ◌/◌, ◌%◌, ◌<◌, ◌≤◌, ◌^◌, ◌≢◌};
ghost use Rattle.fak_model.specs.Limits.{large_seats};
ghost use Rattle.fak_channel.specs.Looks.{IsFoundAt, done_at, fresh_looks, next_in, owing, past_bits, past_word, words_of};

use crate::standing::Looks;

/// The number of words that the bits of this many ends fill.
fn words_of(ends: u64) -> u64
    requires { ends ≤ large_seats }
    ensures { result ≡ words_of ends }
{
    (ends + 63) / 64
}

/// The number after this one, among `count` numbers in a circle.
fn next_in(count: u64, number: u64) -> u64
    requires { number < 2 ^ 63 }
    ensures { result ≡ next_in count number }
{
    if number + 1 < count { number + 1 } else { 0 }
}

impl Looks {
    /// No look is owed, and the first one will begin at end 0.
    pub(crate) fn new() -> Looks
        ensures { result ≡ fresh_looks }
    {
        Looks {
            is_owed: false,
            from: 0,
            left: 0,
            found: None,
        }
    }

    /// A look is owed, with all words still to be loaded.
    pub(crate) fn owing(self, ends: u64) -> Looks
        requires { ends ≤ large_seats }
        ensures { result ≡ owing ends self }
    {
        Looks {
            is_owed: true,
            from: self.from,
            left: words_of(ends),
            found: self.found,
        }
    }

    /// A load has found no bit set in its word.
    pub(crate) fn pass_word(&mut self, ends: u64)
        requires few { ends ≤ large_seats }
        requires from { self.old.from < 64 * words_of ends }
        ensures { self.new ≡ past_word ends self.old }
    {
        self.is_owed = self.left > 1;
        self.from = 64 * next_in(words_of(ends), self.from / 64);
        self.left = self.left.saturating_sub(1);
    }

    /// A load has found bits set, all of them of ends before the one from which on the look goes.
    pub(crate) fn past_bits(self, ends: u64) -> Looks
        requires few { ends ≤ large_seats }
        requires from { self.from < 64 * words_of ends }
        ensures { result ≡ past_bits ends self }
    {
        Looks {
            is_owed: self.is_owed,
            from: 64 * next_in(words_of(ends), self.from / 64),
            left: words_of(ends),
            found: self.found,
        }
    }

    /// The first end, from the one on from which the look goes, whose bit is set in this word.
    pub(crate) fn first_in(self, word: u64) -> Option<u64>
        requires some { word ≢ 0 }
        requires from { self.from < 2 ^ 63 }
        ensures { IsFoundAt word self result }
    {
        let bit = self.from % 64;
        let step = (word >> bit).trailing_zeros() as u64;
        if bit + step < 64 {
            Some(self.from + step)
        } else {
            None
        }
    }

    /// The end was woken: the look is done, and the next one begins behind that end.
    pub(crate) fn done_at(self, ends: u64, number: u64) -> Looks
        requires { number < large_seats }
        ensures { result ≡ done_at ends number self }
    {
        Looks {
            is_owed: false,
            from: next_in(ends, number),
            left: self.left,
            found: None,
        }
    }
}
