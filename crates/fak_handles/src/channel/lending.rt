//! Which ends of a shared channel callers have borrowed, and how many callers wait for one. The memory is the caller's, who locks it.

ghost use Rattle.std.specs.Prelude.{◌≡◌, ◌≢◌, ◌↔◌, ℕ, ◌<◌, IsTrue, MatchBool, MatchOption, None};
ghost use Rattle.std.specs.Int.{bit_at};
ghost use Rattle.fak_model.specs.Limits.{IsLargeNumberOfSeats};
ghost use Rattle.fak_handles.specs.channel.Lending.{Borrows, GivesBack, IsAtRest, IsIdle, IsLent, IsLowest, IsOpened, LooksAgain, NobodyWaitsInVain, NoneIsIdle, RetiresLent, SameCallers, Takes, WakesIfDue};

use fak_model::LARGE_SEATS;

/// What C declares as `fak_channel_lending`.
#[derive(Drop)]
#[repr(C)]
pub struct Lending {
    /// How many ends there are.
    pub count: u64,
    /// How many of them have used up their stint.
    pub worn: u64,
    /// How many callers wait for an end.
    pub waiting: u64,
    /// 1 if one of these was woken, and none has looked again since then.
    pub woken: u64,
    /// A bit for each end that is idle: end k is bit k % 64 of word k / 64.
    pub idle: [u64; 16],
}

/// What a caller is told that asks for an end.
#[derive(Drop)]
pub enum BorrowOutcome {
    /// It has borrowed the end of this number.
    Lent(u64),
    /// All ends have used up their stint.
    Worn,
    /// No end is idle, and the caller does not wait.
    GivenUp,
    /// No end is idle, and the caller waits: it parks, and then looks again.
    Waits,
}

/// A word whose lowest bits are set, this many of them.
fn low_bits(count: u64) -> u64
    ensures { (i : ℕ) → i < count → i < 64 → bit_at result i ≡ 1 }
{
    if count >= 64 {
        u64::MAX
    } else {
        (1 << count) - 1
    }
}

/// The place of the lowest bit that is set.
fn lowest_bit(word: u64) -> u64
    requires { word ≢ 0 }
    ensures { IsLowest word result }
{
    word.trailing_zeros() as u64
}

impl Lending {
    /// All of 1 to 1,024 ends are idle, and nobody waits. False if `count` is out of range: then nothing changes.
    pub fn open(&mut self, count: u64) -> bool
        ensures range { MatchBool result (IsLargeNumberOfSeats count × IsOpened count self.new)
            (¬ IsLargeNumberOfSeats count × (self.new ≡ self.old)) }
        ensures law { IsTrue result → NobodyWaitsInVain self.new }
    {
        if count == 0 || count > LARGE_SEATS {
            return false;
        }
        for (index, word) in self.idle.iter_mut().enumerate() {
            *word = low_bits(count.saturating_sub(64 * index as u64));
        }
        self.count = count;
        self.worn = 0;
        self.waiting = 0;
        self.woken = 0;
        true
    }

    /// The first idle end.
    fn first_idle(&self) -> Option<u64>
        ensures idle { MatchOption result (NoneIsIdle self.now) (λ k. IsIdle self.now k × (k < 1024)) }
    {
        for (index, word) in self.idle.iter().enumerate() {
            if *word != 0 {
                let number = 64 * index as u64 + lowest_bit(*word);
                return if number < self.count {
                    Some(number)
                } else {
                    None
                };
            }
        }
        None
    }

    /// Takes an idle end, if there is one.
    fn take_idle(&mut self) -> Option<u64>
        ensures { MatchOption result (NoneIsIdle self.old × (self.new ≡ self.old))
            (λ k. Takes k self.old self.new × SameCallers self.old self.new) }
    {
        let number = self.first_idle()?;
        self.idle[(number / 64) as usize] &= !(1 << (number % 64));
        Some(number)
    }

    /// Whether this is one of the ends, and not idle.
    fn is_lent(&self, number: u64) -> bool
        ensures { MatchBool result (IsLent self.now number) (¬ IsLent self.now number) }
    {
        number < self.count
            && number < LARGE_SEATS
            && (self.idle[(number / 64) as usize] >> (number % 64)) & 1 == 0
    }

    /// Whether a waiting caller is to be woken: an end is idle or all are worn, and no wake-up is under way.
    fn wakes(&mut self) -> bool
        ensures same { self.new ≡ record self.old { woken = self.new.woken } }
        ensures wakes { WakesIfDue result self.old.woken self.new }
        ensures law { NobodyWaitsInVain self.new }
    {
        if self.waiting == 0 || self.woken != 0 {
            return false;
        }
        if self.worn >= self.count || self.first_idle().is_some() {
            self.woken = 1;
            return true;
        }
        false
    }

    /// Asks for an end. If none is idle and the caller may wait, it is counted as waiting.
    pub fn borrow(&mut self, may_wait: bool) -> BorrowOutcome
        ensures loan { Borrows may_wait result self.old self.new }
        ensures law { NobodyWaitsInVain self.old → NobodyWaitsInVain self.new }
    {
        if let Some(number) = self.take_idle() {
            return BorrowOutcome::Lent(number);
        }
        if self.worn >= self.count {
            return BorrowOutcome::Worn;
        }
        if !may_wait {
            return BorrowOutcome::GivenUp;
        }
        self.waiting = self.waiting.saturating_add(1);
        BorrowOutcome::Waits
    }

    /// Looks again for an end, by a caller that waits and was parked. If it is in time, it may park again. The second part says whether
    /// another caller is to be woken.
    pub fn look_again(&mut self, in_time: bool) -> (BorrowOutcome, bool)
        ensures loan { LooksAgain in_time result.0 result.1 self.old self.new }
        ensures law { NobodyWaitsInVain self.new }
    {
        self.woken = 0;
        if let Some(number) = self.take_idle() {
            self.waiting = self.waiting.saturating_sub(1);
            return (BorrowOutcome::Lent(number), self.wakes());
        }
        if self.worn >= self.count {
            self.waiting = self.waiting.saturating_sub(1);
            return (BorrowOutcome::Worn, self.wakes());
        }
        if in_time {
            return (BorrowOutcome::Waits, false);
        }
        self.waiting = self.waiting.saturating_sub(1);
        (BorrowOutcome::GivenUp, false)
    }

    /// Gives back a lent end. `None` if it is not lent. Else whether a waiting caller is to be woken.
    pub fn give_back(&mut self, number: u64) -> Option<bool>
        ensures back { GivesBack number result self.old self.new }
        ensures law { NobodyWaitsInVain self.old → NobodyWaitsInVain self.new }
    {
        if !self.is_lent(number) {
            return None;
        }
        self.idle[(number / 64) as usize] |= 1 << (number % 64);
        Some(self.wakes())
    }

    /// Counts a lent end as worn, which nobody borrows again. `None` if it is not lent. Else whether a waiting caller is to be woken.
    pub fn retire(&mut self, number: u64) -> Option<bool>
        ensures retires { RetiresLent number result self.old self.new }
        ensures law { NobodyWaitsInVain self.old → NobodyWaitsInVain self.new }
    {
        if !self.is_lent(number) {
            return None;
        }
        self.worn = self.worn.saturating_add(1);
        Some(self.wakes())
    }

    /// Whether each end is idle or worn, and nobody waits.
    pub fn is_at_rest(&self) -> bool
        ensures { IsTrue result ↔ IsAtRest self.now }
    {
        if self.count > LARGE_SEATS || self.waiting != 0 || self.worn > self.count {
            return false;
        }
        let mut idle = 0;
        for number in 0..self.count {
            idle += (self.idle[(number / 64) as usize] >> (number % 64)) & 1;
        }
        idle == self.count - self.worn
    }
}
