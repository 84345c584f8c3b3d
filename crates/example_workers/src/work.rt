//! What is in the queue.

ghost use Rattle.std.specs.Prelude.{◌≡◌};
ghost use Rattle.example_workers.specs.Leap.{is_leap};

/// What a worker takes from the queue.
#[derive(Clone, Copy, Drop)]
pub enum Work {
    /// A job: the year is to be looked at.
    Year(u64),
    /// There are no more jobs for this worker.
    Stop,
}

/// Whether the year is a leap year.
pub fn is_leap(year: u64) -> bool
    ensures { result ≡ is_leap year }
{
    year % 4 == 0 && (year % 100 != 0 || year % 400 == 0)
}
