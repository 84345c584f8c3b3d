//! The credit of a semaphore, opened with its seats.

ghost use Rattle.std.specs.Prelude.{◌≡◌, MatchResult};
ghost use Rattle.fak_model.specs.Calls.{fresh_seats};
ghost use Rattle.fak_model.specs.Limits.{IsInLargeRange, IsLargeFault};
ghost use Rattle.fak_sem.specs.Opening.{AreLargeSizes, IsInRange, IsOpenFault};

use crate::fault::OpenFault;
use fak_count::{Credit, CreditSeat};
use fak_model::{LARGE_SIZE, LARGEST_SIZE, LargeFault};
use std::alloc::Global;

/// What the seats of a semaphore are opened with.
#[derive(Drop)]
pub(crate) struct SeatLimits {
    pub(crate) start: u64,
    pub(crate) seats: u64,
    pub(crate) stint: u64,
}

/// Opens the credit of a semaphore, with its seats.
pub(crate) fn opened_credit(
    alloc: Global,
    start: u64,
    size: u64,
    seats: u64,
    stint: u64,
) -> Result<(Credit, Vec<CreditSeat>), OpenFault>
    ensures { MatchResult result (λ r. IsInRange start size seats stint × (r.0.start ≡ start)
        × (r.0.object.seats ≡ seats)
        × (r.1.items ≡ fresh_seats r.0.object stint 0 seats)) (IsOpenFault start size seats stint) }
{
    if size == 0 || size > LARGEST_SIZE {
        return Err(OpenFault::BadSize);
    }
    match Credit::open(alloc, start, seats, stint) {
        Ok(opened) => Ok(opened),
        Err(fak_count::OpenFault::BadSize) => Err(OpenFault::BadSize),
        Err(fak_count::OpenFault::BadSeats) => Err(OpenFault::BadSeats),
        Err(fak_count::OpenFault::BadStint) => Err(OpenFault::BadStint),
        Err(fak_count::OpenFault::Memory) => Err(OpenFault::Memory),
    }
}

/// Opens the credit of a large semaphore, with its seats.
pub(crate) fn opened_large_credit(
    alloc: Global,
    start: u64,
    size: u64,
    seats: u64,
    stint: u64,
) -> Result<(Credit, Vec<CreditSeat>), LargeFault>
    ensures { MatchResult result (λ r. IsInLargeRange (AreLargeSizes start size) seats stint × (r.0.start ≡ start)
        × (r.0.object.seats ≡ seats)
        × (r.1.items ≡ fresh_seats r.0.object stint 0 seats)) (IsLargeFault (AreLargeSizes start size) seats stint) }
{
    if size == 0 || size > LARGE_SIZE {
        return Err(LargeFault::BadSize);
    }
    Credit::open_large(alloc, start, seats, stint)
}
