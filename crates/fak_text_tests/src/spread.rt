//! Numbers on either side of many others.

use std::alloc::AllocError;

const ROUND: &[u64] = &[100_000, 1_000_000, 1_000_000_000, u64::MAX];

/// Adds the numbers at and next to each power of two and each round number, and some of each length that look drawn.
pub(crate) fn add_spread(numbers: &mut Vec<u64>) -> Result<(), AllocError> {
    for place in 0..64u32 {
        add_about(numbers, 1u64 << place, 1)?;
    }
    for &n in ROUND {
        add_about(numbers, n, 1)?;
    }
    add_drawn(numbers)
}

/// Adds a number, and those that are up to this much less or more.
pub(crate) fn add_about(numbers: &mut Vec<u64>, number: u64, reach: u64) -> Result<(), AllocError> {
    for n in number.saturating_sub(reach)..=number.saturating_add(reach) {
        numbers.push(n)?;
    }
    Ok(())
}

/// Adds 2 numbers of each length in bits, always the same (xorshift with 13, 7 and 17).
fn add_drawn(numbers: &mut Vec<u64>) -> Result<(), AllocError> {
    let mut state = 88_172_645_463_325_252u64;
    for drawn in 0..128u32 {
        let a = state ^ (state << 13);
        let b = a ^ (a >> 7);
        state = b ^ (b << 17);
        numbers.push(state >> (drawn % 64))?;
    }
    Ok(())
}
