//! Semaphores.

use crate::semaphores::down_counted;
use fak_sem::{SemWorn, Semaphore};
use std::sync::Wait;

#[test]
fn downs_pass_or_park(rt: HostRuntime) {
    let (semaphore, mut seats) = Semaphore::<u64>::open(rt.alloc(), 1, 4, 1, 2).expect(&rt, "open");
    let mut a = seats.pop().expect(&rt, "one seat");
    assert!(rt; matches!(down_counted(&rt, &semaphore, &mut a, 7), Ok(Some(7))));
    assert!(rt; matches!(down_counted(&rt, &semaphore, &mut a, 8), Ok(None)));
    assert!(rt; matches!(down_counted(&rt, &semaphore, &mut a, 9), Err(SemWorn(9))));
}
