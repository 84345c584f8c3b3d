//! Tests of counts that words keep.

use super::assertions::assert_equal;
use fak_model::{BIAS, count_of};

#[test]
fn counts_below_0_are_kept_too(rt: HostRuntime) {
    assert_equal(&rt, count_of(BIAS + 5), 5);
    assert_equal(&rt, count_of(BIAS - 1), -1);
}
