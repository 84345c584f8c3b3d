//! Pipelines.

use super::assertions::assert_equal;
use crate::pipelines::sum_of_squares;

#[test]
fn each_number_is_squared_once(rt: HostRuntime) {
    for (count, sum) in [(0, 0), (1, 0), (2, 1), (1000, 332_833_500)] {
        assert_equal(&rt, sum_of_squares(&rt, rt.alloc(), count), Some(sum));
    }
}
