//! Tests of sets of seats' names.

use super::assertions::assert_equal;
use fak_model::NameSet;
use std::test::*;

#[test]
fn names_put_in_are_there(rt: HostRuntime) -> Result<(), Fail> {
    let mut set = NameSet::of(1);
    assert_equal(&rt, set.has_all(0), true);
    assert_equal(&rt, set.has_all(2), false);
    set.insert(0);
    assert_equal(&rt, set.has_all(2), true);
    assert_equal(&rt, set.has_all(64), false);
    Ok(())
}
