//! What tests assert, in functions: an assertion that is written out costs as much to prove as several calls.

use fak_queue::Rest;
use std::fmt::Debug;
use std::process::Abort;

/// Fails if something else was found than is wanted.
pub(crate) fn assert_equal<T: PartialEq + Debug + Drop>(rt: &impl Abort, found: T, wanted: T) {
    assert_eq!(rt; found, wanted);
}

/// Fails if this does not hold of the case.
pub(crate) fn assert_case(rt: &impl Abort, case: &impl Debug, holds: bool) {
    assert!(rt; holds, "{case:?}");
}

/// Fails if the value is written otherwise.
pub(crate) fn assert_written(rt: &(impl Abort + AllocGlobal), value: &impl Debug, text: &str) {
    let written = format!(in rt.alloc(); "{value:?}").expect(rt, "memory");
    assert_equal(rt, written.as_str(), text);
}

/// Fails if other items are left than these.
pub(crate) fn assert_left(rt: &impl Abort, mut rest: Rest<u64>, items: &[u64]) {
    for item in items {
        assert_equal(rt, rest.next(), Some(*item));
    }
    assert_equal(rt, rest.next(), None);
}
