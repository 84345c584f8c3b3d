//! The assertions of the tests, as functions: written out, an assertion costs as much to prove as several calls.

use std::fmt::{Debug, Display};
use std::process::Abort;

/// Stops if the value found is not the one wanted.
pub(crate) fn assert_equal<T: PartialEq + Debug + Drop>(rt: &impl Abort, found: T, wanted: T) {
    assert_eq!(rt; found, wanted);
}

/// Stops if this does not hold for the case.
pub(crate) fn assert_case(rt: &impl Abort, case: &impl Debug, holds: bool) {
    assert!(rt; holds, "{case:?}");
}

/// Stops if the value is not written as this text.
pub(crate) fn assert_written(rt: &(impl Abort + AllocGlobal), value: &impl Debug, text: &str) {
    let written = format!(in rt.alloc(); "{value:?}").expect(rt, "memory");
    assert_equal(rt, written.as_str(), text);
}

/// Stops if the value is not shown as this text.
pub(crate) fn assert_shown(rt: &(impl Abort + AllocGlobal), value: &impl Display, text: &str) {
    let written = format!(in rt.alloc(); "{value}").expect(rt, "memory");
    assert_equal(rt, written.as_str(), text);
}
