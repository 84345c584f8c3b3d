//! The assertions of tests, as functions: an assertion written out in a test costs as much to prove as several calls.

use std::fmt::Debug;
use std::process::Abort;

/// Stops if another value was found than is wanted.
pub(crate) fn assert_equal<T: PartialEq + Debug + Drop>(rt: &impl Abort, found: T, wanted: T) {
    assert_eq!(rt; found, wanted);
}
