//! What tests assert, in functions: an assertion that is written out costs as much to prove as several calls.

use std::fmt::Debug;
use std::process::Abort;

/// Fails if something else was found than is wanted.
pub(crate) fn assert_equal<T: PartialEq + Debug + Drop>(rt: &impl Abort, found: T, wanted: T) {
    assert_eq!(rt; found, wanted);
}
