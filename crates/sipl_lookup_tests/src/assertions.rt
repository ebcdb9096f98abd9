//! The assertions of all tests, as calls. Each is proved here, once; a call of it takes little, also where
//! something is owned.

use std::fmt::{Debug, Display};
use std::process::Abort;

/// Ends the test where this is not so.
pub(crate) fn expects(rt: &impl Abort, is_so: bool, what: &str) {
    assert!(rt; is_so, "{what}");
}

/// Ends the test where this is not so, and says at which of many places.
pub(crate) fn expects_at<P: Display>(rt: &impl Abort, is_so: bool, what: &str, place: &P) {
    assert!(rt; is_so, "{what} {place}");
}

/// Ends the test where something else was found than was expected, and prints both.
pub(crate) fn expects_equal<T: PartialEq + Debug>(
    rt: &impl Abort,
    found: &T,
    expected: &T,
    what: &str,
) {
    assert_eq!(rt; *found, *expected, "{what}");
}

/// The same, and says at which of many places.
pub(crate) fn expects_equal_at<T: PartialEq + Debug, P: Display>(
    rt: &impl Abort,
    found: &T,
    expected: &T,
    place: &P,
) {
    assert_eq!(rt; *found, *expected, "at {place}");
}
