// The assertions of all tests, as calls: each is proved here, once.
use std::fmt::{Debug, Display};
use std::process::Abort;

// Ends the test where this is not so.
pub(crate) fn expects(rt: &impl Abort, is_so: bool, what: &str) {
    assert!(rt; is_so, "{what}");
}

// The same, and says at which of many places.
pub(crate) fn expects_at<P: Display>(rt: &impl Abort, is_so: bool, what: &str, place: &P) {
    assert!(rt; is_so, "{what} {place}");
}

// Ends the test where something else was found than was expected, and prints both.
pub(crate) fn expects_equal<T: PartialEq + Debug>(
    rt: &impl Abort,
    found: &T,
    expected: &T,
    what: &str,
) {
    assert_eq!(rt; *found, *expected, "{what}");
}
