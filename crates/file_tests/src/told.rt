//! An assertion as a call.
use std::process::Abort;

/// Ends the test if that isn't so. It is a call, since an assertion is one more way out of the body in which it stands,
/// and there all that the body owns is dropped.
pub fn require(rt: &impl Abort, is_so: bool, what: &str) {
    assert!(rt; is_so, "{what}");
}
