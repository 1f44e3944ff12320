//! What a test goes by. Each is a call, and so proved once; `?` and the macros are proved anew at each place.
use std::fmt::Debug;
use std::process::Abort;

/// Ends the test unless the value is the wanted one.
pub fn equal<T: Copy + PartialEq + Debug>(rt: &impl Abort, value: T, wanted: T) {
    assert_eq!(rt; value, wanted);
}
