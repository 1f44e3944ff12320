//! What a test goes by. Each is a call, and so proved once; `?` and the macros are proved anew at each place.
ghost use Rattle.std.specs.Prelude.{◌≡◌, true};

use std::fmt::Debug;
use std::process::Abort;

/// Ends the test unless it is so.
pub fn holds(rt: &impl Abort, is_so: bool)
    ensures { is_so ≡ true }
{
    assert!(rt; is_so);
}

/// Ends the test unless the value is the wanted one.
pub fn equal<T: Copy + PartialEq + Debug>(rt: &impl Abort, value: T, wanted: T) {
    assert_eq!(rt; value, wanted);
}

/// What was made; ends the test where it was refused.
pub fn got<T, E: Debug + Drop>(rt: &impl Abort, made: Result<T, E>) -> T {
    match made {
        Ok(value) => value,
        Err(error) => panic!(rt; "refused: {error:?}"),
    }
}
