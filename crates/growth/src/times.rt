//! Parts of numbers and of times.
use std::time::Duration;

/// A number as a part of another one, in hundredths.
pub fn share(part: u64, whole: u64) -> u64 {
    match whole {
        0 => 0,
        whole => part.saturating_mul(100) / whole,
    }
}

/// A time as a part of another one, in hundredths.
pub fn percent(time: Duration, whole: Duration) -> u128 {
    match whole.as_micros() {
        0 => 0,
        micros => time.as_micros().saturating_mul(100) / micros,
    }
}
