//! Numbers as digits.
ghost use Rattle.std.specs.Prelude.{◌≡◌, ◌*◌, ◌+◌, ◌-◌, ◌≤◌, SomeIff};
ghost use Rattle.std.specs.Char.{is_ascii_digit};
ghost use Rattle.std.specs.List.{list_all};
ghost use Rattle.chr_semantics.specs.ScheduleText.{are_digits};
ghost use Rattle.chr_semantics.specs.declared.limits.TheConstants.{MAX_SCHEDULE_NUMBER};
ghost use Rattle.chr_schedule.specs.Numbers.{number_of, value_of};

/// Whether these are digits, one at least.
pub fn are_digits(word: &[u8]) -> bool
    ensures { result ≡ are_digits word.now }
{
    !word.is_empty() && all_digits(word)
}

/// Whether nothing but digits is there.
fn all_digits(word: &[u8]) -> bool
    ensures { result ≡ list_all is_ascii_digit word.now }
{
    word.iter().all(|byte| byte.is_ascii_digit())
}

/// The number that digits are. They are none where a zero leads several, or the value is above `MAX_SCHEDULE_NUMBER`.
pub fn number_of(digits: &[u8]) -> Option<u32>
    ensures { result ≡ number_of digits.now }
{
    match digits {
        [b'0', _, ..] => None,
        _ => value_of(digits),
    }
}

/// The value of digits, unless it is above `MAX_SCHEDULE_NUMBER`, the greatest `u32`.
fn value_of(digits: &[u8]) -> Option<u32>
    ensures { result ≡ value_of digits.now }
{
    let mut value = 0u32;
    for digit in digits {
        value = with_digit(value, *digit)?;
    }
    Some(value)
}

/// The value with a further digit, unless that is above `MAX_SCHEDULE_NUMBER`.
fn with_digit(value: u32, digit: u8) -> Option<u32>
    ensures { SomeIff result (value * 10 + (digit - 48) ≤ MAX_SCHEDULE_NUMBER)
        (value * 10 + (digit - 48)) }
{
    value
        .checked_mul(10)?
        .checked_add(u32::from(digit.saturating_sub(b'0')))
}
