//! The values of numbers.
ghost use Rattle.std.specs.Prelude.{◌≡◌, ◌≤◌, ◌<◌, ◌+◌, ◌*◌, ◌^◌, MatchOption, min};
ghost use Rattle.chr_semantics.specs.Tokens.{digits_value};

/// The greatest magnitude of a number, 2^127.
const GREATEST: u128 = i128::MAX as u128 + 1;

/// The value of decimal digits, unless it is above 2^127.
pub fn number(digits: &[char]) -> Option<u128>
    ensures { MatchOption result (GREATEST < digits_value 0 digits.now)
        (λ n. (n ≡ digits_value 0 digits.now) × (n ≤ GREATEST)) }
{
    let value = capped_value(digits);
    if value <= GREATEST { Some(value) } else { None }
}

/// The value of digits, at most one more than 2^127.
#[tactic(auto, using(crate::proofs::Capped::capped_step))]
fn capped_value(digits: &[char]) -> u128
    ensures { result ≡ min (digits_value 0 digits.now) (GREATEST + 1) }
{
    let mut value = 0u128;
    for c in digits {
        value = with_digit(value, (*c as u128).saturating_sub(48));
    }
    value
}

/// The value with a further digit.
fn with_digit(value: u128, digit: u128) -> u128
    requires value { value ≤ GREATEST + 1 }
    requires digit { digit < 2 ^ 32 }
    ensures { result ≡ min (value * 10 + digit) (GREATEST + 1) }
{
    if value > GREATEST / 10 {
        GREATEST + 1
    } else {
        (value * 10 + digit).min(GREATEST + 1)
    }
}
