//! Lines and columns.
ghost use Rattle.std.specs.Prelude.{◌≡◌, ◌+◌, ◌<◌, ◌≤◌, ◌^◌, drop, length, take};
ghost use Rattle.chr_semantics.specs.Tokens.{advance, after};
ghost use Rattle.chr_tokens.specs.TokenView.{place_view};

use crate::Place;

/// What is left after n characters of a text that begins at a place, and the place where that begins.
pub fn past(text: &[char], place: Place, n: usize) -> (&[char], Place)
    requires within { n ≤ length text.now }
    requires line { place.line + length text.now < 2 ^ 63 }
    requires column { place.column + length text.now < 2 ^ 63 }
    requires from_one { 1 ≤ place.column }
    ensures rest { result.0.now ≡ drop n text.now }
    ensures rest_len { length result.0.now + n ≡ length text.now }
    ensures place { place_view result.1 ≡ advance (place_view place) (take n text.now) }
    ensures line { result.1.line + length result.0.now ≤ place.line + length text.now }
    ensures column { result.1.column + length result.0.now ≤ place.column + length text.now }
    ensures from_one { 1 ≤ result.1.column }
{
    let (front, rest) = text.split_at(n);
    (rest, advance(place, front))
}

/// The place after characters that begin at a place.
fn advance(place: Place, text: &[char]) -> Place
    requires line { place.line + length text.now < 2 ^ 63 }
    requires column { place.column + length text.now < 2 ^ 63 }
    requires from_one { 1 ≤ place.column }
    ensures is { place_view result ≡ advance (place_view place) text.now }
    ensures line { result.line ≤ place.line + length text.now }
    ensures column { result.column ≤ place.column + length text.now }
    ensures from_one { 1 ≤ result.column }
{
    let mut place = place;
    for c in text {
        place = after(place, *c);
    }
    place
}

/// The place after a character.
fn after(place: Place, c: char) -> Place
    requires line { place.line < 2 ^ 63 }
    requires column { place.column < 2 ^ 63 }
    ensures { place_view result ≡ after (place_view place) c }
{
    if c == '\n' {
        Place {
            line: place.line + 1,
            column: 1,
        }
    } else {
        Place {
            line: place.line,
            column: place.column + 1,
        }
    }
}
