//! Texts in parts.
ghost use Rattle.std.specs.Prelude.{◌≡◌, ◌==◌, ◌∷◌, ◌+◌, [], IfSome, MatchOption, length, position};
ghost use Rattle.chr_schedule.specs.Parts.{parts};

/// What stands before the first separator, and what after it. Nothing where there is none.
pub fn split_once(text: &[u8], separator: u8) -> Option<(&[u8], &[u8])>
    ensures parts { MatchOption result (parts separator text.now ≡ text.now ∷ [])
        (λ cut. parts separator text.now ≡ cut.0.now ∷ parts separator cut.1.now) }
    ensures len { IfSome result (λ cut. length cut.0.now + length cut.1.now + 1 ≡ length text.now) }
{
    let at = place_of(separator, text)?;
    Some((&text[..at], &text[at + 1..]))
}

/// Where the first separator stands.
fn place_of(separator: u8, text: &[u8]) -> Option<usize>
    ensures { result ≡ position (λ b. b == separator) text.now }
{
    text.iter().position(|byte| *byte == separator)
}
