//! How far words, digits and comments go.
ghost use Rattle.std.specs.Prelude.{◌≡◌, ◌≤◌, ◌+◌, IfSome, MatchOption, false, true, codes, drop, length};
ghost use Rattle.std.specs.Char.{is_ascii_digit};
ghost use Rattle.unicode_ident.specs.Ident.{is_xid_continue};
ghost use Rattle.chr_semantics.specs.Tokens.{begins, comment_len, is_in_line, run_len};

/// How many characters go on with a word.
pub fn word_len(text: &[char]) -> usize
    ensures len { result ≡ run_len is_xid_continue text.now }
    ensures bound { result ≤ length text.now }
{
    let mut n = 0;
    for c in text {
        if !unicode_ident::is_xid_continue(*c) {
            break;
        }
        n += 1;
    }
    n
}

/// How many digits stand first.
pub fn digits_len(text: &[char]) -> usize
    ensures len { result ≡ run_len is_ascii_digit text.now }
    ensures bound { result ≤ length text.now }
{
    let mut n = 0;
    for c in text {
        if !c.is_ascii_digit() {
            break;
        }
        n += 1;
    }
    n
}

/// How many characters stand before the end of the line.
pub fn line_len(text: &[char]) -> usize
    ensures len { result ≡ run_len is_in_line text.now }
    ensures bound { result ≤ length text.now }
{
    let mut n = 0;
    for c in text {
        if *c == '\n' {
            break;
        }
        n += 1;
    }
    n
}

/// How long a comment is after its `/*`, with its `*/`.
pub fn comment_len(text: &[char]) -> Option<usize>
    ensures len { result ≡ comment_len text.now }
    ensures bound { IfSome result (λ n. n ≤ length text.now) }
{
    let mut star = false;
    for (i, c) in text.iter().enumerate() {
        if star && *c == '/' {
            return Some(i + 1);
        }
        star = *c == '*';
    }
    None
}

/// What stands after `/*`.
pub fn inside_comment(text: &[char]) -> Option<&[char]>
    ensures { MatchOption result (begins (codes "/*") text.now ≡ false)
        (λ inside. (begins (codes "/*") text.now ≡ true) × (inside.now ≡ drop 2 text.now)
        × (length inside.now + 2 ≡ length text.now)) }
{
    match text {
        ['/', '*', inside @ ..] => Some(inside),
        _ => None,
    }
}
