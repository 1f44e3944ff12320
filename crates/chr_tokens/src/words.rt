//! The words.
ghost use Rattle.std.specs.Prelude.{◌≡◌};
ghost use Rattle.chr_semantics.specs.Tokens.{starts_word, word_token};
ghost use Rattle.chr_tokens.specs.TokenView.{token_view};

use crate::{Multiplicative, Relation, Token};

/// Whether a word begins so.
pub fn starts_word(c: char) -> bool
    ensures { result ≡ starts_word c }
{
    unicode_ident::is_xid_start(c) || c == '_'
}

/// The token that a word is.
pub fn word_token(word: &[char]) -> Token<'_>
    ensures { token_view result ≡ word_token word.now }
{
    match word {
        ['i', 's'] => Token::Relation(Relation::Is),
        ['m', 'o', 'd'] => Token::Multiplicative(Multiplicative::Modulo),
        [first, ..] => {
            if first.is_ascii_uppercase() || *first == '_' {
                Token::Variable(word)
            } else {
                Token::Name(word)
            }
        }
        [] => Token::Name(word),
    }
}
