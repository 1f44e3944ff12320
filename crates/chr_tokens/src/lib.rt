//! From the bytes of a text to its tokens.
//!
//! A text is UTF-8 and at most `MAX_TEXT_BYTES` bytes ([`characters`]). Between tokens there may be white space, as
//! `char::is_whitespace` has it, and comments: from `%` to the end of the line or of the text, or from `/*` to the next
//! `*/`. Where a token may begin, `/*` always begins a comment.
//!
//! A word begins with an XID_Start character or `_` and goes on with XID_Continue characters, as long as possible. It is
//! a VARIABLE where it begins with an ASCII capital or `_`, and else a NAME, but `is` and `mod` are operators. A NUMBER
//! is a run of ASCII digits, as long as possible, of a value of at most 2^127. A sign is the longest one that fits. END
//! is a `.` before white space, `%` or the end of the text, and no other `.` is a token.
//!
//! [`tokens`] gives each token with its place. The last one is [`Token::Over`], the end of the text, or
//! [`Token::Fault`], after which nothing is read.
#![tactic(auto)]

mod digits;
mod pieces;
mod places;
mod reading;
mod runs;
mod signs;
mod text;
mod token;
mod words;

pub use reading::tokens;
pub use std::alloc::AllocError as Memory;
pub use text::{Unread, characters};
pub use token::{Additive, Fault, Multiplicative, Place, Placed, Relation, Sign, Token};
