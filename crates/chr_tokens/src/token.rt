//! The tokens.

/// `+` or `-`.
#[derive(Clone, Copy, PartialEq, Eq, Debug, Drop)]
pub enum Additive {
    /// `+`
    Plus,
    /// `-`
    Minus,
}

/// `*`, `//` or `mod`.
#[derive(Clone, Copy, PartialEq, Eq, Debug, Drop)]
pub enum Multiplicative {
    /// `*`
    Times,
    /// `//`
    Divide,
    /// `mod`
    Modulo,
}

/// What may stand between two expressions.
#[derive(Clone, Copy, PartialEq, Eq, Debug, Drop)]
pub enum Relation {
    /// `=`
    Same,
    /// `\=`
    NotUnifiable,
    /// `<`
    Less,
    /// `>`
    Greater,
    /// `=<`
    AtMost,
    /// `>=`
    AtLeast,
    /// `=:=`
    Equals,
    /// `=\=`
    Differs,
    /// `is`
    Is,
}

/// A sign that is no operator.
#[derive(Clone, Copy, PartialEq, Eq, Debug, Drop)]
pub enum Sign {
    /// `(`
    Open,
    /// `)`
    Close,
    /// `[`
    OpenList,
    /// `]`
    CloseList,
    /// `,`
    Comma,
    /// `|`
    Bar,
    /// `@`
    Label,
    /// `\`
    Backslash,
    /// `#`
    Hash,
    /// `<=>`
    Simplifies,
    /// `==>`
    Propagates,
    /// `:-`
    Declares,
    /// `/`
    Slash,
    /// END: `.` before white space, `%` or the end of the text
    Stop,
}

/// Why no further token is read.
#[derive(Clone, Copy, PartialEq, Eq, Debug, Drop)]
pub enum Fault {
    /// The character begins no token.
    BadCharacter,
    /// Nothing closes the `/*`.
    UnclosedComment,
    /// The digits have a value above 2^127.
    TooLarge,
}

/// A token. A word is the part of the text that it stands in.
#[derive(Clone, Copy, PartialEq, Eq, Debug, Drop)]
pub enum Token<'a> {
    /// A VARIABLE, by its characters.
    Variable(&'a [char]),
    /// A NAME, by its characters.
    Name(&'a [char]),
    /// A NUMBER.
    Number {
        /// Whether a `-` stands right before it.
        signed: bool,
        /// The value of its digits, at most 2^127. The grammar allows that one only where `signed` is true.
        value: u128,
    },
    /// `+` or `-`.
    Additive(Additive),
    /// `*`, `//` or `mod`.
    Multiplicative(Multiplicative),
    /// `=`, `is` or another that may stand between two expressions.
    Relation(Relation),
    /// Another sign.
    Sign(Sign),
    /// What is no token. Nothing is read after it.
    Fault(Fault),
    /// The end of the text.
    Over,
}

/// Where a character stands, or where the end of the text is.
#[derive(Clone, Copy, PartialEq, Eq, Debug, Drop)]
pub struct Place {
    /// From 1. A line ends with a line feed.
    pub line: u64,
    /// From 1, in characters.
    pub column: u64,
}

/// A token and where it begins.
#[derive(Clone, Copy, PartialEq, Eq, Debug, Drop)]
pub struct Placed<'a> {
    /// The place of its first character.
    pub place: Place,
    /// The token.
    pub token: Token<'a>,
}
