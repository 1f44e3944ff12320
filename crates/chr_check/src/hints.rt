//! What was meant, perhaps: habits of Prolog and of other CHR systems.

use crate::expecting::Language;
use crate::items::arrow_of;
use crate::spots::Spot;
use crate::symbols::{Symbol, is_word};
use chr_tokens::{Additive, Fault, Relation, Sign, Token};

/// What was meant, perhaps, and what stands for it here.
#[derive(Clone, Copy, PartialEq, Eq, Debug, Drop)]
pub enum Hint {
    /// `==`
    Identity,
    /// `\==`
    Difference,
    /// `->`, `;`
    Alternatives,
    /// `!`
    Cut,
    /// `\+`
    Negation,
    /// A quoted name, or a string.
    Quotes,
    /// A `.` that is neither END nor a part of a number.
    Point,
    /// `-` before what is no number.
    Minus,
    /// A rule that begins where END is missing.
    MissingEnd,
    /// `:-` behind a head.
    Clause,
    /// Another directive.
    Directive,
    /// Modes and types in a declaration.
    Modes,
    /// `pragma`
    Pragma,
    /// `is` in a guard.
    Evaluation,
    /// `var`, `nonvar` and their like.
    TypeTest,
    /// A goal of Prolog.
    HostGoal,
}

impl Hint {
    /// What it says.
    pub fn word(self) -> &'static str {
        match self {
            Hint::Identity => "X = Y in a guard asks whether both are the same, and binds nothing",
            Hint::Difference => "X \\= Y in a guard asks whether no binding makes both the same",
            Hint::Alternatives =>
                "each case is a rule of its own: there is no if-then-else, and no `;`",
            Hint::Cut => "there is no cut: a rule that fires is never taken back",
            Hint::Negation => "there is no negation: a rule above this one takes the case away",
            Hint::Quotes => "names are not quoted, and there are no strings",
            Hint::Point => "END is a `.` with white space behind it; numbers are whole",
            Hint::Minus => "`-` stands before digits or between two expressions: write 0-X",
            Hint::MissingEnd => "the rule before ends with `.`",
            Hint::Clause => "there are no clauses of Prolog: a rule has `<=>` or `==>`",
            Hint::Directive =>
                "the directives are chr_constraint, module and use_module(library(chr))",
            Hint::Modes => "a declaration is NAME/ARITY",
            Hint::Pragma => "a head that starts no search is written with `# passive` behind it",
            Hint::Evaluation => "a guard compares: X =:= E; a body evaluates: X is E",
            Hint::TypeTest => "the tests of a guard are integer(X), ground(X) and comparisons",
            Hint::HostGoal => "there are no goals of Prolog: the text of the run is the output",
        }
    }
}

/// Whether a name is one of some words.
fn is_one_of(name: &[char], words: &[&str]) -> bool {
    for word in words {
        if is_word(name, *word) {
            return true;
        }
    }
    false
}

/// What may have been meant by a goal that is not declared.
pub(crate) fn hint_of_goal(symbol: Symbol<'_>) -> Option<Hint> {
    let goals = [
        "write", "writeln", "print", "format", "nl", "findall", "forall", "member", "append",
        "length", "assert", "retract", "call", "once", "atom", "atomic", "number", "var", "nonvar",
    ];
    if is_one_of(symbol.name, &goals) {
        Some(Hint::HostGoal)
    } else {
        None
    }
}

/// What may have been meant by a token that shows that an item of a guard is no test.
pub(crate) fn hint_of_test(token: Token<'_>) -> Option<Hint> {
    match token {
        Token::Relation(Relation::Is) => Some(Hint::Evaluation),
        Token::Name(name) => {
            let tests = [
                "var", "nonvar", "atom", "atomic", "number", "compound", "callable", "is_list",
                "float",
            ];
            if is_one_of(name, &tests) {
                Some(Hint::TypeTest)
            } else {
                None
            }
        }
        _ => None,
    }
}

/// What may have been meant by a character that begins no token.
fn hint_of_character(c: char) -> Option<Hint> {
    match c {
        ';' => Some(Hint::Alternatives),
        '!' => Some(Hint::Cut),
        '\'' | '"' | '`' => Some(Hint::Quotes),
        '.' => Some(Hint::Point),
        '?' => Some(Hint::Modes),
        _ => None,
    }
}

/// Whether an expression may end with a token.
fn ends_expression(token: Token<'_>) -> bool {
    match token {
        Token::Variable(_)
        | Token::Name(_)
        | Token::Number {
            signed: _,
            value: _,
        } => true,
        Token::Sign(Sign::Close | Sign::CloseList) => true,
        _ => false,
    }
}

/// A token at which a text stops to be one of the grammar, with those before it.
#[derive(Clone, Copy, Drop)]
pub(crate) struct Halt<'a> {
    /// The characters of the text.
    pub(crate) text: &'a [char],
    /// The tokens before it.
    pub(crate) before: &'a [Spot<'a>],
    /// The token.
    pub(crate) at: Spot<'a>,
}

impl Halt<'_> {
    /// The character that stands so many behind the first one of the token.
    fn character(self, further: usize) -> Option<char> {
        self.text
            .get(self.at.begin.saturating_add(further))
            .copied()
    }

    /// Whether the token is the first one of its line.
    fn begins_line(self) -> bool {
        let (before, _) = self
            .text
            .split_at_checked(self.at.begin)
            .unwrap_or((&[], &[]));
        for c in before.iter().rev() {
            if *c == '\n' {
                return true;
            }
            if !c.is_whitespace() {
                return false;
            }
        }
        true
    }

    /// Whether this token stands right behind the one before it, which the other is.
    fn follows(self, last: Spot<'_>) -> bool {
        last.begin.saturating_add(last.width) == self.at.begin
    }

    /// What may have been meant by two signs that stand together.
    fn hint_of_signs(self) -> Option<Hint> {
        let last = *self.before.last()?;
        if !self.follows(last) {
            return None;
        }
        match (last.token, self.at.token) {
            (Token::Relation(Relation::Same), Token::Relation(Relation::Same)) => Some(
                Hint::Identity,
            ),
            (Token::Relation(Relation::NotUnifiable), Token::Relation(Relation::Same)) => Some(
                Hint::Difference,
            ),
            (Token::Additive(Additive::Minus), Token::Relation(Relation::Greater)) => Some(
                Hint::Alternatives,
            ),
            _ => None,
        }
    }

    /// Whether the token before is a `-` that stands before an expression.
    fn is_behind_minus(self) -> bool {
        match self.before {
            [.., operand, minus] => minus.token == Token::Additive(Additive::Minus)
                && !ends_expression(operand.token),
            [minus] => minus.token == Token::Additive(Additive::Minus),
            [] => false,
        }
    }

    /// What may have been meant in a directive.
    fn hint_of_directive(self) -> Option<Hint> {
        match (self.before.last()?.token, self.at.token) {
            (Token::Name(_), Token::Sign(Sign::Open)) if self.is_in_declaration() => Some(
                Hint::Modes,
            ),
            (_, Token::Name(_)) => Some(Hint::Directive),
            _ => None,
        }
    }

    /// Whether the token stands in a declaration.
    fn is_in_declaration(self) -> bool {
        match self.before {
            [_, first, ..] => match first.token {
                Token::Name(name) => is_word(name, "chr_constraint"),
                _ => false,
            },
            _ => false,
        }
    }

    /// What may have been meant in a rule or a query.
    fn hint_of_rule(self, language: Language) -> Option<Hint> {
        let has_arrow = arrow_of(self.before).is_some();
        match self.at.token {
            Token::Sign(Sign::Backslash) if self.character(1) == Some('+') => Some(Hint::Negation),
            Token::Name(name) if is_word(name, "pragma") => Some(Hint::Pragma),
            Token::Sign(Sign::Declares) if !has_arrow => Some(Hint::Clause),
            Token::Sign(Sign::Stop) if !has_arrow && language == Language::Program => Some(
                Hint::Clause,
            ),
            Token::Sign(Sign::Label | Sign::Simplifies | Sign::Propagates) if has_arrow => Some(
                Hint::MissingEnd,
            ),
            Token::Name(_) | Token::Variable(_) | Token::Sign(Sign::Declares) => {
                let last = self.before.last()?;
                if ends_expression(last.token) && self.begins_line() {
                    Some(Hint::MissingEnd)
                } else {
                    None
                }
            }
            _ => None,
        }
    }

    /// What may have been meant, in a text of the language.
    pub(crate) fn hint(self, language: Language) -> Option<Hint> {
        if self.at.token == Token::Fault(Fault::BadCharacter) {
            return hint_of_character(self.character(0)?);
        }
        if self.is_behind_minus() {
            return Some(Hint::Minus);
        }
        let signs = self.hint_of_signs();
        if signs.is_some() {
            return signs;
        }
        match self.before {
            [first, ..] if first.token == Token::Sign(Sign::Declares) => self.hint_of_directive(),
            _ => self.hint_of_rule(language),
        }
    }
}
