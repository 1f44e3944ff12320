//! What looks wrong in a program that is accepted.

/// Why a place of a program looks wrong.
#[derive(Clone, Copy, PartialEq, Eq, Debug, Drop)]
pub enum Doubt {
    /// A variable stands once in its rule, and does not begin with `_`.
    LoneVariable,
    /// A declared symbol stands in no head and no body, and not in the query.
    UnusedSymbol,
    /// No body makes a constraint for the head, and the query has none.
    UnmadeHead,
    /// All heads of the rule are passive, so it never fires.
    PassiveRule,
    /// Wherever the rule could fire, the one that begins in this line, from 1, takes constraints away first.
    TakenBefore(u64),
    /// The rule is against duplicates, and the one that begins in this line, from 1, looks for them first.
    LateDuplicates(u64),
    /// The rule removes the constraint, and makes the same again.
    MadeAgain,
    /// The constraint of a body has arithmetic in it, which nothing evaluates there.
    Unevaluated,
    /// The test is not entailed, whatever its variables stand for.
    HopelessTest,
}

/// A place of a program that looks wrong.
#[derive(Clone, Copy, PartialEq, Eq, Debug, Drop)]
pub struct Suspicion {
    /// Why.
    pub doubt: Doubt,
    /// The number of characters before the token that it stands at.
    pub begin: usize,
    /// The number of that token's characters.
    pub width: usize,
}
