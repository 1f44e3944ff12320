//! Why a program or a query is not accepted, and where.
ghost use Rattle.std.specs.Prelude.{◌≡◌};
ghost use Rattle.chr_rules.specs.declared.error.RuleErrorKind.TheVariants.{Memory as OutOfMemory};

use std::alloc::{AllocError, AllocFailed};
use thiserror::Error;

/// What is wrong with a declaration, a rule or a query. Of several the first in this list is answered. It is displayed as its name.
#[derive(Clone, Copy, PartialEq, Eq, Debug, Drop, Error)]
#[error("{}", self.word())]
pub enum RuleErrorKind {
    /// A head or a goal is a name that is neither built in nor declared.
    Undeclared,
    /// A head or a declared symbol is built in.
    BuiltinInHead,
    /// A head or a goal is a variable, a number, a list or an arithmetic expression.
    NotAGoal,
    /// An item of a guard is no test.
    NotATest,
    /// A variable of a guard is in no head.
    GuardVariable,
    /// A test that only a guard may have stands in a body or a query.
    GuardOnly,
    /// An earlier rule has the name.
    DuplicateName,
    /// A rule has more than `MAX_HEADS` heads.
    TooManyHeads,
    /// A name is declared or stands with more than `MAX_ARITY` arguments.
    ArityTooLarge,
    /// There are `MAX_RULES` rules before this one.
    TooManyRules,
    /// A rule has `\` and `==>`.
    BackslashInPropagation,
    /// A rule has more than `MAX_RULE_VARIABLES` variables, each `_` counted.
    TooManyVariables,
    /// Memory was refused.
    Memory,
}

impl RuleErrorKind {
    ghost use Rattle.std.specs.Prelude.{◌≡◌};
    ghost use Rattle.chr_rules.specs.ErrorText.{rule_error_kind_text};

    /// Its name.
    pub fn word(self) -> &'static str
        ensures { result.now ≡ rule_error_kind_text self }
    {
        match self {
            RuleErrorKind::Undeclared => "Undeclared",
            RuleErrorKind::BuiltinInHead => "BuiltinInHead",
            RuleErrorKind::NotAGoal => "NotAGoal",
            RuleErrorKind::NotATest => "NotATest",
            RuleErrorKind::GuardVariable => "GuardVariable",
            RuleErrorKind::GuardOnly => "GuardOnly",
            RuleErrorKind::DuplicateName => "DuplicateName",
            RuleErrorKind::TooManyHeads => "TooManyHeads",
            RuleErrorKind::ArityTooLarge => "ArityTooLarge",
            RuleErrorKind::TooManyRules => "TooManyRules",
            RuleErrorKind::BackslashInPropagation => "BackslashInPropagation",
            RuleErrorKind::TooManyVariables => "TooManyVariables",
            RuleErrorKind::Memory => "Memory",
        }
    }
}

impl From<AllocError> for RuleErrorKind {
    ghost from_gives = { λ _ e. e ≡ OutOfMemory };

    fn from(_error: AllocError) -> Self {
        RuleErrorKind::Memory
    }
}

impl<T: Drop> From<AllocFailed<T>> for RuleErrorKind {
    ghost from_gives = { λ _ e. e ≡ OutOfMemory };

    fn from(_error: AllocFailed<T>) -> Self {
        RuleErrorKind::Memory
    }
}

/// A program or a query is not accepted: what is wrong first, and where. It is displayed as `line LINE rule K: KIND`.
#[derive(Clone, Copy, PartialEq, Eq, Debug, Drop, Error)]
#[error("line {line} rule {rule}: {kind}")]
pub struct RuleError {
    /// What is wrong.
    pub kind: RuleErrorKind,
    /// The line, from 1, where the declarations, the rule or the query begins; 0 for `Memory`.
    pub line: u64,
    /// The number of the rule, from 1; 0 where it is in none.
    pub rule: usize,
}

impl From<AllocError> for RuleError {
    ghost from_gives = { λ _ e. e ≡ record { kind = OutOfMemory; line = 0; rule = 0 } };

    fn from(_error: AllocError) -> Self {
        RuleError {
            kind: RuleErrorKind::Memory,
            line: 0,
            rule: 0,
        }
    }
}

impl<T: Drop> From<AllocFailed<T>> for RuleError {
    ghost from_gives = { λ _ e. e ≡ record { kind = OutOfMemory; line = 0; rule = 0 } };

    fn from(_error: AllocFailed<T>) -> Self {
        RuleError {
            kind: RuleErrorKind::Memory,
            line: 0,
            rule: 0,
        }
    }
}
