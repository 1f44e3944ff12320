//! Why a call is refused, as C sees it.
ghost use Rattle.std.specs.Prelude.{◌≡◌};
ghost use Rattle.cordspar.specs.Problems.{problem_of, read_kind, read_problem, rule_kind, rule_problem};

use crate::put::put;
use chr_read::{ReadError, ReadErrorKind};
use chr_rules::{RuleError, RuleErrorKind};
use embedding::Refusal;
use std::alloc::{AllocError, Global};

/// Why a call is refused: `cordspar_error` of the header.
#[repr(C)]
#[derive(Clone, Copy, Drop)]
pub struct Problem {
    pub line: u64,
    pub column: u64,
    pub rule: u64,
    /// 0 the call, 1 the program, 2 the query.
    pub source: u32,
    pub kind: u32,
}

/// Memory was refused to a call.
pub(crate) const MEMORY: Problem = Problem {
    line: 0,
    column: 0,
    rule: 0,
    source: 0,
    kind: 8,
};

/// The handle of a run stands where one of a program should.
pub(crate) const NO_PROGRAM: Problem = Problem { kind: 22, ..MEMORY };

/// The number of what is wrong with how a text is spelled.
fn read_kind(kind: ReadErrorKind) -> u32
    ensures { result ≡ read_kind kind }
{
    match kind {
        ReadErrorKind::NotUtf8 => 1,
        ReadErrorKind::TooLong => 2,
        ReadErrorKind::BadChar => 3,
        ReadErrorKind::UnclosedComment => 4,
        ReadErrorKind::NumberTooLarge => 5,
        ReadErrorKind::Expected => 6,
        ReadErrorKind::TooDeep => 7,
        ReadErrorKind::Memory => 8,
    }
}

/// The number of what is wrong with what a text says.
fn rule_kind(kind: RuleErrorKind) -> u32
    ensures { result ≡ rule_kind kind }
{
    match kind {
        RuleErrorKind::Memory => 8,
        RuleErrorKind::Undeclared => 9,
        RuleErrorKind::BuiltinInHead => 10,
        RuleErrorKind::NotAGoal => 11,
        RuleErrorKind::NotATest => 12,
        RuleErrorKind::GuardVariable => 13,
        RuleErrorKind::GuardOnly => 14,
        RuleErrorKind::DuplicateName => 15,
        RuleErrorKind::TooManyHeads => 16,
        RuleErrorKind::ArityTooLarge => 17,
        RuleErrorKind::TooManyRules => 18,
        RuleErrorKind::BackslashInPropagation => 19,
        RuleErrorKind::TooManyVariables => 20,
    }
}

/// How a text is spelled wrongly.
fn read_problem(source: u32, error: ReadError) -> Problem
    ensures { result ≡ read_problem source error }
{
    Problem {
        line: error.line,
        column: error.column,
        rule: 0,
        source,
        kind: read_kind(error.kind),
    }
}

/// What a text says wrongly.
fn rule_problem(source: u32, error: RuleError) -> Problem
    ensures { result ≡ rule_problem source error }
{
    Problem {
        line: error.line,
        column: 0,
        rule: error.rule as u64,
        source,
        kind: rule_kind(error.kind),
    }
}

/// What is refused, and where.
pub(crate) fn problem_of(refusal: Refusal) -> Problem
    ensures { result ≡ problem_of refusal }
{
    match refusal {
        Refusal::Program(error) => read_problem(1, error),
        Refusal::Rules(error) => rule_problem(1, error),
        Refusal::Query(error) => read_problem(2, error),
        Refusal::Goals(error) => rule_problem(2, error),
        Refusal::BudgetTooLarge => Problem { kind: 21, ..MEMORY },
        Refusal::Memory => MEMORY,
    }
}

/// What is wrong with how a text is spelled, by its number.
fn read_error_kind(kind: u32) -> Option<ReadErrorKind> {
    Some(match kind {
        1 => ReadErrorKind::NotUtf8,
        2 => ReadErrorKind::TooLong,
        3 => ReadErrorKind::BadChar,
        4 => ReadErrorKind::UnclosedComment,
        5 => ReadErrorKind::NumberTooLarge,
        6 => ReadErrorKind::Expected,
        7 => ReadErrorKind::TooDeep,
        8 => ReadErrorKind::Memory,
        _ => return None,
    })
}

/// What is wrong with what a text says, by its number.
fn rule_error_kind(kind: u32) -> Option<RuleErrorKind> {
    Some(match kind {
        9 => RuleErrorKind::Undeclared,
        10 => RuleErrorKind::BuiltinInHead,
        11 => RuleErrorKind::NotAGoal,
        12 => RuleErrorKind::NotATest,
        13 => RuleErrorKind::GuardVariable,
        14 => RuleErrorKind::GuardOnly,
        15 => RuleErrorKind::DuplicateName,
        16 => RuleErrorKind::TooManyHeads,
        17 => RuleErrorKind::ArityTooLarge,
        18 => RuleErrorKind::TooManyRules,
        19 => RuleErrorKind::BackslashInPropagation,
        20 => RuleErrorKind::TooManyVariables,
        _ => return None,
    })
}

impl Problem {
    /// The refusal that it stands for, where it is one.
    fn refusal(&self) -> Option<Refusal> {
        if let Some(kind) = read_error_kind(self.kind) {
            let error = ReadError {
                kind,
                line: self.line,
                column: self.column,
            };
            return match self.source {
                0 => Some(Refusal::Memory),
                1 => Some(Refusal::Program(error)),
                _ => Some(Refusal::Query(error)),
            };
        }
        let Some(kind) = rule_error_kind(self.kind) else {
            return if self.kind == 21 {
                Some(Refusal::BudgetTooLarge)
            } else {
                None
            };
        };
        let error = RuleError {
            kind,
            line: self.line,
            rule: self.rule as usize,
        };
        match self.source {
            1 => Some(Refusal::Rules(error)),
            _ => Some(Refusal::Goals(error)),
        }
    }

    /// What `chr` says of it.
    fn said(&self, alloc: Global) -> Result<String, AllocError> {
        match self.refusal() {
            Some(refusal) => format!(in alloc; "{refusal}"),
            None => format!(in alloc; "the handle is on no program"),
        }
    }
}

/// What `chr` says of a problem; `Memory` where there is none to say it.
#[unsafe(no_mangle)]
pub extern "C" fn cordspar_error_text(alloc: Global, error: &Problem, buffer: &mut [u8]) -> usize {
    match error.said(alloc) {
        Ok(text) => put(text.as_bytes(), buffer),
        Err(_) => put(b"Memory", buffer),
    }
}
