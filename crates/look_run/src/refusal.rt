//! Why there is no answer.

use chr_read::{ReadError, ReadErrorKind};
use chr_rules::{RuleError, RuleErrorKind};
use std::alloc::{AllocError, AllocFailed};
use thiserror::Error;

/// Why there is no answer. It is displayed as what is said then.
#[derive(Clone, Copy, Debug, Drop, Error)]
pub(crate) enum Refusal {
    /// The file of the program cannot be read.
    #[error("cannot read the program")]
    Unreadable,
    /// The program or the query has mistakes, which are told where they stand.
    #[error("the texts have mistakes")]
    Mistaken,
    /// The budget is above the limit of transitions.
    #[error("BudgetTooLarge")]
    BudgetTooLarge,
    /// No constraint of the run has this identity.
    #[error("the run has no constraint {0}")]
    UnknownConstraint(u64),
    /// The program has no such rule.
    #[error("the program has no such rule")]
    UnknownRule,
    /// The run has fewer transitions.
    #[error("the run has {0} transitions")]
    UnknownTransition(u64),
    /// The rule has another number of heads.
    #[error("the rule has {0} heads")]
    WrongNumber(usize),
    /// The answer cannot be written.
    #[error("cannot write")]
    Write,
    /// Memory was refused.
    #[error("Memory")]
    Memory,
}

impl From<AllocError> for Refusal {
    fn from(_: AllocError) -> Refusal {
        Refusal::Memory
    }
}

impl<T: Drop> From<AllocFailed<T>> for Refusal {
    fn from(_: AllocFailed<T>) -> Refusal {
        Refusal::Memory
    }
}

impl From<ReadError> for Refusal {
    fn from(error: ReadError) -> Refusal {
        match error.kind {
            ReadErrorKind::Memory => Refusal::Memory,
            _ => Refusal::Mistaken,
        }
    }
}

impl From<RuleError> for Refusal {
    fn from(error: RuleError) -> Refusal {
        match error.kind {
            RuleErrorKind::Memory => Refusal::Memory,
            _ => Refusal::Mistaken,
        }
    }
}
