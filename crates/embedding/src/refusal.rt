//! Why a session does not begin, or a query is not answered.
use chr_read::ReadError;
use chr_rules::RuleError;
use thiserror::Error;

/// Why a text is refused, or a question is. It is displayed as `chr` says it.
#[derive(Clone, Copy, PartialEq, Eq, Debug, Drop, Error)]
pub enum Refusal {
    /// The text of the program is not read.
    #[error("program {0}")]
    Program(ReadError),
    /// There is a mistake in the program.
    #[error("program {0}")]
    Rules(RuleError),
    /// The text of the query is not read.
    #[error("query {0}")]
    Query(ReadError),
    /// There is a mistake in the query.
    #[error("query line {}: {}", .0.line, .0.kind)]
    Goals(RuleError),
    /// The budget is above 1,000,000.
    #[error("BudgetTooLarge")]
    BudgetTooLarge,
    /// A growth was refused to the run.
    #[error("Memory")]
    Memory,
}
