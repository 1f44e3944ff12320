//! How far a run may go, how many workers it may have, and in what portions its text goes out.
ghost use Rattle.std.specs.Prelude.{◌≡◌, None, IfErr, IfOk};
ghost use Rattle.chr_semantics.specs.Outcome.{run_refusal};
ghost use Rattle.chr_run.specs.Headline.{PastLimits};

use crate::error::RunError;
use chr_semantics::limits::{MAX_TRANSITIONS, MAX_WORKERS};

/// How many bytes of lines wait before they go out: each line goes out by itself, or some are written by one call.
#[derive(Clone, Copy, Drop)]
pub(crate) enum Portion {
    Line,
    Block,
}

impl Portion {
    /// The bytes of a portion.
    pub(crate) fn bytes(self) -> usize {
        match self {
            Portion::Line => 1,
            Portion::Block => 0x2000,
        }
    }
}

/// A budget of transitions and a number of workers, which a run may have.
#[derive(Drop)]
pub(crate) struct Limits {
    pub(crate) budget: u64,
    pub(crate) workers: u32,
    pub(crate) portion: Portion,
    ghost allowed: { run_refusal budget workers ≡ None },
}

impl Limits {
    /// These, or why a run may not have them.
    pub(crate) fn new(budget: u64, workers: u32, portion: Portion) -> Result<Limits, RunError>
        ensures ok { IfOk result
            (λ limits. (limits.budget ≡ budget) × (limits.workers ≡ workers)) }
        ensures err { IfErr result (PastLimits budget workers) }
    {
        if budget > MAX_TRANSITIONS {
            return Err(RunError::BudgetTooLarge);
        }
        if workers > MAX_WORKERS {
            return Err(RunError::TooManyWorkers);
        }
        Ok(Limits {
            budget,
            workers,
            portion,
        })
    }
}
