//! A run that was made, in texts.
ghost use Rattle.std.specs.Prelude.{◌≡◌, length, IfOk};
ghost use Rattle.chr_machine.specs.OutcomeView.{outcome_view};
ghost use Rattle.chr_rules.specs.ProgramView.{names_of, rules_of};
ghost use Rattle.chr_store.specs.StoreView.{store_view};
ghost use Rattle.cordspar.specs.Runs.{IsCounted, IsRunOf, IsShown, traced_outcome};

use crate::lined::Lined;
use chr_machine::{Lines, Outcome, Status};
use chr_rules::Program;
use chr_store::Store;
use chr_term::Memory;
use std::alloc::Global;

/// How many lines the parts of a run have, but for its bindings.
#[derive(Clone, Copy, Drop)]
pub(crate) struct Counts {
    trace: usize,
    stack: usize,
    store: usize,
    history: usize,
}

/// A run that was made: how it stands, and its text.
#[derive(Drop)]
pub struct Run {
    pub(crate) status: Status,
    pub(crate) steps: u64,
    lined: Lined,
    counts: Counts,
}

/// Which lines of a text a part has: the number of the first, and how many they are.
#[derive(Clone, Copy, Drop)]
pub(crate) struct Place {
    /// So wide that no sum of counts is too great.
    first: u128,
    count: usize,
}

/// How many constraints a store has.
fn count_rows(store: &Store) -> usize
    ensures { result ≡ length (store_view store.now).rows }
{
    store.rows().count()
}

/// How many lines the parts of an outcome have.
fn counts_of(outcome: &Outcome) -> Counts
    ensures { IsCounted (outcome_view outcome.now) result }
{
    Counts {
        trace: outcome.lines.len(),
        stack: outcome.stack.len(),
        store: count_rows(&outcome.store),
        history: outcome.history.list().len(),
    }
}

/// An outcome with its trace, or without.
fn traced(alloc: Global, outcome: Outcome, is_traced: bool) -> Outcome
    ensures { outcome_view result ≡ traced_outcome is_traced (outcome_view outcome) }
{
    if is_traced {
        return outcome;
    }
    Outcome {
        lines: Lines::new(alloc),
        ..outcome
    }
}

/// The run that shows an outcome, under the program.
fn shown(alloc: Global, program: &Program, outcome: &Outcome) -> Result<Run, Memory>
    ensures { IfOk result (IsShown (names_of program.now) (rules_of program.now) (outcome_view outcome.now)) }
{
    let mut text = Vec::new(alloc);
    outcome.text(program, &mut text)?;
    Ok(Run {
        status: outcome.status,
        steps: outcome.steps,
        lined: Lined::new(alloc, text)?,
        counts: counts_of(outcome),
    })
}

/// The run that shows an outcome, with its trace or without, under the program.
pub(crate) fn run_of(
    alloc: Global,
    program: &Program,
    outcome: Outcome,
    is_traced: bool,
) -> Result<Run, Memory>
    ensures { IfOk result (IsRunOf (names_of program.now) (rules_of program.now) (outcome_view outcome) is_traced) }
{
    shown(alloc, program, &traced(alloc, outcome, is_traced))
}

impl Run {
    ghost use Rattle.std.specs.Prelude.{◌≡◌, option_copied};
    ghost use Rattle.cordspar.specs.Runs.{item_of, place_of};

    /// Which lines a part has, by its number in the header; none where there is no such part.
    fn place(&self, part: u32) -> Place
        ensures { result ≡ place_of self.now part }
    {
        let counts = self.counts;
        let stack = counts.trace as u128 + 2;
        let store = stack + counts.stack as u128 + 1;
        let bindings = store + counts.store as u128 + 1;
        let history = (self.lined.len() as u128).saturating_sub(counts.history as u128);
        match part {
            0 => Place {
                first: 0,
                count: counts.trace,
            },
            1 => Place {
                first: stack,
                count: counts.stack,
            },
            2 => Place {
                first: store,
                count: counts.store,
            },
            3 => Place {
                first: bindings,
                count: history.saturating_sub(bindings + 1) as usize,
            },
            4 => Place {
                first: history,
                count: counts.history,
            },
            _ => Place { first: 0, count: 0 },
        }
    }

    /// The text.
    pub(crate) fn text(&self) -> &[u8]
        ensures { result.now ≡ self.now.lined }
    {
        self.lined.text()
    }

    /// How many lines a part has.
    pub(crate) fn count(&self, part: u32) -> usize
        ensures { result ≡ (place_of self.now part).count }
    {
        self.place(part).count
    }

    /// A line of a part, from 0.
    pub(crate) fn item(&self, part: u32, k: usize) -> Option<&[u8]>
        ensures { option_copied result ≡ item_of self.now part k }
    {
        let place = self.place(part);
        let lines = self.lined.len();
        if k >= place.count || place.first >= lines as u128 {
            return None;
        }
        let first = place.first as usize;
        if k >= lines - first {
            return None;
        }
        self.lined.line(first + k)
    }
}
