//! What was done at the heads of rules, and what the goals of rules woke.
ghost use Rattle.std.specs.Prelude.{◌≡◌, ◌<◌, ◌==◌, ℕ, OnOk, Option, cond, get_or, length, option_map};
ghost use Rattle.chr_semantics.specs.Profile.{is_place, same_rule};
ghost use Rattle.chr_rules.specs.Index.{pair_view};
ghost use Rattle.chr_look.specs.CostView.{cost_at, cost_in, cost_view, noted_cost, noted_solve, solve_view, solves_of};

use chr_machine::Tried;
use chr_rules::Occurrence;
use chr_term::Memory;
use std::alloc::{Allocator, Global};

/// What was done at a head of a rule.
#[derive(Clone, Copy, PartialEq, Eq, Debug, Drop)]
pub struct HeadCost {
    /// How often a constraint that was active searched there.
    pub searches: u64,
    /// How often that fired the rule.
    pub finds: u64,
    /// How many complete lists of constraints were tried.
    pub tries: u64,
    /// How many lists fitted so far, so that a partner for their next head was looked for.
    pub partial: u64,
}

/// What the built-ins did that stand in the body of a rule, or in the query.
#[derive(Clone, Copy, PartialEq, Eq, Debug, Drop)]
pub struct SolveCost {
    /// How often one was told.
    pub solves: u64,
    /// How many constraints that woke.
    pub wakes: u64,
}

/// Nothing was done.
const NO_COST: HeadCost = HeadCost {
    searches: 0,
    finds: 0,
    tries: 0,
    partial: 0,
};

/// Nothing was told.
const NO_SOLVES: SolveCost = SolveCost {
    solves: 0,
    wakes: 0,
};

impl HeadCost {
    /// One more search.
    fn note(&mut self, fires: bool, tried: Tried)
        ensures { cost_view self.new ≡ noted_cost fires tried (cost_view self.old) }
    {
        self.searches = self.searches.saturating_add(1);
        if fires {
            self.finds = self.finds.saturating_add(1);
        }
        self.tries = self.tries.saturating_add(tried.lists);
        self.partial = self.partial.saturating_add(tried.partial);
    }
}

impl SolveCost {
    /// One more, which woke so many constraints.
    fn note(&mut self, wakes: u64)
        ensures { solve_view self.new ≡ noted_solve wakes (solve_view self.old) }
    {
        self.solves = self.solves.saturating_add(1);
        self.wakes = self.wakes.saturating_add(wakes);
    }
}

/// Appends a value until there is a place.
#[tactic(auto, using(crate::proofs::Grown::grown))]
pub(crate) fn grow<T: Copy, A: Allocator>(
    values: &mut Vec<T, A>,
    place: usize,
    value: T,
) -> Result<(), Memory>
    ensures room { OnOk result (place < length values.new.items) }
    ensures same { OnOk result ((k : ℕ) → get_or values.new.items k value ≡ get_or values.old.items k value) }
{
    while values.len() <= place {
        values.push(value)?;
    }
    Ok(())
}

/// Notes a search at a head of a rule, by what was done at the heads of that rule.
#[tactic(auto, using(crate::proofs::Grown::written))]
fn note_at<A: Allocator>(
    row: &mut Vec<HeadCost, A>,
    head: usize,
    fires: bool,
    tried: Tried,
) -> Result<(), Memory>
    ensures { OnOk result ((k : ℕ) → cost_at row.new.items k
        ≡ cond (head == k) (noted_cost fires tried (cost_at row.old.items k)) (cost_at row.old.items k)) }
{
    grow(row, head, NO_COST)?;
    row[head].note(fires, tried);
    Ok(())
}

/// Appends rows until there is one for a rule.
#[tactic(auto, using(crate::proofs::HeadCosts::rows_grown))]
fn grow_rows<A: Allocator + Copy>(
    alloc: A,
    heads: &mut Vec<Vec<HeadCost, A>, A>,
    rule: usize,
) -> Result<(), Memory>
    ensures room { OnOk result (rule < length heads.new.items) }
    ensures same { OnOk result ((r k : ℕ) → cost_in heads.new.items r k ≡ cost_in heads.old.items r k) }
{
    while heads.len() <= rule {
        heads.push(Vec::new(alloc))?;
    }
    Ok(())
}

/// Notes a search at a head of a rule, if there was one.
pub(crate) fn note_search<A: Allocator + Copy>(
    alloc: A,
    heads: &mut Vec<Vec<HeadCost, A>, A>,
    place: Option<Occurrence>,
    fires: bool,
    tried: Tried,
) -> Result<(), Memory>
    ensures { OnOk result ((r k : ℕ) → cost_in heads.new.items r k ≡ cond (is_place r k (option_map pair_view place))
        (noted_cost fires tried (cost_in heads.old.items r k)) (cost_in heads.old.items r k)) }
{
    let Some(at) = place else {
        return Ok(());
    };
    grow_rows(alloc, heads, at.rule)?;
    note_at(&mut heads[at.rule], at.place, fires, tried)
}

/// What was done at a head of a rule.
pub(crate) fn cost_of<A: Allocator>(
    heads: &[Vec<HeadCost, A>],
    rule: usize,
    head: usize,
) -> HeadCost
    ensures { cost_view result ≡ cost_in heads.now rule head }
{
    let Some(row) = heads.get(rule) else {
        return NO_COST;
    };
    match row.get(head) {
        None => NO_COST,
        Some(cost) => *cost,
    }
}

/// What the built-ins did, by where they stand.
#[derive(Drop)]
pub(crate) struct SolveCosts<A: Allocator = Global> {
    of_query: SolveCost,
    of_rules: Vec<SolveCost, A>,
}

impl<A: Allocator> SolveCosts<A> {
    /// Nothing was told.
    pub(crate) fn new(alloc: A) -> SolveCosts<A>
        ensures { (o : Option ℕ) → solves_of result o ≡ (0, 0) }
    {
        SolveCosts {
            of_query: NO_SOLVES,
            of_rules: Vec::new(alloc),
        }
    }

    /// Notes a built-in that was told, of a rule or of the query, and how many constraints it woke.
    pub(crate) fn note(&mut self, rule: Option<usize>, wakes: u64) -> Result<(), Memory>
        ensures { OnOk result ((o : Option ℕ) → solves_of self.new o
            ≡ cond (same_rule o rule) (noted_solve wakes (solves_of self.old o)) (solves_of self.old o)) }
    {
        match rule {
            None => self.of_query.note(wakes),
            Some(rule) => {
                grow(&mut self.of_rules, rule, NO_SOLVES)?;
                self.of_rules[rule].note(wakes);
            }
        }
        Ok(())
    }

    /// What those of a rule did, or those of the query.
    pub(crate) fn of(&self, rule: Option<usize>) -> SolveCost
        ensures { solve_view result ≡ solves_of self.now rule }
    {
        match rule {
            None => self.of_query,
            Some(rule) => match self.of_rules.get(rule) {
                None => NO_SOLVES,
                Some(cost) => *cost,
            },
        }
    }
}
