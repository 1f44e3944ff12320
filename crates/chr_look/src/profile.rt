//! What a run cost.
ghost use Rattle.std.specs.Prelude.{◌≡◌, ◌&&◌, ◌==◌, ◌+◌, ℕ, IfOk, OnOk, Option, cond, false, get_or, not, option_map};
ghost use Rattle.chr_semantics.specs.Bounds.{IsQueryBounded};
ghost use Rattle.chr_semantics.specs.Profile.{default, is_firing as is_firing_of, is_kind as is_kind_of, reactivate, same_rule, solve, woken_fire_in};
ghost use Rattle.chr_semantics.specs.Program as semantics;
ghost use Rattle.chr_semantics.specs.State.{State, start};
ghost use Rattle.chr_semantics.specs.Tries.{capped};
ghost use Rattle.chr_rules.specs.ProgramView.{names_of, rules_of};
ghost use Rattle.chr_rules.specs.RuleView.{query_view};
ghost use Rattle.chr_look.specs.CostView.{cost_view, noted_solve, solve_view, solves_of};
ghost use Rattle.chr_look.specs.KindView.{kind_view};
ghost use Rattle.chr_look.specs.Making.{IsMade};
ghost use Rattle.chr_look.specs.Profiling.{AreCosts, costs_of, counts_of, solve_costs_of};
ghost use Rattle.chr_look.specs.Watching.{IsRunOf, IsWatched, machine_in};

use crate::costs::{HeadCost, SolveCost, SolveCosts, cost_of, grow, note_search};
use crate::kind::{Kind, KindCounts, is_firing, is_kind};
use crate::made::{Made, Seen};
use crate::notes::{Notes, go_on};
use crate::watching::Watched;
use chr_machine::Stepped;
use chr_rules::{Program, Query};
use chr_term::Memory;
use std::alloc::{Allocator, Global};

/// What a run cost. A count stays at the greatest number of 64 bits.
#[derive(Drop)]
pub struct Profile<A: Allocator = Global> {
    alloc: A,
    /// What was done at each head of each rule.
    heads: Vec<Vec<HeadCost, A>, A>,
    kinds: KindCounts,
    solves: SolveCosts<A>,
    /// For each height of the stack whether a constraint stands there that was made active again and has done nothing since.
    woken: Vec<bool, A>,
    woken_fire: u64,
}

/// Notes a transition of a kind that was made with a stack of a height.
#[tactic(auto, using(crate::proofs::Grown::written))]
fn note_turn<A: Allocator>(
    woken: &mut Vec<bool, A>,
    height: usize,
    kind: Option<Kind>,
) -> Result<(), Memory>
    ensures { let k = option_map kind_view kind in OnOk result ((h : ℕ) → get_or woken.new.items h false
        ≡ cond (height == h && not (is_kind_of default k)) (is_kind_of reactivate k) (get_or woken.old.items h false)) }
{
    if !is_kind(kind, Kind::Default) {
        grow(woken, height, false)?;
        woken[height] = is_kind(kind, Kind::Reactivate);
    }
    Ok(())
}

/// Notes a transition where it is a Solve.
fn note_solve<A: Allocator>(solves: &mut SolveCosts<A>, made: Made) -> Result<(), Memory>
    ensures { OnOk result ((o : Option ℕ) → solves_of solves.new o
        ≡ cond (is_kind_of solve (option_map kind_view made.kind) && same_rule o made.rule)
        (noted_solve made.put (solves_of solves.old o)) (solves_of solves.old o)) }
{
    if is_kind(made.kind, Kind::Solve) {
        solves.note(made.rule, made.put)?;
    }
    Ok(())
}

/// With one more where a constraint fires, for the first time since it was made active again.
fn counted(count: u64, kind: Option<Kind>, is_woken: bool) -> u64
    ensures { result ≡ cond (is_firing_of (option_map kind_view kind) && is_woken) (capped (count + 1)) count }
{
    if is_firing(kind) && is_woken {
        count.saturating_add(1)
    } else {
        count
    }
}

impl<A: Allocator + Copy> Profile<A> {
    /// Of a run before its first transition.
    pub(crate) fn new(alloc: A) -> Profile<A>
        ensures { (p : semantics.Program) (s : State) → AreCosts p s 0 result }
    {
        Profile {
            alloc,
            heads: Vec::new(alloc),
            kinds: KindCounts::new(),
            solves: SolveCosts::new(alloc),
            woken: Vec::new(alloc),
            woken_fire: 0,
        }
    }

    /// Whether a constraint stands at a height that was made active again and has done nothing since.
    fn is_woken(&self, height: usize) -> bool
        ensures { result ≡ get_or self.now.woken.items height false }
    {
        match self.woken.get(height) {
            None => false,
            Some(is_woken) => *is_woken,
        }
    }

    /// Notes a transition.
    fn note(&mut self, made: Made) -> Result<(), Memory>
        ensures { OnOk result ((p : semantics.Program) (s : State) (n : ℕ)
            → IsMade p s n made → AreCosts p s n self.old → AreCosts p s (n + 1) self.new) }
    {
        self.woken_fire = counted(self.woken_fire, made.kind, self.is_woken(made.height));
        self.kinds.note(made.kind);
        note_search(
            self.alloc,
            &mut self.heads,
            made.place,
            made.fires,
            made.tried,
        )?;
        note_solve(&mut self.solves, made)?;
        note_turn(&mut self.woken, made.height, made.kind)?;
        Ok(())
    }
}

impl<A: Allocator + Copy> Notes<A> for Profile<A> {
    type Subject = ();

    ghost are_of = { λ _ profile p q n. AreCosts p (start q) n profile };

    fn step(&mut self, _subject: &(), watched: &mut Watched<'_, A>) -> Result<Stepped, Memory> {
        let seen = Seen::of(watched)?;
        match watched.step()? {
            Stepped::Moved => {
                self.note(seen.made(watched.machine()))?;
                Ok(Stepped::Moved)
            }
            Stepped::Ended => Ok(Stepped::Ended),
            Stepped::Spent => Ok(Stepped::Spent),
        }
    }
}

/// `watch`, with what the run cost. It searches everything twice. The only error is want of memory.
pub fn watch_costs<'p, A: Allocator + Copy>(
    alloc: A,
    program: &'p Program<A>,
    query: Query<A>,
    n: u64,
) -> Result<(Watched<'p, A>, Profile<A>), Memory>
    requires { IsQueryBounded (query_view query) }
    ensures run { IfOk result (λ both. IsRunOf (names_of program.now) (rules_of program.now) (query_view query) n (machine_in both.0)) }
    ensures watched { IfOk result (λ both. IsWatched (rules_of program.now) (query_view query) both.0) }
    ensures costs { IfOk result (λ both. AreCosts (rules_of program.now) (start (query_view query)) (machine_in both.0).steps both.1) }
{
    let mut watched = Watched::start(alloc, program, query)?;
    let mut profile = Profile::new(alloc);
    go_on(&mut watched, &(), &mut profile, n)?;
    Ok((watched, profile))
}

impl<A: Allocator + Copy> Profile<A> {
    /// What was done at a head of a rule, both counted from 0.
    pub fn head(&self, rule: usize, head: usize) -> HeadCost
        ensures { (p : semantics.Program) (s : State) (n : ℕ) → AreCosts p s n self.now → cost_view result ≡ costs_of p s n rule head }
    {
        cost_of(self.heads.as_slice(), rule, head)
    }

    /// How many transitions of a kind the run made.
    pub fn of_kind(&self, kind: Kind) -> u64
        ensures { (p : semantics.Program) (s : State) (n : ℕ) → AreCosts p s n self.now → result ≡ counts_of p s n (kind_view kind) }
    {
        self.kinds.of(kind)
    }

    /// What the built-ins did that stand in the body of a rule, or in the query where there is none.
    pub fn solves(&self, rule: Option<usize>) -> SolveCost
        ensures { (p : semantics.Program) (s : State) (n : ℕ) → AreCosts p s n self.now → solve_view result ≡ solve_costs_of p s n rule }
    {
        self.solves.of(rule)
    }

    /// How many of the constraints that were made active again fired.
    pub fn woken_fire(&self) -> u64
        ensures { (p : semantics.Program) (s : State) (n : ℕ) → AreCosts p s n self.now → result ≡ capped (woken_fire_in p s n) }
    {
        self.woken_fire
    }
}
