//! The lists of a store's constraints that are looked at for a rule, and how far each of them came.
ghost use Rattle.std.specs.Prelude.{◌≡◌, ◌<◌, ◌≤◌, ◌+◌, ◌++◌, ◌∷◌, ◌&&◌, ◌==◌, [], ℕ, Bool, List, IfOk, OnOk, Some, cond, drop, get_or, length, map, nat_lt, option_map, slice_get, take};
ghost use Rattle.chr_semantics.specs.Lists.{fronts as all_fronts, furthest as furthest_of, is_last as is_last_of, is_nearer, like as like_of, of_stage, put_in};
ghost use Rattle.chr_semantics.specs.Program as semantics;
ghost use Rattle.chr_semantics.specs.State.{State};
ghost use Rattle.chr_semantics.specs.Tries.{capped};
ghost use Rattle.chr_semantics.specs.Verdict.{verdict as verdict_of};
ghost use Rattle.chr_semantics.specs.declared.limits.TheConstants.{MAX_HEADS};
ghost use Rattle.chr_store.specs.Numbers.{numbers};
ghost use Rattle.chr_machine.specs.MachineView.{machine_view};
ghost use Rattle.chr_machine.specs.Model.{state_in};
ghost use Rattle.chr_look.specs.FrontView.{AreFronts, front_view, kept_lists, most_fronts};
ghost use Rattle.chr_rules.specs.RuleView.{heads_from, rule_view};
ghost use Rattle.chr_look.specs.LookedView.{ForRule, GoesOn, IsFrontIn, IsShortIn, LooksAt, LooksBehind, LooksNext, Notes, symbol_behind};
ghost use Rattle.chr_look.specs.VerdictView.{verdict_view};

use crate::hindrances::is_among;
use crate::judging::judge;
use crate::verdict::Verdict;
use chr_machine::{Id, Machine};
use chr_rules::Rule;
use chr_semantics::limits::MAX_HEADS;
use chr_store::HeadIds;
use chr_term::{Memory, Sym, Term};
use std::alloc::{Allocator, Global};

/// How many fronts are looked at, at most.
pub const MOST_FRONTS: u64 = 1_000_000;

/// How many lists are kept of those that came furthest.
const KEPT: usize = 5;

/// How many places there are among the kinds of verdicts, with one below the first.
const STAGES: usize = 9;

/// The place of `fired` among the kinds of verdicts.
const FIRED: usize = 1;

/// The place of `unlike`.
const UNLIKE: usize = 5;

/// A list, and the verdict on it.
#[derive(Drop)]
pub struct Front<A: Allocator = Global> {
    pub ids: HeadIds,
    pub verdict: Verdict<A>,
}

/// What came of the lists that were looked at for a rule. A front is a list of constraints for its first heads.
#[derive(Drop)]
pub struct Fronts<A: Allocator = Global> {
    /// For each number of constraints, how many fronts of so many are not unlike the heads.
    like: [u64; MAX_HEADS + 1],
    /// For each kind of verdict, by its place among the kinds, how many lists have one.
    stages: [u64; STAGES],
    /// The lists that came furthest, of those that did not fire.
    furthest: Vec<Front<A>, A>,
    /// How many fronts were looked at.
    looked: u64,
    /// Whether there were more.
    is_cut: bool,
}

impl<A: Allocator> Front<A> {
    /// Whether it came further than another one.
    fn is_nearer(&self, other: &Front<A>) -> bool
        ensures { result ≡ is_nearer (verdict_view self.now.verdict) (verdict_view other.now.verdict) }
    {
        let (stage, least) = (self.verdict.stage(), other.verdict.stage());
        stage > least || (stage == least && self.verdict.detail() > other.verdict.detail())
    }
}

/// The place of a new list among some of which those that came furthest are the first.
fn place_of<A: Allocator>(lists: &[Front<A>], new: &Front<A>) -> usize
    ensures within { result ≤ length lists.now }
    ensures put { put_in (map front_view lists.now) (front_view new.now)
        ≡ take result (map front_view lists.now) ++ front_view new.now ∷ drop result (map front_view lists.now) }
{
    match lists.split_first() {
        None => 0,
        Some((first, lists)) => {
            if new.is_nearer(first) {
                0
            } else {
                place_of(lists, new) + 1
            }
        }
    }
}

/// Puts a list among those that came furthest, of which a few are kept.
fn put<A: Allocator>(lists: &mut Vec<Front<A>, A>, new: Front<A>) -> Result<(), Memory>
    ensures { OnOk result (map front_view lists.new.items
        ≡ take kept_lists (put_in (map front_view lists.old.items) (front_view new))) }
{
    let place = place_of(lists.as_slice(), &new);
    lists.insert(place, new)?;
    lists.truncate(KEPT);
    Ok(())
}

/// Whether a list is kept: a last one that did not fire.
fn is_kept(is_last: bool, stage: usize) -> bool
    ensures { result ≡ (is_last && nat_lt 1 stage) }
{
    is_last && stage > FIRED
}

/// The same, where it is to be kept.
fn keep<A: Allocator>(
    lists: &mut Vec<Front<A>, A>,
    new: Front<A>,
    keeps: bool,
) -> Result<(), Memory>
    ensures { OnOk result (map front_view lists.new.items
        ≡ cond keeps (take kept_lists (put_in (map front_view lists.old.items) (front_view new))) (map front_view lists.old.items)) }
{
    if keeps {
        put(lists, new)?;
    }
    Ok(())
}

/// The count at a place, 0 where there is none.
fn count_at(counts: &[u64], place: usize) -> u64
    ensures { result ≡ get_or counts.now place 0 }
{
    match counts.get(place) {
        None => 0,
        Some(count) => *count,
    }
}

/// Counts one more at a place, where it counts.
#[tactic(auto, using(crate::proofs::Grown::written))]
fn count(counts: &mut [u64], place: usize, counts_here: bool)
    requires { place < length counts.old }
    ensures { (k : ℕ) → get_or counts.new k 0
        ≡ cond (counts_here && place == k) (capped (get_or counts.old k 0 + 1)) (get_or counts.old k 0) }
{
    if counts_here {
        counts[place] = counts[place].saturating_add(1);
    }
}

impl<A: Allocator> Fronts<A> {
    /// Nothing was looked at.
    fn new(alloc: A) -> Fronts<A>
        ensures { (s : State) (r : ℕ) (rule : semantics.Rule) → AreFronts s r rule [] result }
    {
        Fronts {
            like: [0; MAX_HEADS + 1],
            stages: [0; STAGES],
            furthest: Vec::new(alloc),
            looked: 0,
            is_cut: false,
        }
    }

    /// Notes a front that is looked at, and whether it is a last one.
    fn note(&mut self, front: Front<A>, is_last: bool) -> Result<(), Memory>
        requires room { self.old.looked < most_fronts }
        requires few { length front.ids ≤ MAX_HEADS }
        ensures { OnOk result ((s : State) (r : ℕ) (rule : semantics.Rule) (all : List (List ℕ)) → AreFronts s r rule all self.old
            → verdict_view front.verdict ≡ verdict_of s r rule front.ids → is_last ≡ is_last_of s r rule front.ids
            → AreFronts s r rule (all ++ front.ids ∷ []) self.new) }
    {
        let stage = front.verdict.stage();
        self.looked += 1;
        count(&mut self.like, front.ids.len(), stage != UNLIKE);
        count(&mut self.stages, stage, is_last);
        keep(&mut self.furthest, front, is_kept(is_last, stage))?;
        Ok(())
    }
}

/// The identity at a place.
#[tactic(auto, using(crate::proofs::FrontSteps::number_there))]
fn id_at(ids: &[Id], place: usize) -> Id
    requires { place < length ids.now }
    ensures { slice_get (numbers ids.now) place ≡ Some result.0 }
{
    ids[place]
}

/// What the fronts are of: a rule, where a run stands.
#[derive(Clone, Copy, Drop)]
struct Looked<'m, 'p, A: Allocator + Copy> {
    alloc: A,
    machine: &'m Machine<'p, A>,
    rule: usize,
}

/// The symbol of the head at a place, counted from 0.
fn symbol_at<A: Allocator>(heads: &[(Sym, Vec<Term<A>, A>)], place: usize) -> Option<Sym>
    ensures { (flags : List Bool) (j : ℕ) → option_map (λ f. f.0) result
        ≡ option_map (λ h. h.atom.sym) (slice_get (heads_from flags j heads.now) place) }
{
    match heads.split_first() {
        None => None,
        Some((head, heads)) => match place.checked_sub(1) {
            None => Some(head.0),
            Some(place) => symbol_at(heads, place),
        },
    }
}

/// The symbol of the head behind a front, by the verdict on it; there is none where it is unlike the heads, or whole.
fn next_symbol<A: Allocator>(rule: &Rule<A>, front: HeadIds, verdict: &Verdict<A>) -> Option<Sym>
    ensures { option_map (λ f. f.0) result ≡ symbol_behind (rule_view rule.now) front (verdict_view verdict.now) }
{
    if verdict.stage() == UNLIKE {
        None
    } else {
        symbol_at(rule.heads.as_slice(), front.len())
    }
}

impl<A: Allocator + Copy> Looked<'_, '_, A> {
    /// Judges a front and notes it, and answers the symbol of the head behind it.
    fn judge(&self, front: HeadIds, seen: &mut Fronts<A>) -> Result<Option<Sym>, Memory>
        requires front { IsFrontIn self.now front }
        requires room { seen.old.looked < most_fronts }
        ensures next { IfOk result (λ next. ForRule self.now (λ rule. GoesOn self.now rule front (option_map (λ f. f.0) next))) }
        ensures noted { OnOk result (Notes self.now front seen.old seen.new) }
    {
        let verdict = judge(self.alloc, self.machine, self.rule, front)?;
        let next = next_symbol(self.machine.program().rule(self.rule), front, &verdict);
        let front = Front {
            ids: front,
            verdict,
        };
        seen.note(front, next.is_none())?;
        Ok(next)
    }

    /// Looks at a front, and at those that begin with it.
    #[cycle(look)]
    fn look_at(&self, front: HeadIds, seen: &mut Fronts<A>) -> Result<(), Memory>
        requires { IsFrontIn self.now front }
        ensures { OnOk result (LooksAt self.now front seen.old seen.new) }
    {
        if seen.looked >= MOST_FRONTS {
            seen.is_cut = true;
            return Ok(());
        }
        match self.judge(front, seen)? {
            None => Ok(()),
            Some(sym) => {
                self.look_behind(front, self.machine.store().rows_of(sym), seen)?;
                Ok(())
            }
        }
    }

    /// Looks at the fronts that have one of these constraints behind another one, and at those that begin with them.
    #[cycle(look)]
    fn look_behind(&self, front: HeadIds, ids: &[Id], seen: &mut Fronts<A>) -> Result<(), Memory>
        requires { IsShortIn self.now front }
        ensures { OnOk result (LooksBehind self.now front (numbers ids.now) seen.old seen.new) }
    {
        for place in 0..ids.len() {
            self.look_next(front, id_at(ids, place), seen)?;
        }
        Ok(())
    }

    /// Looks at the front that has a constraint behind another one, unless it has it already, and at those that begin with it.
    #[cycle(look)]
    fn look_next(&self, front: HeadIds, id: Id, seen: &mut Fronts<A>) -> Result<(), Memory>
        requires { IsShortIn self.now front }
        ensures { OnOk result (LooksNext self.now front id.0 seen.old seen.new) }
    {
        if is_among(id, front.as_slice()) {
            return Ok(());
        }
        let mut longer = front;
        longer.push(id);
        self.look_at(longer, seen)?;
        Ok(())
    }
}

/// What comes of the lists of the store's constraints for a rule, by its number from 0, where a run stands. At most 1,000,000 fronts are looked
/// at. The only error is want of memory.
pub fn look_at_lists<A: Allocator + Copy>(
    alloc: A,
    machine: &Machine<'_, A>,
    rule: usize,
) -> Result<Fronts<A>, Memory>
    requires { rule < length (machine_view machine.now).rules }
    ensures { let m = machine_view machine.now in IfOk result (λ seen. (r : semantics.Rule) → slice_get m.rules rule ≡ Some r
        → AreFronts (state_in m) rule r (all_fronts (state_in m) rule r) seen) }
{
    let mut seen = Fronts::new(alloc);
    let looked = Looked {
        alloc,
        machine,
        rule,
    };
    looked.look_at(HeadIds::new(), &mut seen)?;
    Ok(seen)
}

impl<A: Allocator> Fronts<A> {
    /// How many fronts of so many constraints are not unlike the heads.
    pub fn like(&self, constraints: usize) -> u64
        ensures { (s : State) (r : ℕ) (rule : semantics.Rule) (all : List (List ℕ)) → AreFronts s r rule all self.now
            → result ≡ like_of s r rule constraints (take most_fronts all) }
    {
        count_at(&self.like, constraints)
    }

    /// How many lists have a verdict of this kind.
    pub fn of_stage(&self, stage: usize) -> u64
        ensures { (s : State) (r : ℕ) (rule : semantics.Rule) (all : List (List ℕ)) → AreFronts s r rule all self.now
            → result ≡ of_stage s r rule stage (take most_fronts all) }
    {
        count_at(&self.stages, stage)
    }

    /// The lists that came furthest and did not fire, these first; five at most.
    pub fn furthest(&self) -> &[Front<A>]
        ensures { (s : State) (r : ℕ) (rule : semantics.Rule) (all : List (List ℕ)) → AreFronts s r rule all self.now
            → map front_view result.now ≡ furthest_of s r rule kept_lists [] (take most_fronts all) }
    {
        self.furthest.as_slice()
    }

    /// Whether there were more fronts than are looked at.
    pub fn is_cut(&self) -> bool
        ensures { (s : State) (r : ℕ) (rule : semantics.Rule) (all : List (List ℕ)) → AreFronts s r rule all self.now
            → result ≡ nat_lt most_fronts (length all) }
    {
        self.is_cut
    }
}
