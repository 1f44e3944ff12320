//! Each growth of a call refused in turn: that the refusal is a growth's, and that the same call then answers.
ghost use Rattle.std.specs.Prelude.{◌<◌, length};
ghost use Rattle.chr_rules.specs.ProgramView.{rules_of};
ghost use Rattle.chr_rules.specs.RuleView.{query_view};
ghost use Rattle.chr_semantics.specs.Bounds.{IsQueryBounded};

use chr_bind::{Lack, Test};
use chr_look::{
    Before, Effect, Kind, ListLog, Profile, Removals, Verdict, Watched, guard_test, judge,
    look_at_lists, watch, watch_costs, watch_life, watch_list,
};
use chr_machine::{Id, Machine, Stepped};
use chr_rules::{Program, Query};
use chr_store::HeadIds;
use chr_term::Memory;
use chr_texts::both_of;
use refusing_alloc::Refusing;
use std::alloc::{Allocator, Global};
use std::process::Abort;

mod checks;

use checks::{equal, got, holds};

/// The greatest number of transitions.
const BUDGET: u64 = 100;

/// More growths than a call of these tests asks for.
const AMPLE: u64 = 1_000_000;

/// More than a call that is refused in turn asks for.
const MOST: u64 = 2_000;

/// A rule whose guard makes terms, one with which no constraint of the query can be made equal, and one that removes.
const PROGRAM: &str = ":- chr_constraint p/2, q/1, gone/0.
r @ p(X,Z), q(Y) ==> f(X,Z) = f(Y,Z) | true.
s @ p(f(X),X) ==> true.
t @ gone <=> true.";

/// The constraints 1 and 2, which come at 1 and 5, and are made active again at 9 and 13; and 3, which is removed at 17.
const QUERY: &str = "p(1,A), q(B), C = 3, gone.";

// The calls, with no clause, so that a proof of a test does not follow the run. Each watches a copy of the query.

fn watched<'p, A: Allocator + Copy>(
    alloc: A,
    program: &'p Program<A>,
    query: &Query<A>,
) -> Result<Watched<'p, A>, Memory>
    requires { IsQueryBounded (query_view query.now) }
{
    watch(alloc, program, query.copy()?, BUDGET)
}

fn life_watched<'p, A: Allocator + Copy>(
    alloc: A,
    program: &'p Program<A>,
    query: &Query<A>,
    id: Id,
) -> Result<(Watched<'p, A>, Vec<u64, A>), Memory>
    requires { IsQueryBounded (query_view query.now) }
{
    watch_life(alloc, program, query.copy()?, BUDGET, id)
}

fn list_watched<'p, A: Allocator + Copy>(
    alloc: A,
    program: &'p Program<A>,
    query: &Query<A>,
    rule: usize,
    ids: HeadIds,
) -> Result<(Watched<'p, A>, ListLog<A>), Memory>
    requires bounded { IsQueryBounded (query_view query.now) }
    requires rule { rule < length (rules_of program.now) }
{
    watch_list(alloc, program, query.copy()?, BUDGET, rule, ids)
}

fn costs_watched<'p, A: Allocator + Copy>(
    alloc: A,
    program: &'p Program<A>,
    query: &Query<A>,
) -> Result<(Watched<'p, A>, Profile<A>), Memory>
    requires { IsQueryBounded (query_view query.now) }
{
    watch_costs(alloc, program, query.copy()?, BUDGET)
}

fn started<'p, A: Allocator + Copy>(
    alloc: A,
    program: &'p Program<A>,
    query: &Query<A>,
) -> Result<Machine<'p, A>, Memory>
    requires { IsQueryBounded (query_view query.now) }
{
    Machine::start(alloc, program, query.copy()?)
}

/// Makes a transition, and tells whether it gave one variable a value and woke two constraints; nothing where the run has ended.
fn binds_one<A: Allocator + Copy>(
    alloc: A,
    machine: &mut Machine<'_, A>,
) -> Result<Option<bool>, Memory> {
    let before = Before::of(alloc, machine)?;
    if machine.step()? != Stepped::Moved {
        return Ok(None);
    }
    match before.effect(alloc, machine)? {
        None => Ok(None),
        Some(Effect::Binds { values, woken }) => Ok(Some(values.len() == 1 && woken.len() == 2)),
        Some(_) => Ok(Some(false)),
    }
}

fn removals_of<A: Allocator + Copy>(
    alloc: A,
    watched: &Watched<'_, A>,
) -> Result<Removals<A>, Memory> {
    watched.removals(alloc)
}

fn came<A: Allocator + Copy>(watched: &Watched<'_, A>, id: u64) -> Option<u64> {
    Some(watched.birth(Id(id))?.at)
}

fn gone<A: Allocator + Copy>(
    watched: &Watched<'_, A>,
    removals: &Removals<A>,
    id: u64,
) -> Option<u64> {
    watched.departure(removals, Id(id))
}

fn remover<A: Allocator + Copy>(
    watched: &Watched<'_, A>,
    removals: &Removals<A>,
    id: u64,
) -> Option<usize> {
    Some(watched.remover(removals, Id(id))?.rule())
}

fn of_kind<A: Allocator + Copy>(profile: &Profile<A>, kind: Kind) -> u64 {
    profile.of_kind(kind)
}

/// Whether it is told when the third constraint came and went, and which rule removed it.
fn tells<A: Allocator + Copy>(watched: &Watched<'_, A>, removals: &Removals<A>) -> bool {
    came(watched, 3) == Some(16)
        && gone(watched, removals, 3) == Some(17)
        && remover(watched, removals, 3) == Some(2)
}

/// A call that is refused in turn.
#[derive(Clone, Copy, Debug, Drop)]
enum Call {
    /// And that of its removals.
    Watch,
    WatchLife,
    WatchList,
    WatchCosts,
    /// Of each transition of the run.
    Effects,
    /// Of a list whose guard is not decided.
    JudgeGuard,
    /// Of a list that is unlike the head.
    JudgeUnlike,
    GuardTest,
    LookAtLists,
}

/// Whether the run of the query is watched to its end, and what it removed.
fn watches<A: Allocator + Copy>(
    alloc: A,
    program: &Program<A>,
    query: &Query<A>,
) -> Result<bool, Memory>
    requires { IsQueryBounded (query_view query.now) }
{
    let watched = watched(alloc, program, query)?;
    let removals = removals_of(alloc, &watched)?;
    Ok(tells(&watched, &removals))
}

/// Whether a constraint is watched to the end of the run.
fn watches_life<A: Allocator + Copy>(
    alloc: A,
    program: &Program<A>,
    query: &Query<A>,
) -> Result<bool, Memory>
    requires { IsQueryBounded (query_view query.now) }
{
    let (_, woken) = life_watched(alloc, program, query, Id(2))?;
    Ok(woken.as_slice() == [13].as_slice())
}

/// Whether a list is watched to the end of the run, in which it was looked for three times.
fn watches_list<A: Allocator + Copy>(
    alloc: A,
    program: &Program<A>,
    query: &Query<A>,
) -> Result<bool, Memory>
    requires { IsQueryBounded (query_view query.now) }
{
    if program.rules() == 0 {
        return Ok(false);
    }
    let ids = HeadIds::of(&[Id(1), Id(2)]);
    let (_, list) = list_watched(alloc, program, query, 0, ids)?;
    Ok(list.searches.len() == 3 && list.could_from.is_none())
}

/// Whether the costs are watched to the end of the run: four searches of the first constraint and two of the second found nothing.
fn watches_costs<A: Allocator + Copy>(
    alloc: A,
    program: &Program<A>,
    query: &Query<A>,
) -> Result<bool, Memory>
    requires { IsQueryBounded (query_view query.now) }
{
    let (_, profile) = costs_watched(alloc, program, query)?;
    Ok(of_kind(&profile, Kind::Default) == 6)
}

/// Whether the effects of the 17 transitions are told, of which one binds.
fn tells_effects<A: Allocator + Copy>(
    alloc: A,
    program: &Program<A>,
    query: &Query<A>,
) -> Result<bool, Memory>
    requires { IsQueryBounded (query_view query.now) }
{
    let mut machine = started(alloc, program, query)?;
    let mut bindings: u64 = 0;
    for made in 0..BUDGET {
        match binds_one(alloc, &mut machine)? {
            None => return Ok(made == 17 && bindings == 1),
            Some(true) => bindings = bindings.saturating_add(1),
            Some(false) => {}
        }
    }
    Ok(false)
}

/// Whether the guard of the first rule is found undecided.
fn judges_guard<A: Allocator + Copy>(alloc: A, machine: &Machine<'_, A>) -> Result<bool, Memory> {
    if machine.program().rules() == 0 {
        return Ok(false);
    }
    let ids = HeadIds::of(&[Id(1), Id(2)]);
    match judge(alloc, machine, 0, ids)? {
        Verdict::Guard(test, Lack::Undecided) => Ok(test == 1),
        _ => Ok(false),
    }
}

/// Whether the head of the second rule is found unlike the constraint.
fn judges_unlike<A: Allocator + Copy>(alloc: A, machine: &Machine<'_, A>) -> Result<bool, Memory> {
    if machine.program().rules() < 2 {
        return Ok(false);
    }
    match judge(alloc, machine, 1, HeadIds::of(&[Id(1)]))? {
        Verdict::Unlike(way, _) => Ok(way.as_slice() == [1, 1].as_slice()),
        _ => Ok(false),
    }
}

/// Whether the test of the first rule is found.
fn finds_test<A: Allocator + Copy>(alloc: A, machine: &Machine<'_, A>) -> Result<bool, Memory> {
    if machine.program().rules() == 0 {
        return Ok(false);
    }
    let ids = HeadIds::of(&[Id(1), Id(2)]);
    match guard_test(alloc, machine, 0, ids, 1)? {
        Some(Test::Identical(_, _)) => Ok(true),
        _ => Ok(false),
    }
}

/// Whether the one list for the first rule is found, with its guard.
fn looks_at_lists<A: Allocator + Copy>(alloc: A, machine: &Machine<'_, A>) -> Result<bool, Memory> {
    if machine.program().rules() == 0 {
        return Ok(false);
    }
    let fronts = look_at_lists(alloc, machine, 0)?;
    Ok(fronts.of_stage(7) == 1 && fronts.furthest().len() == 1)
}

/// Whether the call answers what is right, over a run that has ended.
fn answers<A: Allocator + Copy>(
    alloc: A,
    call: Call,
    query: &Query<A>,
    ended: &Machine<'_, A>,
) -> Result<bool, Memory>
    requires { IsQueryBounded (query_view query.now) }
{
    match call {
        Call::Watch => watches(alloc, ended.program(), query),
        Call::WatchLife => watches_life(alloc, ended.program(), query),
        Call::WatchList => watches_list(alloc, ended.program(), query),
        Call::WatchCosts => watches_costs(alloc, ended.program(), query),
        Call::Effects => tells_effects(alloc, ended.program(), query),
        Call::JudgeGuard => judges_guard(alloc, ended),
        Call::JudgeUnlike => judges_unlike(alloc, ended),
        Call::GuardTest => finds_test(alloc, ended),
        Call::LookAtLists => looks_at_lists(alloc, ended),
    }
}

/// Whether the call goes through with `left` growths. A refused one can be called again.
///
/// For any allocator, here and below: proofs for the meter as the allocator would take much longer.
fn is_through<M: Allocator + Copy>(
    rt: &impl Abort,
    alloc: M,
    meter: &Refusing<Global>,
    call: Call,
    query: &Query<M>,
    ended: &Machine<'_, M>,
    left: u64,
) -> bool
    requires { IsQueryBounded (query_view query.now) }
{
    meter.allow(left);
    let answer = answers(alloc, call, query, ended);
    equal(rt, meter.asked() > left, answer.is_err());
    meter.allow(AMPLE);
    holds(rt, answer.is_err() || answer == Ok(true));
    holds(rt, got(rt, answers(alloc, call, query, ended)));
    answer.is_ok()
}

/// How often the call is refused, over a run of its own that has ended.
fn refused<M: Allocator + Copy>(
    rt: &impl Abort,
    alloc: M,
    meter: &Refusing<Global>,
    call: Call,
) -> u64 {
    meter.allow(AMPLE);
    // `got` would not say that the query is bounded.
    let Ok((program, query)) = both_of(alloc, PROGRAM, QUERY) else {
        panic!(rt; "the texts are refused");
    };
    let ended = got(rt, watched(alloc, &program, &query));
    for left in 0..MOST {
        if is_through(rt, alloc, meter, call, &query, ended.machine(), left) {
            return left;
        }
    }
    MOST
}

#[test]
fn want_of_memory(rt: HostRuntime) {
    let meter = Refusing::new(rt.alloc(), 0);
    for call in [
        Call::Watch,
        Call::WatchLife,
        Call::WatchList,
        Call::WatchCosts,
        Call::Effects,
        Call::JudgeGuard,
        Call::JudgeUnlike,
        Call::GuardTest,
        Call::LookAtLists,
    ] {
        let refused = refused(&rt, &meter, &meter, call);
        assert!(&rt; refused > 0 && refused < MOST, "{call:?} {refused}");
    }
}
