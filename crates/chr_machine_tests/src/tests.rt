//! What the tests share.
ghost use Rattle.chr_rules.specs.RuleView.{query_view};
ghost use Rattle.chr_semantics.specs.Bounds.{IsQueryBounded};

use chr_find::{Snapshot, find};
use chr_machine::*;
use chr_rules::{Program, Query};
use chr_term::{Memory, Sym};
use chr_texts::{
    GCD, GROUND_RULE, PROPAGATE_THEN_SIMPLIFY, SPECULATION, TURNED_ROUND, WAKING_ORDER, Worked,
    both_of,
};
use smallvec::SmallVec;
use std::alloc::{Allocator, Global};
use std::marker::PhantomData;
use std::process::Abort;

mod asked;
mod calls;
mod checks;
mod refusals;

use asked::{Lists, lists_of};
use checks::{equal, got, holds};

/// The calls of a machine, with no clause, so that a proof of a test does not follow the run.
fn start<'p, A: Allocator + Copy>(
    alloc: A,
    program: &'p Program<A>,
    query: Query<A>,
) -> Result<Machine<'p, A>, Memory>
    requires { IsQueryBounded (query_view query) }
{
    Machine::start(alloc, program, query)
}

fn step<A: Allocator + Copy>(machine: &mut Machine<A>) -> Result<Stepped, Memory> {
    machine.step()
}

fn run_alone<A: Allocator + Copy>(machine: &mut Machine<A>, n: u64) -> Result<Stepped, Memory> {
    machine.run_alone(n)
}

/// A program of a text, and a query over it.
fn both<A: Allocator + Copy>(
    rt: &impl Abort,
    alloc: A,
    texts: (&str, &str),
) -> (Program<A>, Query<A>)
    ensures { IsQueryBounded (query_view result.1) }
{
    match both_of(alloc, texts.0, texts.1) {
        Ok(both) => both,
        Err(mistake) => panic!(rt; "refused: {mistake:?}"),
    }
}

/// The search for a constraint at an occurrence of its symbol.
fn task(goal: u64, occurrence: u32) -> Task {
    Task {
        goal: Id(goal),
        occurrence,
    }
}

/// The lines so far are the first ones of a text.
fn assert_lines<A: Allocator + Copy>(rt: &impl Abort, machine: &Machine<A>, text: &str) {
    equal(rt, machine.lines().len() as u64, machine.steps());
    for (line, wanted) in machine.lines().iter().zip(text.split('\n')) {
        equal(rt, line, wanted.as_bytes());
    }
}

/// What is done with a machine at its start.
#[derive(Clone, Copy, Drop)]
enum Script<'a> {
    /// The calls of `machine_calls`.
    Calls,
    /// Steps as `top` asks.
    Asked,
    /// More transitions than there can be.
    Spent,
    /// So many transitions; and how often the first symbols were touched then, and the first rule.
    Touches(u64, &'a [u64], u64),
}

fn follow<A: Allocator + Copy>(
    rt: &impl Abort,
    lists: &Lists<A>,
    machine: &mut Machine<A>,
    script: Script<'_>,
) {
    match script {
        Script::Calls => calls::play(rt, machine),
        Script::Asked => asked::run_asked(rt, lists, machine),
        Script::Spent => calls::assert_spent(rt, machine),
        Script::Touches(transitions, symbols, rule) => {
            calls::assert_touches(rt, machine, transitions, (symbols, rule))
        }
    }
}

/// As `follow`, with a new machine.
fn follow_over<A: Allocator + Copy>(
    rt: &impl Abort,
    lists: &Lists<A>,
    program: &Program<A>,
    query: Query<A>,
    script: Script<'_>,
)
    requires { IsQueryBounded (query_view query) }
{
    let mut machine = got(rt, start(lists.alloc, program, query));
    follow(rt, lists, &mut machine, script);
}

/// As `follow_over`, with the texts of a program and of a query.
fn follow_anew<A: Allocator + Copy>(
    rt: &impl Abort,
    lists: &Lists<A>,
    texts: (&str, &str),
    script: Script<'_>,
) {
    let (program, query) = both(rt, lists.alloc, texts);
    follow_over(rt, lists, &program, query, script);
}
