use chr_read::{read_program, read_query};
use chr_rules::*;
use chr_term::{Sym, Term};
use chr_texts::{both_of, program_of};
use refusing_alloc::{Refusing, refused_in_turn};
use std::alloc::{Allocator, Global};
use std::process::Abort;

mod checks;
mod refusals;
mod sizes;

use checks::{equal, got, holds};

/// A rule with something of each kind, and a query over it.
const PROGRAM: &str = ":- chr_constraint p/1, q/2.
r @ p(X) # passive, q(X,_) \\ p([a|T]) <=> X+1 > 2, integer(T) | Z is X//T, p(f(Z)), fail.";

const QUERY: &str = "p(1), p(2), X = [Y,new|X], fail.";

/// `p` and `q` of `PROGRAM`: the first symbols after the seven that each program has.
const P: Sym = Sym(7);

const Q: Sym = Sym(8);

/// What the program `PROGRAM` shows.
fn assert_program<A: Allocator>(rt: &impl Abort, program: &Program<A>) {
    equal(rt, program.names().find("q", 2), Some(Q));
    holds(rt, program.rules() == 1);
    let rule = program.rule(0);
    equal(rt, rule.label.as_str(), "r");
    equal(rt, (rule.kept, rule.heads.len(), rule.vars), (2, 3, 4));
    equal(rt, (rule.guard.len(), rule.body.len()), (2, 3));
    equal(rt, rule.passive.as_slice(), &[true, false, false]);
    for (sym, place) in [(P, 2), (Q, 1)] {
        let only = Occurrence { rule: 0, place };
        equal(rt, program.occurrences(sym), &[only]);
    }
}

/// Whether a goal is `p` over a number.
fn is_p<A: Allocator>(goal: Option<&Goal<A>>, number: i128) -> bool {
    match goal {
        Some(Goal::Chr(P, args)) => matches!(args.as_slice(), [Term::Int(only)] if *only == number),
        _ => false,
    }
}

/// The first two goals of a query are p(1) and p(2), and it has this number of goals and of variables.
fn assert_query<A: Allocator>(rt: &impl Abort, query: &Query<A>, goals: usize, vars: usize) {
    holds(rt, is_p(query.goals.get(0), 1));
    holds(rt, is_p(query.goals.get(1), 2));
    equal(
        rt,
        (query.goals.len(), query.var_names.len()),
        (goals, vars),
    );
}

/// Each call with ample memory.
#[test]
fn query_calls(rt: HostRuntime) {
    let (program, query) = got(&rt, both_of(rt.alloc(), PROGRAM, "p(1), p(2)."));
    assert_program(&rt, &program);
    assert_query(&rt, &query, 2, 0);
    assert_query(&rt, &got(&rt, query.copy()), 2, 0);
}
