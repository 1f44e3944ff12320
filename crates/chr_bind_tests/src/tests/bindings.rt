//! Bindings, guards and values.
use super::*;
use chr_bind::{Bindings, Fault, Match, Test, Unified, are_below, fit, is_below, value};
use chr_semantics::limits::MAX_RULE_VARIABLES;
use chr_term::{Memory, same};

const F: Sym = Sym(7);

const A: Sym = Sym(8);

/// `unify` of terms whose variables are known.
fn unify<A: Allocator + Copy>(
    rt: &impl Abort,
    bindings: &mut Bindings<A>,
    left: &Term<A>,
    right: &Term<A>,
) -> Result<Unified, Memory> {
    let len = bindings.len();
    holds(rt, is_below(len, left));
    holds(rt, is_below(len, right));
    bindings.unify(left, right)
}

/// Whether a term stands for another one, by each call that says so.
fn stands_for<A: Allocator + Copy>(
    rt: &impl Abort,
    bindings: &Bindings<A>,
    term: &Term<A>,
    wanted: &Term<A>,
) -> bool {
    let resolved = got(rt, bindings.resolve(term));
    same(&resolved, wanted) && bindings.resolves_to(term, wanted)
}

/// X is Y, and so is no f(Y).
fn follow<A: Allocator + Copy>(rt: &impl Abort, bindings: &mut Bindings<A>, inside: &Term<A>) {
    let (x, y) = (Term::Var(0), Term::Var(1));
    equal(rt, got(rt, unify(rt, bindings, &x, &y)), Unified::Bound);
    holds(rt, stands_for(rt, bindings, &y, &x));
    equal(rt, got(rt, unify(rt, bindings, &x, &y)), Unified::Same);
    equal(rt, got(rt, unify(rt, bindings, &x, inside)), Unified::Clash);
    holds(rt, stands_for(rt, bindings, &y, &x));
    holds(rt, !bindings.ground(inside));
}

#[test]
fn binding_calls(rt: HostRuntime) {
    let mut bindings = Bindings::new(rt.alloc());
    got(&rt, bindings.room(2));
    equal(&rt, got(&rt, bindings.fresh(2)), 0);
    equal(&rt, bindings.len(), 2);
    let inside = node(&rt, rt.alloc(), F, [Term::Var(1)]);
    follow(&rt, &mut bindings, &inside);
}

/// Binds a variable to the one before it.
fn bind_back<A: Allocator + Copy>(rt: &impl Abort, bindings: &mut Bindings<A>, var: u64) {
    let (var, less) = (Term::Var(var), Term::Var(var.saturating_sub(1)));
    equal(
        rt,
        got(rt, unify(rt, bindings, &var, &less)),
        Unified::Bound,
    );
}

/// Variables that are bound one by one, each to the one before it, the last one first.
#[test]
fn a_chain_of_variables(rt: HostRuntime) {
    let mut bindings = Bindings::new(rt.alloc());
    got(&rt, bindings.fresh(1000));
    for var in (1..1000u64).rev() {
        bind_back(&rt, &mut bindings, var);
    }
    holds(
        &rt,
        stands_for(&rt, &bindings, &Term::Var(999), &Term::Var(0)),
    );
}

/// A call that is refused in turn.
#[derive(Clone, Copy, Debug, Drop)]
enum Call {
    Room,
    Fresh,
    Resolve,
    Unify,
}

/// Whether the call over the variables X, Y and Z, of which Y is X, with f(Y), answers as it should: f(Y) stands for f(X). The arguments of f(Z)
/// and f(Y) are unified by lists, which take memory.
fn answers<A: Allocator + Copy>(
    rt: &impl Abort,
    call: Call,
    bindings: &mut Bindings<A>,
    (term, wanted, other): (&Term<A>, &Term<A>, &Term<A>),
) -> bool {
    match call {
        Call::Room => bindings.room(1000).is_ok(),
        Call::Fresh => bindings.fresh(1000) == Ok(3),
        Call::Resolve => bindings
            .resolve(term)
            .is_ok_and(|resolved| same(&resolved, wanted)),
        Call::Unify => {
            let is_bound = unify(rt, bindings, other, term) == Ok(Unified::Bound);
            is_bound && bindings.resolves_to(other, wanted)
        }
    }
}

/// Whether the call goes through with `left` growths. A refused one leaves the bindings as they were, and can be called again.
///
/// For any allocator, here and below: proofs for the meter as the allocator would take much longer.
fn is_through<M: Allocator + Copy>(
    rt: &impl Abort,
    meter: &Refusing<Global>,
    call: Call,
    bindings: &mut Bindings<M>,
    terms: (&Term<M>, &Term<M>, &Term<M>),
    left: u64,
) -> bool {
    meter.allow(left);
    let is_done = answers(rt, call, bindings, terms);
    equal(rt, !is_done, was_refused(meter, left));
    if !is_done {
        equal(rt, bindings.len(), 3);
        holds(rt, bindings.resolves_to(&Term::Var(1), &Term::Var(0)));
        holds(rt, bindings.resolves_to(&Term::Var(2), &Term::Var(2)));
        holds(rt, answers(rt, call, bindings, terms));
    }
    is_done
}

/// A list of one term.
fn one<M: Allocator + Copy>(rt: &impl Abort, alloc: M, only: Term<M>) -> Vec<Term<M>, M> {
    got(rt, Vec::from_array(alloc, [only]))
}

/// As `is_through`, over bindings of its own.
fn is_called<M: Allocator + Copy>(
    rt: &impl Abort,
    alloc: M,
    meter: &Refusing<Global>,
    call: Call,
    left: u64,
) -> bool {
    meter.allow(AMPLE);
    let mut bindings = Bindings::new(alloc);
    got(rt, bindings.fresh(3));
    got(rt, unify(rt, &mut bindings, &Term::Var(0), &Term::Var(1)));
    let term = node(rt, alloc, F, [Term::Var(1)]);
    let wanted = node(rt, alloc, F, [Term::Var(0)]);
    let other = node(rt, alloc, F, [Term::Var(2)]);
    let terms = (&term, &wanted, &other);
    is_through(rt, meter, call, &mut bindings, terms, left)
}

#[test]
fn bindings_refused(rt: HostRuntime) {
    let meter = Refusing::new(rt.alloc(), 0);
    for call in [Call::Room, Call::Fresh, Call::Resolve, Call::Unify] {
        let refused = refused_in_turn(MOST, |left| is_called(&rt, &meter, &meter, call, left));
        assert!(&rt; refused > 0 && refused < MOST, "{call:?} {refused}");
    }
}

/// Whether `holds`, with the patterns matched to the terms, goes through with `left` growths. It then answers `wanted`.
fn is_tested<M: Allocator + Copy>(
    rt: &impl Abort,
    (alloc, meter): (M, &Refusing<Global>),
    test: &Test<M>,
    (patterns, terms): (&[Term<M>], &[Term<M>]),
    (wanted, left): (bool, u64),
) -> bool {
    let mut matching = Match::new();
    holds(rt, are_below(MAX_RULE_VARIABLES as u64, patterns));
    holds(rt, fit(patterns, terms, &mut matching));
    meter.allow(left);
    let is_done = chr_bind::holds(alloc, test, &matching).is_ok();
    equal(rt, !is_done, was_refused(meter, left));
    equal(rt, got(rt, chr_bind::holds(alloc, test, &matching)), wanted);
    is_done
}

/// As `is_tested`, for `X \= a`, with X matched to a term.
fn is_guarded<M: Allocator + Copy>(
    rt: &impl Abort,
    alloc: M,
    meter: &Refusing<Global>,
    (matched, wanted): (Term<M>, bool),
    left: u64,
) -> bool {
    meter.allow(AMPLE);
    let patterns = one(rt, alloc, Term::Var(0));
    let terms = one(rt, alloc, matched);
    let name = got(rt, Term::node(alloc, A, Vec::new(alloc)));
    let test = Test::NotUnifiable(Term::Var(0), name);
    let lists = (patterns.as_slice(), terms.as_slice());
    is_tested(rt, (alloc, meter), &test, lists, (wanted, left))
}

#[test]
fn guard_calls(rt: HostRuntime) {
    let meter = Refusing::new(rt.alloc(), 0);
    holds(
        &rt,
        is_guarded(&rt, &meter, &meter, (Term::Var(0), false), AMPLE),
    );
    holds(
        &rt,
        is_guarded(&rt, &meter, &meter, (Term::Int(1), true), AMPLE),
    );
}

#[test]
fn holds_refused(rt: HostRuntime) {
    let meter = Refusing::new(rt.alloc(), 0);
    let refused = refused_in_turn(MOST, |left| {
        is_guarded(&rt, &meter, &meter, (Term::Var(0), false), left)
    });
    assert!(&rt; refused > 0 && refused < MOST, "{refused}");
}

/// The value of a symbol over two terms.
fn value_over(
    rt: &impl Abort,
    alloc: Global,
    sym: Sym,
    left: Term,
    right: Term,
) -> Result<i128, Fault> {
    value(&node(rt, alloc, sym, [left, right]))
}

/// As `value_over`, of two numbers.
fn value_of(
    rt: &impl Abort,
    alloc: Global,
    sym: Sym,
    left: i128,
    right: i128,
) -> Result<i128, Fault> {
    value_over(rt, alloc, sym, Term::Int(left), Term::Int(right))
}

#[test]
fn whole_numbers(rt: HostRuntime) {
    for (sym, left, right, wanted) in [
        (Sym::PLUS, 9223372036854775807, 1, Ok(9223372036854775808)),
        (
            Sym::DIVIDE,
            -9223372036854775808,
            -1,
            Ok(9223372036854775808),
        ),
        (Sym::DIVIDE, -7, 2, Ok(-3)),
        (Sym::MODULO, -7, 2, Ok(1)),
        (Sym::MODULO, 7, -2, Ok(-1)),
        (Sym::DIVIDE, i128::MIN, -1, Err(Fault::Overflow)),
        (Sym::MODULO, i128::MIN, -1, Ok(0)),
        (Sym::DIVIDE, 1, 0, Err(Fault::ZeroDivisor)),
    ] {
        equal(&rt, value_of(&rt, rt.alloc(), sym, left, right), wanted);
    }
}

/// The left side is looked at first.
#[test]
fn no_numbers(rt: HostRuntime) {
    let alloc = rt.alloc();
    let name = got(&rt, Term::node(alloc, A, Vec::new(alloc)));
    let unbound = value_over(&rt, alloc, Sym::PLUS, Term::Var(0), name);
    equal(&rt, unbound, Err(Fault::Unbound));
    let name = got(&rt, Term::node(alloc, A, Vec::new(alloc)));
    let not_number = value_over(&rt, alloc, Sym::PLUS, name, Term::Var(0));
    equal(&rt, not_number, Err(Fault::NotNumber));
}
