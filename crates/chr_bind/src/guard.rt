//! Guards over what the variables of a rule are matched to.
ghost use Rattle.std.specs.Prelude.{◌≡◌, IfOk, IfSome, Ok, map};
ghost use Rattle.chr_semantics.specs.Guard.{all_entailed, entailed, value_comparison_holds, is_int};
ghost use Rattle.chr_semantics.specs.Program.{identical, is_ground as is_ground_test, is_integer, not_unifiable};
ghost use Rattle.chr_semantics.specs.Subst.{Subst, apply, instances, value_at};
ghost use Rattle.chr_semantics.specs.Value.{node_value, value as value_of, values};
ghost use Rattle.chr_term.specs.TermView.{trees_view, view};
ghost use Rattle.chr_bind.specs.Comparison.{comparison_view};
ghost use Rattle.chr_bind.specs.Guards.{instance_view, test_view};
ghost use Rattle.chr_bind.specs.Matching.{AgreesWith};
ghost use Rattle.chr_bind.specs.Values.{value_view};

use crate::Memory;
use crate::arithmetic::{evaluate_operator, pair_of, value};
use crate::comparison::Comparison;
use crate::fault::Fault;
use crate::matching::Match;
use crate::renaming::are_unifiable;
use crate::short::{apply_short, short, short_number};
use chr_term::{Args, Sym, Term, copy, is_ground, same};
use std::alloc::{Allocator, Global};

mod applying;
mod lack;

pub use applying::applied;
pub use lack::{Lack, lack_of};

/// A test of a guard. Its terms are over the variables of the rule's heads.
#[derive(Drop)]
pub enum Test<A: Allocator = Global> {
    /// `s = t`: both are identical.
    Identical(Term<A>, Term<A>),
    /// `s \= t`: nothing makes them equal.
    NotUnifiable(Term<A>, Term<A>),
    /// `s < t`
    Less(Term<A>, Term<A>),
    /// `s > t`
    Greater(Term<A>, Term<A>),
    /// `s =< t`
    AtMost(Term<A>, Term<A>),
    /// `s >= t`
    AtLeast(Term<A>, Term<A>),
    /// `s =:= t`
    Equals(Term<A>, Term<A>),
    /// `s =\= t`
    Differs(Term<A>, Term<A>),
    /// `integer(t)`: a whole number, not evaluated.
    Integer(Term<A>),
    /// `ground(t)`: no variable.
    Ground(Term<A>),
}

/// What a pattern is under a match: lent where that is a whole term, else made.
#[derive(Drop)]
enum Instance<'t, A: Allocator> {
    Lent(&'t Term<A>),
    Made(Term<A>),
}

impl<'t, A: Allocator> Instance<'t, A> {
    fn term(&self) -> &Term<A>
        ensures { view result.now ≡ instance_view self.now }
    {
        match self {
            Instance::Lent(term) => term,
            Instance::Made(term) => term,
        }
    }
}

/// The pattern under the match. A pattern that is one variable is not copied.
fn instance_of<'t, A: Allocator + Copy>(
    alloc: A,
    matching: &Match<'t, A>,
    pattern: &'t Term<A>,
) -> Result<Instance<'t, A>, Memory>
    ensures { IfOk result (λ instance. (m : Subst) → AgreesWith matching.now m →
        instance_view instance ≡ apply m (view pattern.now)) }
{
    match pattern {
        Term::Var(x) => match matching.get(*x) {
            Some(matched) => Ok(Instance::Lent(matched)),
            None => Ok(Instance::Lent(pattern)),
        },
        Term::Int(_) => Ok(Instance::Lent(pattern)),
        Term::Node(_, _) => Ok(Instance::Made(made_instance(alloc, matching, pattern)?)),
    }
}

/// The pattern with what its variables are matched to put in.
#[cycle(instance)]
fn made_instance<A: Allocator + Copy>(
    alloc: A,
    matching: &Match<'_, A>,
    pattern: &Term<A>,
) -> Result<Term<A>, Memory>
    ensures { IfOk result (λ made. (m : Subst) → AgreesWith matching.now m →
        view made ≡ apply m (view pattern.now)) }
{
    match pattern {
        Term::Var(x) => match matching.get(*x) {
            Some(matched) => copy(matched),
            None => Ok(Term::Var(*x)),
        },
        Term::Int(number) => Ok(Term::Int(*number)),
        Term::Node(sym, patterns) => Ok(Term::Node(
            *sym,
            Args::new(alloc, made_instances(alloc, matching, patterns.as_slice())?)?,
        )),
    }
}

#[cycle(instance)]
fn made_instances<A: Allocator + Copy>(
    alloc: A,
    matching: &Match<'_, A>,
    patterns: &[Term<A>],
) -> Result<Vec<Term<A>, A>, Memory>
    ensures { IfOk result (λ made. (m : Subst) → AgreesWith matching.now m →
        trees_view made.items ≡ instances (value_at m) (trees_view patterns.now)) }
{
    let mut items = Vec::with_capacity(alloc, patterns.len())?;
    for pattern in patterns {
        items.push(made_instance(alloc, matching, pattern)?)?;
    }
    Ok(items)
}

/// The value of a pattern under the match, for which no term is made.
#[cycle(matched_value)]
fn value_under<A: Allocator>(matching: &Match<'_, A>, pattern: &Term<A>) -> Result<i128, Fault>
    ensures { (m : Subst) → AgreesWith matching.now m →
        value_view result ≡ value_of (apply m (view pattern.now)) }
{
    match pattern {
        Term::Var(x) => match matching.get(*x) {
            Some(matched) => value(matched),
            None => Err(Fault::Unbound),
        },
        Term::Int(number) => Ok(*number),
        Term::Node(sym, patterns) => node_value_under(matching, *sym, patterns.as_slice()),
    }
}

/// The value of a symbol over patterns under the match.
#[cycle(matched_value)]
fn node_value_under<A: Allocator>(
    matching: &Match<'_, A>,
    sym: Sym,
    patterns: &[Term<A>],
) -> Result<i128, Fault>
    ensures { (m : Subst) → AgreesWith matching.now m →
        value_view result ≡ node_value sym.0 (values (instances (value_at m) (trees_view patterns.now))) }
{
    match pair_of(patterns) {
        Some((left, right)) => {
            let left = value_under(matching, left);
            evaluate_operator(sym, left, value_under(matching, right))
        }
        None => Err(Fault::NotNumber),
    }
}

/// The value of a pattern under the match, where it and all that it is made of have 64 bits.
#[cycle(short_value)]
fn short_value_under<A: Allocator>(matching: &Match<'_, A>, pattern: &Term<A>) -> Option<i64>
    ensures { IfSome result (λ short. (m : Subst) → AgreesWith matching.now m →
        value_of (apply m (view pattern.now)) ≡ Ok short) }
{
    match pattern {
        Term::Var(x) => match matching.get(*x) {
            Some(matched) => short_number(matched),
            None => None,
        },
        Term::Int(number) => short(*number),
        Term::Node(sym, patterns) => short_node_value_under(matching, *sym, patterns.as_slice()),
    }
}

/// The value of a symbol over patterns under the match, where that is so.
#[cycle(short_value)]
fn short_node_value_under<A: Allocator>(
    matching: &Match<'_, A>,
    sym: Sym,
    patterns: &[Term<A>],
) -> Option<i64>
    ensures { IfSome result (λ short. (m : Subst) → AgreesWith matching.now m →
        node_value sym.0 (values (instances (value_at m) (trees_view patterns.now))) ≡ Ok short) }
{
    let (left, right) = pair_of(patterns)?;
    let left = short_value_under(matching, left)?;
    let right = short_value_under(matching, right)?;
    apply_short(sym, left, right)
}

/// As `compares`, for all numbers.
fn compares_in_full<A: Allocator>(
    matching: &Match<'_, A>,
    comparison: Comparison,
    left: &Term<A>,
    right: &Term<A>,
) -> bool
    ensures { (m : Subst) → AgreesWith matching.now m →
        result ≡ value_comparison_holds (comparison_view comparison)
        (value_of (apply m (view left.now))) (value_of (apply m (view right.now))) }
{
    match (value_under(matching, left), value_under(matching, right)) {
        (Ok(left), Ok(right)) => comparison.holds(left, right),
        (Ok(_), Err(_)) => false,
        (Err(_), Ok(_)) => false,
        (Err(_), Err(_)) => false,
    }
}

/// Whether both sides have values, and the comparison holds of them.
fn compares<A: Allocator>(
    matching: &Match<'_, A>,
    comparison: Comparison,
    left: &Term<A>,
    right: &Term<A>,
) -> bool
    ensures { (m : Subst) → AgreesWith matching.now m →
        result ≡ value_comparison_holds (comparison_view comparison)
        (value_of (apply m (view left.now))) (value_of (apply m (view right.now))) }
{
    match (
        short_value_under(matching, left),
        short_value_under(matching, right),
    ) {
        (Some(left), Some(right)) => comparison.holds(i128::from(left), i128::from(right)),
        _ => compares_in_full(matching, comparison, left, right),
    }
}

/// Whether the term is a whole number.
fn is_whole_number<A: Allocator>(term: &Term<A>) -> bool
    ensures { result ≡ is_int (view term.now) }
{
    match term {
        Term::Var(_) => false,
        Term::Int(_) => true,
        Term::Node(_, _) => false,
    }
}

/// Whether the terms are identical.
fn are_identical<A: Allocator + Copy>(
    alloc: A,
    matching: &Match<'_, A>,
    left: &Term<A>,
    right: &Term<A>,
) -> Result<bool, Memory>
    ensures { IfOk result (λ so. (m : Subst) → AgreesWith matching.now m →
        so ≡ entailed m (identical (view left.now) (view right.now))) }
{
    let left = instance_of(alloc, matching, left)?;
    let right = instance_of(alloc, matching, right)?;
    Ok(same(left.term(), right.term()))
}

/// Whether nothing makes the terms equal.
fn are_not_unifiable<A: Allocator + Copy>(
    alloc: A,
    matching: &Match<'_, A>,
    left: &Term<A>,
    right: &Term<A>,
) -> Result<bool, Memory>
    ensures { IfOk result (λ so. (m : Subst) → AgreesWith matching.now m →
        so ≡ entailed m (not_unifiable (view left.now) (view right.now))) }
{
    let left = instance_of(alloc, matching, left)?;
    let right = instance_of(alloc, matching, right)?;
    Ok(!are_unifiable(alloc, left.term(), right.term())?)
}

/// Whether the term is a whole number.
fn is_integer_under<A: Allocator + Copy>(
    alloc: A,
    matching: &Match<'_, A>,
    term: &Term<A>,
) -> Result<bool, Memory>
    ensures { IfOk result (λ so. (m : Subst) → AgreesWith matching.now m →
        so ≡ entailed m (is_integer (view term.now))) }
{
    Ok(is_whole_number(instance_of(alloc, matching, term)?.term()))
}

/// Whether the term has no variable.
fn is_ground_under<A: Allocator + Copy>(
    alloc: A,
    matching: &Match<'_, A>,
    term: &Term<A>,
) -> Result<bool, Memory>
    ensures { IfOk result (λ so. (m : Subst) → AgreesWith matching.now m →
        so ≡ entailed m (is_ground_test (view term.now))) }
{
    Ok(is_ground(instance_of(alloc, matching, term)?.term()))
}

/// Whether the test is entailed by the match.
pub fn holds<A: Allocator + Copy>(
    alloc: A,
    test: &Test<A>,
    matching: &Match<'_, A>,
) -> Result<bool, Memory>
    ensures { IfOk result (λ so. (m : Subst) → AgreesWith matching.now m →
        so ≡ entailed m (test_view test.now)) }
{
    match test {
        Test::Identical(left, right) => are_identical(alloc, matching, left, right),
        Test::NotUnifiable(left, right) => are_not_unifiable(alloc, matching, left, right),
        Test::Less(left, right) => Ok(compares(matching, Comparison::Less, left, right)),
        Test::Greater(left, right) => Ok(compares(matching, Comparison::Greater, left, right)),
        Test::AtMost(left, right) => Ok(compares(matching, Comparison::AtMost, left, right)),
        Test::AtLeast(left, right) => Ok(compares(matching, Comparison::AtLeast, left, right)),
        Test::Equals(left, right) => Ok(compares(matching, Comparison::Equals, left, right)),
        Test::Differs(left, right) => Ok(compares(matching, Comparison::Differs, left, right)),
        Test::Integer(term) => is_integer_under(alloc, matching, term),
        Test::Ground(term) => is_ground_under(alloc, matching, term),
    }
}

/// Whether each test of a guard is entailed by the match.
pub fn guard_holds<A: Allocator + Copy>(
    alloc: A,
    tests: &[Test<A>],
    matching: &Match<'_, A>,
) -> Result<bool, Memory>
    ensures { IfOk result (λ so. (m : Subst) → AgreesWith matching.now m →
        so ≡ all_entailed m (map test_view tests.now)) }
{
    for test in tests {
        if !holds(alloc, test, matching)? {
            return Ok(false);
        }
    }
    Ok(true)
}
