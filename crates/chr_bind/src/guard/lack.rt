//! Why a test of a guard is not entailed.
ghost use Rattle.std.specs.Prelude.{◌≡◌, IfOk};
ghost use Rattle.chr_semantics.specs.Program.{identical, is_integer, not_unifiable};
ghost use Rattle.chr_semantics.specs.Subst.{Subst, apply};
ghost use Rattle.chr_semantics.specs.Value.{value as value_of};
ghost use Rattle.chr_semantics.specs.Verdict.{is_variable as is_variable_tree, lack as lack_under, lack_of_values as lack_of_both, lack_where};
ghost use Rattle.chr_term.specs.TermView.{view};
ghost use Rattle.chr_bind.specs.Guards.{lack_view, test_view};
ghost use Rattle.chr_bind.specs.Matching.{AgreesWith};
ghost use Rattle.chr_bind.specs.Values.{value_view};

use super::{Test, instance_of, value_under};
use crate::Memory;
use crate::fault::Fault;
use crate::matching::Match;
use crate::renaming::are_unifiable;
use chr_term::{Term, same};
use std::alloc::Allocator;

/// Why a test is not entailed.
#[derive(Clone, Copy, PartialEq, Eq, Debug, Drop)]
pub enum Lack {
    /// It is false of the terms that stand there.
    Untrue,
    /// A binding may yet decide it.
    Undecided,
    /// A side has no value, whatever is bound.
    Never,
}

impl Lack {
    /// The lack of a test that a binding may decide, or that it can't.
    fn decidable(is_decidable: bool) -> Lack
        ensures { lack_view result ≡ lack_where is_decidable }
    {
        if is_decidable {
            Lack::Undecided
        } else {
            Lack::Untrue
        }
    }

    /// The lack of a comparison of what two sides come to.
    fn of_values(left: Result<i128, Fault>, right: Result<i128, Fault>) -> Lack
        ensures { lack_view result ≡ lack_of_both (value_view left) (value_view right) }
    {
        match (left, right) {
            (Ok(_), Ok(_)) => Lack::Untrue,
            (Err(Fault::Unbound), Ok(_) | Err(Fault::Unbound)) => Lack::Undecided,
            (Ok(_), Err(Fault::Unbound)) => Lack::Undecided,
            (_, _) => Lack::Never,
        }
    }
}

/// Why the terms are not identical.
fn lack_of_identity<A: Allocator + Copy>(
    alloc: A,
    matching: &Match<'_, A>,
    left: &Term<A>,
    right: &Term<A>,
) -> Result<Lack, Memory>
    ensures { IfOk result (λ lack. (m : Subst) → AgreesWith matching.now m →
        lack_view lack ≡ lack_under m (identical (view left.now) (view right.now))) }
{
    let left = instance_of(alloc, matching, left)?;
    let right = instance_of(alloc, matching, right)?;
    let unifiable = are_unifiable(alloc, left.term(), right.term())?;
    Ok(Lack::decidable(unifiable))
}

/// Why something may make the terms equal.
fn lack_of_difference<A: Allocator + Copy>(
    alloc: A,
    matching: &Match<'_, A>,
    left: &Term<A>,
    right: &Term<A>,
) -> Result<Lack, Memory>
    ensures { IfOk result (λ lack. (m : Subst) → AgreesWith matching.now m →
        lack_view lack ≡ lack_under m (not_unifiable (view left.now) (view right.now))) }
{
    let left = instance_of(alloc, matching, left)?;
    let right = instance_of(alloc, matching, right)?;
    Ok(Lack::decidable(!same(left.term(), right.term())))
}

/// Whether the term is a variable.
fn is_variable<A: Allocator>(term: &Term<A>) -> bool
    ensures { result ≡ is_variable_tree (view term.now) }
{
    match term {
        Term::Var(_) => true,
        Term::Int(_) => false,
        Term::Node(_, _) => false,
    }
}

/// Why the term is no whole number.
fn lack_of_number<A: Allocator + Copy>(
    alloc: A,
    matching: &Match<'_, A>,
    term: &Term<A>,
) -> Result<Lack, Memory>
    ensures { IfOk result (λ lack. (m : Subst) → AgreesWith matching.now m →
        lack_view lack ≡ lack_under m (is_integer (view term.now))) }
{
    let term = instance_of(alloc, matching, term)?;
    Ok(Lack::decidable(is_variable(term.term())))
}

/// Why the comparison does not hold.
fn lack_of_comparison<A: Allocator>(
    matching: &Match<'_, A>,
    left: &Term<A>,
    right: &Term<A>,
) -> Lack
    ensures { (m : Subst) → AgreesWith matching.now m →
        lack_view result ≡ lack_of_both (value_of (apply m (view left.now))) (value_of (apply m (view right.now))) }
{
    Lack::of_values(value_under(matching, left), value_under(matching, right))
}

/// Why the test is not entailed by the match, where it is not.
pub fn lack_of<A: Allocator + Copy>(
    alloc: A,
    test: &Test<A>,
    matching: &Match<'_, A>,
) -> Result<Lack, Memory>
    ensures { IfOk result (λ lack. (m : Subst) → AgreesWith matching.now m →
        lack_view lack ≡ lack_under m (test_view test.now)) }
{
    match test {
        Test::Identical(left, right) => lack_of_identity(alloc, matching, left, right),
        Test::NotUnifiable(left, right) => lack_of_difference(alloc, matching, left, right),
        Test::Less(left, right) => Ok(lack_of_comparison(matching, left, right)),
        Test::Greater(left, right) => Ok(lack_of_comparison(matching, left, right)),
        Test::AtMost(left, right) => Ok(lack_of_comparison(matching, left, right)),
        Test::AtLeast(left, right) => Ok(lack_of_comparison(matching, left, right)),
        Test::Equals(left, right) => Ok(lack_of_comparison(matching, left, right)),
        Test::Differs(left, right) => Ok(lack_of_comparison(matching, left, right)),
        Test::Integer(term) => lack_of_number(alloc, matching, term),
        Test::Ground(_) => Ok(Lack::Undecided),
    }
}
