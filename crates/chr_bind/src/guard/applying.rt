//! Tests with what a match gives put in.
ghost use Rattle.std.specs.Prelude.{◌≡◌, IfOk};
ghost use Rattle.chr_semantics.specs.Subst.{Subst, apply};
ghost use Rattle.chr_semantics.specs.Verdict.{applied as applied_by};
ghost use Rattle.chr_term.specs.TermView.{view};
ghost use Rattle.chr_bind.specs.Guards.{over, test_view};
ghost use Rattle.chr_bind.specs.Matching.{AgreesWith};

use super::{Test, made_instance};
use crate::Memory;
use crate::matching::Match;
use chr_term::Term;
use std::alloc::Allocator;

/// Two terms with what their variables are matched to put in.
fn both_applied<A: Allocator + Copy>(
    alloc: A,
    matching: &Match<'_, A>,
    left: &Term<A>,
    right: &Term<A>,
) -> Result<(Term<A>, Term<A>), Memory>
    ensures left { IfOk result (λ both. (m : Subst) → AgreesWith matching.now m → view both.0 ≡ apply m (view left.now)) }
    ensures right { IfOk result (λ both. (m : Subst) → AgreesWith matching.now m → view both.1 ≡ apply m (view right.now)) }
{
    let left = made_instance(alloc, matching, left)?;
    Ok((left, made_instance(alloc, matching, right)?))
}

/// The test over other terms, of which one of a single term takes the first.
fn over<A: Allocator>(test: &Test<A>, left: Term<A>, right: Term<A>) -> Test<A>
    ensures { test_view result ≡ over (test_view test.now) (view left) (view right) }
{
    match test {
        Test::Identical(_, _) => Test::Identical(left, right),
        Test::NotUnifiable(_, _) => Test::NotUnifiable(left, right),
        Test::Less(_, _) => Test::Less(left, right),
        Test::Greater(_, _) => Test::Greater(left, right),
        Test::AtMost(_, _) => Test::AtMost(left, right),
        Test::AtLeast(_, _) => Test::AtLeast(left, right),
        Test::Equals(_, _) => Test::Equals(left, right),
        Test::Differs(_, _) => Test::Differs(left, right),
        Test::Integer(_) => Test::Integer(left),
        Test::Ground(_) => Test::Ground(left),
    }
}

/// The test with what its variables are matched to put in.
pub fn applied<A: Allocator + Copy>(
    alloc: A,
    test: &Test<A>,
    matching: &Match<'_, A>,
) -> Result<Test<A>, Memory>
    ensures { IfOk result (λ made. (m : Subst) → AgreesWith matching.now m →
        test_view made ≡ applied_by m (test_view test.now)) }
{
    let (left, right) = match test {
        Test::Identical(left, right) | Test::NotUnifiable(left, right) => (left, right),
        Test::Less(left, right) | Test::Greater(left, right) => (left, right),
        Test::AtMost(left, right) | Test::AtLeast(left, right) => (left, right),
        Test::Equals(left, right) | Test::Differs(left, right) => (left, right),
        Test::Integer(term) => return Ok(Test::Integer(made_instance(alloc, matching, term)?)),
        Test::Ground(term) => return Ok(Test::Ground(made_instance(alloc, matching, term)?)),
    };
    let (left, right) = both_applied(alloc, matching, left, right)?;
    Ok(over(test, left, right))
}
