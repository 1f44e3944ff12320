//! Values of arithmetic terms.
ghost use Rattle.std.specs.Prelude.{◌≡◌, ◌≢◌, ◌==◌, ◌∷◌, [], cond, int_div, pos, IsTrue, ◌↔◌, ◌≤◌, MatchOption, Ok, length};
ghost use Rattle.chr_semantics.specs.Names.{divide_symbol};
ghost use Rattle.chr_semantics.specs.Value.{operator_value, modulo as modulo_of, node_value, value as value_of, value_in_range, values};
ghost use Rattle.chr_term.specs.TermView.{trees_view, view};
ghost use Rattle.chr_bind.specs.Values.{checked_value, value_view};

use crate::fault::Fault;
use chr_term::{Sym, Term};
use std::alloc::Allocator;

/// The value of a resolved term. The operators are `+`, `-`, `*`, `//` and `mod` with two arguments: the left one is evaluated, then
/// the right one, and the first fault counts.
#[cycle(value)]
pub fn value<A: Allocator>(term: &Term<A>) -> Result<i128, Fault>
    ensures { value_view result ≡ value_of (view term.now) }
{
    match term {
        Term::Var(_) => Err(Fault::Unbound),
        Term::Int(number) => Ok(*number),
        Term::Node(sym, args) => evaluate_node(*sym, args.as_slice()),
    }
}

/// The value of a symbol over arguments.
#[cycle(value)]
fn evaluate_node<A: Allocator>(sym: Sym, args: &[Term<A>]) -> Result<i128, Fault>
    ensures { value_view result ≡ node_value sym.0 (values (trees_view args.now)) }
{
    match pair_of(args) {
        Some((left, right)) => {
            let left = value(left);
            evaluate_operator(sym, left, value(right))
        }
        None => Err(Fault::NotNumber),
    }
}

/// The two arguments, where there are two.
pub(crate) fn pair_of<A: Allocator>(args: &[Term<A>]) -> Option<(&Term<A>, &Term<A>)>
    ensures { MatchOption result (length args.now ≢ 2)
        (λ pair. args.now ≡ pair.0.now ∷ pair.1.now ∷ []) }
{
    if args.len() == 2 {
        Some((&args[0], &args[1]))
    } else {
        None
    }
}

/// What a symbol gives for two values: nothing but a fault where it is no operator.
pub(crate) fn evaluate_operator(
    sym: Sym,
    left: Result<i128, Fault>,
    right: Result<i128, Fault>,
) -> Result<i128, Fault>
    ensures { value_view result ≡ node_value sym.0 (value_view left ∷ value_view right ∷ []) }
{
    if !is_operator(sym) {
        return Err(Fault::NotNumber);
    }
    match (left, right) {
        (Ok(left), Ok(right)) => apply_operator(sym, left, right),
        (Ok(_), Err(fault)) => Err(fault),
        (Err(fault), Ok(_)) => Err(fault),
        (Err(fault), Err(_)) => Err(fault),
    }
}

/// Whether the symbol is one of the five operators.
fn is_operator(sym: Sym) -> bool
    ensures { IsTrue result ↔ ((2 ≤ sym.0) × (sym.0 ≤ 6)) }
{
    Sym::PLUS.0 <= sym.0 && sym.0 <= Sym::MODULO.0
}

/// What an operator gives for two numbers.
fn apply_operator(sym: Sym, left: i128, right: i128) -> Result<i128, Fault>
    ensures { value_view result ≡ operator_value sym.0 left right }
{
    if sym == Sym::PLUS {
        in_range(left.checked_add(right))
    } else if sym == Sym::MINUS {
        in_range(left.checked_sub(right))
    } else if sym == Sym::TIMES {
        in_range(left.checked_mul(right))
    } else if right == 0 {
        Err(Fault::ZeroDivisor)
    } else {
        divide(sym, left, right)
    }
}

/// What `//` or `mod` gives for two numbers.
fn divide(sym: Sym, left: i128, right: i128) -> Result<i128, Fault>
    requires { right ≢ pos 0 }
    ensures { value_view result
        ≡ cond (sym.0 == divide_symbol) (value_in_range (int_div left right)) (Ok (modulo_of left right)) }
{
    if sym == Sym::DIVIDE {
        in_range(left.checked_div(right))
    } else {
        Ok(modulo(left, right))
    }
}

/// A result, or its being outside 128 bits.
fn in_range(number: Option<i128>) -> Result<i128, Fault>
    ensures { value_view result ≡ checked_value number }
{
    match number {
        Some(number) => Ok(number),
        None => Err(Fault::Overflow),
    }
}

/// The remainder with the sign of the divisor.
fn modulo(left: i128, right: i128) -> i128
    requires { right ≢ pos 0 }
    ensures { result ≡ modulo_of left right }
{
    // The least number has no quotient by -1 in range, so `%` is not asked.
    if right == -1 {
        return 0;
    }
    let rest = left % right;
    if rest == 0 {
        return rest;
    }
    match (rest < 0, right < 0) {
        (true, true) => rest,
        (true, false) => rest + right,
        (false, true) => rest + right,
        (false, false) => rest,
    }
}
