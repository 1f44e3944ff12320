//! Arithmetic among numbers of 64 bits, which takes few instructions. Where a number or a result has more, or there is a fault, nothing is
//! said: the value is then told in full.
ghost use Rattle.std.specs.Prelude.{◌≡◌, ◌∷◌, [], ◌≢◌, IfSome, Ok, int_div, negsuc, pos};
ghost use Rattle.chr_semantics.specs.Tree.{int};
ghost use Rattle.chr_semantics.specs.Value.{modulo as modulo_of, node_value, value_in_range};
ghost use Rattle.chr_term.specs.TermView.{view};

use chr_term::{Sym, Term};
use std::alloc::Allocator;

/// The number, where it has 64 bits.
pub(crate) fn short(number: i128) -> Option<i64>
    ensures { IfSome result (λ short. short ≡ number) }
{
    match i64::try_from(number) {
        Ok(short) => Some(short),
        Err(_) => None,
    }
}

/// The number that a term is, where it is one of 64 bits.
pub(crate) fn short_number<A: Allocator>(term: &Term<A>) -> Option<i64>
    ensures { IfSome result (λ short. view term.now ≡ int short) }
{
    match term {
        Term::Var(_) => None,
        Term::Int(number) => short(*number),
        Term::Node(_, _) => None,
    }
}

/// The remainder with the sign of the divisor.
fn short_modulo(left: i64, right: i64) -> i64
    requires some { right ≢ pos 0 }
    requires in_range { right ≢ negsuc 0 }
    ensures { result ≡ modulo_of left right }
{
    let rest = left % right;
    if rest == 0 {
        return rest;
    }
    match (rest < 0, right < 0) {
        (true, true) => rest,
        (true, false) => rest + right,
        (false, true) => rest + right,
        (false, false) => rest,
    }
}

/// The quotient, towards zero.
fn short_quotient(left: i64, right: i64) -> i64
    requires some { right ≢ pos 0 }
    requires in_range { right ≢ negsuc 0 }
    ensures { value_in_range (int_div left right) ≡ Ok result }
{
    left / right
}

/// What a symbol gives for two numbers. The least number has no quotient by -1, so nothing is divided by that here.
pub(crate) fn apply_short(sym: Sym, left: i64, right: i64) -> Option<i64>
    ensures { IfSome result (λ short. node_value sym.0 (Ok left ∷ Ok right ∷ []) ≡ Ok short) }
{
    if sym == Sym::PLUS {
        left.checked_add(right)
    } else if sym == Sym::MINUS {
        left.checked_sub(right)
    } else if sym == Sym::TIMES {
        left.checked_mul(right)
    } else if right == 0 || right == -1 {
        None
    } else if sym == Sym::MODULO {
        Some(short_modulo(left, right))
    } else if sym == Sym::DIVIDE {
        Some(short_quotient(left, right))
    } else {
        None
    }
}
