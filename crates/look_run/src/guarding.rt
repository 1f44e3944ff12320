//! Tests of guards that are not entailed.

use crate::page::Page;
use crate::teller::Teller;
use chr_bind::{Fault, Lack, Test, value};
use chr_term::Term;
use std::alloc::Allocator;

/// The terms of a test: where it has one, that twice.
fn terms(test: &Test) -> (&Term, &Term) {
    match test {
        Test::Identical(left, right) | Test::NotUnifiable(left, right) => (left, right),
        Test::Less(left, right) | Test::Greater(left, right) => (left, right),
        Test::AtMost(left, right) | Test::AtLeast(left, right) => (left, right),
        Test::Equals(left, right) | Test::Differs(left, right) => (left, right),
        Test::Integer(term) | Test::Ground(term) => (term, term),
    }
}

/// What is written before the term of a test of one term, or between the terms of another.
fn sign(test: &Test) -> &'static str {
    match test {
        Test::Identical(_, _) => " = ",
        Test::NotUnifiable(_, _) => " \\= ",
        Test::Less(_, _) => " < ",
        Test::Greater(_, _) => " > ",
        Test::AtMost(_, _) => " =< ",
        Test::AtLeast(_, _) => " >= ",
        Test::Equals(_, _) => " =:= ",
        Test::Differs(_, _) => " =\\= ",
        Test::Integer(_) => "integer(",
        Test::Ground(_) => "ground(",
    }
}

/// Writes a test.
fn write_test(teller: &Teller<'_, '_>, test: &Test, page: &mut Page) {
    match test {
        Test::Integer(term) | Test::Ground(term) => {
            page.text(sign(test));
            teller.write_term(term, page);
            page.text(")");
        }
        _ => {
            let (left, right) = terms(test);
            teller.write_term(left, page);
            page.text(sign(test));
            teller.write_term(right, page);
        }
    }
}

/// The first variable of a term.
#[cycle(variable)]
fn first_variable<A: Allocator>(term: &Term<A>) -> Option<u64> {
    match term {
        Term::Var(variable) => Some(*variable),
        Term::Int(_) => None,
        Term::Node(_, args) => first_of_all(args.as_slice()),
    }
}

/// The first variable of terms.
#[cycle(variable)]
fn first_of_all<A: Allocator>(terms: &[Term<A>]) -> Option<u64> {
    for term in terms {
        if let Some(variable) = first_variable(term) {
            return Some(variable);
        }
    }
    None
}

/// Writes which variable has to have a value before a test is decided.
fn write_unbound(teller: &Teller<'_, '_>, test: &Test, page: &mut Page) {
    let (left, right) = terms(test);
    match first_variable(left).or(first_variable(right)) {
        None => {}
        Some(variable) => {
            teller.write_term(&Term::Var(variable), page);
            page.text(" has no value yet");
        }
    }
}

/// Why a test is false of the terms that stand there.
fn untruth(test: &Test) -> &'static str {
    match test {
        Test::Identical(_, _) => "no binding makes them equal",
        Test::NotUnifiable(_, _) => "they are identical",
        Test::Integer(_) => "it is no integer",
        Test::Ground(_) => "it has variables",
        _ => "it is false",
    }
}

/// Writes which side of a comparison has no value whatever is bound, and why.
fn write_fault(teller: &Teller<'_, '_>, test: &Test, page: &mut Page) {
    let (left, right) = terms(test);
    let (side, fault) = match (value(left), value(right)) {
        (Err(fault), _) if fault != Fault::Unbound => (left, fault),
        (_, Err(fault)) => (right, fault),
        _ => return,
    };
    teller.write_term(side, page);
    page.text(" has no value: fault ");
    page.text(fault.word());
}

/// Writes a test that is not entailed, and why it is not.
pub(crate) fn write_lack(teller: &Teller<'_, '_>, test: &Test, lack: Lack, page: &mut Page) {
    page.text("  ");
    write_test(teller, test, page);
    page.text(": ");
    match lack {
        Lack::Untrue => page.text(untruth(test)),
        Lack::Undecided => write_unbound(teller, test, page),
        Lack::Never => write_fault(teller, test, page),
    }
}
