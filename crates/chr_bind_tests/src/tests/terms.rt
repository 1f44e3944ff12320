//! Names and terms.
use super::*;
use chr_term::{Names, VarNames, copy, is_ground, print, same};

/// The last symbol is forgotten with its text, and its number is given again.
fn forget_last(rt: &impl Abort, names: &mut Names) {
    names.truncate(9);
    holds(rt, names.len() == 9);
    equal(rt, names.find("f", 1), None);
    equal(rt, names.find("f", 2), Some(Sym(7)));
    equal(rt, got(rt, names.intern("b", 3)), Sym(9));
    holds(rt, names.len() == 10);
    equal(rt, names.name(Sym(9)), "b");
}

/// Symbols that are new, and known ones.
fn follow_names(rt: &impl Abort, names: &mut Names) {
    for (name, arity, number) in [("f", 2, 7), ("a", 0, 8), ("f", 2, 7), ("f", 1, 9)] {
        holds(rt, names.len() < 100);
        equal(rt, got(rt, names.intern(name, arity)), Sym(number));
    }
    holds(rt, names.len() == 10);
    equal(rt, names.find("a", 0), Some(Sym(8)));
    equal(rt, names.name(Sym(9)), "f");
    equal(rt, names.arity(Sym(9)), 1);
}

#[test]
fn names_calls(rt: HostRuntime) {
    let mut names = got(&rt, Names::new(rt.alloc()));
    follow_names(&rt, &mut names);
    forget_last(&rt, &mut names);
}

/// So many different names that their numbers have more than 16 bits.
fn fill(rt: &impl Abort, alloc: Global, names: &mut Names) {
    for number in 0..70_000u32 {
        let name = got(rt, format!(in alloc; "{number}"));
        holds(rt, names.len() < 100_000);
        equal(rt, got(rt, names.intern(&name, 1)), Sym(number + 7));
    }
}

#[test]
fn seventy_thousand_names(rt: HostRuntime) {
    let mut names = got(&rt, Names::new(rt.alloc()));
    fill(&rt, rt.alloc(), &mut names);
    equal(&rt, names.find("65536", 1), Some(Sym(65_543)));
}

/// Names with `f`/2 as symbol 7.
fn names_with_f<A: Allocator + Copy>(rt: &impl Abort, alloc: A) -> Names<A> {
    let mut names = got(rt, Names::new(alloc));
    holds(rt, names.len() < 100);
    got(rt, names.intern("f", 2));
    names
}

/// The names of variables: `X`, or none.
fn var_names<A: Allocator + Copy>(rt: &impl Abort, alloc: A, is_named: bool) -> VarNames<A> {
    let mut texts = Vec::new(alloc);
    if is_named {
        let name = got(rt, String::from_str(alloc, "X"));
        got(rt, texts.push(name));
    }
    VarNames::new(texts)
}

/// The calls of the term f(X,1), which is printed with its variable's name and without.
fn follow_term(rt: &impl Abort, alloc: Global) {
    let term = node(rt, alloc, Sym(7), [Term::Var(0), Term::Int(1)]);
    holds(rt, !is_ground(&term));
    let meter = Refusing::new(alloc, 0);
    for printed in [(true, ">f(X,1)"), (false, ">f(_0,1)")] {
        holds(rt, is_printed(rt, &meter, &meter, printed, AMPLE));
    }
}

#[test]
fn term_calls(rt: HostRuntime) {
    follow_term(&rt, rt.alloc());
}

/// Whether f(X,1) after `>` is printed so with `left` growths, where its variable is named, or is not. A refused call prints nothing, and
/// can be made again.
///
/// For any allocator, here and below: proofs for the meter as the allocator would take much longer.
fn is_printed<M: Allocator + Copy>(
    rt: &impl Abort,
    alloc: M,
    meter: &Refusing<Global>,
    (is_named, wanted): (bool, &str),
    left: u64,
) -> bool {
    meter.allow(AMPLE);
    let names = names_with_f(rt, alloc);
    let vars = var_names(rt, alloc, is_named);
    equal(rt, vars.name(0), is_named.then_some("X"));
    equal(rt, vars.len(), usize::from(is_named));
    let term = node(rt, alloc, Sym(7), [Term::Var(0), Term::Int(1)]);
    let mut text = got(rt, Vec::with_capacity(alloc, 1));
    got(rt, text.push(b'>'));
    is_printed_in(rt, meter, (&names, &vars, &term), &mut text, wanted, left)
}

/// As `is_printed`, of known names and a term.
fn is_printed_in<M: Allocator + Copy>(
    rt: &impl Abort,
    meter: &Refusing<Global>,
    (names, vars, term): (&Names<M>, &VarNames<M>, &Term<M>),
    text: &mut Vec<u8, M>,
    wanted: &str,
    left: u64,
) -> bool {
    meter.allow(left);
    let is_done = print(names, vars, term, text).is_ok();
    equal(rt, !is_done, was_refused(meter, left));
    if !is_done {
        equal(rt, text.as_slice(), b">");
        got(rt, print(names, vars, term, text));
    }
    equal(rt, text.as_slice(), wanted.as_bytes());
    is_done
}

/// Whether `Names::new` goes through with `left` growths.
fn are_new<M: Allocator + Copy>(
    rt: &impl Abort,
    alloc: M,
    meter: &Refusing<Global>,
    left: u64,
) -> bool {
    meter.allow(left);
    let answer = Names::new(alloc);
    equal(rt, answer.is_err(), was_refused(meter, left));
    answer.is_ok_and(|names| names.len() == 7)
}

/// Whether `intern` of a new symbol goes through with `left` growths. A refused one leaves the names as they were.
fn is_interned_in<M: Allocator + Copy>(
    rt: &impl Abort,
    meter: &Refusing<Global>,
    names: &mut Names<M>,
    left: u64,
) -> bool {
    holds(rt, names.len() == 8);
    meter.allow(left);
    let is_done = names.intern("a", 0).is_ok();
    equal(rt, !is_done, was_refused(meter, left));
    if !is_done {
        equal(rt, (names.len(), names.find("a", 0)), (8, None));
    }
    holds(rt, names.len() < 100);
    equal(rt, got(rt, names.intern("a", 0)), Sym(8));
    is_done
}

/// As `is_interned_in`, in names of its own.
fn is_interned<M: Allocator + Copy>(
    rt: &impl Abort,
    alloc: M,
    meter: &Refusing<Global>,
    left: u64,
) -> bool {
    meter.allow(AMPLE);
    let mut names = names_with_f(rt, alloc);
    is_interned_in(rt, meter, &mut names, left)
}

#[test]
fn names_refused(rt: HostRuntime) {
    let meter = Refusing::new(rt.alloc(), 0);
    let refused = refused_in_turn(MOST, |left| are_new(&rt, &meter, &meter, left));
    assert!(&rt; refused > 0 && refused < MOST, "{refused}");
}

#[test]
fn intern_refused(rt: HostRuntime) {
    let meter = Refusing::new(rt.alloc(), 0);
    let refused = refused_in_turn(MOST, |left| is_interned(&rt, &meter, &meter, left));
    assert!(&rt; refused > 0 && refused < MOST, "{refused}");
}

/// A term is had again where no growth is allowed, and so are its arguments, which their last owner alone can have back as a list.
fn follow_shares<M: Allocator + Copy>(rt: &impl Abort, alloc: M, meter: &Refusing<Global>) {
    meter.allow(AMPLE);
    let term = node(rt, alloc, Sym(7), [Term::Var(0), Term::Int(1)]);
    meter.allow(0);
    let copied = got(rt, copy(&term));
    holds(rt, same(&copied, &term));
    equal(rt, meter.asked(), 0);
    let Term::Node(_, args) = term else {
        return;
    };
    let Err(args) = args.into_vec() else {
        panic!(rt; "another owner has them");
    };
    drop(copied);
    holds(rt, args.into_vec().is_ok_and(|terms| terms.len() == 2));
}

#[test]
fn terms_shared(rt: HostRuntime) {
    let meter = Refusing::new(rt.alloc(), 0);
    follow_shares(&rt, &meter, &meter);
}

#[test]
fn print_refused(rt: HostRuntime) {
    let meter = Refusing::new(rt.alloc(), 0);
    let refused = refused_in_turn(MOST, |left| {
        is_printed(&rt, &meter, &meter, (true, ">f(X,1)"), left)
    });
    assert!(&rt; refused > 0 && refused < MOST, "{refused}");
}
