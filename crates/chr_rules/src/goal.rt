//! Goals, queries, and the text of a goal.
ghost use Rattle.std.specs.Prelude.{◌≡◌, ◌++◌, IfOk, OnErr, OnOk, length, map, take};
ghost use Rattle.chr_semantics.specs.Text.{goal_text, infix_text};
ghost use Rattle.chr_term.specs.TermView.{view};
ghost use Rattle.chr_rules.specs.RuleView.{goal_view, query_view};
ghost use Rattle.chr_rules.specs.Signs.{sign_text};

use chr_term::{Args, Memory, Names, Sym, Term, VarNames, copy, print, print_atom};
use std::alloc::{Allocator, Global};

/// A built-in of Solve but `fail`.
#[derive(Clone, Copy, PartialEq, Eq, Debug, Drop)]
pub enum Op {
    /// `=`
    Unify,
    /// `is`
    Is,
    /// `<`
    Less,
    /// `>`
    Greater,
    /// `=<`
    AtMost,
    /// `>=`
    AtLeast,
    /// `=:=`
    Equals,
    /// `=\=`
    Differs,
}

/// A goal of a query or of a body.
#[derive(Drop)]
pub enum Goal<A: Allocator = Global> {
    /// A CHR constraint.
    Chr(Sym, Args<A>),
    /// A built-in with its two sides.
    Told(Op, Term<A>, Term<A>),
    /// `fail`
    Fail,
}

impl Op {
    /// The sign that stands between the two sides, with its spaces.
    pub fn sign(self) -> &'static str
        ensures { result.now ≡ sign_text self }
    {
        match self {
            Op::Unify => " = ",
            Op::Is => " is ",
            Op::Less => " < ",
            Op::Greater => " > ",
            Op::AtMost => " =< ",
            Op::AtLeast => " >= ",
            Op::Equals => " =:= ",
            Op::Differs => " =\\= ",
        }
    }
}

/// The goals of a query, and the names of its variables, which are numbered from 0 in this order.
#[derive(Drop)]
pub struct Query<A: Allocator = Global> {
    pub goals: Vec<Goal<A>, A>,
    pub var_names: VarNames<A>,
}

impl<A: Allocator + Copy> Query<A> {
    /// An equal query, whose terms are shared.
    pub fn copy(&self) -> Result<Query<A>, Memory>
        ensures { IfOk result (λ copied. query_view copied ≡ query_view self.now) }
    {
        let alloc = *self.goals.allocator();
        Ok(Query {
            goals: copy_goals(alloc, self.goals.as_slice())?,
            var_names: self.var_names.copy()?,
        })
    }
}

/// Equal goals, whose terms are shared.
pub fn copy_goals<A: Allocator + Copy>(
    alloc: A,
    goals: &[Goal<A>],
) -> Result<Vec<Goal<A>, A>, Memory>
    ensures { IfOk result (λ copied. map goal_view copied.items ≡ map goal_view goals.now) }
{
    let mut copied = Vec::with_capacity(alloc, goals.len())?;
    for goal in goals {
        copied.push(copy_goal(goal)?)?;
    }
    Ok(copied)
}

/// An equal goal, whose terms are shared.
fn copy_goal<A: Allocator + Copy>(goal: &Goal<A>) -> Result<Goal<A>, Memory>
    ensures { IfOk result (λ copied. goal_view copied ≡ goal_view goal.now) }
{
    match goal {
        Goal::Chr(sym, args) => Ok(Goal::Chr(*sym, args.share()?)),
        Goal::Told(op, left, right) => {
            let left = copy(left)?;
            let right = copy(right)?;
            Ok(Goal::Told(*op, left, right))
        }
        Goal::Fail => Ok(Goal::Fail),
    }
}

/// Appends the text of a goal. Where memory is refused, the text is as before.
pub fn print_goal<A: Allocator>(
    names: &Names<A>,
    vars: &VarNames<A>,
    goal: &Goal<A>,
    out: &mut Vec<u8, A>,
) -> Result<(), Memory>
    ensures ok { OnOk result
        (out.new.items ≡ out.old.items ++ goal_text names.now vars.now (goal_view goal.now)) }
    ensures err { OnErr result (out.new.items ≡ out.old.items) }
{
    match goal {
        Goal::Chr(sym, args) => print_atom(names, vars, *sym, args.as_slice(), out),
        Goal::Told(op, left, right) => print_sides(names, vars, left, *op, right, out),
        Goal::Fail => out.extend_from_slice(b"fail"),
    }
}

/// Appends two sides with their sign between them.
fn print_sides<A: Allocator>(
    names: &Names<A>,
    vars: &VarNames<A>,
    left: &Term<A>,
    op: Op,
    right: &Term<A>,
    out: &mut Vec<u8, A>,
) -> Result<(), Memory>
    ensures ok { OnOk result (out.new.items ≡ out.old.items
        ++ infix_text names.now vars.now (view left.now) (sign_text op) (view right.now)) }
    ensures err { OnErr result (out.new.items ≡ out.old.items) }
{
    let len = out.len();
    let written = write_sides(names, vars, left, op, right, out);
    if written.is_err() {
        out.truncate(len);
    }
    written
}

/// Appends two sides with their sign between them, or a first part of that.
fn write_sides<A: Allocator>(
    names: &Names<A>,
    vars: &VarNames<A>,
    left: &Term<A>,
    op: Op,
    right: &Term<A>,
    out: &mut Vec<u8, A>,
) -> Result<(), Memory>
    ensures ok { OnOk result (out.new.items ≡ out.old.items
        ++ infix_text names.now vars.now (view left.now) (sign_text op) (view right.now)) }
    ensures kept { take (length out.old.items) out.new.items ≡ out.old.items }
{
    print(names, vars, left, out)?;
    out.extend_from_slice(op.sign().as_bytes())?;
    print(names, vars, right, out)
}
