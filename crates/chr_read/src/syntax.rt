//! The syntax of programs and queries, as trees.

use chr_tokens::{Additive, Multiplicative, Relation};
use std::alloc::{Allocator, Global};

/// An expression. Lists and chains of operators are flat, so that only brackets make it deep.
#[derive(Drop)]
pub enum Expr<A: Allocator = Global> {
    /// A variable by its name.
    Variable(String<A>),
    /// A number.
    Number(i128),
    /// A name with its arguments.
    Call(String<A>, Vec<Expr<A>, A>),
    /// `[a, b]`
    List(Vec<Expr<A>, A>),
    /// `[a, b | end]`: the elements, and what stands after the bar.
    ListWithEnd(Vec<Expr<A>, A>, Box<Expr<A>, A>),
    /// `a + b - c` or `a * b // c`: the first operand, and from the left each operator with the operand after it.
    Chain(Box<Expr<A>, A>, Vec<(Operator, Expr<A>), A>),
}

/// The operator of a sum, or of a product.
#[derive(Clone, Copy, PartialEq, Eq, Debug, Drop)]
pub enum Operator {
    /// `+` or `-`
    Additive(Additive),
    /// `*`, `//` or `mod`
    Multiplicative(Multiplicative),
}

/// An item of a rule or a query.
#[derive(Drop)]
pub enum Item<A: Allocator = Global> {
    /// An expression alone.
    Plain(Expr<A>),
    /// Two with a comparison, `=`, `\=` or `is` between them.
    Related(Relation, Expr<A>, Expr<A>),
}

/// A head of a rule.
#[derive(Drop)]
pub struct Head<A: Allocator = Global> {
    /// What is written before `# passive`.
    pub item: Item<A>,
    /// Whether `# passive` is there.
    pub passive: bool,
}

/// `<=>` or `==>`.
#[derive(Clone, Copy, PartialEq, Eq, Debug, Drop)]
pub enum Arrow {
    /// `<=>`
    Simplification,
    /// `==>`
    Propagation,
}

/// A rule, `label @ heads \ behind <=> guard | body`.
#[derive(Drop)]
pub struct RuleSyntax<A: Allocator = Global> {
    /// The name before `@`, where there is one.
    pub label: Option<String<A>>,
    /// The heads before `\`, or all of them.
    pub heads: Vec<Head<A>, A>,
    /// The heads after `\`: none where there is no `\`.
    pub behind: Vec<Head<A>, A>,
    /// The arrow.
    pub arrow: Arrow,
    /// The items before `|`: none where there is no `|`.
    pub guard: Vec<Item<A>, A>,
    /// The items of the body.
    pub body: Vec<Item<A>, A>,
}

/// A declared symbol, `name/arity`.
#[derive(Drop)]
pub struct Declaration<A: Allocator = Global> {
    /// Its name.
    pub name: String<A>,
    /// How many arguments it has.
    pub arity: u128,
}

/// A part of a program, with the line where it begins, from 1.
#[derive(Drop)]
pub enum Part<A: Allocator = Global> {
    /// The symbols that a `chr_constraint` declares.
    Declares(u64, Vec<Declaration<A>, A>),
    /// A `module` or `use_module`, which is read and ignored.
    Ignored(u64),
    /// A rule.
    Rule(u64, RuleSyntax<A>),
}

/// What a program's text spells: its parts in their order.
#[derive(Drop)]
pub struct ProgramSyntax<A: Allocator = Global> {
    /// Its parts.
    pub parts: Vec<Part<A>, A>,
}

/// What a query's text spells.
#[derive(Drop)]
pub struct QuerySyntax<A: Allocator = Global> {
    /// The line where its first item begins, from 1.
    pub line: u64,
    /// Its items in their order.
    pub items: Vec<Item<A>, A>,
}
