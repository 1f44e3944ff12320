//! Rules.
ghost use Rattle.std.specs.Prelude.{◌≡◌, length};

use crate::goal::Goal;
use chr_bind::Test;
use chr_term::{Sym, Term};
use std::alloc::{Allocator, Global};

/// A rule. Its variables are numbered from 0 by first appearance, so those of the heads come first.
#[derive(Drop)]
pub struct Rule<A: Allocator = Global> {
    /// The rule's name, or `#k` with its number k from 1.
    pub label: String<A>,
    /// How many heads stay. These come first, and the others are removed.
    pub kept: usize,
    /// The heads: their symbols and arguments.
    pub heads: Vec<(Sym, Vec<Term<A>, A>), A>,
    /// Which heads are passive: a flag for each.
    pub passive: Vec<bool, A>,
    /// The tests of the guard. Their variables are in the heads.
    pub guard: Vec<Test<A>, A>,
    /// The goals of the body.
    pub body: Vec<Goal<A>, A>,
    /// How many variables there are.
    pub vars: usize,
    /// How many of them are in the heads.
    pub(crate) head_vars: usize,
    ghost flagged: { length passive.items ≡ length heads.items },
}

impl<A: Allocator> Rule<A> {
    ghost use Rattle.chr_rules.specs.RuleView.{rule_view};

    /// How many variables are in the heads. Those of the body alone have the numbers from there on.
    pub fn head_vars(&self) -> usize
        ensures { result ≡ (rule_view self.now).head_vars }
    {
        self.head_vars
    }
}
