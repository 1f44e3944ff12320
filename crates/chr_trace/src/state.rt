//! The parts of the state of a run that stand on its stack.
use chr_bind::Fault;
use chr_rules::Goal;
use chr_store::Id;
use chr_term::{Args, Sym};
use std::alloc::{Allocator, Global};

/// An element of the goal stack: a goal, an identified constraint, or an active one with the number of its occurrence, from 1. Each
/// carries its goal, also after its constraint left the store. The top of a stack is its last element.
#[derive(Drop)]
pub enum Elem<A: Allocator = Global> {
    Goal(Goal<A>),
    Known(Id, Sym, Args<A>),
    Active(Id, u32, Sym, Args<A>),
}

/// How a run stands.
#[derive(Clone, Copy, PartialEq, Eq, Debug, Drop)]
pub enum Status {
    Running,
    Done,
    Failed,
    Faulted(Fault),
}
