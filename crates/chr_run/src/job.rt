//! What is run.
use crate::limits::Limits;
use chr_rules::{Program, Query};
use std::alloc::Allocator;

/// A query that was read over a program, and how far it is run.
#[derive(Drop)]
pub(crate) struct Job<'p, A: Allocator> {
    pub(crate) program: &'p Program<A>,
    pub(crate) query: Query<A>,
    pub(crate) limits: Limits,
}
