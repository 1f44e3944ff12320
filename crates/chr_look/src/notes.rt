//! What is noted of a run while it is made.
ghost use Rattle.std.specs.Prelude.{◌≡◌, ℕ, IfOk, OnOk, ⊤};
ghost use Rattle.chr_semantics.specs.Bounds.{IsQueryBounded};
ghost use Rattle.chr_semantics.specs.Names.{Names};
ghost use Rattle.chr_semantics.specs.Program as semantics;
ghost use Rattle.chr_rules.specs.ProgramView.{names_of, rules_of};
ghost use Rattle.chr_rules.specs.RuleView.{query_view};
ghost use Rattle.chr_machine.specs.MachineView.{Starts, Steps};
ghost use Rattle.chr_look.specs.Watching.{IsRunOf, IsWatched, machine_in};

use crate::watching::Watched;
use chr_machine::Stepped;
use chr_rules::{Program, Query};
use chr_term::Memory;
use std::alloc::Allocator;

/// What is noted of a run while it is made.
pub(crate) trait Notes<A: Allocator + Copy> {
    /// What the notes are about.
    type Subject;

    // These are the notes of the first transitions of the run of a query, of so many.
    ghost are_of: { Self.Subject → Self → semantics.Program → semantics.Query → ℕ → Type 0 };

    // A run of the program has such a subject.
    ghost has: { semantics.Program → Self.Subject → Type 0 } = { λ _ _. ⊤ };

    /// Makes a transition of a watched run, and notes it.
    fn step(
        &mut self,
        subject: &Self::Subject,
        watched: &mut Watched<'_, A>,
    ) -> Result<Stepped, Memory>
        requires { has (machine_in watched.old).rules subject.now }
        ensures steps { IfOk result (λ stepped. Steps stepped (machine_in watched.old) (machine_in watched.new)) }
        ensures watched { OnOk result ((p : semantics.Program) (q : semantics.Query)
            → IsWatched p q watched.old → IsWatched p q watched.new) }
        ensures noted { OnOk result ((p : semantics.Program) (q : semantics.Query) → IsWatched p q watched.old
            → are_of subject.now self.old p q (machine_in watched.old).steps → are_of subject.now self.new p q (machine_in watched.new).steps) };
}

/// No notes.
#[derive(Drop)]
pub(crate) struct Nothing;

impl<A: Allocator + Copy> Notes<A> for Nothing {
    type Subject = ();

    ghost are_of = { λ _ _ _ _ _. ⊤ };

    fn step(&mut self, _subject: &(), watched: &mut Watched<'_, A>) -> Result<Stepped, Memory> {
        watched.step()
    }
}

/// Makes n transitions of a watched run, or fewer where it ends before or 1,000,000 stand, and notes them.
pub(crate) fn go_on<A: Allocator + Copy, N: Notes<A>>(
    watched: &mut Watched<'_, A>,
    subject: &N::Subject,
    notes: &mut N,
    n: u64,
) -> Result<(), Memory>
    requires { N.has (machine_in watched.old).rules subject.now }
    ensures run { OnOk result ((names : Names) (p : semantics.Program) (q : semantics.Query)
        → Starts names p q (machine_in watched.old) → IsRunOf names p q n (machine_in watched.new)) }
    ensures watched { OnOk result ((p : semantics.Program) (q : semantics.Query)
        → IsWatched p q watched.old → IsWatched p q watched.new) }
    ensures noted { OnOk result ((p : semantics.Program) (q : semantics.Query) → IsWatched p q watched.old
        → N.are_of subject.now notes.old p q (machine_in watched.old).steps → N.are_of subject.now notes.new p q (machine_in watched.new).steps) }
{
    let mut made = 0;
    while made < n {
        match notes.step(subject, watched)? {
            Stepped::Moved => made += 1,
            Stepped::Ended => return Ok(()),
            Stepped::Spent => return Ok(()),
        }
    }
    Ok(())
}

/// The run of a query over a program, of n transitions, or of fewer where it ends before or 1,000,000 stand, with what was noted of it.
/// The only error is want of memory.
pub fn watch<'p, A: Allocator + Copy>(
    alloc: A,
    program: &'p Program<A>,
    query: Query<A>,
    n: u64,
) -> Result<Watched<'p, A>, Memory>
    requires { IsQueryBounded (query_view query) }
    ensures run { IfOk result (λ watched. IsRunOf (names_of program.now) (rules_of program.now) (query_view query) n (machine_in watched)) }
    ensures watched { IfOk result (IsWatched (rules_of program.now) (query_view query)) }
{
    let mut watched = Watched::start(alloc, program, query)?;
    go_on(&mut watched, &(), &mut Nothing, n)?;
    Ok(watched)
}
