//! A program that was read, and the queries over it.
ghost use Rattle.std.specs.Prelude.{◌≡◌, ◌≤◌, IfErr, IfOk, length};
ghost use Rattle.chr_semantics.specs.Accepted.{IsAcceptedProgram, IsAcceptedQuery};
ghost use Rattle.chr_semantics.specs.Bounds.{IsQueryBounded};
ghost use Rattle.chr_semantics.specs.Outcome.{outcome_after};
ghost use Rattle.chr_semantics.specs.declared.limits.TheConstants.{MAX_TRANSITIONS};
ghost use Rattle.chr_rules.specs.Grown.{Grows};
ghost use Rattle.chr_rules.specs.ProgramView.{checked_view, names_of, rules_of};
ghost use Rattle.chr_rules.specs.RuleView.{query_view};
ghost use Rattle.chr_machine.specs.OutcomeView.{outcome_view};
ghost use Rattle.embedding.specs.Refusals.{IsProgramRefusal, IsQueryRefusal, IsRefusal};

use crate::refusal::Refusal;
use chr_machine::{Machine, Outcome};
use chr_read::{read_program, read_query};
use chr_rules::{Program, Query};
use chr_semantics::limits::MAX_TRANSITIONS;
use chr_term::Memory;
use std::alloc::{Allocator, Global};

/// A program that was read once, and is asked query after query.
#[derive(Drop)]
pub struct Session<A: Allocator = Global> {
    alloc: A,
    program: Program<A>,
    /// How many names the program itself has; those of the last query stand behind them.
    own: usize,
    ghost within: { own ≤ length (names_of program) },
}

/// The query of a text, over the program.
fn query_of<A: Allocator + Copy>(
    alloc: A,
    program: &mut Program<A>,
    text: &[u8],
) -> Result<Query<A>, Refusal>
    ensures ok { IfOk result
        (λ query. IsAcceptedQuery (checked_view program.old) text.now (names_of program.new) (query_view query)) }
    ensures bounded { IfOk result (λ query. IsQueryBounded (query_view query)) }
    ensures declared { (checked_view program.new).declared ≡ (checked_view program.old).declared }
    ensures rules { rules_of program.new ≡ rules_of program.old }
    ensures grows { Grows (names_of program.old) (names_of program.new) }
    ensures err { IfErr result (IsQueryRefusal (checked_view program.old) text.now) }
{
    let syntax = match read_query(alloc, text) {
        Ok(syntax) => syntax,
        Err(error) => return Err(Refusal::Query(error)),
    };
    match program.goals_of_query(syntax) {
        Ok(query) => Ok(query),
        Err(error) => Err(Refusal::Goals(error)),
    }
}

/// What the first n transitions of a query come to, or all of them where the run ends before.
fn outcome_of<A: Allocator + Copy>(
    alloc: A,
    program: &Program<A>,
    query: Query<A>,
    n: u64,
) -> Result<Outcome<A>, Memory>
    requires bounded { IsQueryBounded (query_view query) }
    requires few { n ≤ MAX_TRANSITIONS }
    ensures { IfOk result (λ outcome. outcome_view outcome
        ≡ outcome_after (names_of program.now) (rules_of program.now) (query_view query) n) }
{
    let mut machine = Machine::start(alloc, program, query)?;
    machine.run_alone(n)?;
    Ok(machine.finish())
}

impl<A: Allocator + Copy> Session<A> {
    ghost use Rattle.embedding.specs.SessionView.{IsAnswer, session_program, session_view};

    /// The session of a program, or what is wrong with its text first.
    pub fn new(alloc: A, text: &[u8]) -> Result<Session<A>, Refusal>
        ensures accepted { IfOk result (λ session. IsAcceptedProgram text.now (session_view session)) }
        ensures refused { IfErr result (IsProgramRefusal text.now) }
    {
        let syntax = match read_program(alloc, text) {
            Ok(syntax) => syntax,
            Err(error) => return Err(Refusal::Program(error)),
        };
        let program = match Program::build(alloc, syntax) {
            Ok(program) => program,
            Err(error) => return Err(Refusal::Rules(error)),
        };
        let own = program.names().len();
        Ok(Session {
            alloc,
            program,
            own,
        })
    }

    /// How the run of a query stands after n transitions, or at its end where that comes before. What is wrong with the query is answered
    /// first; after any refusal the session goes on as before.
    pub fn ask(&mut self, text: &[u8], n: u64) -> Result<Outcome<A>, Refusal>
        ensures same { session_view self.new ≡ session_view self.old }
        ensures answered { IfOk result (IsAnswer (session_view self.old) text.now n (names_of (session_program self.new))) }
        ensures refused { IfErr result (IsRefusal (session_view self.old) text.now n) }
    {
        if n > MAX_TRANSITIONS {
            return Err(Refusal::BudgetTooLarge);
        }
        self.program.forget_names(self.own);
        let query = query_of(self.alloc, &mut self.program, text)?;
        match outcome_of(self.alloc, &self.program, query, n) {
            Ok(outcome) => Ok(outcome),
            Err(_) => Err(Refusal::Memory),
        }
    }

    /// The program with the names of the last query, by which its outcome is printed.
    pub fn program(&self) -> &Program<A>
        ensures { result.now ≡ session_program self.now }
    {
        &self.program
    }
}
