//! Programs and queries of texts, for tests: each is read and then checked; and worked examples that several crates of tests run.
#![tactic(auto)]

ghost use Rattle.std.specs.Prelude.{◌≡◌, IfOk};
ghost use Rattle.chr_semantics.specs.Accepted.{IsAccepted, IsAcceptedProgram, IsAcceptedQuery};
ghost use Rattle.chr_semantics.specs.Bounds.{IsQueryBounded};
ghost use Rattle.chr_rules.specs.ProgramView.{checked_view, names_of, rules_of};
ghost use Rattle.chr_rules.specs.RuleView.{query_view};

use chr_read::{ReadError, read_program, read_query};
use chr_rules::{Program, Query, RuleError};
use std::alloc::Allocator;
use thiserror::Error;

mod worked;

pub use worked::{
    GCD, GROUND_RULE, PROPAGATE_THEN_SIMPLIFY, SPECULATION, TURNED_ROUND, WAKING_ORDER, Worked,
};

/// Why a text is no program, or no query over one.
#[derive(Clone, Copy, PartialEq, Eq, Debug, Drop, Error)]
pub enum Mistake {
    /// It can't be read.
    #[error("{0}")]
    Read(ReadError),
    /// It breaks a rule of the language, or the query names what the program does not declare.
    #[error("{0}")]
    Rule(RuleError),
}

/// The program of a text.
pub fn program_of<A: Allocator + Copy>(alloc: A, text: &str) -> Result<Program<A>, Mistake>
    ensures { IfOk result (λ program. IsAcceptedProgram text.now (checked_view program)) }
{
    let syntax = match read_program(alloc, text.as_bytes()) {
        Ok(syntax) => syntax,
        Err(error) => return Err(Mistake::Read(error)),
    };
    match Program::build(alloc, syntax) {
        Ok(program) => Ok(program),
        Err(error) => Err(Mistake::Rule(error)),
    }
}

/// The query of a text over a program. After an error the rules are as before.
pub fn query_of<A: Allocator + Copy>(
    alloc: A,
    program: &mut Program<A>,
    text: &str,
) -> Result<Query<A>, Mistake>
    ensures ok { IfOk result
        (λ query. IsAcceptedQuery (checked_view program.old) text.now (names_of program.new)
        (query_view query)) }
    ensures bounded { IfOk result (λ query. IsQueryBounded (query_view query)) }
    ensures rules { rules_of program.new ≡ rules_of program.old }
{
    let syntax = match read_query(alloc, text.as_bytes()) {
        Ok(syntax) => syntax,
        Err(error) => return Err(Mistake::Read(error)),
    };
    match program.goals_of_query(syntax) {
        Ok(query) => Ok(query),
        Err(error) => Err(Mistake::Rule(error)),
    }
}

/// A program, and a query over it.
pub fn both_of<A: Allocator + Copy>(
    alloc: A,
    program: &str,
    query: &str,
) -> Result<(Program<A>, Query<A>), Mistake>
    ensures accepted { IfOk result
        (λ both. IsAccepted program.now query.now (names_of both.0) (rules_of both.0)
        (query_view both.1)) }
    ensures bounded { IfOk result (λ both. IsQueryBounded (query_view both.1)) }
{
    let mut program = program_of(alloc, program)?;
    let query = query_of(alloc, &mut program, query)?;
    Ok((program, query))
}
