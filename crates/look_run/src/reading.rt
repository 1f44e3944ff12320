//! The program and the query that are asked about.
ghost use Rattle.std.specs.Prelude.{IfOk};
ghost use Rattle.chr_semantics.specs.Bounds.{IsQueryBounded};
ghost use Rattle.chr_rules.specs.RuleView.{query_view};

use crate::refusal::Refusal;
use chr_read::{Part, ProgramSyntax, read_program, read_query};
use chr_rules::{Program, Query};
use std::alloc::Global;

/// A program with the lines where its rules begin, and a query over it.
#[derive(Drop)]
pub(crate) struct Texts {
    pub(crate) program: Program,
    pub(crate) lines: Vec<u64>,
    pub(crate) query: Query,
}

/// The lines where the rules begin.
fn lines_of(alloc: Global, syntax: &ProgramSyntax) -> Result<Vec<u64>, Refusal> {
    let mut lines = Vec::new(alloc);
    for part in syntax.parts.as_slice() {
        if let Part::Rule(line, _) = part {
            lines.push(*line)?;
        }
    }
    Ok(lines)
}

/// The program and the query of two texts.
pub(crate) fn read_texts(alloc: Global, program: &[u8], query: &[u8]) -> Result<Texts, Refusal>
    ensures { IfOk result (λ texts. IsQueryBounded (query_view texts.query)) }
{
    let syntax = read_program(alloc, program)?;
    let lines = lines_of(alloc, &syntax)?;
    let mut program = Program::build(alloc, syntax)?;
    let syntax = read_query(alloc, query)?;
    let query = program.goals_of_query(syntax)?;
    Ok(Texts {
        program,
        lines,
        query,
    })
}
