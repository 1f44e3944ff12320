//! Whether texts are accepted.
ghost use Rattle.std.specs.Prelude.{IfOk};
ghost use Rattle.chr_semantics.specs.Accepted.{IsAcceptedProgram};
ghost use Rattle.chr_semantics.specs.Checked.{Checked};
ghost use Rattle.chr_rules.specs.ProgramView.{checked_view};
ghost use Rattle.chr_check.specs.Accepted.{IsProgramAnswer, IsSomeProgram, IsSomeQuery, IsVerdict};

use crate::mistake::Kind;
use chr_read::{ReadError, ReadErrorKind, read_program, read_query};
use chr_rules::{Program, RuleErrorKind};
use chr_term::Memory;
use std::alloc::{AllocError, Allocator};

/// The program that a text is accepted as, or why it is refused.
pub(crate) fn program_of<A: Allocator + Copy>(
    alloc: A,
    text: &[u8],
) -> Result<Result<Program<A>, Kind>, Memory>
    ensures { IfOk result (IsProgramAnswer checked_view text.now) }
{
    let syntax = match read_program(alloc, text) {
        Ok(syntax) => syntax,
        Err(error) if error.kind == ReadErrorKind::Memory => return Err(AllocError),
        Err(error) => return Ok(Err(Kind::Read(error.kind))),
    };
    match Program::build(alloc, syntax) {
        Ok(program) => Ok(Ok(program)),
        Err(error) if error.kind == RuleErrorKind::Memory => Err(AllocError),
        Err(error) => Ok(Err(Kind::Rule(error.kind))),
    }
}

/// Why the text of a program is refused, where it is.
pub(crate) fn refusal<A: Allocator + Copy>(alloc: A, text: &[u8]) -> Result<Option<Kind>, Memory>
    ensures { IfOk result (IsVerdict (IsSomeProgram text.now)) }
{
    match program_of(alloc, text)? {
        Ok(_) => Ok(None),
        Err(kind) => Ok(Some(kind)),
    }
}

/// Why a query is refused.
#[derive(Clone, Copy, Drop)]
pub(crate) enum QueryRefusal {
    /// It is not read.
    Unread(ReadError),
    /// It is read, and breaks a rule of the language.
    Mistaken(RuleErrorKind),
}

impl QueryRefusal {
    /// What `chr` calls it.
    pub(crate) fn kind(self) -> Kind {
        match self {
            QueryRefusal::Unread(error) => Kind::Read(error.kind),
            QueryRefusal::Mistaken(kind) => Kind::Rule(kind),
        }
    }
}

/// Why the text of a query over the text of a program is refused, where it is. Where the program is refused, the query is only read.
pub(crate) fn query_refusal<A: Allocator + Copy>(
    alloc: A,
    program: &[u8],
    text: &[u8],
) -> Result<Option<QueryRefusal>, Memory>
    ensures { (c : Checked) → IsAcceptedProgram program.now c → IfOk result
        (IsVerdict (IsSomeQuery c text.now)) }
{
    let syntax = match read_query(alloc, text) {
        Ok(syntax) => syntax,
        Err(error) if error.kind == ReadErrorKind::Memory => return Err(AllocError),
        Err(error) => return Ok(Some(QueryRefusal::Unread(error))),
    };
    let mut program = match program_of(alloc, program)? {
        Ok(program) => program,
        Err(_) => return Ok(None),
    };
    match program.goals_of_query(syntax) {
        Ok(_) => Ok(None),
        Err(error) if error.kind == RuleErrorKind::Memory => Err(AllocError),
        Err(error) => Ok(Some(QueryRefusal::Mistaken(error.kind))),
    }
}
