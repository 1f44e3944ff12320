//! Runs whose text goes out, and runs of texts.
ghost use Rattle.std.specs.Prelude.{◌≡◌, IfErr, IfOk};
ghost use Rattle.chr_semantics.specs.Accepted.{IsAccepted, IsAcceptedProgram, IsAcceptedQuery};
ghost use Rattle.chr_semantics.specs.Bounds.{IsQueryBounded};
ghost use Rattle.chr_rules.specs.ProgramView.{checked_view, names_of, rules_of};
ghost use Rattle.chr_rules.specs.RuleView.{query_view};
ghost use Rattle.chr_run.specs.Jobs.{Writes};
ghost use Rattle.chr_run.specs.Run.{IsInto, Sends};
ghost use Rattle.chr_run.specs.Texts.{IsProgramError, IsQueryError, IsTextError, IsTextRun};

use crate::error::{RunError, TextError};
use crate::job::Job;
use crate::limits::{Limits, Portion};
use crate::outlet::Cut;
use crate::result::Run;
use crate::running::run_job;
use chr_board::{Gate, Point};
use chr_read::{read_program, read_query};
use chr_rules::{Program, Query};
use std::alloc::Allocator;
use std::io::Write;
use std::sync::Wait;
use std::thread::Threads;

/// Does a job whose text goes out to a writer.
fn write_job<A: Allocator + Copy + Send + Sync, G: Gate, R: Threads + Wait + Sync, W: Write>(
    rt: &R,
    alloc: A,
    job: Job<'_, A>,
    gate: &G,
    writer: &mut W,
) -> Result<Run<A>, TextError>
    requires { IsQueryBounded (query_view job.query) }
    ensures { Writes job.entry (W.contents writer.old) (W.contents writer.new) result }
{
    match run_job(rt, alloc, job, gate, writer) {
        Ok(run) => Ok(run),
        Err(Cut::Memory) => Err(TextError::Run(RunError::Memory)),
        Err(Cut::Unsent(_)) => Err(TextError::Write),
    }
}

/// Runs the first n transitions of a query, while `workers` workers search ahead, and writes the text of the run, each line of its trace
/// before the next transition. Whatever the workers do, the bytes are those of one thread. After Write or want of memory what went out is a
/// first part of that text; after another refusal nothing went out. The gate is called as `run` calls it, and all workers are joined before
/// it answers.
pub fn run_into<A: Allocator + Copy + Send + Sync, G: Gate, R: Threads + Wait + Sync, W: Write>(
    rt: &R,
    alloc: A,
    program: &Program<A>,
    query: Query<A>,
    n: u64,
    workers: u32,
    gate: &G,
    writer: &mut W,
) -> Result<Run<A>, TextError>
    requires { IsQueryBounded (query_view query) }
    ensures { IsInto (names_of program.now) (rules_of program.now) (query_view query) n workers
        (W.contents writer.old) (W.contents writer.new) result }
{
    match Limits::new(n, workers, Portion::Line) {
        Err(error) => Err(TextError::Run(error)),
        Ok(limits) => {
            let job = Job {
                program,
                query,
                limits,
            };
            write_job(rt, alloc, job, gate, writer)
        }
    }
}

/// A program, and a query over it.
#[derive(Drop)]
pub(crate) struct Texts<A: Allocator> {
    pub(crate) program: Program<A>,
    pub(crate) query: Query<A>,
}

/// The program of a text.
fn accepted_program<A: Allocator + Copy>(alloc: A, text: &[u8]) -> Result<Program<A>, TextError>
    ensures ok { IfOk result (λ program. IsAcceptedProgram text.now (checked_view program)) }
    ensures err { IfErr result (IsProgramError text.now) }
{
    let syntax = match read_program(alloc, text) {
        Ok(syntax) => syntax,
        Err(error) => return Err(TextError::Program(error)),
    };
    match Program::build(alloc, syntax) {
        Ok(program) => Ok(program),
        Err(error) => Err(TextError::Rules(error)),
    }
}

/// The query of a text, over the program.
fn accepted_query<A: Allocator + Copy>(
    alloc: A,
    program: &mut Program<A>,
    text: &[u8],
) -> Result<Query<A>, TextError>
    ensures ok { IfOk result
        (λ query. IsAcceptedQuery (checked_view program.old) text.now (names_of program.new)
        (query_view query)) }
    ensures bounded { IfOk result (λ query. IsQueryBounded (query_view query)) }
    ensures rules { rules_of program.new ≡ rules_of program.old }
    ensures err { IfErr result (IsQueryError (checked_view program.old) text.now) }
{
    let syntax = match read_query(alloc, text) {
        Ok(syntax) => syntax,
        Err(error) => return Err(TextError::Query(error)),
    };
    match program.goals_of_query(syntax) {
        Ok(query) => Ok(query),
        Err(error) => Err(TextError::Goals(error)),
    }
}

/// The program and the query of two texts.
pub(crate) fn accepted<A: Allocator + Copy>(
    alloc: A,
    program: &[u8],
    query: &[u8],
) -> Result<Texts<A>, TextError>
    ensures ok { IfOk result
        (λ t. IsAccepted program.now query.now (names_of t.program) (rules_of t.program)
        (query_view t.query)) }
    ensures bounded { IfOk result (λ t. IsQueryBounded (query_view t.query)) }
    ensures err { IfErr result (IsTextError program.now query.now) }
{
    let mut program = accepted_program(alloc, program)?;
    let query = accepted_query(alloc, &mut program, query)?;
    Ok(Texts { program, query })
}

/// What holds nobody up.
struct NoGate;

impl Gate for NoGate {
    fn at(&self, _point: Point) {}
}

/// Does the job of a query over its program.
fn write_texts<A: Allocator + Copy + Send + Sync, R: Threads + Wait + Sync, W: Write>(
    rt: &R,
    alloc: A,
    texts: Texts<A>,
    limits: Limits,
    writer: &mut W,
) -> Result<Run<A>, TextError>
    requires { IsQueryBounded (query_view texts.query) }
    ensures { Sends (names_of texts.program) (rules_of texts.program) (query_view texts.query) limits.budget limits.workers
        (W.contents writer.old) (W.contents writer.new) result }
{
    let Texts { program, query } = texts;
    let job = Job {
        program: &program,
        query,
        limits,
    };
    write_job(rt, alloc, job, &NoGate, writer)
}

/// `run_text`, whose lines go out in these portions.
pub(crate) fn run_text_by<A: Allocator + Copy + Send + Sync, R: Threads + Wait + Sync, W: Write>(
    rt: &R,
    alloc: A,
    program: &[u8],
    query: &[u8],
    n: u64,
    workers: u32,
    portion: Portion,
    writer: &mut W,
) -> Result<Run<A>, TextError>
    ensures { IsTextRun program.now query.now n workers (W.contents writer.old)
        (W.contents writer.new) result }
{
    let limits = match Limits::new(n, workers, portion) {
        Ok(limits) => limits,
        Err(refused) => return Err(TextError::Run(refused)),
    };
    let texts = accepted(alloc, program, query)?;
    write_texts(rt, alloc, texts, limits, writer)
}

/// Reads a program and a query, runs the first n transitions, while `workers` workers search ahead, and writes the text of the run, each line of
/// its trace before the next transition. The limits are looked at first, then the program, then the query. After Write or want of memory what
/// went out is a first part of that text; after another refusal nothing went out.
pub fn run_text<A: Allocator + Copy + Send + Sync, R: Threads + Wait + Sync, W: Write>(
    rt: &R,
    alloc: A,
    program: &[u8],
    query: &[u8],
    n: u64,
    workers: u32,
    writer: &mut W,
) -> Result<Run<A>, TextError>
    ensures { IsTextRun program.now query.now n workers (W.contents writer.old)
        (W.contents writer.new) result }
{
    run_text_by(rt, alloc, program, query, n, workers, Portion::Line, writer)
}
