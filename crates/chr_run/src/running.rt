//! Runs with workers: whatever they answer, and whenever, a run gives what one thread gives.
ghost use Rattle.std.specs.Prelude.{◌≡◌, ◌≤◌, IfErr, IfOk, OnErr, drop, length};
ghost use Rattle.chr_semantics.specs.Bounds.{IsQueryBounded};
ghost use Rattle.chr_semantics.specs.Outcome.{run_refusal};
ghost use Rattle.chr_semantics.specs.Text.{lines_text};
ghost use Rattle.chr_semantics.specs.declared.limits.TheConstants.{MAX_TRANSITIONS};
ghost use Rattle.chr_rules.specs.ProgramView.{names_of, rules_of};
ghost use Rattle.chr_rules.specs.RuleView.{query_view};
ghost use Rattle.chr_machine.specs.MachineView.{machine_view};
ghost use Rattle.chr_policy.specs.CoordinatorView.{IsAtRest, machine_by};
ghost use Rattle.chr_run.specs.Headline.{IsRun, refusal_as};
ghost use Rattle.chr_run.specs.Jobs.{Does};
ghost use Rattle.chr_run.specs.Output.{AppendsPart};
ghost use Rattle.chr_run.specs.Sending.{GoOn};
ghost use Rattle.chr_run.specs.Turns.{Turns};

use crate::error::RunError;
use crate::job::Job;
use crate::limits::{Limits, Portion};
use crate::outlet::{Cut, Outlet, Silence};
use crate::result::{Run, with_workers};
use chr_board::{Board, Gate, Tally};
use chr_machine::{Machine, Stepped};
use chr_policy::Coordinator;
use chr_rules::{Program, Query};
use chr_shelf::{RunName, Shelf};
use chr_workers::beside;
use std::alloc::Allocator;
use std::marker::Brand;
use std::sync::Wait;
use std::thread::Threads;

/// Sends out the lines from the `sent`-th on where they make a portion, or a first part of them. The answer is how many lines are out.
fn send_further<A: Allocator + Copy, O: Outlet>(
    machine: &Machine<'_, A>,
    sent: usize,
    portion: Portion,
    outlet: &mut O,
) -> Result<usize, Cut<O::Error>>
    requires { sent ≤ length (machine_view machine.now).lines }
    ensures ok { IfOk result
        (GoOn (O.known outlet.old) (O.known outlet.new) (machine_view machine.now).lines sent) }
    ensures part { OnErr result (AppendsPart (O.known outlet.old) (O.known outlet.new)
        (lines_text (drop sent (machine_view machine.now).lines))) }
{
    let lines = machine.lines();
    let text = lines.text_from(sent);
    if text.len() < portion.bytes() {
        return Ok(sent);
    }
    match outlet.send(text) {
        Ok(()) => Ok(lines.len()),
        Err(error) => Err(Cut::Unsent(error)),
    }
}

/// Makes the transitions of the budget, or as many as there are. Each portion of lines is out before the next transition, and the rest of the
/// text after the last one. The buffer is used for that.
fn make_transitions<J: RunName, A: Allocator + Copy, G: Gate, O: Outlet>(
    rt: &impl Wait,
    coordinator: &mut Coordinator<'_, J, A>,
    shelf: &Shelf<A>,
    board: &Board<J, A>,
    gate: &G,
    budget: u64,
    portion: Portion,
    buffer: &mut Vec<u8, A>,
    outlet: &mut O,
) -> Result<(), Cut<O::Error>>
    requires name { shelf.now ≡ J.shelf }
    requires rests { IsAtRest coordinator.old }
    requires start { (machine_by coordinator.old).steps ≡ 0 }
    requires limit { budget ≤ MAX_TRANSITIONS }
    ensures { Turns budget coordinator.old coordinator.new (O.known outlet.old) (O.known outlet.new) result }
{
    let mut sent = 0;
    let mut transitions = 0;
    while transitions < budget {
        sent = send_further(coordinator.machine(), sent, portion, outlet)?;
        match coordinator.turn(rt, shelf, board, gate) {
            Err(_) => {
                // What was made goes out first.
                let _all = send_further(coordinator.machine(), sent, Portion::Line, outlet)?;
                return Err(Cut::Memory);
            }
            Ok(Stepped::Moved) => transitions += 1,
            Ok(Stepped::Ended) => break,
            Ok(Stepped::Spent) => break,
        }
    }
    outlet.send_rest(coordinator.machine(), sent, buffer)
}

/// Does the same in this thread, beside the workers.
fn turns_beside<
    'x,
    'p,
    'w,
    J: RunName + Send + Sync,
    A: Allocator + Copy + Send + Sync,
    G: Gate,
    O: Outlet,
    R: Threads + Wait + Sync,
>(
    rt: &'x R,
    alloc: A,
    program: &Program<A>,
    coordinator: &'x mut Coordinator<'p, J, A>,
    shelf: &'x Shelf<A>,
    board: &'x Board<J, A>,
    gate: &'x G,
    limits: &Limits,
    outlet: &'w mut O,
) -> (Result<(), Cut<O::Error>>, Tally)
    requires name { shelf.now ≡ J.shelf }
    requires rules { rules_of program.now ≡ J.rules }
    requires rests { IsAtRest coordinator.old }
    requires start { (machine_by coordinator.old).steps ≡ 0 }
    ensures { Turns limits.now.budget coordinator.old coordinator.new (O.known outlet.old) (O.known outlet.new) result.0 }
{
    let (budget, portion) = (limits.budget, limits.portion);
    let mut buffer = Vec::new(alloc);
    let mut turns = || -> Result<(), Cut<O::Error>>
        requires { (shelf.now ≡ J.shelf) × IsAtRest coordinator.now
            × ((machine_by coordinator.now).steps ≡ 0) × (budget ≤ MAX_TRANSITIONS) }
        ensures { Turns budget coordinator.entry.now coordinator.exit.now
            (O.known outlet.entry.now) (O.known outlet.exit.now) result }
    {
        let ended = make_transitions(
            rt,
            coordinator,
            shelf,
            board,
            gate,
            budget,
            portion,
            &mut buffer,
            outlet,
        );
        board.close(rt);
        ended
    };
    beside(
        rt,
        alloc,
        program,
        shelf,
        board,
        gate,
        limits.workers,
        &mut turns,
    )
}

/// Does a job over a shelf with nothing on it, in a run with a name.
fn run_named<
    J: RunName + Send + Sync,
    A: Allocator + Copy + Send + Sync,
    G: Gate,
    O: Outlet,
    R: Threads + Wait + Sync,
>(
    rt: &R,
    alloc: A,
    shelf: Shelf<A>,
    job: Job<'_, A>,
    gate: &G,
    outlet: &mut O,
) -> Result<Run<A>, Cut<O::Error>>
    requires name { shelf ≡ J.shelf }
    requires rules { rules_of job.program.now ≡ J.rules }
    requires bounded { IsQueryBounded (query_view job.query) }
    ensures { Does job.entry (O.known outlet.old) (O.known outlet.new) result }
{
    let Job {
        program,
        query,
        limits,
    } = job;
    let board = Board::<J, A>::new(alloc);
    let Ok(mut coordinator) = Coordinator::<J, A>::new(alloc, program, query, limits.workers) else {
        return Err(Cut::Memory);
    };
    let (ended, tally) = turns_beside(
        rt,
        alloc,
        program,
        &mut coordinator,
        &shelf,
        &board,
        gate,
        &limits,
        outlet,
    );
    match ended {
        Err(cut) => Err(cut),
        Ok(()) => {
            let totals = board.totals(rt);
            Ok(with_workers(coordinator.finish(), totals, tally))
        }
    }
}

/// Does a job, in a run that gets a name of its own.
pub(crate) fn run_job<
    A: Allocator + Copy + Send + Sync,
    G: Gate,
    O: Outlet,
    R: Threads + Wait + Sync,
>(rt: &R, alloc: A, job: Job<'_, A>, gate: &G, outlet: &mut O) -> Result<Run<A>, Cut<O::Error>>
    requires { IsQueryBounded (query_view job.query) }
    ensures { Does job.entry (O.known outlet.old) (O.known outlet.new) result }
{
    match Shelf::new(alloc) {
        Err(_) => Err(Cut::Memory),
        Ok(shelf) => run_named::<Brand, A, G, O, R>(rt, alloc, shelf, job, gate, outlet),
    }
}

/// Runs the first n transitions of a query, while `workers` workers search ahead. For every number of workers and order in which their answers
/// arrive, a run that is not refused for memory gives what one thread gives: the goal stack, store, bindings, propagation history and trace of
/// these transitions. The gate is called in each worker before a search and before its answer is posted, and in this thread before each
/// transition that needs a search. A worker that cannot start is left out, and all are joined before it answers.
pub fn run<A: Allocator + Copy + Send + Sync, G: Gate, R: Threads + Wait + Sync>(
    rt: &R,
    alloc: A,
    program: &Program<A>,
    query: Query<A>,
    n: u64,
    workers: u32,
    gate: &G,
) -> Result<Run<A>, RunError>
    requires bounded { IsQueryBounded (query_view query) }
    ensures ok { IfOk result (λ run. IsRun (names_of program.now) (rules_of program.now) (query_view query) n workers run) }
    ensures err { IfErr result (λ error. run_refusal n workers ≡ refusal_as error) }
{
    let limits = Limits::new(n, workers, Portion::Block)?;
    let job = Job {
        program,
        query,
        limits,
    };
    match run_job(rt, alloc, job, gate, &mut Silence) {
        Ok(run) => Ok(run),
        Err(Cut::Memory) => Err(RunError::Memory),
    }
}
