//! Runs beside none, one and more workers: what came of the tasks, and what a round cost. There are runs of long searches, which find nothing,
//! one of long searches that find something, and one of short searches.
ghost use Rattle.std.specs.Prelude.{IfOk};
ghost use Rattle.chr_rules.specs.RuleView.{query_view};
ghost use Rattle.chr_semantics.specs.Bounds.{IsQueryBounded};

use crate::times::{percent, share};
use chr_machine::Status;
use chr_read::read_query;
use chr_rules::{Program, Query};
use chr_run::{Gate, Point, Run, RunError, run};
use chr_schedule::Event;
use chr_texts::{Mistake, program_of};
use std::alloc::{AllocError, Global};
use std::fmt::Write;
use std::io;
use std::rt::Clock;
use std::sync::Wait;
use std::thread::Threads;
use std::time::{Duration, Instant};

/// How many workers there are.
const WORKERS: [u32; 4] = [0, 1, 2, 4];

/// How many occurrences a constraint of the long searches has.
const OCCURRENCES: [u64; 2] = [4, 8];

/// How many constraints are searched for in turn.
const CONSTRAINTS: u64 = 25;

/// How many partners they could have: a search looks at each two of these, which takes 2 to 5 ms.
const PARTNERS: u64 = 110;

/// What the second number of the short searches begins with: a run of these makes three transitions for each one.
const LARGEST: u64 = 3_333;

/// More transitions than a run makes.
const AMPLE: u64 = 1_000_000;

/// How many numbers are searched for triples.
const NUMBERS: u64 = 120;

const TRIPLES: &str =
    ":- chr_constraint n/1, triple/3. n(A), n(B), n(C) ==> A < B, B < C, C*C =:= A*A+B*B | triple(A,B,C).";

const GCD: &str =
    ":- chr_constraint gcd/1. gcd(N) \\ gcd(M) <=> N > 0, M >= N | L is M - N, gcd(L).";

/// What holds nobody up.
struct NoGate;

impl Gate for NoGate {
    fn at(&self, _point: Point) {}
}

/// A rule for each occurrence of `act`. It looks at each two of the constraints of `p`, of which none is active.
fn long_rules(alloc: Global, occurrences: u64) -> Result<String, AllocError> {
    let mut text = String::from_str(alloc, ":- chr_constraint p/1, act/1.\n")?;
    for rule in 0..occurrences {
        let more = rule.saturating_mul(2);
        write!(
            text,
            "act(X), p(Y) # passive, p(Z) # passive ==> Y + Z =:= X + {more} | true.\n"
        )?;
    }
    Ok(text)
}

/// The numbers of the constraints of `p` are even, and those of `act` odd: so no rule fires.
fn long_query(alloc: Global) -> Result<String, AllocError> {
    let mut text = String::from_str(alloc, "true")?;
    for k in 0..PARTNERS {
        write!(text, ", p({})", k.saturating_mul(2))?;
    }
    for k in 0..CONSTRAINTS {
        write!(text, ", act({})", k.saturating_mul(2).saturating_add(1))?;
    }
    text.push_str(".")?;
    Ok(text)
}

/// Numbers from 1 on.
fn triples_query(alloc: Global) -> Result<String, AllocError> {
    let mut text = String::from_str(alloc, "true")?;
    for k in 1..=NUMBERS {
        write!(text, ", n({k})")?;
    }
    text.push_str(".")?;
    Ok(text)
}

/// The query of a text over a program.
fn query_of(alloc: Global, program: &mut Program, text: &str) -> Result<Query, Mistake>
    ensures { IfOk result (λ query. IsQueryBounded (query_view query)) }
{
    let syntax = match read_query(alloc, text.as_bytes()) {
        Ok(syntax) => syntax,
        Err(error) => return Err(Mistake::Read(error)),
    };
    match program.goals_of_query(syntax) {
        Ok(query) => Ok(query),
        Err(error) => Err(Mistake::Rule(error)),
    }
}

/// The run of a query to its end.
fn whole_run<R: AllocGlobal + Threads + Wait + Sync>(
    rt: &R,
    program: &Program,
    query: Query,
    workers: u32,
) -> Result<Run, RunError>
    requires { IsQueryBounded (query_view query) }
{
    run(rt, rt.alloc(), program, query, AMPLE, workers, &NoGate)
}

/// The run of a query beside these workers, and how long it took. A refusal is printed.
fn timed_run<R: AllocGlobal + Clock + Eprint + Threads + Wait + Sync>(
    rt: &R,
    program: &Program,
    query: Query,
    workers: u32,
) -> io::Result<Option<(Duration, Run)>>
    requires { IsQueryBounded (query_view query) }
{
    let start = Instant::now(rt)?;
    match whole_run(rt, program, query, workers) {
        Ok(run) => Ok(Some((start.elapsed(rt)?, run))),
        Err(error) => {
            eprintln!(rt; "the run is refused: {error}")?;
            Ok(None)
        }
    }
}

/// As `timed_run`, of the text of a query.
fn timed<R: AllocGlobal + Clock + Eprint + Threads + Wait + Sync>(
    rt: &R,
    program: &mut Program,
    query: &str,
    workers: u32,
) -> io::Result<Option<(Duration, Run)>> {
    match query_of(rt.alloc(), program, query) {
        Ok(query) => timed_run(rt, program, query, workers),
        Err(mistake) => {
            eprintln!(rt; "the query is refused: {mistake}")?;
            Ok(None)
        }
    }
}

fn print_counts(rt: &impl Eprint, run: &Run) -> io::Result<()> {
    let (counts, totals) = (run.counts, run.totals);
    let searches = counts.used.saturating_add(counts.own);
    eprint!(rt;
        "; {} of {searches} searches used an answer, {} percent; answers: {} kept, {} percent of them used, {} late, {} double",
        counts.used,
        share(counts.used, searches),
        counts.kept,
        share(counts.used, counts.kept),
        counts.late,
        counts.double
    )?;
    eprintln!(rt;
        "; tasks: {} offered, {} taken, {} posted, {} given up, {} drained, {} waiting, {} left; {} rounds refused",
        totals.put,
        totals.taken,
        totals.posted,
        totals.given_up,
        totals.drained,
        totals.waiting,
        totals.left,
        run.skipped
    )
}

/// How many rounds a run made.
fn rounds_of(run: &Run) -> u64 {
    let mut rounds: u64 = 0;
    for event in run.schedule.as_slice() {
        if *event == Event::Publish {
            rounds = rounds.saturating_add(1);
        }
    }
    rounds
}

/// Prints what a round cost, by how much longer the run took than with no worker: 0 where it took no longer.
fn print_rounds(
    rt: &impl Eprint,
    (work, workers): (&str, u32),
    (time, alone): (Duration, Duration),
    run: &Run,
) -> io::Result<()> {
    let rounds = u128::from(rounds_of(run));
    let more = time.as_nanos().saturating_sub(alone.as_nanos());
    match rounds {
        0 => Ok(()),
        rounds => eprintln!(rt;
            "{work}, workers {workers}: {rounds} rounds, {} ns more for each than with none",
            more / rounds
        ),
    }
}

/// Prints how long each search of a run with no worker takes.
fn print_search(rt: &impl Eprint, work: &str, time: Duration, searches: u64) -> io::Result<()> {
    eprintln!(rt;
        "{work}: {searches} searches, {} us each",
        time.as_micros() / u128::from(searches.max(1))
    )
}

/// Prints the time of a run beside these workers, and what part it is of the time with none.
fn print_run(
    rt: &impl Eprint,
    (work, workers): (&str, u32),
    (time, alone): (Duration, Duration),
    run: &Run,
) -> io::Result<()> {
    eprint!(rt;
        "{work}, workers {workers}: {} ms, {} percent of the time with none",
        time.as_millis(),
        percent(time, alone)
    )?;
    print_counts(rt, run)?;
    print_rounds(rt, (work, workers), (time, alone), run)?;
    if run.outcome.status != Status::Done {
        eprintln!(rt; "{work}, workers {workers}: the run did not end")?;
    }
    Ok(())
}

/// The time with no worker, which is that of the first run.
fn time_alone(
    rt: &impl Eprint,
    work: &str,
    first: Option<Duration>,
    (time, run): (Duration, &Run),
) -> io::Result<Duration> {
    match first {
        Some(alone) => Ok(alone),
        None => {
            print_search(rt, work, time, run.counts.own)?;
            Ok(time)
        }
    }
}

/// Prints the time of a query's run beside these workers. The answer is the time with none, if the run was not refused.
fn measured_beside<R: AllocGlobal + Clock + Eprint + Threads + Wait + Sync>(
    rt: &R,
    (work, workers): (&str, u32),
    program: &mut Program,
    query: &str,
    first: Option<Duration>,
) -> io::Result<Option<Duration>> {
    match timed(rt, program, query, workers)? {
        None => Ok(None),
        Some((time, run)) => {
            let alone = time_alone(rt, work, first, (time, &run))?;
            print_run(rt, (work, workers), (time, alone), &run)?;
            Ok(Some(alone))
        }
    }
}

/// Prints the times of a query's runs beside all numbers of workers.
fn measured<R: AllocGlobal + Clock + Eprint + Threads + Wait + Sync>(
    rt: &R,
    work: &str,
    program: &mut Program,
    query: &str,
) -> io::Result<()> {
    let mut alone = None;
    for workers in WORKERS {
        alone = measured_beside(rt, (work, workers), program, query, alone)?;
    }
    Ok(())
}

/// As `measured`, for the texts of a program and of a query.
fn measured_texts<R: AllocGlobal + Clock + Eprint + Threads + Wait + Sync>(
    rt: &R,
    work: &str,
    program: &str,
    query: &str,
) -> io::Result<()> {
    match program_of(rt.alloc(), program) {
        Ok(mut program) => measured(rt, work, &mut program, query),
        Err(mistake) => eprintln!(rt; "the rules are refused: {mistake}"),
    }
}

/// Long searches of constraints with this number of occurrences.
fn long_searches<R: AllocGlobal + Clock + Eprint + Threads + Wait + Sync>(
    rt: &R,
    query: &str,
    occurrences: u64,
) -> io::Result<()> {
    let work = format!(in rt.alloc(); "long searches, {occurrences} occurrences")?;
    let program = long_rules(rt.alloc(), occurrences)?;
    measured_texts(rt, &work, &program, query)
}

fn all_long_searches<R: AllocGlobal + Clock + Eprint + Threads + Wait + Sync>(
    rt: &R,
) -> io::Result<()> {
    let query = long_query(rt.alloc())?;
    for occurrences in OCCURRENCES {
        long_searches(rt, &query, occurrences)?;
    }
    Ok(())
}

fn triples<R: AllocGlobal + Clock + Eprint + Threads + Wait + Sync>(rt: &R) -> io::Result<()> {
    let query = triples_query(rt.alloc())?;
    measured_texts(rt, "triples", TRIPLES, &query)
}

fn short_searches<R: AllocGlobal + Clock + Eprint + Threads + Wait + Sync>(
    rt: &R,
) -> io::Result<()> {
    let query = format!(in rt.alloc(); "gcd(1), gcd({LARGEST}).")?;
    measured_texts(rt, "short searches", GCD, &query)
}

/// Prints how long they take.
pub fn grow<R: AllocGlobal + Clock + Eprint + Threads + Wait + Sync>(rt: &R) -> io::Result<()> {
    all_long_searches(rt)?;
    triples(rt)?;
    short_searches(rt)
}
