//! The answers to questions about a run.
ghost use Rattle.std.specs.Prelude.{◌<◌, IfOk, length};
ghost use Rattle.chr_semantics.specs.Bounds.{IsQueryBounded};
ghost use Rattle.chr_rules.specs.ProgramView.{rules_of};
ghost use Rattle.chr_rules.specs.RuleView.{query_view};

use crate::again::run_again;
use crate::firings::write_firings;
use crate::life::write_life;
use crate::lists::write_lists;
use crate::page::Page;
use crate::profile::write_profile;
use crate::reading::Texts;
use crate::refusal::Refusal;
use crate::showing::{Titles, write_page};
use crate::teller::Teller;
use crate::unsought::Listed;
use crate::why::{ids_of, rule_of, write_why};
use chr_look::{ListLog, Profile, Watched, watch, watch_costs, watch_life, watch_list};
use chr_machine::{Id, Status, Stepped};
use chr_rules::Program;
use chr_term::Memory;
use chr_trace::Ending;
use look_words::Question;
use std::alloc::Global;
use std::io::Write;

/// Writes how a run ended.
fn write_ending(watched: &Watched<'_>, page: &mut Page) -> Status {
    let machine = watched.machine();
    let ending = Ending {
        program: machine.program(),
        var_names: machine.var_names(),
        status: machine.status(),
        stack: machine.stack(),
        store: machine.store(),
        bindings: machine.bindings(),
        history: machine.history().list(),
    };
    page.ending(&ending);
    machine.status()
}

/// Answers how the run of n transitions or fewer ended.
fn answer_ending(alloc: Global, texts: &Texts, n: u64, page: &mut Page) -> Result<Status, Refusal>
    requires { IsQueryBounded (query_view texts.now.query) }
{
    let watched = watch(alloc, &texts.program, texts.query.copy()?, n)?;
    Ok(write_ending(&watched, page))
}

/// Writes the last line of an answer about a run.
fn write_end(teller: &Teller<'_, '_>, page: &mut Page) -> Status {
    teller.write_end(page);
    teller.watched.machine().status()
}

/// Writes the firings of a run while it makes n transitions or ends, and how it ended.
fn write_firings_and_end<W: Write>(
    alloc: Global,
    texts: &Texts,
    watched: &mut Watched<'_>,
    n: u64,
    output: &mut W,
    page: &mut Page,
) -> Result<Status, Refusal> {
    write_firings(alloc, texts, watched, n, output, page)?;
    Ok(write_end(&Teller::new(alloc, &*watched, texts), page))
}

/// Answers with the firings of the run of n transitions or fewer.
fn answer_firings<W: Write>(
    alloc: Global,
    texts: &Texts,
    n: u64,
    output: &mut W,
    page: &mut Page,
) -> Result<Status, Refusal>
    requires { IsQueryBounded (query_view texts.now.query) }
{
    let mut watched = Watched::start(alloc, &texts.program, texts.query.copy()?)?;
    write_firings_and_end(alloc, texts, &mut watched, n, output, page)
}

/// Writes the life of a constraint, and how the run ended.
fn write_life_and_end(
    teller: &Teller<'_, '_>,
    id: u64,
    woken: &[u64],
    page: &mut Page,
) -> Result<Status, Refusal> {
    write_life(teller, id, woken, page)?;
    Ok(write_end(teller, page))
}

/// Answers with the life of a constraint in the run of n transitions or fewer.
fn answer_life(
    alloc: Global,
    texts: &Texts,
    id: u64,
    n: u64,
    page: &mut Page,
) -> Result<Status, Refusal>
    requires { IsQueryBounded (query_view texts.now.query) }
{
    let query = texts.query.copy()?;
    let (watched, woken) = watch_life(alloc, &texts.program, query, n, Id(id))?;
    write_life_and_end(
        &Teller::new(alloc, &watched, texts),
        id,
        woken.as_slice(),
        page,
    )
}

/// Writes what a run cost, and how it ended.
fn write_profile_and_end(
    teller: &Teller<'_, '_>,
    text: &[u8],
    profile: &Profile,
    page: &mut Page,
) -> Status {
    write_profile(teller, text, profile, page);
    write_end(teller, page)
}

/// Answers with what the run cost of n transitions or fewer, of a program with this text.
fn answer_profile(
    alloc: Global,
    texts: &Texts,
    text: &[u8],
    n: u64,
    page: &mut Page,
) -> Result<Status, Refusal>
    requires { IsQueryBounded (query_view texts.now.query) }
{
    let (watched, profile) = watch_costs(alloc, &texts.program, texts.query.copy()?, n)?;
    Ok(write_profile_and_end(&Teller::new(alloc, &watched, texts), text, &profile, page))
}

/// What is asked of a rule and a list of constraints: perhaps about the state after so many transitions.
#[derive(Clone, Copy, Drop)]
struct Asked<'a> {
    label: &'a str,
    numbers: &'a [u64],
    at: Option<u64>,
}

/// Goes on with a run until it made n transitions or ends.
fn go_on(watched: &mut Watched<'_>, n: u64) -> Result<(), Memory> {
    for _ in watched.machine().steps()..n {
        match watched.step()? {
            Stepped::Moved => {}
            Stepped::Ended | Stepped::Spent => return Ok(()),
        }
    }
    Ok(())
}

/// The rule and the list that are asked about.
fn listed_of(alloc: Global, asked: Asked<'_>, program: &Program) -> Result<Listed, Refusal>
    ensures { IfOk result (λ listed. listed.rule < length (rules_of program.now)) }
{
    let Some(rule) = rule_of(program, asked.label) else {
        return Err(Refusal::UnknownRule);
    };
    Ok(Listed {
        rule,
        ids: ids_of(alloc, program, rule, asked.numbers)?,
        at: asked.at,
    })
}

/// Writes why a rule does not fire with a list of constraints where the run stands, in which they were watched.
fn write_listed(
    teller: &Teller<'_, '_>,
    texts: &Texts,
    listed: Listed,
    list: &ListLog,
    page: &mut Page,
) -> Result<(), Refusal>
    requires { IsQueryBounded (query_view texts.now.query) }
{
    let steps = teller.watched.machine().steps();
    if listed.at.is_some_and(|at| at > steps) {
        return Err(Refusal::UnknownTransition(steps));
    }
    let again = run_again(teller.alloc, texts, list)?;
    write_why(teller, list, &again, listed, page);
    Ok(())
}

/// Writes why a rule does not fire with a list where a run stands; then the run goes on until it made n transitions or ends, and how it ended
/// is written too.
fn write_listed_and_end(
    alloc: Global,
    texts: &Texts,
    listed: Listed,
    list: &ListLog,
    watched: &mut Watched<'_>,
    n: u64,
    page: &mut Page,
) -> Result<Status, Refusal>
    requires { IsQueryBounded (query_view texts.now.query) }
{
    write_listed(
        &Teller::new(alloc, &*watched, texts),
        texts,
        listed,
        list,
        page,
    )?;
    go_on(watched, n)?;
    Ok(write_end(&Teller::new(alloc, &*watched, texts), page))
}

/// Answers why a rule does not fire with a list of constraints in the run of n transitions or fewer.
fn answer_why(
    alloc: Global,
    texts: &Texts,
    asked: Asked<'_>,
    n: u64,
    page: &mut Page,
) -> Result<Status, Refusal>
    requires { IsQueryBounded (query_view texts.now.query) }
{
    let listed = listed_of(alloc, asked, &texts.program)?;
    let query = texts.query.copy()?;
    let until = listed.at.unwrap_or(n).min(n);
    let (mut watched, list) = watch_list(
        alloc,
        &texts.program,
        query,
        until,
        listed.rule,
        listed.ids,
    )?;
    write_listed_and_end(alloc, texts, listed, &list, &mut watched, n, page)
}

/// Writes why a rule does not fire with the constraints of the store where a run stands; then the run goes on until it made n transitions or
/// ends, and how it ended is written too.
fn write_lists_and_end(
    alloc: Global,
    texts: &Texts,
    text: &[u8],
    asked: Asked<'_>,
    watched: &mut Watched<'_>,
    n: u64,
    page: &mut Page,
) -> Result<Status, Refusal> {
    let Some(rule) = rule_of(&texts.program, asked.label) else {
        return Err(Refusal::UnknownRule);
    };
    let steps = watched.machine().steps();
    if asked.at.is_some_and(|at| at > steps) {
        return Err(Refusal::UnknownTransition(steps));
    }
    write_lists(&Teller::new(alloc, &*watched, texts), text, rule, page);
    go_on(watched, n)?;
    Ok(write_end(&Teller::new(alloc, &*watched, texts), page))
}

/// Answers why a rule does not fire in the run of n transitions or fewer, by all lists of the store's constraints.
fn answer_why_rule(
    alloc: Global,
    texts: &Texts,
    text: &[u8],
    asked: Asked<'_>,
    n: u64,
    page: &mut Page,
) -> Result<Status, Refusal>
    requires { IsQueryBounded (query_view texts.now.query) }
{
    let until = asked.at.unwrap_or(n).min(n);
    let mut watched = watch(alloc, &texts.program, texts.query.copy()?, until)?;
    write_lists_and_end(alloc, texts, text, asked, &mut watched, n, page)
}

/// Answers a question about the run of a query, of n transitions or fewer, and says how that ended.
pub(crate) fn answer<W: Write>(
    alloc: Global,
    question: &Question<'_>,
    texts: &Texts,
    titles: Titles<'_>,
    n: u64,
    output: &mut W,
) -> Result<Status, Refusal>
    requires { IsQueryBounded (query_view texts.now.query) }
{
    let mut page = Page::new(alloc);
    let status = match question {
        Question::Answer => answer_ending(alloc, texts, n, &mut page)?,
        Question::Firings => answer_firings(alloc, texts, n, output, &mut page)?,
        Question::Life(id) => answer_life(alloc, texts, *id, n, &mut page)?,
        Question::Profile => answer_profile(alloc, texts, titles.program, n, &mut page)?,
        Question::Page => write_page(alloc, texts, titles, n, output, &mut page)?,
        Question::Why(label, numbers, at) => {
            let asked = Asked {
                label: *label,
                numbers: numbers.as_slice(),
                at: *at,
            };
            if numbers.is_empty() {
                answer_why_rule(alloc, texts, titles.program, asked, n, &mut page)?
            } else {
                answer_why(alloc, texts, asked, n, &mut page)?
            }
        }
    };
    page.send(output)?;
    Ok(status)
}
