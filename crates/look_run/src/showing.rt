//! A run as a page to look at: one HTML text, with the run in it as data.
ghost use Rattle.chr_semantics.specs.Bounds.{IsQueryBounded};
ghost use Rattle.chr_rules.specs.RuleView.{query_view};

use crate::heads::Heads;
use crate::json::{Words, write_member, write_string};
use crate::page::Page;
use crate::program_data::write_rules;
use crate::reading::Texts;
use crate::refusal::Refusal;
use crate::teller::Teller;
use crate::transitions::write_transitions;
use chr_look::{Profile, Watched, watch_costs};
use chr_machine::{Machine, Status};
use chr_rules::Query;
use chr_term::Memory;
use look_page::{BEFORE_DATA, BEHIND_DATA};
use std::alloc::Global;
use std::io::Write;

/// The texts of a run: the path of the program and what stands there, and the query.
#[derive(Clone, Copy, Drop)]
pub(crate) struct Titles<'a> {
    pub(crate) file: &'a str,
    pub(crate) program: &'a [u8],
    pub(crate) query: &'a str,
}

/// Writes the names of a query's variables.
fn write_names(query: &Query, page: &mut Page) {
    page.byte(b'[');
    for number in 0..query.var_names.len() {
        if number > 0 {
            page.byte(b',');
        }
        if let Some(name) = query.var_names.name(number) {
            write_string(name.as_bytes(), page);
        }
    }
    page.byte(b']');
}

/// How the symbols of a program and the variables of a query are called.
fn words_of(texts: &Texts) -> Words<'_> {
    Words {
        names: texts.program.names(),
        vars: &texts.query.var_names,
    }
}

/// Writes the goals of a query.
fn write_goals(texts: &Texts, page: &mut Page) {
    let words = words_of(texts);
    let goals = texts.query.goals.as_slice();
    page.byte(b'[');
    for k in 0..goals.len() {
        if k > 0 {
            page.byte(b',');
        }
        words.write_goal(&goals[k], page);
    }
    page.byte(b']');
}

/// Writes what stands before the transitions.
fn write_front(
    texts: &Texts,
    titles: Titles<'_>,
    heads: &Heads,
    profile: &Profile,
    page: &mut Page,
) {
    page.text(BEFORE_DATA);
    page.byte(b'{');
    write_member("file", page);
    write_string(titles.file.as_bytes(), page);
    page.text(",\n");
    write_member("query", page);
    write_string(titles.query.as_bytes(), page);
    page.text(",\n");
    write_member("text", page);
    heads.write_pieces(page);
    page.text(",\n");
    write_member("rules", page);
    write_rules(texts, heads, profile, page);
    page.text(",\n");
    write_member("names", page);
    write_names(&texts.query, page);
    page.text(",\n");
    write_member("goals", page);
    write_goals(texts, page);
    page.text(",\n");
    write_member("run", page);
    page.byte(b'[');
}

/// Writes what stands behind the transitions of a run.
fn write_back(alloc: Global, teller: &Teller<'_, '_>, page: &mut Page) -> Status {
    let mut end = Page::new(alloc);
    teller.write_end(&mut end);
    page.text("],\n");
    write_member("end", page);
    if let Some(line) = page.made(end.whole()) {
        write_string(line.trim_ascii(), page);
    }
    page.text("}");
    page.text(BEHIND_DATA);
    teller.watched.machine().status()
}

/// Writes what stands before the transitions of a run of n of them or fewer, and answers the run.
fn write_costs<'t>(
    alloc: Global,
    texts: &'t Texts,
    titles: Titles<'_>,
    n: u64,
    page: &mut Page,
) -> Result<Watched<'t>, Memory>
    requires { IsQueryBounded (query_view texts.now.query) }
{
    let heads = Heads::of(alloc, titles.program)?;
    let (watched, profile) = watch_costs(alloc, &texts.program, texts.query.copy()?, n)?;
    write_front(texts, titles, &heads, &profile, page);
    Ok(watched)
}

/// The run before its first transition.
fn begun(alloc: Global, texts: &Texts) -> Result<Machine<'_>, Memory>
    requires { IsQueryBounded (query_view texts.now.query) }
{
    Machine::start(alloc, &texts.program, texts.query.copy()?)
}

/// Makes the run again, and writes its transitions.
fn write_run<W: Write>(
    alloc: Global,
    texts: &Texts,
    n: u64,
    output: &mut W,
    page: &mut Page,
) -> Result<(), Refusal>
    requires { IsQueryBounded (query_view texts.now.query) }
{
    let mut machine = begun(alloc, texts)?;
    write_transitions(alloc, words_of(texts), &mut machine, n, output, page)
}

/// Writes the page of a run of n transitions or fewer. It goes out in portions, but for the last one.
pub(crate) fn write_page<W: Write>(
    alloc: Global,
    texts: &Texts,
    titles: Titles<'_>,
    n: u64,
    output: &mut W,
    page: &mut Page,
) -> Result<Status, Refusal>
    requires { IsQueryBounded (query_view texts.now.query) }
{
    let watched = write_costs(alloc, texts, titles, n, page)?;
    write_run(alloc, texts, n, output, page)?;
    Ok(write_back(alloc, &Teller::new(alloc, &watched, texts), page))
}
