//! A run that is made again, for what is asked of a list after it was watched.
ghost use Rattle.chr_semantics.specs.Bounds.{IsQueryBounded};
ghost use Rattle.chr_rules.specs.RuleView.{query_view};

use crate::reading::Texts;
use crate::unsought::is_sought_after;
use chr_look::{ListLog, Watched, watch};
use chr_machine::Stepped;
use chr_semantics::limits::MAX_HEADS;
use chr_store::HeadIds;
use chr_term::Memory;
use std::alloc::Global;

/// What a run that is made again shows of a list.
#[derive(Drop)]
pub(crate) enum Again<'p> {
    /// Nothing: the list could not fire.
    Nothing,
    /// The list that fired at each of the searches for the rule with the list, where one did.
    Fired(Vec<Option<HeadIds>>),
    /// The run where the list could first fire, which was not looked for afterwards.
    Then(Watched<'p>),
}

impl Again<'_> {
    /// The list that fired at the k-th search, from 0, where one did.
    pub(crate) fn fired(&self, k: usize) -> Option<HeadIds> {
        match self {
            Again::Fired(lists) => *lists.get(k)?,
            Again::Nothing | Again::Then(_) => None,
        }
    }
}

/// The list of the entry that the last transition added to a history of so many entries.
fn last_list(watched: &Watched<'_>, before: usize) -> Option<HeadIds> {
    let entry = watched.machine().history().list().get(before)?;
    if entry.ids().len() > MAX_HEADS {
        return None;
    }
    Some(HeadIds::of(entry.ids()))
}

/// The lists that fire at searches, while a run is made.
fn lists_that_fire(
    alloc: Global,
    watched: &mut Watched<'_>,
    list: &ListLog,
) -> Result<Vec<Option<HeadIds>>, Memory> {
    let mut fired = Vec::new(alloc);
    for search in list.searches.as_slice() {
        let mut before = 0;
        for _ in watched.machine().steps()..search.at {
            before = watched.machine().history().list().len();
            match watched.step()? {
                Stepped::Moved => {}
                Stepped::Ended | Stepped::Spent => return Ok(fired),
            }
        }
        fired.push(last_list(watched, before))?;
    }
    Ok(fired)
}

/// The lists that fired at searches.
fn lists_that_fired(
    alloc: Global,
    texts: &Texts,
    list: &ListLog,
) -> Result<Vec<Option<HeadIds>>, Memory>
    requires { IsQueryBounded (query_view texts.now.query) }
{
    let mut watched = Watched::start(alloc, &texts.program, texts.query.copy()?)?;
    lists_that_fire(alloc, &mut watched, list)
}

/// Makes a run again for what a list needs that was watched in it.
pub(crate) fn run_again<'p>(
    alloc: Global,
    texts: &'p Texts,
    list: &ListLog,
) -> Result<Again<'p>, Memory>
    requires { IsQueryBounded (query_view texts.now.query) }
{
    match list.could_from {
        None => Ok(Again::Nothing),
        Some(at) if is_sought_after(list, at) => Ok(Again::Fired(lists_that_fired(
            alloc, texts, list,
        )?)),
        Some(at) => Ok(Again::Then(watch(alloc, &texts.program, texts.query.copy()?, at)?)),
    }
}
