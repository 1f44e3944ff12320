//! The log of a run: what is noted at each of its transitions.
ghost use Rattle.std.specs.Prelude.{◌≡◌, ◌≤◌, ◌+◌, ◌++◌, ◌∷◌, [], IfOk, None, OnOk, length, map, option_map, slice_get, unwrap_or};
ghost use Rattle.chr_term.specs.TermView.{atom_over};
ghost use Rattle.chr_store.specs.HistoryView.{fired_view, firings_view};
ghost use Rattle.chr_look.specs.Logs.{entry_at, IsFirst, IsNoted, IsRaised};
ghost use Rattle.chr_look.specs.LogView.{atom_of_birth, log_view, sight_view};

use chr_store::Entry;
use chr_term::{Args, Memory, Sym};
use std::alloc::{Allocator, Global};

/// What is looked at of a state.
#[derive(Clone, Copy, PartialEq, Eq, Debug, Drop)]
pub(crate) struct Sight {
    /// How many entries the history has.
    pub entries: usize,
    /// How high the stack is.
    pub height: usize,
}

/// How a constraint came.
#[derive(Drop)]
pub struct Birth<A: Allocator = Global> {
    /// The transition that brought it.
    pub at: u64,
    /// The entry of the history whose firing put its goal on the stack. There is none for a goal of the query.
    pub origin: Option<usize>,
    pub sym: Sym,
    /// Its arguments as they stood then.
    pub args: Args<A>,
}

/// When the constraints of a run came, which firing made each, and when each firing was.
#[derive(Drop)]
pub struct Log<A: Allocator = Global> {
    /// Of the identities 1, 2, ..
    births: Vec<Birth<A>, A>,
    /// The transitions of the entries of the history.
    times: Vec<u64, A>,
    /// For each height from 0 to the stack's, the entry that the last transition made which was made with a stack no higher.
    lows: Vec<Option<usize>, A>,
}

/// Appends a value until there is a place for the height.
fn raise<A: Allocator>(
    lows: &mut Vec<Option<usize>, A>,
    height: usize,
    value: Option<usize>,
) -> Result<(), Memory>
    requires { length lows.old.items ≤ height + 1 }
    ensures { OnOk result (IsRaised value height lows.old.items lows.new.items) }
{
    while lows.len() <= height {
        lows.push(value)?;
    }
    Ok(())
}

impl<A: Allocator + Copy> Log<A> {
    /// The log of no transition, where the stack is so high.
    pub(crate) fn new(alloc: A, height: usize) -> Result<Log<A>, Memory>
        ensures { IfOk result (λ log. IsFirst height (log_view log)) }
    {
        let mut lows = Vec::new(alloc);
        raise(&mut lows, height, None)?;
        Ok(Log {
            births: Vec::new(alloc),
            times: Vec::new(alloc),
            lows,
        })
    }

    /// The entry whose firing put the top goal on a stack so high, where one did.
    pub(crate) fn origin(&self, height: usize) -> Option<usize>
        ensures { result ≡ unwrap_or (slice_get self.now.lows.items height) None }
    {
        match self.lows.get(height) {
            Some(entry) => *entry,
            None => None,
        }
    }

    /// Notes a transition, by the constraint that it brought, if one, and by what is looked at of the states before and after it.
    pub(crate) fn note(
        &mut self,
        at: u64,
        born: Option<(Sym, Args<A>)>,
        before: Sight,
        now: Sight,
    ) -> Result<(), Memory>
        requires { before.height ≤ now.height + 1 }
        ensures { OnOk result (IsNoted at (option_map (λ a. atom_over a.0 a.1) born) (sight_view before) (sight_view now) (log_view self.old) (log_view self.new)) }
    {
        if let Some((sym, args)) = born {
            let origin = self.origin(before.height);
            self.births.push(Birth {
                at,
                origin,
                sym,
                args,
            })?;
        }
        self.lows.truncate(before.height);
        if now.entries == before.entries {
            return raise(&mut self.lows, now.height, None);
        }
        self.times.push(at)?;
        raise(&mut self.lows, now.height, Some(before.entries))
    }

    /// How the constraint at a place came, counted from 0.
    pub(crate) fn birth(&self, place: usize) -> Option<&Birth<A>>
        ensures { option_map (λ b. b.now) result ≡ slice_get self.now.births.items place }
    {
        self.births.get(place)
    }

    /// The firing that made the constraint at a place, of the entries of the history.
    pub(crate) fn maker<'e>(&self, place: usize, entries: &'e [Entry<A>]) -> Option<&'e Entry<A>>
        ensures { option_map (λ e. fired_view e.now) result
            ≡ entry_at (firings_view entries.now) (slice_get (log_view self.now).origins place) }
    {
        match self.births.get(place) {
            None => None,
            Some(birth) => match birth.origin {
                None => None,
                Some(entry) => entries.get(entry),
            },
        }
    }

    /// The transition of an entry of the history.
    pub(crate) fn time(&self, place: usize) -> Option<u64>
        ensures { result ≡ slice_get (log_view self.now).times place }
    {
        match self.times.get(place) {
            None => None,
            Some(at) => Some(*at),
        }
    }
}
