//! What a search of a table starts from.
ghost use Rattle.std.specs.Prelude.{◌≡◌, ◌<◌, Some, length, slice_get};
ghost use Rattle.chr_rules.specs.Bounds.{bounds};
ghost use Rattle.chr_rules.specs.Index.{IsPlaceIn};
ghost use Rattle.chr_rules.specs.ProgramView.{rules_of};
ghost use Rattle.chr_rules.specs.RuleView.{rule_view};
ghost use Rattle.chr_find.specs.SearchView.{IsSearchable};

use chr_rules::{Occurrence, Program, Rule};
use chr_store::{HeadIds, Id};
use std::alloc::{Allocator, Global};

/// A constraint that is active at a head of a rule.
#[derive(Drop)]
pub struct Active<'a, A: Allocator = Global> {
    pub id: Id,
    pub rule: &'a Rule<A>,
    /// The number of the rule, from 0.
    pub number: usize,
    /// The head, from 0.
    pub place: usize,
    ghost searchable: { IsSearchable rule.now place } by { Prim.hlevel bounds },
}

impl<'a, A: Allocator> Active<'a, A> {
    /// A constraint at an occurrence of a program.
    pub fn at(program: &'a Program<A>, occurrence: Occurrence, id: Id) -> Active<'a, A>
        requires rule { occurrence.rule < length (rules_of program.now) }
        requires place { IsPlaceIn (rules_of program.now) occurrence.rule occurrence.place }
        ensures rule { slice_get (rules_of program.now) occurrence.rule
            ≡ Some (rule_view result.rule.now) }
        ensures number { result.number ≡ occurrence.rule }
        ensures place { result.place ≡ occurrence.place }
        ensures id { result.id ≡ id }
    {
        Active {
            id,
            rule: program.rule(occurrence.rule),
            number: occurrence.rule,
            place: occurrence.place,
        }
    }
}

/// Where a search goes on: after the list that the rule fired with last, and with the constraints that are new since.
#[derive(Clone, Copy, Drop)]
pub struct Cursor {
    /// The identities of the list.
    pub after: HeadIds,
    /// From this identity on constraints are new.
    pub from: u64,
}
