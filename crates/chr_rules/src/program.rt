//! Programs: their checks, their rules, and the occurrences of each symbol.
ghost use Rattle.std.specs.Prelude.{◌≡◌, ◌≢◌, ◌<◌, ◌^◌, IfErr, IfOk, IfSome, Ok, OnSome, Some, length, option_map, slice_get, take};
ghost use Rattle.chr_semantics.specs.Checked.{checked, checked_query};
ghost use Rattle.chr_semantics.specs.Names.{first_names};
ghost use Rattle.chr_semantics.specs.Program.{occurrence, occurrences};
ghost use Rattle.chr_read.specs.SyntaxView.{part_views, program_view, query_view as syntax_query};
ghost use Rattle.chr_semantics.specs.Bounds.{AreBounded, IsBounded, IsQueryBounded};
ghost use Rattle.chr_rules.specs.Bounds.{bounds};
ghost use Rattle.chr_rules.specs.Building.{checked_of};
ghost use Rattle.chr_rules.specs.Checks.{IsError};
ghost use Rattle.chr_rules.specs.Grown.{Grows};
ghost use Rattle.chr_rules.specs.Index.{AreListed, IsPlaceIn, head_count, pair_of, pair_view, pairs_of, pairs_view};
ghost use Rattle.chr_rules.specs.QueryOf.{IsQueryOf};
ghost use Rattle.chr_rules.specs.RuleView.{query_view, rule_view, rules_view};
ghost use Rattle.chr_rules.specs.declared.error.RuleErrorKind.TheVariants.{Memory as OutOfMemory};

use crate::building::{declare_all, rules};
use crate::error::RuleError;
use crate::goal::Query;
use crate::index::{Occurrence, index_of};
use crate::queries::query;
use crate::rule::Rule;
use chr_read::{Part, ProgramSyntax, QuerySyntax};
use chr_term::{Names, Sym};
use std::alloc::{Allocator, Global};

/// A program: its rules, the names of its symbols, and the occurrences of each symbol.
#[derive(Drop)]
pub struct Program<A: Allocator = Global> {
    alloc: A,
    names: Names<A>,
    /// How many symbols are the first seven or declared; these have the numbers below.
    declared: usize,
    rules: Vec<Rule<A>, A>,
    index: Vec<Vec<Occurrence, A>, A>,
    ghost listed: { AreListed index.items (rules_view rules.items) },
    ghost bounded: { AreBounded (rules_view rules.items) } by { Prim.hlevel bounds },
    ghost few: { head_count (rules_view rules.items) < 2 ^ 31 },
}

impl<A: Allocator + Copy> Program<A> {
    ghost use Rattle.chr_rules.specs.ProgramView.{checked_view};

    /// What a syntax stands for, or what is wrong with it first: the declarations are looked at first, then the rules, both in their order.
    /// `Memory` is also answered where more than 4,294,967,295 symbols would be named.
    pub fn build(alloc: A, syntax: ProgramSyntax<A>) -> Result<Program<A>, RuleError>
        ensures accepted { IfOk result
            (λ program. checked (program_view syntax) ≡ Ok (checked_view program)) }
        ensures refused { IfErr result (λ e. IsError e (checked (program_view syntax))) }
        ensures bounded { IfOk result (λ program. AreBounded (checked_view program).rules) }
    {
        Program::of_parts(alloc, syntax.parts.as_slice())
    }

    /// What a query over this program stands for, or what is wrong with it first. The names grow: new ones go after those that were there.
    /// Where the query has a mistake, the names are as before. Where memory is refused, some of the query's new names may stand there already.
    pub fn goals_of_query(&mut self, syntax: QuerySyntax<A>) -> Result<Query<A>, RuleError>
        ensures accepted { IfOk result
            (λ query. checked_query (checked_view self.old) (syntax_query syntax)
            ≡ Ok ((checked_view self.new).names, query_view query)) }
        ensures refused { IfErr result
            (λ e. IsError e (checked_query (checked_view self.old) (syntax_query syntax))) }
        ensures declared { (checked_view self.new).declared ≡ (checked_view self.old).declared }
        ensures rules { (checked_view self.new).rules ≡ (checked_view self.old).rules }
        ensures mistaken { IfErr result
            (λ e. e.kind ≢ OutOfMemory → (checked_view self.new).names
            ≡ (checked_view self.old).names) }
        ensures grows { Grows (checked_view self.old).names (checked_view self.new).names }
        ensures bounded { IfOk result (λ query. IsQueryBounded (query_view query)) }
        ensures made { IfOk result (λ query. IsQueryOf (checked_view self.new) (query_view query)) }
    {
        query(self.alloc, &mut self.names, self.declared, &syntax)
    }
}

impl<A: Allocator + Copy> Program<A> {
    ghost use Rattle.chr_rules.specs.ProgramView.{checked_view};

    /// What the parts of a syntax stand for, or what is wrong with them first.
    fn of_parts(alloc: A, parts: &[Part<A>]) -> Result<Program<A>, RuleError>
        ensures accepted { IfOk result
            (λ program. checked (part_views parts.now) ≡ Ok (checked_view program)) }
        ensures refused { IfErr result (λ e. IsError e (checked (part_views parts.now))) }
        ensures bounded { IfOk result (λ program. AreBounded (checked_view program).rules) }
    {
        let mut names = Names::new(alloc)?;
        let (declared, rules) = declared_and_rules(alloc, &mut names, parts)?;
        let index = index_of(alloc, rules.as_slice())?;
        Ok(Program {
            alloc,
            names,
            declared,
            rules,
            index,
        })
    }
}

/// How many symbols are the first seven or declared in these parts, and the rules of the parts.
fn declared_and_rules<A: Allocator + Copy>(
    alloc: A,
    names: &mut Names<A>,
    parts: &[Part<A>],
) -> Result<(usize, Vec<Rule<A>, A>), RuleError>
    requires { names.old ≡ first_names }
    ensures accepted { IfOk result
        (λ made. checked (part_views parts.now)
        ≡ Ok (checked_of names.new made.0 (rules_view made.1.items))) }
    ensures refused { IfErr result (λ e. IsError e (checked (part_views parts.now))) }
    ensures bounded { IfOk result (λ made. AreBounded (rules_view made.1.items)) }
    ensures few { IfOk result (λ made. head_count (rules_view made.1.items) < 2 ^ 31) }
{
    declare_all(names, parts)?;
    let declared = names.len();
    let rules = rules(alloc, names, declared, parts)?;
    Ok((declared, rules))
}

impl<A: Allocator> Program<A> {
    ghost use Rattle.chr_rules.specs.ProgramView.{checked_view};

    /// The names of its symbols.
    pub fn names(&self) -> &Names<A>
        ensures { result.now ≡ (checked_view self.now).names }
    {
        &self.names
    }

    /// Forgets all names but the first, of which there are `len`. With as many as there were before a query, it forgets those that came with
    /// that query, whose numbers the next one gets.
    pub fn forget_names(&mut self, len: usize)
        ensures names { (checked_view self.new).names ≡ take len (checked_view self.old).names }
        ensures declared { (checked_view self.new).declared ≡ (checked_view self.old).declared }
        ensures rules { (checked_view self.new).rules ≡ (checked_view self.old).rules }
    {
        self.names.truncate(len);
    }

    /// The number of its rules.
    pub fn rules(&self) -> usize
        ensures len { result ≡ length (checked_view self.now).rules }
        ensures bounded { AreBounded (checked_view self.now).rules }
    {
        self.rules.len()
    }

    /// The k-th rule, counted from 0.
    pub fn rule(&self, k: usize) -> &Rule<A>
        requires { k < length (checked_view self.now).rules }
        ensures is { slice_get (checked_view self.now).rules k ≡ Some (rule_view result.now) }
        ensures bounded { IsBounded (rule_view result.now) }
    {
        &self.rules[k]
    }

    /// The occurrences of a symbol: over the rules downwards, and over the heads of a rule from right to left.
    pub fn occurrences(&self, sym: Sym) -> &[Occurrence]
        ensures { pairs_view result.now ≡ pairs_of (occurrences (checked_view self.now).rules sym.0) }
    {
        let place = sym.0 as usize;
        if place < self.index.len() {
            self.index[place].as_slice()
        } else {
            &[]
        }
    }
}

impl<A: Allocator> Program<A> {
    ghost use Rattle.chr_rules.specs.ProgramView.{checked_view};

    /// The occurrence of a symbol by its number, which counts from 1.
    pub fn occurrence(&self, sym: Sym, number: u32) -> Option<Occurrence>
        ensures found { option_map pair_view result
            ≡ option_map pair_of (occurrence (checked_view self.now).rules sym.0 number) }
        ensures rule { IfSome result (λ found. found.rule < length (checked_view self.now).rules) }
        ensures place { IfSome result (λ found. IsPlaceIn (checked_view self.now).rules found.rule found.place) }
        ensures few { OnSome result (number < 2 ^ 31) }
    {
        let places = self.occurrences(sym);
        if number == 0 || number as usize > places.len() {
            return None;
        }
        Some(places[number as usize - 1])
    }
}
