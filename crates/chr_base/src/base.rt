//! The base of a run.
ghost use Rattle.std.specs.Prelude.{◌≡◌, ◌<◌, [], IfOk, OnErr, OnOk};
ghost use Rattle.std.proofs.Props.{props};
ghost use Rattle.chr_semantics.specs.Changes.{added, empty_store, no_entries};
ghost use Rattle.chr_semantics.specs.State.{resolved_atom};
ghost use Rattle.chr_semantics.specs.declared.limits.TheConstants.{MAX_CHANGES};
ghost use Rattle.chr_store.specs.HistoryView.{entries_view};
ghost use Rattle.chr_store.specs.Rows.{row_atom};
ghost use Rattle.chr_store.specs.StoreView.{store_view};
ghost use Rattle.chr_find.specs.TableView.{atom_at};
ghost use Rattle.chr_rules.specs.ProgramView.{rules_of};
ghost use Rattle.chr_term.specs.TermView.{atom_over};
ghost use Rattle.chr_base.specs.Agreement.{Agrees, agreements};
ghost use Rattle.chr_base.specs.Bookmarks.{AreAhead};
ghost use Rattle.chr_base.specs.Lending.{Lends};

use crate::Memory;
use crate::bookmark::Bookmark;
use chr_bind::Bindings;
use chr_find::{PendingFirings, Plan, Table};
use chr_map::Pointer;
use chr_rules::Program;
use chr_store::{History, Id, Row, Store};
use chr_term::{Args, Sym};
use std::alloc::{Allocator, Global};

/// The constraints of a run under a program, its bindings, and what has fired, with the table that is searched and the places at which
/// searches go on. Contracts see the program, the store, the bindings and the entries of the history, and nothing else.
#[derive(Drop)]
pub struct Base<'p, A: Allocator = Global> {
    pub(crate) program: &'p Program<A>,
    pub(crate) store: Store<A>,
    pub(crate) bindings: Bindings<A>,
    pub(crate) history: History<A>,
    pub(crate) table: Table<A>,
    /// What has fired, for snapshots: it is kept from the first one on.
    pub(crate) firings: Option<PendingFirings<A>>,
    /// Whether variables were bound since the table's rows were resolved.
    pub(crate) is_stale: bool,
    /// A stack: the last one alone is looked at.
    pub(crate) bookmarks: Vec<Bookmark, A>,
    pub(crate) alloc: A,
    ghost agrees: { Agrees (store_view store) (entries_view history) bindings.subst (atom_at table) is_stale } by { Prim.hlevel agreements },
    ghost lends: { Lends (store_view store) (entries_view history) firings } by { Prim.hlevel agreements },
    ghost ahead: { AreAhead (rules_of program.now) (record {
      store = store_view store;
      entries = entries_view history;
      subst = bindings.subst;
      next_var = bindings.len;
    }) bookmarks.items } by { Prim.hlevel props },
}

impl<'p, A: Allocator + Copy> Base<'p, A> {
    ghost use Rattle.chr_base.specs.BaseView.{base_view, program_of};

    /// The base of a run of this program before the first transition: no constraint, nothing fired, and the query's variables, of which none is
    /// bound.
    pub fn new(alloc: A, program: &'p Program<A>, variables: usize) -> Result<Base<'p, A>, Memory>
        ensures program { IfOk result (λ base. program_of base ≡ program.now) }
        ensures store { IfOk result (λ base. (base_view base).store ≡ empty_store) }
        ensures entries { IfOk result (λ base. (base_view base).entries ≡ no_entries) }
        ensures subst { IfOk result (λ base. (base_view base).subst ≡ []) }
        ensures next_var { IfOk result (λ base. (base_view base).next_var ≡ variables) }
    {
        let plan = Pointer::new(alloc, Plan::of(alloc, program)?)?;
        let mut bindings = Bindings::new(alloc);
        bindings.fresh(variables)?;
        Ok(Base {
            program,
            store: Store::new(alloc),
            bindings,
            history: History::new(alloc),
            table: Table::new(alloc, plan),
            firings: None,
            is_stale: false,
            bookmarks: Vec::new(alloc),
            alloc,
        })
    }

    /// The program whose rules are searched for.
    pub fn program(&self) -> &'p Program<A>
        ensures { result.now ≡ program_of self.now }
    {
        self.program
    }

    /// The constraints with their identities.
    pub fn store(&self) -> &Store<A>
        ensures { store_view result.now ≡ (base_view self.now).store }
    {
        &self.store
    }

    /// What has fired.
    pub fn history(&self) -> &History<A>
        ensures { entries_view result.now ≡ (base_view self.now).entries }
    {
        &self.history
    }

    /// The bindings, and how many variables there are.
    pub fn bindings(&self) -> &Bindings<A>
        ensures subst { result.now.subst ≡ (base_view self.now).subst }
        ensures len { result.now.len ≡ (base_view self.now).next_var }
    {
        &self.bindings
    }

    /// The row of a constraint with the bindings applied.
    pub fn resolved_row(&self, sym: Sym, args: &Args<A>) -> Result<Row<A>, Memory>
        ensures { IfOk result (λ row. row_atom row
            ≡ resolved_atom (base_view self.now).subst (atom_over sym args.now)) }
    {
        let args = self.bindings.resolve_args(args)?;
        Ok(Row { sym, args })
    }

    /// Adds a constraint, with its row to which the bindings are applied, under the next identity. Where memory is refused, nothing
    /// changes.
    pub fn add(&mut self, sym: Sym, args: &Args<A>, row: Row<A>) -> Result<Id, Memory>
        requires few { (base_view self.old).store.changes < MAX_CHANGES }
        requires resolved { row_atom row
            ≡ resolved_atom (base_view self.old).subst (atom_over sym args.now) }
        ensures ok { OnOk result (base_view self.new
            ≡ record (base_view self.old) { store = added (base_view self.old).store (atom_over sym args.now) }) }
        ensures id { IfOk result (λ id. id.0 ≡ (base_view self.old).store.next_id) }
        ensures err { OnErr result (base_view self.new ≡ base_view self.old) }
        ensures program { program_of self.new ≡ program_of self.old }
    {
        let shared = args.share()?;
        self.table.room(1)?;
        match self.store.add(sym, shared) {
            Err((_, error)) => Err(error),
            Ok(id) => {
                self.table.add(id, row);
                Ok(id)
            }
        }
    }

    /// The constraints, the bindings, and what has fired.
    pub fn into_parts(self) -> (Store<A>, Bindings<A>, History<A>)
        ensures store { store_view result.0 ≡ (base_view self.entry).store }
        ensures subst { result.1.subst ≡ (base_view self.entry).subst }
        ensures len { result.1.len ≡ (base_view self.entry).next_var }
        ensures entries { entries_view result.2 ≡ (base_view self.entry).entries }
    {
        (self.store, self.bindings, self.history)
    }
}
