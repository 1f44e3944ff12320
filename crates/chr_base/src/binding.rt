//! What bindings change.
ghost use Rattle.std.specs.Prelude.{◌≡◌, ◌<◌, IfOk, OnErr, OnOk};
ghost use Rattle.chr_semantics.specs.Bounds.{IsBelow};
ghost use Rattle.chr_semantics.specs.Changes.{woken as waking};
ghost use Rattle.chr_semantics.specs.declared.limits.TheConstants.{MAX_CHANGES};
ghost use Rattle.chr_store.specs.Numbers.{numbers};
ghost use Rattle.chr_term.specs.TermView.{view};
ghost use Rattle.chr_base.specs.Told.{IsTold};

use crate::Memory;
use crate::base::Base;
use chr_bind::Unified;
use chr_store::Id;
use chr_term::Term;
use std::alloc::Allocator;

impl<'p, A: Allocator + Copy> Base<'p, A> {
    ghost use Rattle.chr_base.specs.BaseView.{IsFresh, base_view, program_of};

    /// Applies the bindings to the rows of the table that have variables, and makes what is noted there. It answers which constraints have
    /// variables still, by ascending identity. Contracts see the same base, after a refusal too.
    pub fn refresh(&mut self) -> Result<Vec<Id, A>, Memory>
        ensures same { base_view self.new ≡ base_view self.old }
        ensures woken { IfOk result
            (λ ids. numbers ids.items ≡ waking (base_view self.new).store (base_view self.new).subst) }
        ensures fresh { OnOk result (IsFresh self.new) }
        ensures program { program_of self.new ≡ program_of self.old }
    {
        let woken = self.table.rebind(&self.bindings)?;
        self.is_stale = false;
        self.table.settle()?;
        Ok(woken)
    }

    /// Tells that two terms are equal. Where that binds variables, the symbols of the constraints that have variables are touched, which are
    /// handed in, and searches begin anew. Where memory is refused, nothing changes.
    pub fn tell(&mut self, left: &Term<A>, right: &Term<A>, woken: &[Id]) -> Result<Unified, Memory>
        requires few { (base_view self.old).store.changes < MAX_CHANGES }
        requires left { IsBelow (base_view self.old).next_var (view left.now) }
        requires right { IsBelow (base_view self.old).next_var (view right.now) }
        requires woken { numbers woken.now ≡ waking (base_view self.old).store (base_view self.old).subst }
        ensures told { IfOk result
            (λ unified. IsTold (view left.now) (view right.now) (numbers woken.now) unified
            (base_view self.old) (base_view self.new)) }
        ensures err { OnErr result (base_view self.new ≡ base_view self.old) }
        ensures program { program_of self.new ≡ program_of self.old }
    {
        let unified = self.bindings.unify(left, right)?;
        match unified {
            Unified::Bound => {
                self.store.rebound(woken);
                self.is_stale = true;
                if !woken.is_empty() {
                    self.bookmarks.clear();
                }
            }
            Unified::Same | Unified::Clash => {}
        }
        Ok(unified)
    }
}
