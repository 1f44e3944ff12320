//! Which constraints a Solve wakes.
ghost use Rattle.std.specs.Prelude.{◌≡◌, ◌++◌, IfOk, OnOk, map};
ghost use Rattle.chr_semantics.specs.Changes.{woken};
ghost use Rattle.chr_semantics.specs.Footprint.{Ascends};
ghost use Rattle.chr_store.specs.Numbers.{numbers};
ghost use Rattle.chr_trace.specs.State.{elem_view};
ghost use Rattle.chr_base.specs.BaseView.{base_view};
ghost use Rattle.chr_machine.specs.Model.{course_of};
ghost use Rattle.chr_machine.specs.Solving.{woken_in};
ghost use Rattle.chr_machine.specs.Waking.{element_at, elements_at};

use crate::course::Course;
use chr_store::Id;
use chr_term::Memory;
use chr_trace::Elem;
use std::alloc::Allocator;

/// The constraints that a Solve wakes, by ascending identity, and as elements of the stack.
#[derive(Drop)]
pub struct Waking<A: Allocator> {
    pub ids: Vec<Id, A>,
    pub elems: Vec<Elem<A>, A>,
}

impl<'p, A: Allocator + Copy> Course<'p, A> {
    /// Appends the element of a constraint, where it lives.
    fn push_element(&self, id: Id, elems: &mut Vec<Elem<A>, A>) -> Result<(), Memory>
        ensures { OnOk result (map elem_view elems.new.items ≡ map elem_view elems.old.items
            ++ element_at (base_view self.now.base).store.rows id.0) }
    {
        match self.base.store().row(id) {
            None => Ok(()),
            Some(row) => {
                elems.push(Elem::Known(id, row.sym, row.args.share()?))?;
                Ok(())
            }
        }
    }

    /// The elements of constraints of the store.
    fn elements(&self, ids: &[Id]) -> Result<Vec<Elem<A>, A>, Memory>
        ensures { IfOk result (λ elems. map elem_view elems.items
            ≡ elements_at (base_view self.now.base).store.rows ids.now) }
    {
        let mut elems = Vec::with_capacity(self.alloc, ids.len())?;
        for id in ids {
            self.push_element(*id, &mut elems)?;
        }
        Ok(elems)
    }

    /// The constraints that a Solve wakes. Contracts see the same course.
    pub fn waking(&mut self) -> Result<Waking<A>, Memory>
        requires { Ascends 0 (base_view self.old.base).store.rows
            (base_view self.old.base).store.next_id }
        ensures same { course_of self.new ≡ course_of self.old }
        ensures ids { IfOk result (λ waking. numbers waking.ids.items
            ≡ woken (base_view self.old.base).store (base_view self.old.base).subst) }
        ensures elems { IfOk result
            (λ waking. map elem_view waking.elems.items ≡ woken_in (course_of self.old)) }
    {
        let ids = self.base.refresh()?;
        let elems = self.elements(ids.as_slice())?;
        Ok(Waking { ids, elems })
    }
}
