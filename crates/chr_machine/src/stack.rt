//! The goal stack of a run, whose top is its last element.
ghost use Rattle.std.specs.Prelude.{◌≡◌, ◌+◌, ◌<◌, ◌≤◌, ◌++◌, ◌∷◌, [], ℕ, IfNone, IfSome, cond, drop, map, vec_capacity, vec_len};
ghost use Rattle.chr_semantics.specs.State.{goal};
ghost use Rattle.chr_rules.specs.RuleView.{goal_view};
ghost use Rattle.chr_trace.specs.State.{elem_view, stack_view};
ghost use Rattle.chr_machine.specs.Stack.{moved_to};

use chr_rules::Goal;
use chr_trace::Elem;
use std::alloc::Allocator;

/// The top of a stack, and what is below it.
pub fn top_of<A: Allocator>(stack: &[Elem<A>]) -> Option<(&Elem<A>, &[Elem<A>])>
    ensures some { IfSome result (λ parts. stack_view stack.now
        ≡ elem_view parts.0.now ∷ stack_view parts.1.now) }
    ensures none { IfNone result (stack_view stack.now ≡ []) }
{
    let height = stack.len();
    if height == 0 {
        return None;
    }
    Some((&stack[height - 1], &stack[..height - 1]))
}

/// Takes the top off.
pub fn drop_top<A: Allocator>(stack: &mut Vec<Elem<A>, A>)
    ensures view { stack_view stack.new.items ≡ drop 1 (stack_view stack.old.items) }
    ensures room { (n : ℕ) → vec_len stack.old + n ≤ vec_capacity stack.old →
        vec_len stack.new + n ≤ vec_capacity stack.new }
{
    let _top = stack.pop();
}

/// Takes the top off, unless it is kept.
pub fn drop_unless<A: Allocator>(stack: &mut Vec<Elem<A>, A>, keeps: bool)
    ensures view { stack_view stack.new.items
        ≡ cond keeps (stack_view stack.old.items) (drop 1 (stack_view stack.old.items)) }
    ensures room { (n : ℕ) → vec_len stack.old + n ≤ vec_capacity stack.old →
        vec_len stack.new + n ≤ vec_capacity stack.new }
{
    if keeps {
        return;
    }
    drop_top(stack);
}

/// Puts an element in the place of the top.
pub fn replace_top<A: Allocator>(stack: &mut Vec<Elem<A>, A>, elem: Elem<A>)
    requires { 0 < vec_len stack.old }
    ensures view { stack_view stack.new.items ≡ elem_view elem ∷ drop 1 (stack_view stack.old.items) }
    ensures some { 0 < vec_len stack.new }
{
    let _top = stack.pop();
    stack.push_reserved(elem);
}

/// Moves a constraint that is active on top to its occurrence of this number.
pub fn move_to<A: Allocator>(stack: &mut Vec<Elem<A>, A>, number: u32)
    ensures view { stack_view stack.new.items ≡ moved_to number (stack_view stack.old.items) }
    ensures len { vec_len stack.new ≡ vec_len stack.old }
{
    match stack.last_mut() {
        None => {}
        Some(top) => match top {
            Elem::Active(_, occurrence, _, _) => *occurrence = number,
            Elem::Known(_, _, _) => {}
            Elem::Goal(_) => {}
        },
    }
}

/// Puts goals on the stack, the first on top, with room for them.
pub fn put_goals<A: Allocator>(stack: &mut Vec<Elem<A>, A>, mut goals: Vec<Goal<A>, A>)
    requires { vec_len stack.old + vec_len goals ≤ vec_capacity stack.old }
    ensures { stack_view stack.new.items ≡ map (λ g. goal (goal_view g)) goals.items
        ++ stack_view stack.old.items }
{
    while let Some(goal) = goals.pop() {
        stack.push_reserved(Elem::Goal(goal));
    }
}

/// Puts elements on the stack, the first on top, with room for them.
pub fn put_elems<A: Allocator>(stack: &mut Vec<Elem<A>, A>, mut elems: Vec<Elem<A>, A>)
    requires { vec_len stack.old + vec_len elems ≤ vec_capacity stack.old }
    ensures { stack_view stack.new.items ≡ map elem_view elems.items ++ stack_view stack.old.items }
{
    while let Some(elem) = elems.pop() {
        stack.push_reserved(elem);
    }
}
