//! Steps as `top` asks: `step_plain`, and `step_with` what `find` finds.
ghost use Rattle.std.specs.Prelude.{◌≡◌, IfOk, option_map};
ghost use Rattle.chr_store.specs.Numbers.{numbers};
ghost use Rattle.chr_find.specs.SnapshotView.{task_view};
ghost use Rattle.chr_machine.specs.MachineView.{machine_view};
ghost use Rattle.chr_machine.specs.NeedView.{Answers, need, search_of};

use super::*;
use refusing_alloc::Refusing;

/// An allocator, and the type of the lists that searches answer. A function for any allocator names that type where it takes such lists.
#[derive(Drop)]
pub(super) struct Lists<A, S = SmallVec<Id, 8, A>> {
    pub alloc: A,
    list: PhantomData<S>,
}

pub(super) fn lists_of<A: Allocator>(alloc: A) -> Lists<A> {
    Lists {
        alloc,
        list: PhantomData,
    }
}

/// The answer of the search that the next step asks for.
fn answer_of<A: Allocator + Copy>(
    alloc: A,
    machine: &Machine<A>,
    task: Task,
) -> Result<Found<SmallVec<Id, 8, A>>, Memory>
    requires { need (machine_view machine.now) ≡ search_of (task_view task) }
    ensures { IfOk result (λ found. Answers (machine_view machine.now)
        (option_map (λ ids. numbers ids.items) found.ids)) }
{
    let program = machine.program();
    let (store, bindings, history) = (machine.store(), machine.bindings(), machine.history());
    let snapshot = Snapshot::for_task(alloc, program, store, bindings, history, task)?;
    find(program, &snapshot, task)
}

/// One transition as `top` asks. What is searched for is found before the meter, if there is one, limits the growths.
pub(super) fn step_asked<A: Allocator + Copy>(
    lists: &Lists<A>,
    machine: &mut Machine<A>,
    limit: Option<(&Refusing<Global>, u64)>,
) -> Result<Stepped, Memory> {
    let found = match machine.top() {
        Need::Plain => None,
        Need::Search(task) => Some(answer_of(lists.alloc, machine, task)?),
        Need::Ended => return Ok(Stepped::Ended),
    };
    if let Some((meter, left)) = limit {
        meter.allow(left);
    }
    match found {
        None => machine.step_plain(),
        Some(found) => machine.step_with(found),
    }
}

/// The run of `ground_rule`, a step at a time.
pub(super) fn run_asked<A: Allocator + Copy>(
    rt: &impl Abort,
    lists: &Lists<A>,
    machine: &mut Machine<A>,
) {
    for _ in 0..GROUND_RULE.transitions {
        equal(
            rt,
            got(rt, step_asked(lists, machine, None)),
            Stepped::Moved,
        );
    }
    equal(
        rt,
        got(rt, step_asked(lists, machine, None)),
        Stepped::Ended,
    );
    assert_lines(rt, machine, GROUND_RULE.text);
}

#[test]
fn ground_rule_as_asked(rt: HostRuntime) {
    let texts = (GROUND_RULE.program, GROUND_RULE.query);
    follow_anew(&rt, &lists_of(rt.alloc()), texts, Script::Asked);
}
