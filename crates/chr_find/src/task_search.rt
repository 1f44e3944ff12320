//! The search of a table for a task.
ghost use Rattle.std.specs.Prelude.{IfOk, List};
ghost use Rattle.chr_semantics.specs.Match as semantics;
ghost use Rattle.chr_semantics.specs.Search.{History, first};
ghost use Rattle.chr_semantics.specs.Tries.{tries_bounds};
ghost use Rattle.chr_rules.specs.ProgramView.{rules_of};
ghost use Rattle.chr_find.specs.AnswerView.{IsAnswer};
ghost use Rattle.chr_find.specs.FiringHistory.{IsLike};
ghost use Rattle.chr_find.specs.TableView.{HasRows, IsFor, IsSettled, lives};

use crate::Memory;
use crate::active::Active;
use crate::answer::Found;
use crate::firing_history::FiringHistory;
use crate::snapshot::Task;
use crate::table::Table;
use crate::tried::Tried;
use chr_rules::Program;
use chr_store::HeadIds;
use std::alloc::Allocator;

/// What a table has for a task.
pub(crate) fn search<P: FiringHistory, A: Allocator + Copy>(
    program: &Program<A>,
    table: &Table<A>,
    past: &P,
    task: Task,
) -> Result<Found<HeadIds>, Memory>
    requires settled { IsSettled table.now }
    requires own { IsFor task.goal.0 table.now }
    ensures { IfOk result (λ found. (rows : List semantics.Row) → HasRows table.now rows →
        (h : History) → IsLike (lives table.now) (P.history past.now) h →
        IsAnswer (first (rules_of program.now) rows h task.goal.0 task.occurrence)
        (tries_bounds (rules_of program.now) rows h task.goal.0 task.occurrence)
        found.ids found.tries) }
{
    let row = match table.row(task.goal) {
        None => return Ok(Found::nothing()),
        Some(row) => row,
    };
    let occurrence = match program.occurrence(row.sym, task.occurrence) {
        None => return Ok(Found::nothing()),
        Some(occurrence) => occurrence,
    };
    let active = Active::at(program, occurrence, task.goal);
    let mut tried = Tried::nothing();
    let ids = table.first(&active, row, past, &mut tried)?;
    Ok(Found {
        ids,
        tries: tried.lists,
    })
}
