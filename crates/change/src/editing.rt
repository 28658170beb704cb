// Editing one cell (document 01, "The session table"): which fact the edit names, whether it is in the task, whether it would
// leave a lock without a need, and the edited task.
ghost use Rattle.std.specs.Prelude.{◌≡◌};
ghost use Rattle.change.specs.Editing.{edited, cell_fact, cell_inside, lock_left};

use crate::{Cell, Edit, cells};
use table::cells::set_in;
use table::{Table, Task};

// The fact whose row an edit writes afresh.
pub fn cell_fact(e: Edit) -> usize
    ensures { result ≡ cell_fact e.cell }
{
    match e.cell {
        Cell::Need { fact, .. }
        | Cell::Add { fact, .. }
        | Cell::Delete { fact, .. }
        | Cell::Start { fact, .. }
        | Cell::Goal { fact, .. }
        | Cell::Lock { fact, .. } => fact,
    }
}

// Whether the edit names a fact, and for a need, an add, a delete or a lock an action, for a start or a goal a run, that is in the
// task (refusal 14 if not).
#[tactic(auto, unfolding(crate::specs::Editing::cell_inside))]
pub fn is_inside(t: Task, e: Edit) -> bool
    ensures { result ≡ cell_inside t e.cell }
{
    let facts = t.table.facts;
    let actions = t.table.actions;
    let many = t.runs.many;
    match e.cell {
        Cell::Need { action, fact }
        | Cell::Add { action, fact }
        | Cell::Delete { action, fact }
        | Cell::Lock { action, fact } => (action < actions) & (fact < facts),
        Cell::Start { run, fact } | Cell::Goal { run, fact } => (run < many) & (fact < facts),
    }
}

// Refusal 18 (02, request 6): "a lock set on a cell that isn't a need, or a need cleared under a lock".
#[tactic(auto, unfolding(crate::specs::Editing::lock_left, table::specs::Tasks::cells_of))]
pub fn leaves_lock(t: Table, e: Edit) -> bool
    ensures { result ≡ lock_left t e.cell e.present }
{
    match e.cell {
        Cell::Need { action, fact } => !e.present & cells::is_set(&t.locks, action, fact),
        Cell::Lock { action, fact } => e.present & !cells::is_set(&t.needs, action, fact),
        Cell::Add { .. } | Cell::Delete { .. } | Cell::Start { .. } | Cell::Goal { .. } => false,
    }
}

// The task with the cell set; for any task and any edit, so that callers need no more than `is_inside` for refusal 14 and
// `leaves_lock` for 18.
#[tactic(auto, unfolding(crate::specs::Editing::set_cell))]
pub fn set_cell(t: Task, e: Edit) -> Task
    ensures { result ≡ edited t e }
{
    let present = e.present;
    let mut table = t.table;
    let mut runs = t.runs;
    match e.cell {
        Cell::Need { action, fact } => {
            table.needs = set_in(table.needs, action, fact, present);
        }
        Cell::Add { action, fact } => {
            table.adds = set_in(table.adds, action, fact, present);
        }
        Cell::Delete { action, fact } => {
            table.deletes = set_in(table.deletes, action, fact, present);
        }
        Cell::Start { run, fact } => {
            runs.starts = set_in(runs.starts, run, fact, present);
        }
        Cell::Goal { run, fact } => {
            runs.goals = set_in(runs.goals, run, fact, present);
        }
        Cell::Lock { action, fact } => {
            table.locks = set_in(table.locks, action, fact, present);
        }
    }
    Task { table, runs }
}
