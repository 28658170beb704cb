// The whole file of a task, from the first place of the room on: each function writes the sections up to its own.
ghost use Rattle.std.specs.Prelude.{◌+◌, ◌≤◌, length};
ghost use Rattle.table.specs.Tasks.{WellFormed};
ghost use Rattle.room.specs.Placing.{last_place, Placed};
ghost use Rattle.taskformat.specs.Format.{file_of};
ghost use Rattle.taskwriter.specs.Pieces.{sizes_of, through_goals, through_cells, further_runs};

use crate::sections::{cell_records, run_records, set_records, step_records};
use records::kinds::Kind;
use room::{put, put_word};
use table::{Table, Task};

fn sizes(task: Task, room: &mut [u8]) -> usize
    requires { WellFormed task }
    ensures { Placed room.old room.new 0 result (sizes_of task) }
{
    let table = task.table;
    let bytes = [
        Kind::Sizes.number(),
        table.facts as u8,
        table.actions as u8,
        table.limit as u8,
    ];
    put_word(room, 0, &bytes)
}

fn through_goals(task: Task, room: &mut [u8]) -> usize
    requires { WellFormed task }
    ensures { Placed room.old room.new 0 result (through_goals task) }
{
    let runs = &task.runs;
    let next = sizes(task, room);
    set_records(room, next, task.table.facts, runs.starts[0], runs.goals[0])
}

#[tactic(auto, using(crate::proofs::SectionLength::cells_fit))]
fn through_cells(task: Task, room: &mut [u8]) -> usize
    requires { WellFormed task }
    ensures { Placed room.old room.new 0 result (through_cells task) }
{
    let table = &task.table;
    let Table { facts, actions, .. } = *table;
    let next = through_goals(task, room);
    let next = cell_records(room, next, Kind::Need, facts, actions, &table.needs);
    let next = cell_records(room, next, Kind::Add, facts, actions, &table.adds);
    let next = cell_records(room, next, Kind::Delete, facts, actions, &table.deletes);
    cell_records(room, next, Kind::Lock, facts, actions, &table.locks)
}

// The runs after the first.
fn further_runs(task: Task, room: &mut [u8], at: usize) -> usize
    requires well_formed { WellFormed task }
    requires task_bound { at + length (further_runs task) ≤ last_place }
    ensures { Placed room.old room.new at result (further_runs task) }
{
    let mut next = at;
    for run in 1..task.runs.many {
        next = run_records(
            room,
            next,
            task.table.facts,
            task.runs.starts[run],
            task.runs.goals[run],
            &task.runs.steps,
            run,
            task.runs.counts[run],
        );
    }
    next
}

// The place past the file, whether the room goes so far or not.
pub(crate) fn whole(task: Task, room: &mut [u8]) -> usize
    requires { WellFormed task }
    ensures { Placed room.old room.new 0 result (file_of task) }
{
    let next = through_cells(task, room);
    let next = step_records(room, next, &task.runs.steps, 0, task.runs.counts[0]);
    let next = further_runs(task, room, next);
    put(room, next, Kind::End.number())
}
