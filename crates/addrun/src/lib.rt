// Putting one run more to a task (02, request 4): the start and the goal of a problem text, and the steps that are passed beside it.

#![tactic(auto)]

ghost use Rattle.std.specs.Prelude.{◌≡◌, ◌+◌, ◌<◌, ◌≤◌, length};
ghost use Rattle.std.proofs.lemmas.List.Edits.{sets};
ghost use Rattle.table.specs.Outcomes.{made_of};
ghost use Rattle.table.specs.Sizes.{max_runs, max_steps, all_steps};
ghost use Rattle.addrun.specs.Adding.{with_run, run_added};

use table::refusals::{Returned, Why};
use table::{ALL_STEPS, RUNS, STEPS, Task, formed};

// The task with one run more, where there is room for it.
fn with_run(task: Task, start: u64, goal: u64, steps: &[u8]) -> Task
    requires many_lt_max_runs { task.runs.many < max_runs }
    requires steps_len_bound { length steps.now ≤ max_steps }
    ensures { result ≡ with_run task start goal steps.now }
{
    let mut runs = task.runs;
    let run = runs.many;
    let first = STEPS * run;
    runs.starts[run] = start;
    runs.goals[run] = goal;
    runs.counts[run] = steps.len();
    runs.steps[first..first + steps.len()].copy_from_slice(steps);
    runs.many = run + 1;
    Task { runs, ..task }
}

// Puts the run to the task, after those that it has, or gives the refusal and the task as it was.
pub fn add_run(task: Task, start: u64, goal: u64, steps: &[u8]) -> Result<Task, Returned>
    ensures { made_of result ≡ run_added task start goal steps.now }
{
    // A run or a step that the arrays have no place for: such a task is not well formed either.
    if RUNS <= task.runs.many {
        return Err(Why::NotWellFormed.at(0).returning(task));
    }
    if STEPS < steps.len() {
        return Err(Why::NotWellFormed.at(0).returning(task));
    }
    let more = with_run(task, start, goal, steps);
    if !formed::is_formed(more) {
        return Err(Why::NotWellFormed.at(0).returning(task));
    }
    Ok(more)
}
