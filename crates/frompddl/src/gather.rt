// The runs of the problem texts, put to the task one after another.
ghost use Rattle.std.specs.Prelude.{true, ◌≡◌, ℕ, ◌<◌, ◌≤◌};
ghost use Rattle.addrun.specs.Adding.{run_added, steps_of};
ghost use Rattle.table.specs.Sizes.{max_runs, max_steps};
ghost use Rattle.table.specs.Tasks.{count_of};
ghost use Rattle.frompddl.specs.Gathering.{NextRun, Gathers};
ghost use Rattle.frompddl.specs.Splitting.{is_text};

use crate::split::{is_text, text_end};
use pddlreader::read_problem;
use table::refusals::{Refusal, Why};
use table::{RUNS, STEPS, Task};

// How many texts were read, and the task with their runs.
#[derive(Clone, Copy)]
pub(crate) struct Gathered {
    pub(crate) texts: usize,
    pub(crate) task: Task,
}

// The task with one run more: the steps are those of a run of the task file. Where that is refused, the task as it was.
fn with_run(beside: Task, run: usize, task: Task, start: u64, goal: u64) -> Task
    requires run_lt_max_runs { run < max_runs }
    requires run_bound { count_of beside.runs run ≤ max_steps }
    ensures { result ≡ (run_added task start goal (steps_of beside run)).task }
{
    let first = STEPS * run;
    let steps = &beside.runs.steps[first..first + beside.runs.counts[run]];
    match addrun::add_run(task, start, goal, steps) {
        Ok(more) => more,
        Err(returned) => returned.task,
    }
}

// The text at a place, read as a problem, and its run put to the task.
fn with_text(s: &[u8], at: usize, beside: Task, run: usize, task: Task) -> Result<Task, Refusal>
    requires at_value { is_text s.now at ≡ true }
    requires run_lt_max_runs { run < max_runs }
    requires run_bound { count_of beside.runs run ≤ max_steps }
    ensures { NextRun s.now beside at run task result }
{
    let end = text_end(s, at);
    match read_problem(&s[at..end], task.table.facts) {
        Ok(read) => Ok(with_run(beside, run, task, read.start, read.goal)),
        Err(refusal) => Err(refusal.why.at(at + refusal.place)),
    }
}

// All texts from a place on. A ninth is not read.
pub(crate) fn gather(
    s: &[u8],
    from: usize,
    beside: Task,
    mut task: Task,
) -> Result<Gathered, Refusal>
    requires { (run : ℕ) → count_of beside.runs run ≤ max_steps }
    ensures { Gathers s.now beside result from 0 task }
{
    let mut at = from;
    let mut texts = 0;
    while is_text(s, at) {
        if RUNS <= texts {
            return Err(Why::NotWellFormed.at(0));
        }
        task = with_text(s, at, beside, texts, task)?;
        at = text_end(s, at);
        texts += 1;
    }
    Ok(Gathered { texts, task })
}
