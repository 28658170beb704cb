// What is seen after one good record more (document 01, "The task file"; 02, requests 1 and 6): what it says in its own place, and every
// other place is left alone.
ghost use Rattle.std.specs.Prelude.{true, false, ◌&&◌, ◌≡◌, ◌≤◌, ◌<◌, eqb, leb};
ghost use Rattle.table.specs.Setting.{set_in};
ghost use Rattle.table.specs.Sizes.{max_runs, max_steps};
ghost use Rattle.table.specs.Tasks.{count_of};
ghost use Rattle.taskformat.specs.Format.{step_kind, run_kind};
ghost use Rattle.taskformat.specs.Reading.{last_run, runs_after};
ghost use Rattle.records.specs.Kinds.{kind_number};
ghost use Rattle.records.specs.Records.{seen_of};
ghost use Rattle.taskfile.specs.Numbers.{task_after, seen_with};

use records::kinds::Kind;
use records::parts::Parts;
use records::seen::{Seen, last_run};
use table::{Runs, STEPS, Task};

// One fact more in the set at a place; past the sets nothing changes.
fn put_fact(sets: &mut [u64], place: usize, fact: usize)
    ensures { sets.new ≡ set_in sets.old place fact true }
{
    if place < sets.len() {
        sets[place] = facts::with_fact(sets[place], fact);
    }
}

// A step of a run that has room for it.
#[tactic(auto, unfolding(taskformat::specs::Reading::runs_after))]
fn put_step(runs: &mut Runs, run: usize, action: u8)
    requires run_there { run < max_runs }
    requires room { count_of runs.old run < max_steps }
    requires last { run ≡ last_run runs.old }
    ensures { runs.new ≡ runs_after runs.old step_kind action }
{
    let count = runs.counts[run];
    runs.steps[STEPS * run + count] = action;
    runs.counts[run] = count + 1;
}

// What the task is after one record more.
#[tactic(auto, unfolding(taskformat::specs::Reading::table_after, taskformat::specs::Reading::runs_after))]
fn put(task: &mut Task, parts: Parts)
    requires runs { task.old.runs.many ≤ max_runs }
    requires further { (eqb (kind_number parts.kind) run_kind && leb max_runs task.old.runs.many) ≡ false }
    requires step { (eqb (kind_number parts.kind) step_kind && leb max_steps (count_of task.old.runs (last_run task.old.runs))) ≡ false }
    ensures { task.new ≡ task_after task.old (kind_number parts.kind) parts.first parts.second parts.third }
{
    let run = last_run(&task.runs);
    let x = usize::from(parts.first);
    let y = usize::from(parts.second);
    match parts.kind {
        Kind::Sizes => {
            task.table.facts = x;
            task.table.actions = y;
            task.table.limit = usize::from(parts.third);
            task.runs.many = 1;
        }
        Kind::Start => put_fact(&mut task.runs.starts, run, x),
        Kind::Goal => put_fact(&mut task.runs.goals, run, x),
        Kind::Need => put_fact(&mut task.table.needs, x, y),
        Kind::Add => put_fact(&mut task.table.adds, x, y),
        Kind::Delete => put_fact(&mut task.table.deletes, x, y),
        Kind::Lock => put_fact(&mut task.table.locks, x, y),
        Kind::Step => put_step(&mut task.runs, run, parts.first),
        Kind::Run => task.runs.many += 1,
        Kind::End => {}
    }
}

// What is seen after it.
pub(crate) fn keep(seen: &mut Seen, parts: Parts)
    requires runs { seen.old.task.runs.many ≤ max_runs }
    requires further { (eqb (kind_number parts.kind) run_kind && leb max_runs seen.old.task.runs.many) ≡ false }
    requires step { (eqb (kind_number parts.kind) step_kind && leb max_steps (count_of seen.old.task.runs (last_run seen.old.task.runs))) ≡ false }
    ensures { seen_of seen.new ≡ seen_with (seen_of seen.old) parts }
{
    put(&mut seen.task, parts);
    seen.kind = Some(parts.kind);
    seen.body = parts.number();
}
