// Well-formedness, decided as document 01, "Sizes", words it: each test is the definition of its name in specs/Tasks.
ghost use Rattle.std.specs.Prelude.{◌&&◌, ◌≡◌, ◌≤◌};
ghost use Rattle.table.specs.Counting.{every_below, every_from};
ghost use Rattle.table.specs.Passes.{CountsFit, of_runs, sets_within, step_below};
ghost use Rattle.table.specs.Sizes.{max_actions, max_runs, all_steps};
ghost use Rattle.table.specs.Tasks.{formed, sizes_formed, run_fits, run_formed, action_formed, locks_formed, step_formed};

use crate::{ACTIONS, ALL_STEPS, FACTS, LIMIT, RUNS, Runs, STEPS, Table, Task};

// "its sizes are in range"
fn are_sizes_formed(t: Task) -> bool
    ensures { result ≡ sizes_formed t }
{
    (0 < t.table.facts)
        & (t.table.facts <= FACTS)
        & ((0 < t.table.actions) & (t.table.actions <= ACTIONS))
        & ((t.table.limit <= LIMIT) & ((0 < t.runs.many) & (t.runs.many <= RUNS)))
}

// Of one run: "no set has a fact at or above F", at most 64 steps; and of one that is not used that all of it is zero.
fn is_run_formed(start: u64, goal: u64, count: usize, facts: usize, used: bool) -> bool
    ensures { result ≡ run_fits start goal count facts used }
{
    facts::is_within(start, facts)
        & facts::is_within(goal, facts)
        & (count <= STEPS)
        & (used | ((start == 0) & (goal == 0) & (count == 0)))
}

// "Everything for unused runs is zero."
fn are_runs_formed(t: Task) -> bool
    ensures { result ≡ every_below (run_formed t) max_runs }
{
    let mut good = true;
    for i in 0..RUNS {
        let start = t.runs.starts[i];
        let goal = t.runs.goals[i];
        let count = t.runs.counts[i];
        good &= is_run_formed(start, goal, count, t.table.facts, i < t.runs.many);
    }
    good
}

// Whether no set of an action from `from` on has a fact at or above n. The sets are joined, all alike, and the join is tested
// once: so the compiler may take several actions at a time.
fn are_within<'a>(
    needs: &'a [u64; ACTIONS],
    adds: &'a [u64; ACTIONS],
    deletes: &'a [u64; ACTIONS],
    from: usize,
    n: usize,
) -> bool
    requires { from ≤ max_actions }
    ensures { result ≡ every_from (sets_within needs.now adds.now deletes.now n) from max_actions }
{
    let mut every = 0;
    for a in from..ACTIONS {
        every |= needs[a] | adds[a] | deletes[a];
    }
    facts::is_within(every, n)
}

// Whether no set of any action has a fact at or above n, and every lock is on a need: what is left of the locks without the needs is
// joined in the same pass, so that tables without locks pay little for them.
fn are_sets_formed<'a>(
    needs: &'a [u64; ACTIONS],
    adds: &'a [u64; ACTIONS],
    deletes: &'a [u64; ACTIONS],
    locks: &'a [u64; ACTIONS],
    n: usize,
) -> bool
    ensures { result ≡ (every_from (sets_within needs.now adds.now deletes.now n) 0 max_actions && every_below (locks_formed needs.now locks.now) max_actions) }
{
    let mut every = 0;
    let mut stray = 0;
    for a in 0..ACTIONS {
        every |= needs[a] | adds[a] | deletes[a];
        stray |= facts::remove(locks[a], needs[a]);
    }
    facts::is_within(every, n) & (stray == 0)
}

// "no set has a fact at or above F", "everything for unused actions .. is zero"; and "A task with a lock on a cell that isn't a need
// is not well formed" (02, request 6).
fn are_actions_formed(t: Table) -> bool
    requires { t.actions ≤ max_actions }
    ensures { result ≡ (every_below (action_formed t) max_actions && every_below (locks_formed t.needs t.locks) max_actions) }
{
    are_sets_formed(&t.needs, &t.adds, &t.deletes, &t.locks, t.facts)
        & are_within(&t.needs, &t.adds, &t.deletes, t.actions, 0)
}

// Whether every step from `from` on and before `to` is below n. All are compared, as bytes, and none ends the loop early: for the
// same reason.
fn are_below(steps: &[u8; ALL_STEPS], from: usize, to: usize, n: u8) -> bool
    requires { (from ≤ to) × (to ≤ all_steps) }
    ensures { result ≡ every_from (step_below steps.now n) from to }
{
    let mut good = true;
    for &step in &steps[from..to] {
        good &= step < n;
    }
    good
}

// "steps are below A", "everything for unused .. steps is zero": run by run, and the places of the unused runs at once. It takes
// the runs and A and not the task, so that the table is not copied for it.
fn are_steps_formed(runs: Runs, actions: usize) -> bool
    requires many_le_max_runs { runs.many ≤ max_runs }
    requires actions_le_max_actions { actions ≤ max_actions }
    requires counts_fit { CountsFit runs }
    ensures { result ≡ every_below (step_formed (of_runs runs actions)) all_steps }
{
    let actions = actions as u8;
    let mut good = true;
    for i in 0..runs.many {
        let first = STEPS * i;
        let used = first + runs.counts[i];
        good &= are_below(&runs.steps, first, used, actions)
            & are_below(&runs.steps, used, first + STEPS, 1);
    }
    good & are_below(&runs.steps, STEPS * runs.many, ALL_STEPS, 1)
}

// Whether the task is well formed, for any task whatever.
#[tactic(auto, unfolding(crate::specs::Tasks::formed, crate::specs::Tasks::step_formed, crate::specs::Tasks::step_fits))]
pub fn is_formed(t: Task) -> bool
    ensures { result ≡ formed t }
{
    if !are_sizes_formed(t) {
        return false;
    }
    if !are_runs_formed(t) {
        return false;
    }
    are_actions_formed(t.table) & are_steps_formed(t.runs, t.table.actions)
}
