// A task from the 668 words that a caller lends. Any words are a task, well formed or not; a slice of another length
// counts as the task of zeros, which no call finds well formed.
ghost use Rattle.std.specs.Prelude.{true, map, ◌≡◌, ◌+◌, ◌≤◌, length, take, drop, replicate};
ghost use Rattle.table.specs.Sizes.{max_actions, max_runs, all_steps};
ghost use Rattle.taskwords.specs.Words.{Zeros, masks_at, of_runs_at, counts_at, step_in, steps_at, task_in, task_words};

use table::{ACTIONS, ALL_STEPS, RUNS, STEPS, Task, no_task};

// Where the parts of a task stand among its words.
pub const FACTS_AT: usize = 0;

pub const ACTIONS_AT: usize = 1;

pub const LIMIT_AT: usize = 2;

pub const NEEDS_AT: usize = 3;

pub const ADDS_AT: usize = NEEDS_AT + ACTIONS;

pub const DELETES_AT: usize = ADDS_AT + ACTIONS;

// 02, request 6
pub const LOCKS_AT: usize = DELETES_AT + ACTIONS;

pub const MANY_AT: usize = LOCKS_AT + ACTIONS;

pub const STARTS_AT: usize = MANY_AT + 1;

pub const GOALS_AT: usize = STARTS_AT + RUNS;

pub const COUNTS_AT: usize = GOALS_AT + RUNS;

pub const STEPS_AT: usize = COUNTS_AT + RUNS;

pub const TASK_WORDS: usize = STEPS_AT + ALL_STEPS;

// As many masks from a place on as the array has: those of all actions, or of all runs. (`copy_from_slice` would need `memmove`.)
fn copy_masks<const N: usize>(words: &[u64], at: usize, masks: &mut [u64; N])
    requires { at + N ≤ length words.now }
    ensures { masks.new ≡ take N (drop at words.now) }
{
    *masks = <[u64; N]>::try_from(&words[at..at + N]).unwrap();
}

// The number of steps of each run.
fn copy_counts(words: &[u64], counts: &mut [usize; RUNS])
    requires { length words.now ≡ task_words }
    ensures { counts.new ≡ of_runs_at words.now counts_at }
{
    for (i, count) in counts.iter_mut().enumerate() {
        *count = words[COUNTS_AT + i] as usize;
    }
}

// No step above 255 fits a byte, and 255 is below no number of actions.
fn step_in(word: u64) -> u8
    ensures { result ≡ step_in word }
{
    u8::try_from(word).unwrap_or(u8::MAX)
}

// Whether all words are zero. They are joined, and the join is tested once: so the compiler may take several at a time.
fn are_zero(words: &[u64]) -> bool
    ensures { result ≡ true → Zeros words.now 0 (length words.now) }
{
    let mut every = 0;
    for &word in words {
        every = facts::join(every, word);
    }
    facts::is_within(every, 0)
}

// How many of the steps are looked at one by one: those of the runs that there are, where the rest is zero, and else all.
fn used_steps(words: &[u64]) -> usize
    requires { length words.now ≡ task_words }
    ensures { (result ≤ all_steps) × Zeros words.now (steps_at + result) task_words }
{
    let many = words[MANY_AT];
    if many < RUNS as u64 {
        let used = STEPS * (many as usize);
        if are_zero(&words[STEPS_AT + used..]) {
            return used;
        }
    }
    ALL_STEPS
}

// The steps into an array of zeros.
fn copy_steps(words: &[u64], used: usize, steps: &mut [u8; ALL_STEPS])
    requires words_len { length words.now ≡ task_words }
    requires used_le_all_steps { (used ≤ all_steps) × Zeros words.now (steps_at + used) task_words }
    requires steps_value { steps.old ≡ replicate all_steps 0 }
    ensures { steps.new ≡ map step_in (take all_steps (drop steps_at words.now)) }
{
    for (i, &word) in words[STEPS_AT..STEPS_AT + used].iter().enumerate() {
        steps[i] = step_in(word);
    }
}

// Each part is filled where it stands in the task, and none is built beside it.
pub fn task_in(words: &[u64]) -> Task
    ensures { result ≡ task_in words.now }
{
    if words.len() != TASK_WORDS {
        return no_task();
    }
    let mut t = no_task();
    t.table.facts = words[FACTS_AT] as usize;
    t.table.actions = words[ACTIONS_AT] as usize;
    t.table.limit = words[LIMIT_AT] as usize;
    t.runs.many = words[MANY_AT] as usize;
    copy_masks(words, NEEDS_AT, &mut t.table.needs);
    copy_masks(words, ADDS_AT, &mut t.table.adds);
    copy_masks(words, DELETES_AT, &mut t.table.deletes);
    copy_masks(words, LOCKS_AT, &mut t.table.locks);
    copy_masks(words, STARTS_AT, &mut t.runs.starts);
    copy_masks(words, GOALS_AT, &mut t.runs.goals);
    copy_counts(words, &mut t.runs.counts);
    copy_steps(words, used_steps(words), &mut t.runs.steps);
    t
}
