// Which facts are wrong, in one pass over each run with masks.
ghost use Rattle.std.specs.Prelude.{◌<◌};
ghost use Rattle.table.specs.Tasks.{WellFormed};
ghost use Rattle.rows.specs.Wrong.{WrongIn, WrongFacts};

use table::{STEPS, Task};

// The facts that a step of the run needs where they are absent, and its goals that are absent at the end.
fn wrong_in(t: Task, run: usize) -> u64
    requires { WellFormed t × (run < t.runs.many) }
    ensures { WrongIn t run result }
{
    let first = STEPS * run;
    let mut state = t.runs.starts[run];
    let mut wrong = 0;
    for i in 0..t.runs.counts[run] {
        let a = t.runs.steps[first + i] as usize;
        wrong = facts::join(wrong, facts::remove(t.table.needs[a], state));
        state = facts::join(facts::remove(state, t.table.deletes[a]), t.table.adds[a]);
    }
    facts::join(wrong, facts::remove(t.runs.goals[run], state))
}

// The facts that are wrong in some run. The first run stands before the loop, so that the compiler keeps this function apart and
// what it copies of the task is gone before the search begins (02, request 5; docs/DECISIONS.md, "Stack").
pub fn wrong_facts(t: Task) -> u64
    requires { WellFormed t }
    ensures { WrongFacts t result }
{
    let mut wrong = wrong_in(t, 0);
    for run in 1..t.runs.many {
        wrong = facts::join(wrong, wrong_in(t, run));
    }
    wrong
}
