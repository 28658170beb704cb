// The run check (document 01, "The run check"; 02, request 1: it names its run; request 3: it follows the controller).

#![tactic(auto)]

ghost use Rattle.std.specs.Prelude.{◌≡◌, ◌+◌, ◌*◌, ◌<◌, ◌≤◌};
ghost use Rattle.table.specs.Sizes.{max_facts, max_steps};
ghost use Rattle.table.specs.Tasks.{WellFormed, cells_of, count_of, course_of};
ghost use Rattle.runcheck.specs.OpenNeeds.{states_of, checked, checked_of};
ghost use Rattle.runcheck.specs.Tallies.{noted, stepped, tally_at};

use table::refusals::{Refusal, Why};
use table::{ACCEPTED, STEPS, Task};

// What a run check finds: the total of open needs, the first step that has one, counted from 1, and its lowest fact; all zero if
// there is none.
#[derive(Clone, Copy, PartialEq, Eq, Debug)]
pub struct OpenNeeds {
    pub total: usize,
    pub step: usize,
    pub fact: usize,
}

// What a run check answers in 01's numbers, as it crosses to C and is printed: 0, 0 and what it found, or the refusal and zeros.
#[derive(Clone, Copy)]
pub struct Checked {
    pub number: usize,
    pub place: usize,
    pub total: usize,
    pub step: usize,
    pub fact: usize,
}

impl From<Result<OpenNeeds, Refusal>> for Checked {
    ghost from_gives = { λ found y. y ≡ checked_of found };

    fn from(found: Result<OpenNeeds, Refusal>) -> Checked {
        match found {
            Ok(open) => Checked {
                number: ACCEPTED,
                place: 0,
                total: open.total,
                step: open.step,
                fact: open.fact,
            },
            Err(refusal) => Checked {
                number: refusal.why.number(),
                place: refusal.place,
                total: 0,
                step: 0,
                fact: 0,
            },
        }
    }
}

// One step more, counted from 1, whose open needs are `absent`. Only the first step that has any is kept.
#[tactic(auto, using(facts::proofs::Counting::count_le), unfolding(crate::specs::Tallies::noted))]
fn note(tally: OpenNeeds, absent: u64, step: usize) -> OpenNeeds
    requires { tally.total ≤ max_steps * max_facts }
    ensures { result ≡ noted tally absent step }
{
    let total = tally.total + facts::count(absent);
    if (tally.total == 0) & (absent != 0) {
        OpenNeeds {
            total,
            step,
            fact: facts::lowest(absent),
        }
    } else {
        OpenNeeds { total, ..tally }
    }
}

// "Afterwards the state is (state without deletes) joined with adds": add wins. The controller rejects a step with open needs
// and keeps the state.
fn after_step(state: u64, absent: u64, adds: u64, deletes: u64) -> u64
    ensures { result ≡ stepped state absent adds deletes }
{
    if absent != 0 {
        return state;
    }
    facts::join(facts::remove(state, deletes), adds)
}

// The steps in order, each with its needs that are absent in the controller's state; then the goals, as the needs of one step
// more.
fn tally_run(t: Task, run: usize) -> OpenNeeds
    requires { WellFormed t × (run < t.runs.many) }
    ensures { result ≡ tally_at (cells_of t.table) (course_of t.runs run) (states_of t run) (count_of t.runs run + 1) }
{
    let count = t.runs.counts[run];
    let first = STEPS * run;
    let mut state = t.runs.starts[run];
    let mut tally = OpenNeeds {
        total: 0,
        step: 0,
        fact: 0,
    };
    for i in 0..count {
        let a = t.runs.steps[first + i] as usize;
        let absent = facts::remove(t.table.needs[a], state);
        tally = note(tally, absent, i + 1);
        state = after_step(state, absent, t.table.adds[a], t.table.deletes[a]);
    }
    note(tally, facts::remove(t.runs.goals[run], state), count + 1)
}

// The check of any run of any task; 12 for a task that is not well formed, 14 for a run that isn't there.
pub fn check_run(t: Task, run: usize) -> Result<OpenNeeds, Refusal>
    ensures { checked_of result ≡ checked t run }
{
    if !table::formed::is_formed(t) {
        return Err(Why::NotWellFormed.at(0));
    }
    if t.runs.many <= run {
        return Err(Why::NotThere.at(0));
    }
    Ok(tally_run(t, run))
}
