// The records of a file, section by section: one loop each, over the pieces that Format gathers.
ghost use Rattle.std.specs.Prelude.{◌+◌, ◌<◌, ◌≤◌, length};
ghost use Rattle.facts.specs.Sets.{has};
ghost use Rattle.table.specs.Lists.{piece};
ghost use Rattle.table.specs.Sizes.{max_facts, max_actions, max_steps, max_runs};
ghost use Rattle.taskformat.specs.Format.{fact_records, cell_records};
ghost use Rattle.records.specs.Kinds.{kind_number};
ghost use Rattle.room.specs.Placing.{last_place, Placed};
ghost use Rattle.taskwriter.specs.Pieces.{action_records, both_sets, steps_from, run_with};

use records::kinds::Kind;
use room::{put, put_word};
use table::{ACTIONS, ALL_STEPS, STEPS};

// A record that stands only for a fact of the set.
fn record_if_in(room: &mut [u8], at: usize, set: u64, fact: usize, bytes: &[u8]) -> usize
    requires { at + length (piece (has set fact) bytes.now) ≤ last_place }
    ensures { Placed room.old room.new at result (piece (has set fact) bytes.now) }
{
    if facts::contains(set, fact) {
        return put_word(room, at, bytes);
    }
    at
}

pub(crate) fn fact_records(room: &mut [u8], at: usize, kind: Kind, facts: usize, set: u64) -> usize
    requires { (at + length (fact_records (kind_number kind) facts set) ≤ last_place) × (facts ≤ max_facts) }
    ensures { Placed room.old room.new at result (fact_records (kind_number kind) facts set) }
{
    let byte = kind.number();
    let mut next = at;
    for fact in 0..facts {
        next = record_if_in(room, next, set, fact, &[byte, fact as u8]);
    }
    next
}

// The cells of one action.
fn action_records(
    room: &mut [u8],
    at: usize,
    kind: Kind,
    facts: usize,
    action: usize,
    set: u64,
) -> usize
    requires { (at + length (action_records (kind_number kind) facts action set) ≤ last_place) × (action < max_actions) × (facts ≤ max_facts) }
    ensures { Placed room.old room.new at result (action_records (kind_number kind) facts action set) }
{
    let byte = kind.number();
    let mut next = at;
    for fact in 0..facts {
        next = record_if_in(room, next, set, fact, &[byte, action as u8, fact as u8]);
    }
    next
}

pub(crate) fn cell_records(
    room: &mut [u8],
    at: usize,
    kind: Kind,
    facts: usize,
    actions: usize,
    sets: &[u64; ACTIONS],
) -> usize
    requires { (at + length (cell_records (kind_number kind) facts actions sets.now) ≤ last_place) × (facts ≤ max_facts) × (actions ≤ max_actions) }
    ensures { Placed room.old room.new at result (cell_records (kind_number kind) facts actions sets.now) }
{
    let mut next = at;
    for action in 0..actions {
        next = action_records(room, next, kind, facts, action, sets[action]);
    }
    next
}

// The start and goal facts of one run.
pub(crate) fn set_records(room: &mut [u8], at: usize, facts: usize, start: u64, goal: u64) -> usize
    requires { (at + length (both_sets facts start goal) ≤ last_place) × (facts ≤ max_facts) }
    ensures { Placed room.old room.new at result (both_sets facts start goal) }
{
    let next = fact_records(room, at, Kind::Start, facts, start);
    fact_records(room, next, Kind::Goal, facts, goal)
}

// So many steps of one run, whose steps stand from place 64 times its number on.
pub(crate) fn step_records(
    room: &mut [u8],
    at: usize,
    steps: &[u8; ALL_STEPS],
    run: usize,
    count: usize,
) -> usize
    requires { (at + length (steps_from steps.now run count) ≤ last_place) × (run < max_runs) × (count ≤ max_steps) }
    ensures { Placed room.old room.new at result (steps_from steps.now run count) }
{
    let byte = Kind::Step.number();
    let mut next = at;
    let first = STEPS * run;
    for &step in &steps[first..first + count] {
        next = put_word(room, next, &[byte, step]);
    }
    next
}

// A further run: its opening, its start and goal facts and its steps (02, request 1).
pub(crate) fn run_records(
    room: &mut [u8],
    at: usize,
    facts: usize,
    start: u64,
    goal: u64,
    steps: &[u8; ALL_STEPS],
    run: usize,
    count: usize,
) -> usize
    requires { (at + length (run_with facts start goal steps.now run count) ≤ last_place) × (facts ≤ max_facts) × (run < max_runs) × (count ≤ max_steps) }
    ensures { Placed room.old room.new at result (run_with facts start goal steps.now run count) }
{
    let next = put(room, at, Kind::Run.number());
    let next = set_records(room, next, facts, start, goal);
    step_records(room, next, steps, run, count)
}
