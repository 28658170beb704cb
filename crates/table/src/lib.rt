// The action table, the runs and the task by value (document 01, "Sizes" and "The model and its run"; 02, request 1); the
// meaning of them is in specs/.

#![tactic(auto)]

pub mod cells;
pub mod formed;
pub mod permitted;
pub mod refusals;
pub mod repair;

ghost use Rattle.std.specs.Prelude.{◌≡◌};
ghost use Rattle.table.specs.Sizes.{max_facts, max_actions, max_steps, max_runs, all_steps, max_limit, max_row, row_places, all_rows, session_places, unused, kinds, per_fact, per_kind, last_repair};
ghost use Rattle.table.specs.Outcomes as outcomes;
ghost use Rattle.table.specs.Tasks.{no_runs, no_task};
ghost use Rattle.table.specs.Repairs.{drop_delete, add_effect, drop_need};

use refusals::{Refusal, Returned};
use repair::Repair;

// The sizes of document 01, by one name each; `bounds` shows that they are those of specs/Sizes.
pub const FACTS: usize = 64;

pub const ACTIONS: usize = 32;

pub const STEPS: usize = 64;

pub const RUNS: usize = 8;

// The steps of all runs.
pub const ALL_STEPS: usize = STEPS * RUNS;

pub const LIMIT: usize = 6;

pub const ROW: usize = 6;

pub const ROW_PLACES: usize = 7;

pub const ALL_ROWS: usize = 448;

// A session table is its rows.
pub const SESSION_PLACES: usize = ALL_ROWS;

pub const UNUSED: u16 = 65535;

// The number of an accepted call; `Why::number` gives that of a refusal.
pub const ACCEPTED: usize = 0;

// What each action needs, adds and deletes, and which of its needs are locked (02, request 6), a mask of facts each, with the sizes
// and the limit.
#[derive(Clone, Copy)]
pub struct Table {
    pub facts: usize,
    pub actions: usize,
    pub limit: usize,
    pub needs: [u64; ACTIONS],
    pub adds: [u64; ACTIONS],
    pub deletes: [u64; ACTIONS],
    pub locks: [u64; ACTIONS],
}

// The known runs: how many there are; of each what holds at its start, what must hold at its end and how many steps it has;
// and the steps of all, those of run i from place 64i on.
#[derive(Clone, Copy)]
pub struct Runs {
    pub many: usize,
    pub starts: [u64; RUNS],
    pub goals: [u64; RUNS],
    pub counts: [usize; RUNS],
    pub steps: [u8; ALL_STEPS],
}

#[derive(Clone, Copy)]
pub struct Task {
    pub table: Table,
    pub runs: Runs,
}

// No run: what a text without runs has, and a task of zeros.
pub fn no_runs() -> Runs
    ensures { result ≡ no_runs }
{
    Runs {
        many: 0,
        starts: [0; RUNS],
        goals: [0; RUNS],
        counts: [0; RUNS],
        steps: [0; ALL_STEPS],
    }
}

// A task of zeros: what a refused read returns.
pub fn no_task() -> Task
    ensures { result ≡ no_task }
{
    let table = Table {
        facts: 0,
        actions: 0,
        limit: 0,
        needs: [0; ACTIONS],
        adds: [0; ACTIONS],
        deletes: [0; ACTIONS],
        locks: [0; ACTIONS],
    };
    let runs = no_runs();
    Task { table, runs }
}

// What a call answers beside what it writes, in 01's numbers, as it crosses to C and is printed: 0 and 0, or the refusal's number and
// place; and how much it wrote.
#[derive(Clone, Copy)]
pub struct Reply {
    pub number: usize,
    pub place: usize,
    pub length: usize,
}

impl From<Result<usize, Refusal>> for Reply {
    ghost from_gives = { λ told y. y ≡ outcomes.reply_of told };

    fn from(told: Result<usize, Refusal>) -> Reply {
        match told {
            Ok(length) => Reply {
                number: ACCEPTED,
                place: 0,
                length,
            },
            Err(refusal) => Reply {
                number: refusal.why.number(),
                place: refusal.place,
                length: 0,
            },
        }
    }
}

// The same of a call that gives a task: 0, 0 and that task, or the refusal's number and place and the task that a refusal
// gives (a read: a task of zeros; applying and editing: the task given).
#[derive(Clone, Copy)]
pub struct TaskReply {
    pub number: usize,
    pub place: usize,
    pub task: Task,
}

impl From<Result<Task, Refusal>> for TaskReply {
    ghost from_gives = { λ read y. y ≡ outcomes.read_of read };

    fn from(read: Result<Task, Refusal>) -> TaskReply {
        match read {
            Ok(task) => TaskReply {
                number: ACCEPTED,
                place: 0,
                task,
            },
            Err(refusal) => TaskReply {
                number: refusal.why.number(),
                place: refusal.place,
                task: no_task(),
            },
        }
    }
}

impl From<Result<Task, Returned>> for TaskReply {
    ghost from_gives = { λ made y. y ≡ outcomes.made_of made };

    fn from(made: Result<Task, Returned>) -> TaskReply {
        match made {
            Ok(task) => TaskReply {
                number: ACCEPTED,
                place: 0,
                task,
            },
            Err(returned) => TaskReply {
                number: returned.refusal.why.number(),
                place: returned.refusal.place,
                task: returned.task,
            },
        }
    }
}

// Every size and stride of the code, to be compared with the definitions' in one contract.
#[derive(Clone, Copy)]
pub struct Constants {
    pub facts: usize,
    pub actions: usize,
    pub steps: usize,
    pub runs: usize,
    pub all_steps: usize,
    pub limit: usize,
    pub row: usize,
    pub row_places: usize,
    pub all_rows: usize,
    pub session_places: usize,
    pub unused: usize,
    pub kinds: usize,
    pub drop_delete: usize,
    pub add_effect: usize,
    pub drop_need: usize,
    pub per_fact: usize,
    pub per_kind: usize,
    pub last_repair: usize,
}

pub fn bounds() -> Constants
    ensures { result ≡
        record {
          facts = max_facts;
          actions = max_actions;
          steps = max_steps;
          runs = max_runs;
          all_steps = all_steps;
          limit = max_limit;
          row = max_row;
          row_places = row_places;
          all_rows = all_rows;
          session_places = session_places;
          unused = unused;
          kinds = kinds;
          drop_delete = drop_delete;
          add_effect = add_effect;
          drop_need = drop_need;
          per_fact = per_fact;
          per_kind = per_kind;
          last_repair = last_repair;
        } }
{
    Constants {
        facts: FACTS,
        actions: ACTIONS,
        steps: STEPS,
        runs: RUNS,
        all_steps: ALL_STEPS,
        limit: LIMIT,
        row: ROW,
        row_places: ROW_PLACES,
        all_rows: ALL_ROWS,
        session_places: SESSION_PLACES,
        unused: UNUSED as usize,
        kinds: Repair::KINDS,
        drop_delete: Repair::DROP_DELETE,
        add_effect: Repair::ADD_EFFECT,
        drop_need: Repair::DROP_NEED,
        per_fact: Repair::PER_FACT,
        per_kind: Repair::PER_KIND,
        last_repair: Repair::LAST,
    }
}
