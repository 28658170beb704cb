// The least repair list of one fact: its row of the session table (document 01, "The session table" and the conflict of
// "The model and its run").

#![tactic(auto)]

mod bound;
mod conflict;
mod gap;
mod lack;
mod least;
mod narrow;
pub mod row;
mod search;
pub mod view;

ghost use Rattle.std.specs.Prelude.{◌<◌};
ghost use Rattle.table.specs.Sizes.{max_runs};
ghost use Rattle.search.specs.Columns.{ColumnFormed, RunFormed, course_in};

use table::{ALL_STEPS, RUNS};

// One fact's column: the actions that need it, add it and delete it, and those whose need of it is locked (02, request 6), as masks of
// actions; the runs that have it at the start and those that have it as a goal, as masks of runs. A fact can be diagnosed by itself
// (source document 003), so this and the runs' steps are all that a search looks at.
#[derive(Clone, Copy)]
pub struct Column {
    pub fact: usize,
    pub actions: usize,
    pub needs: u64,
    pub adds: u64,
    pub deletes: u64,
    pub locks: u64,
    pub runs: usize,
    pub starts: u64,
    pub goals: u64,
}

// What a search looks at, lent: no try copies any of it (02, request 5).
#[derive(Clone, Copy)]
struct Lent<'a> {
    col: &'a Column,
    counts: &'a [usize; RUNS],
    steps: &'a [u8; ALL_STEPS],
    ghost formed: { ColumnFormed col.now counts.now steps.now },
}

// One run of it.
#[derive(Clone, Copy)]
struct Run<'a> {
    col: &'a Column,
    steps: &'a [u8; ALL_STEPS],
    number: usize,
    count: usize,
    ghost low: { number < max_runs },
    ghost formed: { RunFormed col.now (course_in col.now count steps.now number) },
}
