// An edit as four numbers: the kind of cell, its action or its run, the fact, and present or absent. (Document 01 has no such format: this
// is ours.)
ghost use Rattle.std.specs.Prelude.{◌≡◌};
ghost use Rattle.session.specs.EditNumbers.{cell_of, edit_of};

use change::{Cell, Edit};
use table::FACTS;

// The kinds of cell by their numbers, and the one number that sets a cell to absent.
pub const NEED: usize = 0;

pub const ADD: usize = 1;

pub const DELETE: usize = 2;

pub const START: usize = 3;

pub const GOAL: usize = 4;

pub const LOCK: usize = 5;

pub const ABSENT: usize = 0;

// A number that is no kind names a fact that no task has.
#[tactic(auto, unfolding(crate::specs::EditNumbers::cell_of))]
fn cell_of(kind: usize, whose: usize, fact: usize) -> Cell
    ensures { result ≡ cell_of kind whose fact }
{
    let (action, run) = (whose, whose);
    match kind {
        NEED => Cell::Need { action, fact },
        ADD => Cell::Add { action, fact },
        DELETE => Cell::Delete { action, fact },
        START => Cell::Start { run, fact },
        GOAL => Cell::Goal { run, fact },
        LOCK => Cell::Lock { action, fact },
        _ => Cell::Start { run, fact: FACTS },
    }
}

// The edit of four numbers, for every caller who gives an edit as numbers. Every number but 0 is present, as C has it of a truth: no
// caller clears a cell by passing 2.
#[tactic(auto, unfolding(crate::specs::EditNumbers::edit_of))]
pub fn edit_of(kind: usize, whose: usize, fact: usize, present: usize) -> Edit
    ensures { result ≡ edit_of kind whose fact present }
{
    Edit {
        cell: cell_of(kind, whose, fact),
        present: present != ABSENT,
    }
}
