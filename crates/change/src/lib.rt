// Changing a task by one cell: an edit (document 01, "The session table"), and what applying a list shares with it.

#![tactic(auto)]

pub mod cells;
pub mod editing;

// Which cell an edit names: a need, an add or a delete, by action and fact; a start or goal fact, by its run (02, request 1); or the
// lock of a need, by action and fact (02, request 6).
#[derive(Clone, Copy)]
pub enum Cell {
    Need { action: usize, fact: usize },
    Add { action: usize, fact: usize },
    Delete { action: usize, fact: usize },
    Start { run: usize, fact: usize },
    Goal { run: usize, fact: usize },
    Lock { action: usize, fact: usize },
}

// An edit: the cell, and whether it is set to present or absent.
#[derive(Clone, Copy)]
pub struct Edit {
    pub cell: Cell,
    pub present: bool,
}
