// Reading the PDDL texts (02, request 4; docs/PDDL.md): one walk along the layout, word by word. It goes on where a word is missing that
// had to stand, and then takes nothing any more: so the code is one line after another, and one test at the end decides.

#![tactic(auto)]

mod actions;
mod cursor;
mod lines;
mod walks;

ghost use Rattle.table.specs.Outcomes.{read_of};
ghost use Rattle.pddl.specs.Readings.{problem_told, ReadsDomain, ReadsProblem};

use pddl::RunEnds;
use table::refusals::{Refusal, Why};
use table::{FACTS, Task, no_runs};
use walks::{walk_domain, walk_problem};

// The table that a domain text says, with the limit that is passed beside it.
pub fn read_domain(text: &[u8], limit: usize) -> Result<Task, Refusal>
    ensures { ReadsDomain text.now limit (read_of result) }
{
    let (walk, table) = walk_domain(text, limit);
    if !walk.is_whole(text) {
        return Err(Why::NotTheLayout.at(walk.far));
    }
    let runs = no_runs();
    Ok(Task { table, runs })
}

// The start and the goal that a problem text over so many facts says.
pub fn read_problem(text: &[u8], facts: usize) -> Result<RunEnds, Refusal>
    ensures { ReadsProblem text.now facts (problem_told result) }
{
    if facts == 0 {
        return Err(Why::SizeOutside.at(0));
    }
    if FACTS < facts {
        return Err(Why::SizeOutside.at(0));
    }
    let (walk, ends) = walk_problem(text, facts);
    if !walk.is_whole(text) {
        return Err(Why::NotTheLayout.at(walk.far));
    }
    Ok(ends)
}
