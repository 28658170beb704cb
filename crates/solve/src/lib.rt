// The answer: the rows of the wrong facts joined, read against the limit and the room (document 01, demand 2).

#![tactic(auto)]

mod join;
pub mod report;

ghost use Rattle.table.specs.Outcomes.{reply_of};
ghost use Rattle.solve.specs.Solving.{Solves};

use join::Tally;
use report::Sum;
use table::refusals::{Refusal, Why};
use table::{LIMIT, Task};

// The answer of any task into lent room: 12, 9, 10, 11, or the list. Only the wrong facts are searched, and each row is joined as it comes: a
// fact that is right has the row without repairs, which adds nothing.
pub fn solve(t: Task, room: &mut [u16]) -> Result<usize, Refusal>
    ensures { Solves t room.old (record { reply = reply_of result; room = room.new }) }
{
    if !table::formed::is_formed(t) {
        return Err(Why::NotWellFormed.at(0));
    }
    let limit = t.table.limit;
    let counts = t.runs.counts;
    let steps = t.runs.steps;
    let mut joined = Tally {
        sum: Sum::NONE,
        list: [0; LIMIT],
    };
    for f in facts::each(rows::wrong::wrong_facts(t)) {
        let col = search::view::column_of(t, f);
        let row = search::row::row(&col, &counts, &steps);
        joined = joined.with_row(row);
    }
    joined.tell(limit, room)
}
