// The lines of facts, one loop for each group of them.
ghost use Rattle.std.specs.Prelude.{◌+◌, ◌≤◌, length};
ghost use Rattle.room.specs.Placing.{last_place, Placed};
ghost use Rattle.table.specs.Lists.{gather};
ghost use Rattle.pddl.specs.Texts.{fact_line, lines_of};
ghost use Rattle.pddlwords.specs.Spelling.{line_of};
ghost use Rattle.pddlwriter.specs.Pieces.{line_in};

use pddlwords::Line;
use room::put_word;

fn put_line(room: &mut [u8], at: usize, line: Line, fact: usize) -> usize
    requires { at + length (line_of line fact) ≤ last_place }
    ensures { Placed room.old room.new at result (line_of line fact) }
{
    put_word(room, at, line.of(fact).text())
}

// A line that stands only for a fact of the set.
fn line_if_in(room: &mut [u8], at: usize, line: Line, set: u64, fact: usize) -> usize
    requires { at + length (line_in line set fact) ≤ last_place }
    ensures { Placed room.old room.new at result (line_in line set fact) }
{
    if facts::contains(set, fact) {
        return put_line(room, at, line, fact);
    }
    at
}

// The lines of the facts below `facts` that are in the set, ascending.
pub(crate) fn set_lines(room: &mut [u8], at: usize, line: Line, facts: usize, set: u64) -> usize
    requires { at + length (lines_of (line_of line) facts set) ≤ last_place }
    ensures { Placed room.old room.new at result (lines_of (line_of line) facts set) }
{
    let mut next = at;
    for fact in 0..facts {
        next = line_if_in(room, next, line, set, fact);
    }
    next
}

// The lines of all facts.
pub(crate) fn predicates(room: &mut [u8], at: usize, facts: usize) -> usize
    requires { at + length (gather fact_line facts) ≤ last_place }
    ensures { Placed room.old room.new at result (gather fact_line facts) }
{
    let mut next = at;
    for fact in 0..facts {
        next = put_line(room, next, Line::Fact, fact);
    }
    next
}
