// The lines that carry a number (docs/PDDL.md), and the sets and counts that they make.
ghost use Rattle.std.specs.Prelude.{◌≡◌};
ghost use Rattle.pddl.specs.Texts.{action_head};
ghost use Rattle.pddlwords.specs.Spelling.{line_of};
ghost use Rattle.pddlreader.specs.Cursors.{tried};
ghost use Rattle.pddlreader.specs.Walks.{ReadsSet, ReadsCount};

use crate::cursor::Cursor;
use pddlwords::{Line, action_head};
use table::FACTS;

impl Cursor {
    // The line of a fact, which may stand here.
    pub(crate) fn takes_line(&mut self, s: &[u8], line: Line, fact: usize) -> bool
        ensures { record { taken = result; cursor = self.new } ≡ tried s.now self.old (line_of line fact) }
    {
        self.takes(s, line.of(fact).text())
    }

    // The head of an action, which may stand here.
    pub(crate) fn takes_head(&mut self, s: &[u8], action: usize) -> bool
        ensures { record { taken = result; cursor = self.new } ≡ tried s.now self.old (action_head action) }
    {
        self.takes(s, action_head(action).text())
    }

    // The lines of a set, ascending: where one stands, its fact is in.
    pub(crate) fn read_set(&mut self, s: &[u8], facts: usize, line: Line) -> u64
        ensures { ReadsSet (line_of line) facts s.now self.old (record { cursor = self.new; set = result }) }
    {
        let mut set = 0;
        for fact in 0..facts {
            if self.takes_line(s, line, fact) {
                set = facts::with_fact(set, fact);
            }
        }
        set
    }

    // How many facts there are, by their lines after the first.
    pub(crate) fn read_count(&mut self, s: &[u8]) -> usize
        ensures { ReadsCount s.now self.old (record { cursor = self.new; facts = result }) }
    {
        for facts in 1..FACTS {
            if !self.takes_line(s, Line::Fact, facts) {
                return facts;
            }
        }
        FACTS
    }
}
