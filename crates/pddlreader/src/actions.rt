// The actions of a domain text (docs/PDDL.md).
ghost use Rattle.pddlreader.specs.Walks.{ReadsAction, ReadsActions};

use crate::cursor::Cursor;
use pddlwords::Line;
use table::{ACTIONS, Table};

// What an action needs, adds and deletes.
#[derive(Clone, Copy)]
struct Sets {
    needs: u64,
    adds: u64,
    deletes: u64,
}

impl Cursor {
    // What stands behind the head of an action.
    fn read_action(&mut self, s: &[u8], facts: usize) -> Sets
        ensures { ReadsAction facts s.now self.old
            (record { cursor = self.new; needs = result.needs; adds = result.adds; deletes = result.deletes }) }
    {
        let needs = self.read_set(s, facts, Line::Fact);
        self.expect(s, b"   )\n   :effect (and\n");
        let adds = self.read_set(s, facts, Line::Fact);
        let deletes = self.read_set(s, facts, Line::Deleted);
        self.expect(s, b"   )\n  )\n");
        Sets {
            needs,
            adds,
            deletes,
        }
    }

    // The first action, which has to stand, and those after it. No text carries a lock (02, request 6).
    pub(crate) fn read_actions(&mut self, s: &[u8], facts: usize, limit: usize) -> Table
        ensures { ReadsActions limit facts s.now self.old (record { cursor = self.new; table = result }) }
    {
        let mut table = Table {
            facts,
            actions: 1,
            limit,
            needs: [0; ACTIONS],
            adds: [0; ACTIONS],
            deletes: [0; ACTIONS],
            locks: [0; ACTIONS],
        };
        self.good = self.takes_head(s, 0);
        let first = self.read_action(s, facts);
        table.needs[0] = first.needs;
        table.adds[0] = first.adds;
        table.deletes[0] = first.deletes;
        for action in 1..ACTIONS {
            if !self.takes_head(s, action) {
                return table;
            }
            let next = self.read_action(s, facts);
            table.actions = action + 1;
            table.needs[action] = next.needs;
            table.adds[action] = next.adds;
            table.deletes[action] = next.deletes;
        }
        table
    }
}
