// Of the places where the fact is missing, one with the fewest repairs left. Every such place has a conflict, and document 01
// does not say at which to look: which one it is, is for speed alone, and what is promised is that the fact is missing there.
ghost use Rattle.search.specs.Runs.{run_of};
ghost use Rattle.search.specs.Gaps.{Gap, Noted};

use crate::{Column, Run};
use choices::Choice;

// A place, and how many repairs are left there.
#[derive(Clone, Copy)]
struct Place {
    at: usize,
    left: usize,
}

// The repairs of the steps since the last delete, which a later place has in its conflict, with one step more.
fn opened(open: Choice, a: usize, gone: bool) -> Choice {
    let only = facts::with_fact(0, a);
    if gone {
        return Choice {
            deletes: only,
            adds: only,
            needs: 0,
        };
    }
    Choice {
        deletes: open.deletes,
        adds: facts::join(open.adds, only),
        needs: 0,
    }
}

// The same with the need of the step at the place itself, if that is not locked.
fn needed(col: &Column, open: Choice, a: usize) -> Choice {
    Choice {
        deletes: open.deletes,
        adds: open.adds,
        needs: facts::remove(facts::with_fact(0, a), col.locks),
    }
}

// The narrower of the place chosen so far and place i, if the fact is missing there; of two that are as narrow the later, with
// which fewer candidates were tried on hard facts. A place past the goal's is none.
fn narrower(best: Place, i: usize, count: usize, missing: bool, q: Choice) -> Place
    ensures { Noted count best i missing result }
{
    if !missing {
        return best;
    }
    let left = q.size();
    if (best.at <= count) & (best.left < left) {
        return best;
    }
    Place { at: i, left }
}

impl Run<'_> {
    // A place where the fact is missing, one with the fewest repairs that are not out; or the one after the goal's. With one
    // repair left, or none, there is no narrower place to look for.
    pub(crate) fn narrowest_gap(&self, s: Choice, out: Choice) -> usize
        ensures { Gap self.now.col.now (run_of self.now) s result }
    {
        let col = self.col;
        let count = self.count;
        let mut present = facts::contains(col.starts, self.number);
        let mut open = Choice::nothing();
        let mut best = Place {
            at: count + 1,
            left: 2,
        };
        for i in 0..count {
            let a = self.action(i);
            let missing = col.needs_with(s, a) & !present;
            let q = needed(col, open, a).without(out);
            best = narrower(best, i, count, missing, q);
            if best.left <= 1 {
                return best.at;
            }
            let gone = col.deletes_with(s, a);
            open = opened(open, a, gone);
            present = (present & !gone) | col.adds_with(s, a);
        }
        let missing = facts::contains(col.goals, self.number) & !present;
        narrower(best, count, count, missing, open.without(out)).at
    }
}
