// A column's cells with a candidate applied, and the first place of the run where the fact is missing (document 01, "A
// conflict": "a fact f is missing at step j").
ghost use Rattle.std.specs.Prelude.{◌≡◌, ◌<◌};
ghost use Rattle.table.specs.Sizes.{max_actions};
ghost use Rattle.search.specs.Runs.{run_of};
ghost use Rattle.search.specs.Searching.{cells_with};
ghost use Rattle.search.specs.Gaps.{Gap};

use crate::{Column, Run};
use choices::Choice;
use table::STEPS;

// The cells of action a, read through the candidate: no repaired table is built, and in a loop the joined masks stay
// in registers.
impl Column {
    pub(crate) fn needs_with(&self, s: Choice, a: usize) -> bool
        requires { a < max_actions }
        ensures { result ≡ (cells_with self.now s).needs a self.now.fact }
    {
        facts::contains(facts::remove(self.needs, s.needs), a)
    }

    pub(crate) fn adds_with(&self, s: Choice, a: usize) -> bool
        requires { a < max_actions }
        ensures { result ≡ (cells_with self.now s).adds a self.now.fact }
    {
        facts::contains(facts::join(self.adds, s.adds), a)
    }

    pub(crate) fn deletes_with(&self, s: Choice, a: usize) -> bool
        requires { a < max_actions }
        ensures { result ≡ (cells_with self.now s).deletes a self.now.fact }
    {
        facts::contains(facts::remove(self.deletes, s.deletes), a)
    }
}

impl Run<'_> {
    // The action of the step at place i.
    pub(crate) fn action(&self, i: usize) -> usize
        requires { i < self.now.count }
        ensures step { result ≡ (run_of self.now).step i }
        ensures low { result < max_actions }
    {
        self.steps[STEPS * self.number + i] as usize
    }

    // The first place of the run where the fact is missing: step i + 1 has place i, the goal the place after the last step. One more
    // than that if it is missing nowhere.
    pub(crate) fn first_gap(&self, s: Choice) -> usize
        ensures { Gap self.now.col.now (run_of self.now) s result }
    {
        let col = self.col;
        let mut present = facts::contains(col.starts, self.number);
        for i in 0..self.count {
            let a = self.action(i);
            if col.needs_with(s, a) & !present {
                return i;
            }
            present = (present & !col.deletes_with(s, a)) | col.adds_with(s, a);
        }
        if facts::contains(col.goals, self.number) & !present {
            self.count
        } else {
            self.count + 1
        }
    }
}
