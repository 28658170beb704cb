// The least list of one fact: first how long it is, by any list of that length, then number by number which it is. Very many
// lists may be as short; only those are looked for that come before the one found so far.
ghost use Rattle.table.specs.Answer.{First};
ghost use Rattle.choices.specs.Choices.{list_of};
ghost use Rattle.search.specs.Columns.{KeepsIn};
ghost use Rattle.search.specs.Runs.{runs_of};
ghost use Rattle.search.specs.Searching.{SomeOf, Earlier, Short, Shortest};

use crate::Lent;
use choices::Choice;
use table::ROW;

impl Lent<'_> {
    // A shortest list that keeps the column's fact right, if a row has room for it. Lengths are tried in turn, so that a deep
    // search is paid only where it is needed. A fact that is wrong needs some permitted repair.
    fn some_shortest(&self) -> Option<Choice>
        ensures { Short self.now.col.now (runs_of self.now) result }
    {
        let empty = Choice::nothing();
        if self.is_right(empty) {
            return Some(empty);
        }
        let all = self.col.fullest();
        for left in 1..=ROW {
            if let Some(found) = self.test(empty, empty, all, left) {
                return Some(found);
            }
        }
        None
    }

    // A list that is no longer than the best so far, has the same repairs as that with codes below `from`, and one from there on
    // with a code before `code`; nothing exactly if there is none.
    fn earlier(&self, best: Choice, from: usize, code: usize) -> Option<Choice>
        requires { KeepsIn self.now.col.now (runs_of self.now) (list_of self.now.col.now.fact best) }
        ensures { SomeOf self.now.col.now.fact (Earlier self.now.col.now (runs_of self.now) best from code) result }
    {
        let passed = Choice::below(from);
        let s = best.shared(passed);
        let out = passed.without(s);
        let range = Choice::below(code).without(passed);
        let want = self.col.fullest().shared(range);
        let left = best.size() - s.size();
        self.test(s, out, want, left)
    }

    // The first of the shortest lists, from any of them: the best so far is the first as far as its codes below `from` go.
    fn first_of(&self, some: Choice) -> Choice
        requires { Short self.now.col.now (runs_of self.now) (Some some) }
        ensures { First (KeepsIn self.now.col.now (runs_of self.now)) (list_of self.now.col.now.fact result) }
    {
        let mut best = some;
        let mut from = 0;
        let mut next = best.next_in(from);
        while let Some(code) = next {
            match self.earlier(best, from, code) {
                Some(found) => best = found,
                None => from = code + 1,
            }
            next = best.next_in(from);
        }
        best
    }

    // The first of the shortest lists that keep the column's fact right, if a row has room for it.
    pub(crate) fn shortest(&self) -> Option<Choice>
        ensures { Shortest self.now.col.now (runs_of self.now) result }
    {
        let some = self.some_shortest()?;
        Some(self.first_of(some))
    }
}
