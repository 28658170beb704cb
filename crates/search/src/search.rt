// The search for a list of one fact's repairs: a candidate is tested, and where it fails, each repair of what it lacks is tried
// in turn (document 01: "When a candidate still fails .."). A repair that was tried is out for those after it, so that no set
// of repairs is tried twice, and so is what no list can have that is short enough.
ghost use Rattle.std.specs.Prelude.{false, ◌+◌, ◌<◌, length};
ghost use Rattle.choices.specs.Choices.{list_of, Apart};
ghost use Rattle.search.specs.Runs.{runs_of};
ghost use Rattle.search.specs.Searching.{Allowed, Complete, Among, SomeOf};

use crate::Lent;
use choices::Choice;

impl Lent<'_> {
    // A list that keeps the fact right, has one of the repairs that are wanted and none of those that are out, contains the
    // candidate and has at most `left` repairs more; nothing exactly if there is none.
    #[cycle(branch_test)]
    pub(crate) fn test(&self, s: Choice, out: Choice, want: Choice, left: usize) -> Option<Choice>
        requires allowed { Allowed self.now.col.now s }
        requires allowed_2 { Allowed self.now.col.now want }
        requires apart { Apart s out }
        ensures { SomeOf self.now.col.now.fact (Among self.now.col.now (runs_of self.now) s out want (length (list_of self.now.col.now.fact s) + left)) result }
    {
        if self.is_complete(s, want) {
            return Some(s);
        }
        if left == 0 {
            return None;
        }
        let out = self.reach(s, out, want, left)?;
        self.branch(s, out, want, left)
    }

    // The same, for a candidate that fails: every list that contains it has one of the repairs that it lacks. The first of these
    // that a list has is the one with which it is found, so those before it are out.
    #[cycle(branch_test)]
    fn branch(&self, s: Choice, out: Choice, want: Choice, left: usize) -> Option<Choice>
        requires allowed { Allowed self.now.col.now s }
        requires allowed_2 { Allowed self.now.col.now want }
        requires apart { Apart s out }
        requires complete { Complete self.now.col.now (runs_of self.now) s want false }
        requires left_nonzero { 0 < left }
        ensures { SomeOf self.now.col.now.fact (Among self.now.col.now (runs_of self.now) s out want (length (list_of self.now.col.now.fact s) + left)) result }
    {
        let Some(q) = self.lacking(s, out, want) else {
            unreachable!();
        };
        let mut out = out;
        for code in q.codes() {
            if let Some(found) = self.test(s.with_repair(code), out, want, left - 1) {
                return Some(found);
            }
            out = out.with_repair(code);
        }
        None
    }
}
