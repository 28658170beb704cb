// The conflict of a candidate at a place where its fact is missing: repairs of which every working list has one, those
// that contain the candidate and all others (document 01, "A conflict"; source document 000).
ghost use Rattle.std.specs.Prelude.{◌≤◌};
ghost use Rattle.search.specs.Runs.{run_of};
ghost use Rattle.search.specs.Gaps.{LastDelete, ConflictAt, ActionsOf};
ghost use Rattle.search.specs.Searching.{Missing};

use crate::Run;
use choices::Choice;

impl Run<'_> {
    // "Look back from j until the last step that deleted f is met, or the start": the deleting step, counted from 1, or 0
    // for the start.
    fn look_back(&self, s: Choice, j: usize) -> usize
        requires { j ≤ self.now.count }
        ensures { LastDelete self.now.col.now (run_of self.now).step s j result }
    {
        let mut i = j;
        loop {
            if i == 0 {
                break 0;
            }
            if self.col.deletes_with(s, self.action(i - 1)) {
                break i;
            }
            i -= 1;
        }
    }

    // The set of the actions of the steps from `start` on and before `end`, counted from 0. A repair changes an action
    // everywhere it is run, so a step stands for its action.
    fn actions_between(&self, start: usize, end: usize) -> u64
        requires { end ≤ self.now.count }
        ensures { ActionsOf (run_of self.now).step start end result }
    {
        let mut found = 0;
        for i in start..end {
            let a = self.action(i);
            found = facts::with_fact(found, a);
        }
        found
    }

    // "drop the need at j (not for a goal), drop that delete, add f at any step from the deleting one up to j-1", and "a conflict leaves
    // locked needs out" (02, request 6). So it may be empty, and then no list helps: every list that keeps the fact right has one of it.
    pub(crate) fn conflict(&self, s: Choice, j: usize) -> Choice
        requires { Missing self.now.col.now (run_of self.now) s j }
        ensures { ConflictAt self.now.col.now (run_of self.now) s j result }
    {
        let step = self.look_back(s, j);
        // The place of the deleting step; the start is its own place. A goal has no step, and so no need to drop.
        let place = step.saturating_sub(1);
        let needs = self.actions_between(j, (j + 1).min(self.count));
        Choice {
            deletes: self.actions_between(place, step),
            adds: self.actions_between(place, j),
            needs: facts::remove(needs, self.col.locks),
        }
    }
}
