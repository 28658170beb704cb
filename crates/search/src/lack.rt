// What a candidate lacks: repairs of which every list that is looked for has one, and the candidate none. A list that is looked
// for keeps the fact right in every run, has none of the repairs that are out, and has one of those that are wanted.
ghost use Rattle.std.specs.Prelude.{◌≡◌, ◌+◌, ◌<◌};
ghost use Rattle.search.specs.Runs.{run_of, runs_of};
ghost use Rattle.search.specs.Searching.{Allowed, Rightness, Complete, LackingBelow, Lacking};

use crate::{Lent, Run};
use choices::Choice;

impl<'a> Lent<'a> {
    fn run(&self, number: usize) -> Run<'a>
        requires { number < self.now.col.now.runs }
        ensures column { result.col.now ≡ self.now.col.now }
        ensures run { run_of result ≡ (runs_of self.now).course number }
    {
        Run {
            col: self.col,
            steps: self.steps,
            number,
            count: self.counts[number],
        }
    }

    // Does the candidate keep the fact right in every run?
    pub(crate) fn is_right(&self, s: Choice) -> bool
        ensures { Rightness self.now.col.now (runs_of self.now) s result }
    {
        for number in 0..self.col.runs {
            let run = self.run(number);
            if run.first_gap(s) <= run.count {
                return false;
            }
        }
        true
    }

    // And has it one of the repairs that are wanted?
    pub(crate) fn is_complete(&self, s: Choice, want: Choice) -> bool
        ensures { Complete self.now.col.now (runs_of self.now) s want result }
    {
        s.shares(want) && self.is_right(s)
    }

    // What is lacking so far, with one run more: the fewer of that and the conflict of a place of the run where the fact is missing.
    fn with_run(
        &self,
        number: usize,
        s: Choice,
        out: Choice,
        want: Choice,
        best: Option<Choice>,
    ) -> Option<Choice>
        requires number_lt_runs { number < self.now.col.now.runs }
        requires lacking_below { LackingBelow self.now.col.now (runs_of self.now) s out want number best }
        ensures { LackingBelow self.now.col.now (runs_of self.now) s out want (number + 1) result }
    {
        let run = self.run(number);
        let j = run.narrowest_gap(s, out);
        if run.count < j {
            return best;
        }
        let q = run.conflict(s, j).without(out);
        if let Some(fewest) = best {
            if fewest.size() < q.size() {
                return best;
            }
        }
        Some(q)
    }

    // Repairs that the candidate lacks one of, if it lacks any: those that are wanted, or the conflict of a place where the fact is
    // missing, whichever are fewest.
    pub(crate) fn lacking(&self, s: Choice, out: Choice, want: Choice) -> Option<Choice>
        requires { Allowed self.now.col.now want }
        ensures { Lacking self.now.col.now (runs_of self.now) s out want result }
    {
        let mut best = if s.shares(want) {
            None
        } else {
            Some(want.without(out))
        };
        for number in 0..self.col.runs {
            best = self.with_run(number, s, out, want, best);
        }
        best
    }
}
