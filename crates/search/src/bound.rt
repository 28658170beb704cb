// How far the lists with a candidate reach: sets of repairs that share none, each lacking to the candidate with the earlier ones
// put in, cost a repair each.
ghost use Rattle.std.specs.Prelude.{◌+◌, length};
ghost use Rattle.choices.specs.Choices.{list_of, Apart};
ghost use Rattle.search.specs.Runs.{runs_of};
ghost use Rattle.search.specs.Searching.{Allowed, Reached};

use crate::Lent;
use choices::Choice;
use table::repair::Repair;

impl Lent<'_> {
    // All that is out for the lists that are looked for, contain the candidate and have at most `left` repairs more; nothing where
    // it is sure that there is no such list. Where as many sets as repairs are left share no repair, a list has one of each and
    // nothing beside them: what is in none of them is out too, and if all of them together are not enough there is no list.
    pub(crate) fn reach(&self, s: Choice, out: Choice, want: Choice, left: usize) -> Option<Choice>
        requires allowed { Allowed self.now.col.now want }
        requires apart { Apart s out }
        ensures { Reached self.now.col.now (runs_of self.now) s out want (length (list_of self.now.col.now.fact s) + left) result }
    {
        let mut passed = s;
        for n in 0..left {
            let Some(next) = self.lacking(passed, out, want) else {
                return Some(out);
            };
            if next.next_in(0).is_none() {
                return None;
            }
            passed = passed.joined(next);
        }
        if !self.is_complete(passed, want) {
            return None;
        }
        let rest = Choice::below(Repair::PER_FACT).without(passed);
        Some(out.joined(rest))
    }
}
