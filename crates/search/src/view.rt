// One fact's column of a task, and the fullest choice of a column's repairs.
ghost use Rattle.std.specs.Prelude.{cond, ◌≡◌, ◌≤◌, get_or};
ghost use Rattle.facts.specs.Sets.{joined, only, width};
ghost use Rattle.table.specs.Sizes.{max_actions};
ghost use Rattle.search.specs.Views.{Gathers, Shows, Fullest};

use crate::Column;
use choices::Choice;
use table::Task;

fn with_if(m: u64, a: usize, wanted: bool) -> u64
    ensures { result ≡ cond wanted (joined m (only a)) m }
{
    if wanted { facts::with_fact(m, a) } else { m }
}

// The actions, or the runs, whose set has fact f.
fn having<const N: usize>(sets: &[u64; N], f: usize) -> u64
    requires { N ≤ width }
    ensures { Gathers (λ i. get_or sets.now i 0) f result }
{
    let mut m = 0;
    for (i, set) in sets.iter().enumerate() {
        m = with_if(m, i, facts::contains(*set, f));
    }
    m
}

// The column of fact f.
pub fn column_of(t: Task, f: usize) -> Column
    ensures { (result.fact ≡ f) × Shows t result }
{
    Column {
        fact: f,
        actions: t.table.actions,
        needs: having(&t.table.needs, f),
        adds: having(&t.table.adds, f),
        deletes: having(&t.table.deletes, f),
        locks: having(&t.table.locks, f),
        runs: t.runs.many,
        starts: having(&t.runs.starts, f),
        goals: having(&t.runs.goals, f),
    }
}

impl Column {
    // Every permitted repair of the column's fact, so no locked need: if these do not keep it right, nothing does.
    pub(crate) fn fullest(&self) -> Choice
        requires { self.now.actions ≤ max_actions }
        ensures { Fullest self.now result }
    {
        let all = facts::below_mask(self.actions);
        Choice {
            deletes: facts::overlap(all, self.deletes),
            adds: facts::remove(all, self.adds),
            needs: facts::overlap(all, facts::remove(self.needs, self.locks)),
        }
    }
}
