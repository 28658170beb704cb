// Whether a number names a permitted repair (document 01, "The model and its run"; 02, request 6).
ghost use Rattle.std.specs.Prelude.{◌≡◌, ◌<◌};
ghost use Rattle.table.specs.Sizes.{max_actions};
ghost use Rattle.table.specs.Repairs.{permitted, repairable};
ghost use Rattle.table.specs.Tasks.{cells_of};

use crate::Table;
use crate::repair::Repair;

// A delete must be present, an add absent, a need present and not locked.
fn is_repairable(t: Table, fact: usize, kind: usize, action: usize) -> bool
    requires { action < max_actions }
    ensures { result ≡ repairable (cells_of t) fact kind action }
{
    match kind {
        Repair::DROP_DELETE => facts::contains(t.deletes[action], fact),
        Repair::ADD_EFFECT => !facts::contains(t.adds[action], fact),
        _ => facts::contains(facts::remove(t.needs[action], t.locks[action]), fact),
    }
}

// The repair's cell is as it must be, and both the fact and the action are in the task.
#[tactic(auto, unfolding(crate::specs::Repairs::permitted, crate::specs::Repairs::permits, crate::specs::Tasks::cells_of))]
pub fn is_permitted(t: Table, n: usize) -> bool
    ensures { result ≡ permitted (cells_of t) n }
{
    let Repair { fact, kind, action } = Repair::of(n);
    (fact < t.facts) & (action < t.actions) & is_repairable(t, fact, kind, action)
}
