// One cell of a table: set by the kind of repair that concerns it, as applying a list does; and looked at.
ghost use Rattle.std.specs.Prelude.{◌≡◌, get_or};
ghost use Rattle.facts.specs.Sets.{has};
ghost use Rattle.change.specs.Kinds.{kind_set};

use table::Table;
use table::cells::set_in;
use table::repair::Repair;

// The table with one fact of an action present or absent in the deletes, adds or needs, by the kind.
#[tactic(auto, unfolding(crate::specs::Kinds::kind_set))]
pub fn set_of_kind(t: Table, kind: usize, action: usize, fact: usize, present: bool) -> Table
    ensures { result ≡ kind_set t kind action fact present }
{
    match kind {
        Repair::DROP_DELETE => Table {
            deletes: set_in(t.deletes, action, fact, present),
            ..t
        },
        Repair::ADD_EFFECT => Table {
            adds: set_in(t.adds, action, fact, present),
            ..t
        },
        _ => Table {
            needs: set_in(t.needs, action, fact, present),
            ..t
        },
    }
}

// Whether the fact is in the set of an action; of an action that is none nothing is.
#[tactic(auto, using(facts::proofs::Laws::has_empty))]
pub fn is_set(sets: &[u64], action: usize, fact: usize) -> bool
    ensures { result ≡ has (get_or sets.now action 0) fact }
{
    match sets.get(action) {
        Some(set) => facts::contains(*set, fact),
        None => false,
    }
}
