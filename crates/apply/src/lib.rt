// Applying a list of repairs (document 01, "The model and its run"): refusals 12 and 15, else all cells of the list at once.

#![tactic(auto)]

ghost use Rattle.std.specs.Prelude.{◌&&◌, ◌≡◌, ◌-◌, ◌<◌, ltb, leb, length, get_or, MatchOption};
ghost use Rattle.table.specs.Outcomes.{made_of};
ghost use Rattle.table.specs.Tasks.{cells_of};
ghost use Rattle.apply.specs.Applying.{wrong_at, first_wrong, Applies};
ghost use Rattle.change.specs.Kinds.{number_set, one_by_one};

use change::cells;
use table::refusals::{Returned, Why};
use table::repair::Repair;
use table::{Table, Task, formed, permitted};

// Whether the number at an index does not ascend; the first always does.
fn is_not_after(list: &[u16], i: usize) -> bool
    requires { i < length list.now }
    ensures { result ≡ (ltb 0 i && leb (get_or list.now i 0) (get_or list.now (i - 1) 0)) }
{
    0 < i && list[i] <= list[i - 1]
}

// Refusal 15 at an index.
#[tactic(auto, unfolding(crate::specs::Applying::wrong_at))]
fn is_wrong_at(t: Table, list: &[u16], i: usize) -> bool
    requires { i < length list.now }
    ensures { result ≡ wrong_at (cells_of t) list.now i }
{
    is_not_after(list, i) | !permitted::is_permitted(t, list[i] as usize)
}

// "index of the first such", where there is one.
fn first_wrong(t: Table, list: &[u16]) -> Option<usize>
    ensures { MatchOption result (first_wrong (cells_of t) list.now ≡ length list.now) (λ i. (i < length list.now) × (i ≡ first_wrong (cells_of t) list.now)) }
{
    (0..list.len()).find(|&i| is_wrong_at(t, list, i))
}

// The repair of one number: an added effect is then present, a dropped delete or need absent.
#[tactic(auto, unfolding(change::specs::Kinds::number_set))]
fn make_one(t: Table, n: usize) -> Table
    ensures { result ≡ number_set t n }
{
    let Repair { fact, kind, action } = Repair::of(n);
    cells::set_of_kind(t, kind, action, fact, kind == Repair::ADD_EFFECT)
}

// The repairs of a list, one after another; of a permitted list this is all of them at once, since each has a cell of its own.
fn make_all(t: Table, list: &[u16]) -> Table
    ensures { result ≡ one_by_one t list.now (length list.now) }
{
    let mut after = t;
    for &n in list {
        after = make_one(after, n as usize);
    }
    after
}

// Applies the list, or gives the refusal and the task as it was.
pub fn apply(t: Task, list: &[u16]) -> Result<Task, Returned>
    ensures { Applies t list.now (made_of result) }
{
    if !formed::is_formed(t) {
        return Err(Why::NotWellFormed.at(0).returning(t));
    }
    if let Some(wrong) = first_wrong(t.table, list) {
        return Err(Why::ListNotPermitted.at(wrong).returning(t));
    }
    let table = make_all(t.table, list);
    Ok(Task { table, ..t })
}
