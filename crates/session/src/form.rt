// When a session table is in form for a task, decided as document 01, "The session table", words it: each test is the
// definition of its name in specs/Sessions.
ghost use Rattle.std.specs.Prelude.{◌≡◌, ◌<◌};
ghost use Rattle.rows.specs.Tables.{row_at};
ghost use Rattle.table.specs.Counting.{every_below};
ghost use Rattle.table.specs.Sizes.{max_facts, max_row};
ghost use Rattle.table.specs.Tasks.{cells_of};
ghost use Rattle.session.specs.Sessions.{repair_in_form, place_in_form, row_in_form, in_form};

use search::row;
use solve::report;
use table::repair::Repair;
use table::{FACTS, ROW, SESSION_PLACES, Table, Task, UNUSED, permitted};

// "permitted, ascending repairs of its own fact"
#[tactic(auto, unfolding(crate::specs::Sessions::repair_in_form))]
fn is_repair_in_form(t: Table, table: &[u16], f: usize, i: usize) -> bool
    requires { i < max_row }
    ensures { result ≡ repair_in_form (cells_of t) f (row_at table.now f) i }
{
    let before = report::number_at(table, f, i);
    let n = report::number_at(table, f, i + 1);
    permitted::is_permitted(t, n) & (Repair::of(n).fact == f) & ((i == 0) | (before < n))
}

// The i-th place: one of the row's repairs, or "65535 elsewhere".
#[tactic(auto, unfolding(crate::specs::Sessions::place_in_form))]
fn is_place_in_form(t: Table, table: &[u16], f: usize, i: usize) -> bool
    requires { i < max_row }
    ensures { result ≡ place_in_form (cells_of t) f (row_at table.now f) i }
{
    if i < report::repairs_at(table, f) {
        is_repair_in_form(t, table, f, i)
    } else {
        report::number_at(table, f, i + 1) == UNUSED as usize
    }
}

fn are_places_in_form(t: Table, table: &[u16], f: usize) -> bool
    ensures { result ≡ every_below (place_in_form (cells_of t) f (row_at table.now f)) max_row }
{
    let mut good = true;
    for i in 0..ROW {
        good = good & is_place_in_form(t, table, f, i);
    }
    good
}

// "a first number 0 to 8, .. rows from F up are empty"
#[tactic(auto, unfolding(crate::specs::Sessions::row_in_form, table::specs::Tasks::cells_of))]
fn is_row_in_form(t: Table, table: &[u16], f: usize) -> bool
    ensures { result ≡ row_in_form (cells_of t) f (row_at table.now f) }
{
    let facts = t.facts;
    let first = report::number_at(table, f, 0);
    (first <= row::HOPELESS) & ((f < facts) | (first == 0)) & are_places_in_form(t, table, f)
}

fn are_rows_in_form(t: Table, table: &[u16]) -> bool
    ensures { result ≡ every_below (λ f. row_in_form (cells_of t) f (row_at table.now f)) max_facts }
{
    let mut good = true;
    for f in 0..FACTS {
        good = good & is_row_in_form(t, table, f);
    }
    good
}

// Whether the table is in form, for any task and any table whatever.
#[tactic(auto, unfolding(crate::specs::Sessions::in_form))]
pub fn is_in_form(t: Task, table: &[u16]) -> bool
    ensures { result ≡ in_form t table.now }
{
    table.len() == SESSION_PLACES && are_rows_in_form(t.table, table)
}
