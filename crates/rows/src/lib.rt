// Writing rows: one fact's afresh, and all of them (document 01, "The session table"). What stands after the rows is left
// alone.

#![tactic(auto)]

pub mod copying;
pub mod wrong;

ghost use Rattle.std.specs.Prelude.{◌≡◌, ◌<◌, ◌≤◌, length};
ghost use Rattle.table.specs.Sizes.{max_facts, all_rows};
ghost use Rattle.table.specs.Tasks.{WellFormed};
ghost use Rattle.rows.specs.Tables.{RowPut, Rewritten, empty_row, EmptyRows, Emptied, Filled};

use table::{FACTS, ROW_PLACES, Task, UNUSED};

// A row into its fact's place.
fn put(f: usize, row: [u16; ROW_PLACES], table: &mut [u16])
    requires f_lt_max_facts { f < max_facts }
    requires all_rows_in_bounds { all_rows ≤ length table.old }
    ensures { RowPut (λ r. r ≡ row) f table.old table.new }
{
    copying::copy(&row, 0, ROW_PLACES, table, ROW_PLACES * f);
}

// The row of one fact, written afresh.
pub fn put_row(t: Task, f: usize, table: &mut [u16])
    requires well_formed { WellFormed t }
    requires f_lt_facts { f < t.table.facts }
    requires all_rows_in_bounds { all_rows ≤ length table.old }
    ensures { Rewritten t f table.old table.new }
{
    let col = search::view::column_of(t, f);
    let row = search::row::row(&col, &t.runs.counts, &t.runs.steps);
    put(f, row, table);
}

// The row of a fact that is right without repairs.
fn put_empty(f: usize, table: &mut [u16])
    requires f_lt_max_facts { f < max_facts }
    requires all_rows_in_bounds { all_rows ≤ length table.old }
    ensures { RowPut (λ row. row ≡ empty_row) f table.old table.new }
{
    let mut empty = [UNUSED; ROW_PLACES];
    empty[0] = 0;
    put(f, empty, table);
}

// Every row the one without repairs.
pub fn empty_rows(table: &mut [u16])
    requires { all_rows ≤ length table.old }
    ensures { Emptied table.old table.new }
{
    for f in 0..FACTS {
        put_empty(f, table);
    }
}

// "Opening fills all rows": those of the wrong facts, in a table where every row is empty. Only these are searched for a list.
pub fn fill(t: Task, table: &mut [u16])
    requires well_formed { WellFormed t }
    requires all_rows_in_bounds { all_rows ≤ length table.old }
    requires empty_rows { EmptyRows table.old }
    ensures { Filled t table.old table.new }
{
    let counts = t.runs.counts;
    let steps = t.runs.steps;
    for f in facts::each(wrong::wrong_facts(t)) {
        let col = search::view::column_of(t, f);
        let row = search::row::row(&col, &counts, &steps);
        put(f, row, table);
    }
}
