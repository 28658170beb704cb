// A fact's row of the session table (document 01, "The session table").
ghost use Rattle.std.specs.Prelude.{◌∷◌, ◌≡◌, ◌<◌, ◌≤◌, length, get_or, replicate};
ghost use Rattle.table.specs.Answer.{found};
ghost use Rattle.table.specs.Sizes.{max_facts, max_row, per_fact, unused};
ghost use Rattle.choices.specs.Choices.{code_number, list_of};
ghost use Rattle.search.specs.Columns.{courses_in, KeepsIn, ColumnFormed};
ghost use Rattle.search.specs.Runs.{runs_of};
ghost use Rattle.search.specs.Rows.{row_of, row_with, RowFor};

use crate::{Column, Lent};
use choices::Choice;
use table::repair::Repair;
use table::{ALL_STEPS, ROW_PLACES, RUNS, UNUSED};

// First numbers that announce no list.
pub const OVER: usize = 7;

pub const HOPELESS: usize = 8;

// A row without repairs.
fn bare_row(first: u16) -> [u16; ROW_PLACES]
    ensures { result ≡ (first ∷ replicate max_row unused) }
{
    let mut row = [UNUSED; ROW_PLACES];
    row[0] = first;
    row
}

// One repair more in the row.
fn push(row: &mut [u16; ROW_PLACES], number: u16)
    requires { get_or row.old 0 0 < max_row }
    ensures { row.new ≡ row_with row.old number }
{
    let at = row[0] as usize + 1;
    row[at] = number;
    row[0] += 1;
}

// The number of the fact's repair that has this code.
fn number_of(f: usize, code: usize) -> usize
    requires f_lt_max_facts { f < max_facts }
    requires code_lt_per_fact { code < per_fact }
    ensures { result ≡ code_number f code }
{
    Repair::new(f, code / Repair::PER_KIND, code % Repair::PER_KIND).number()
}

// The row of a choice whose list it has room for: its repairs in order.
fn row_of_choice(f: usize, s: Choice) -> [u16; ROW_PLACES]
    requires f_lt_max_facts { f < max_facts }
    requires s_len_bound { length (list_of f s) ≤ max_row }
    ensures { result ≡ row_of (found (list_of f s)) }
{
    let mut row = [UNUSED; ROW_PLACES];
    row[0] = 0;
    for code in s.codes() {
        push(&mut row, number_of(f, code) as u16);
    }
    row
}

// The row of a column's fact: the least list if it has at most six; else 8 if not even the fullest choice keeps the fact right,
// and 7 if that does.
fn row_in(lent: &Lent) -> [u16; ROW_PLACES]
    requires { lent.now.col.now.fact < max_facts }
    ensures { RowFor (KeepsIn lent.now.col.now (runs_of lent.now)) result }
{
    if let Some(s) = lent.shortest() {
        return row_of_choice(lent.col.fact, s);
    }
    if lent.is_right(lent.col.fullest()) {
        bare_row(OVER as u16)
    } else {
        bare_row(HOPELESS as u16)
    }
}

pub fn row(col: &Column, counts: &[usize; RUNS], steps: &[u8; ALL_STEPS]) -> [u16; ROW_PLACES]
    requires column_formed { ColumnFormed col.now counts.now steps.now }
    requires col_bound { col.now.fact < max_facts }
    ensures { RowFor (KeepsIn col.now (courses_in col.now counts.now steps.now)) result }
{
    row_in(&Lent { col, counts, steps })
}
