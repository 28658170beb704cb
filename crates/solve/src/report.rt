// Reading the list off the session table: "Listing joins the rows in order of fact: refusal 9 if a row says 8; else 10 if
// a row says 7 or the lengths sum to more than L; else the joined list" (document 01, "The session table"). The rows are
// summed first and the limit is read afterwards, so that a refusal writes nothing.
ghost use Rattle.std.specs.Prelude.{cond, ◌++◌, ◌≡◌, ◌<◌, ◌≤◌, leb, length, get_or, drop};
ghost use Rattle.table.specs.Join.{join_lists, join_verdicts};
ghost use Rattle.table.specs.Sizes.{max_facts, max_row, all_rows};
ghost use Rattle.table.specs.Tasks.{WellFormed};
ghost use Rattle.solve.specs.Reports.{with_first, sum_of, reply_for};
ghost use Rattle.solve.specs.Solving.{told};
ghost use Rattle.table.specs.Outcomes.{Outcome, reply_of};
ghost use Rattle.rows.specs.Tables.{row_at, verdict_at, repairs_in, Readable};

use rows::copying;
use search::row;
use table::refusals::{Refusal, Why};
use table::{ROW, ROW_PLACES, Task};

// What rows come to: does one say 8, does one say 7, and the sum of the lengths.
#[derive(Clone, Copy)]
pub(crate) struct Sum {
    pub(crate) hopeless: bool,
    pub(crate) over: bool,
    pub(crate) total: usize,
}

impl Sum {
    pub(crate) const NONE: Sum = Sum {
        hopeless: false,
        over: false,
        total: 0,
    };

    // The same with one row more, by its first number.
    pub(crate) fn with_row(self, first: usize) -> Sum
        requires { self.total ≤ all_rows }
        ensures { result ≡ with_first self first }
    {
        Sum {
            hopeless: self.hopeless | (first == row::HOPELESS),
            over: self.over | (first == row::OVER),
            total: self.total + announced(first),
        }
    }

    // What is answered where the rows come to this: 9 if one says 8; else 10 if one says 7 or the sum of the lengths is over the limit; else
    // 11 if the room has fewer places; else the sum, as the list's length.
    #[tactic(auto, unfolding(crate::specs::Reports::reply_for))]
    pub(crate) fn answered(self, limit: usize, places: usize) -> Result<usize, Refusal>
        ensures { reply_of result ≡ reply_for self.hopeless self.over self.total limit places }
    {
        let Sum {
            hopeless,
            over,
            total,
        } = self;
        if hopeless {
            return Err(Why::NoListWorks.at(0));
        }
        if over | (limit < total) {
            return Err(Why::OverTheLimit.at(0));
        }
        if places < total {
            return Err(Why::RoomTooShort.at(0));
        }
        Ok(total)
    }
}

// The i-th number of a fact's row; 0 where the table has no such place.
pub fn number_at(table: &[u16], f: usize, i: usize) -> usize
    ensures { result ≡ get_or (row_at table.now f) i 0 }
{
    if ROW_PLACES <= i || table.len() / ROW_PLACES < f {
        return 0;
    }
    match table.get(ROW_PLACES * f + i) {
        Some(&number) => number as usize,
        None => 0,
    }
}

// How many repairs a row with this first number announces.
pub(crate) fn announced(first: usize) -> usize
    ensures { result ≡ cond (leb first max_row) first 0 }
{
    if first <= ROW { first } else { 0 }
}

// How many repairs the row announces.
#[tactic(auto, unfolding(rows::specs::Tables::repairs_in))]
pub fn repairs_at(table: &[u16], f: usize) -> usize
    ensures { result ≡ repairs_in (row_at table.now f) }
{
    announced(number_at(table, f, 0))
}

// The first number of a fact's row, in a table that has all rows.
fn first_at(table: &[u16], f: usize) -> usize
    requires f_lt_max_facts { f < max_facts }
    requires all_rows_in_bounds { all_rows ≤ length table.now }
    ensures { result ≡ get_or (row_at table.now f) 0 0 }
{
    table[ROW_PLACES * f] as usize
}

fn sum_rows(table: &[u16], facts: usize) -> Sum
    requires facts_le_max_facts { facts ≤ max_facts }
    requires readable { Readable table.now facts }
    ensures { result ≡ sum_of table.now facts }
{
    let mut sum = Sum::NONE;
    for f in 0..facts {
        sum = sum.with_row(first_at(table, f));
    }
    sum
}

// The rows' lists one after another, from the first place on.
fn write_lists(table: &[u16], facts: usize, room: &mut [u16])
    requires facts_le_max_facts { facts ≤ max_facts }
    requires readable { Readable table.now facts }
    requires facts_in_bounds { length (join_lists (verdict_at table.now) facts) ≤ length room.old }
    ensures { room.new ≡
        join_lists (verdict_at table.now) facts ++
        drop (length (join_lists (verdict_at table.now) facts)) room.old }
{
    let mut at = 0;
    for f in 0..facts {
        let count = announced(first_at(table, f));
        copying::copy(table, ROW_PLACES * f + 1, count, room, at);
        at += count;
    }
}

// The verdict that the rows join to, told into lent room.
pub fn report(t: Task, table: &[u16], room: &mut [u16]) -> Result<usize, Refusal>
    requires well_formed { WellFormed t }
    requires readable { Readable table.now t.table.facts }
    ensures { ◌≡◌ {A = Outcome} (record { reply = reply_of result; room = room.new })
        (told (join_verdicts (verdict_at table.now) t.table.facts t.table.limit) room.old) }
{
    let sum = sum_rows(table, t.table.facts);
    let length = sum.answered(t.table.limit, room.len())?;
    write_lists(table, t.table.facts, room);
    Ok(length)
}
