// Rows joined as they come, in order of fact, without a session table.
ghost use Rattle.std.specs.Prelude.{◌++◌, ◌≡◌, ◌≤◌, length, get_or, take, drop};
ghost use Rattle.search.specs.Rows.{row_hopeless, verdict_in};
ghost use Rattle.table.specs.Outcomes.{reply_of};
ghost use Rattle.table.specs.Sizes.{max_limit, all_rows};
ghost use Rattle.solve.specs.Reports.{reply_for};
ghost use Rattle.solve.specs.Joins.{Joins};

use crate::report::{self, Sum};
use rows::copying;
use table::refusals::Refusal;
use table::{LIMIT, ROW_PLACES};

// What the rows so far come to, and the joined list as long as an answer can be.
#[derive(Clone, Copy)]
pub(crate) struct Tally {
    pub(crate) sum: Sum,
    pub(crate) list: [u16; LIMIT],
}

impl Tally {
    // The same with one row more.
    pub(crate) fn with_row(self, row: [u16; ROW_PLACES]) -> Tally
        requires total_le_all_rows { self.sum.total ≤ all_rows }
        requires row_bound { get_or row 0 0 ≤ row_hopeless }
        ensures { Joins self (verdict_in row) result }
    {
        let first = row[0] as usize;
        let at = self.sum.total;
        let sum = self.sum.with_row(first);
        let mut list = self.list;
        if LIMIT < sum.total {
            return Tally { sum, list };
        }
        copying::copy(&row, 1, report::announced(first), &mut list, at);
        Tally { sum, list }
    }

    // What the rows come to, answered into lent room.
    pub(crate) fn tell(self, limit: usize, room: &mut [u16]) -> Result<usize, Refusal>
        requires { limit ≤ max_limit }
        ensures { (reply_of result ≡ reply_for self.sum.hopeless self.sum.over self.sum.total limit (length room.old)) ×
            (room.new ≡ take (reply_of result).length self.list ++ drop (reply_of result).length room.old) }
    {
        let total = self.sum.answered(limit, room.len())?;
        copying::copy(&self.list, 0, total, room, 0);
        Ok(total)
    }
}
