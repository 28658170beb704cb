// The edit session: opening, editing and listing (document 01, "The session table").

#![tactic(auto)]

pub mod edits;
pub mod form;

ghost use Rattle.std.specs.Prelude.{◌≡◌};
ghost use Rattle.table.specs.Outcomes.{Outcome, reply_of, made_of};
ghost use Rattle.session.specs.Calls.{Opens, Edits, listed};

use change::{Edit, editing};
use solve::report;
use table::refusals::{Refusal, Returned, Why};
use table::{SESSION_PLACES, Task, formed};

// Opens a session: 12, 13 for another length, else "Opening fills all rows".
pub fn open(t: Task, table: &mut [u16]) -> Result<usize, Refusal>
    ensures { Opens t table.old (reply_of result) table.new }
{
    if !formed::is_formed(t) {
        return Err(Why::NotWellFormed.at(0));
    }
    if table.len() != SESSION_PLACES {
        // A longer table is refused too.
        return Err(Why::NotASession.at(0));
    }
    // Before the task is handed on: so the compiler sees that it needs no copy of it (docs/DECISIONS.md, "Stack").
    rows::empty_rows(table);
    rows::fill(t, table);
    Ok(SESSION_PLACES)
}

// One edit: 12, 13 for another length, 14, 18, else the edited task with the fact's row written afresh; it costs one row.
pub fn edit(t: Task, table: &mut [u16], e: Edit) -> Result<Task, Returned>
    ensures { Edits t table.old e (made_of result) table.new }
{
    if !formed::is_formed(t) {
        return Err(Why::NotWellFormed.at(0).returning(t));
    }
    if table.len() != SESSION_PLACES {
        return Err(Why::NotASession.at(0).returning(t));
    }
    if !editing::is_inside(t, e) {
        return Err(Why::NotThere.at(0).returning(t));
    }
    if editing::leaves_lock(t.table, e) {
        return Err(Why::LockWithoutNeed.at(0).returning(t));
    }
    let task = editing::set_cell(t, e);
    let fact = editing::cell_fact(e);
    rows::put_row(task, fact, table);
    Ok(task)
}

// Lists the session: 12, 13 for a table that is not in form, else the rows joined: 9, 10, 11, or the list.
pub fn list(t: Task, table: &[u16], room: &mut [u16]) -> Result<usize, Refusal>
    ensures { ◌≡◌ {A = Outcome} (record { reply = reply_of result; room = room.new }) (listed t table.now room.old) }
{
    if !formed::is_formed(t) {
        return Err(Why::NotWellFormed.at(0));
    }
    if !form::is_in_form(t, table) {
        return Err(Why::NotASession.at(0));
    }
    report::report(t, table, room)
}
