// A test of demand 3: every list of edits has a story, and this one runs. Nothing outside calls it.
ghost use Rattle.session.specs.Calls.{Story};
ghost use Rattle.promises.specs.Replays.{edits_in};

use session::edits::edit_of;
use table::Task;

// Makes the edits one after another, accepted or refused, and gives the task that they make.
pub(crate) fn replay(t: Task, table: &mut [u16], edits: &[u16]) -> Task
    ensures { Story t table.old (edits_in edits.now) result table.new }
{
    let mut task = t;
    let mut left = edits;
    while let [kind, whose, fact, present, rest @ ..] = left {
        let e = edit_of(
            usize::from(*kind),
            usize::from(*whose),
            usize::from(*fact),
            usize::from(*present),
        );
        task = session::edit(task, table, e).unwrap_or_else(|returned| returned.task);
        left = rest;
    }
    task
}
