// The repaired table of a file, and its texts by number.
ghost use Rattle.std.specs.Prelude.{◌≡◌, ◌≤◌};
ghost use Rattle.table.specs.Outcomes.{Outcome, made_of, reply_of};
ghost use Rattle.table.specs.Tasks.{WellFormed};
ghost use Rattle.topddl.specs.Numbered.{numbered_written, Holds};
ghost use Rattle.topddl.specs.Repairing.{Repairs};

use pddlwriter::LONGEST_DOMAIN;
use table::refusals::{Refusal, Returned};
use table::{LIMIT, Task, no_task};

// The task of a file with its list applied: the table that makes every run valid. Or the refusal of the file, or of its solve with the
// task that was read.
pub(crate) fn repaired(input: &[u8]) -> Result<Task, Returned>
    ensures { Repairs input.now (made_of result) }
{
    let task = match taskfile::read(input) {
        Ok(task) => task,
        Err(refusal) => return Err(refusal.returning(no_task())),
    };
    let mut list = [0u16; LIMIT];
    match solve::solve(task, &mut list) {
        Ok(length) => apply::apply(task, &list[..length]),
        Err(refusal) => Err(refusal.returning(task)),
    }
}

// Text 0 is the domain text, text i + 1 the problem text of run i.
fn write_text(task: Task, number: usize, room: &mut [u8]) -> Result<usize, Refusal>
    ensures { ◌≡◌ {A = Outcome} (record { reply = reply_of result; room = room.new }) (numbered_written task number room.old) }
{
    if number == 0 {
        return pddlwriter::write_domain(task, room);
    }
    pddlwriter::write_problem(task, number - 1, room)
}

// How many bytes of the room are the text: never is it too short.
pub(crate) fn whole_text(task: Task, number: usize, room: &mut [u8; LONGEST_DOMAIN]) -> usize
    requires well_formed { WellFormed task }
    requires number_le_many { number ≤ task.runs.many }
    ensures { Holds task number room.old result room.new }
{
    write_text(task, number, room).unwrap()
}
