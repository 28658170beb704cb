// Writing the task file (document 01, "The task file"; 02, requests 1 and 6).

#![tactic(auto)]

mod file;
mod sections;

ghost use Rattle.std.specs.Prelude.{◌≡◌};
ghost use Rattle.table.specs.Outcomes.{Outcome, reply_of};
ghost use Rattle.taskwriter.specs.Writing.{written};

use file::whole;
use room::give;
use table::Task;
use table::formed::is_formed;
use table::refusals::{Refusal, Why};

// The task's file into the lent room, from its first place on and nothing beside; or 12, or 11, and nothing written.
pub fn write(task: Task, room: &mut [u8]) -> Result<usize, Refusal>
    ensures { ◌≡◌ {A = Outcome} (record { reply = reply_of result; room = room.new }) (written task room.old) }
{
    if !is_formed(task) {
        return Err(Why::NotWellFormed.at(0));
    }
    give(|room| whole(task, room), room)
}
