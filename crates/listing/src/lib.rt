// The listing of an input: its text, written into lent room (document 01, "The listing"; 02, request 1).

#![tactic(auto)]

ghost use Rattle.std.specs.Prelude.{◌≡◌, ◌≤◌, length};
ghost use Rattle.table.specs.Sizes.{max_limit, max_runs};
ghost use Rattle.table.specs.Outcomes.{Outcome, given, reply_of};
ghost use Rattle.table.specs.Refusals.{accepted};
ghost use Rattle.table.specs.Tasks.{WellFormed};
ghost use Rattle.text.specs.Text.{check_in, text_of, longest_text};
ghost use Rattle.listing.specs.Listing.{ChecksRuns, ListsInto};

use room::give;
use runcheck::Checked;
use table::refusals::Refusal;
use table::{LIMIT, RUNS, Reply, Task, TaskReply};
use text::lines::whole;

// Room that every listing fits in.
pub const LONGEST_TEXT: usize = 986;

// The code's number is the definitions'.
pub fn longest() -> usize
    ensures { result ≡ longest_text }
{
    LONGEST_TEXT
}

// The check of each run, made once for both passes over the text.
fn check_runs(task: Task) -> [Checked; RUNS]
    requires { task.runs.many ≤ max_runs }
    ensures { ChecksRuns task result }
{
    let mut checks = [Checked::from(runcheck::check_run(task, 0)); RUNS];
    for run in 1..task.runs.many {
        checks[run] = Checked::from(runcheck::check_run(task, run));
    }
    checks
}

// The text into the lent room, from its first place on and nothing beside; or 11, and nothing written.
fn tell(
    read: TaskReply,
    checks: [Checked; RUNS],
    solved: Reply,
    list: &[u16],
    room: &mut [u8],
) -> Result<usize, Refusal>
    requires well_formed { read.number ≡ accepted → WellFormed read.task }
    requires length_in_bounds { solved.length ≤ length list.now }
    requires list_len_bound { length list.now ≤ max_limit }
    ensures { ◌≡◌ {A = Outcome} (record { reply = reply_of result; room = room.new })
        (given (text_of read (check_in checks) (record { reply = solved; room = list.now })) room.old) }
{
    give(|room| whole(read, checks, solved, list, room), room)
}

// The listing of any bytes. A refused file's task is of zeros, and nothing of it is shown.
pub fn listing(input: &[u8], room: &mut [u8]) -> Result<usize, Refusal>
    ensures { ListsInto input.now room.old (record { reply = reply_of result; room = room.new }) }
{
    let read = TaskReply::from(taskfile::read(input));
    let checks = check_runs(read.task);
    let mut list = [0u16; LIMIT];
    let solved = Reply::from(solve::solve(read.task, &mut list));
    tell(read, checks, solved, &list, room)
}
